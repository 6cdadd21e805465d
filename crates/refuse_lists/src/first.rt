// The first of several tests that holds, by its number.
ghost use Rattle.std.specs.Prelude.{◌≡◌};
ghost use Rattle.basics.specs.Options.{value_or};
ghost use Rattle.definitions.specs.Refusal.{first_fit};
ghost use Rattle.refuse_lists.specs.First.{in_order};

// 0 where none does. The numbers and the tests stand in one order.
pub fn first_fit(numbers: &[u32], fits: &[bool]) -> u32
    ensures { result ≡ value_or 0 (first_fit (in_order numbers.now fits.now)) }
{
    for (&number, &fits) in numbers.iter().zip(fits) {
        if fits {
            return number;
        }
    }
    0
}
