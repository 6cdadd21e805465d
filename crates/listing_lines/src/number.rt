// A float as the whole number that a line shows.
ghost use Rattle.std.specs.Prelude.{◌≡◌};
ghost use Rattle.listing_lines.specs.Number.{whole_part};

// x without its fraction; 0 where that is no number of 64 bits.
pub fn whole_part(x: f64) -> u64
    ensures { result ≡ whole_part x }
{
    if x > -1.0 {
        if x < 18446744073709551616.0 {
            return std::num::truncating_f64_to_u64(x);
        }
    }
    0
}
