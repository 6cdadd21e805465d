// Refusal 21: a repeated customer. A note of each customer says whether it has been called.
ghost use Rattle.std.specs.Prelude.{◌≡◌, true, false, get_or, set};
ghost use Rattle.refuse_lists.specs.Called.{none_called, called_twice};

pub fn is_called(called: &[bool], c: usize) -> bool
    ensures { result ≡ get_or called.now c false }
{
    called.get(c).copied().unwrap_or(false)
}

// A number above those of the customers is not noted.
pub fn note_call(called: &mut [bool], c: usize)
    ensures { called.new ≡ set called.old c true }
{
    if c < called.len() {
        called[c] = true;
    }
}

// A customer twice in a tour. Each call is looked at once, however long the tour is.
pub fn repeats(tour: &[usize]) -> bool
    ensures { result ≡ called_twice none_called tour.now }
{
    let mut called = [false; 64];
    for &c in tour {
        if is_called(&called, c) {
            return true;
        }
        note_call(&mut called, c);
    }
    false
}
