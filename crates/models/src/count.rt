// Counts of records and of calls.
ghost use Rattle.std.specs.Prelude.{◌≡◌, min};

// The smaller of two counts.
pub fn fewer(a: usize, b: usize) -> usize
    ensures { result ≡ min a b }
{
    a.min(b)
}
