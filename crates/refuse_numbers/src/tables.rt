// The two leg tables row by row: row one of both, then row two of both, and so on.
ghost use Rattle.std.specs.Prelude.{◌*◌, ◌≡◌, ◌||◌, take};
ghost use Rattle.basics.specs.Lists.{any};
ghost use Rattle.definitions.specs.Domain.{is_leg};
ghost use Rattle.definitions.specs.Refusals.{unfit};
ghost use Rattle.whole.specs.Value.{value};
ghost use Rattle.refuse_numbers.specs.Rows.{rows_find};

use crate::numbers::unfit_leg;
use models::count::fewer;

// Whether one of the numbers is out of range.
pub fn bad_numbers(numbers: &[f64]) -> bool
    ensures { result ≡ any (unfit value is_leg) numbers.now }
{
    numbers.iter().any(|&x| unfit_leg(x))
}

// The first k rows of both tables, `size` numbers to a row: a row of the distances and the same row of the times, then
// the next row of both. A table that ends has no further rows, and an empty time table has none. What stands behind the
// k rows is not looked at: a number out of range is found exactly where one stands in the first k rows of either table.
pub fn bad_rows(distances: &[f64], times: &[f64], size: usize, k: usize) -> bool
    ensures value { result ≡ rows_find (unfit value is_leg) size k distances.now times.now }
    ensures result_value { let bad = any (unfit value is_leg) in
        result ≡ bad (take (k * size) distances.now) || bad (take (k * size) times.now) }
{
    let mut d = distances;
    let mut t = times;
    for _ in 0..k {
        let m = fewer(size, d.len());
        let n = fewer(size, t.len());
        if bad_numbers(&d[0..m]) | bad_numbers(&t[0..n]) {
            return true;
        }
        d = &d[m..];
        t = &t[n..];
    }
    false
}

// All rows of tables with `size` rows.
pub fn bad_tables(distances: &[f64], times: &[f64], size: usize) -> bool
    ensures { result ≡ rows_find (unfit value is_leg) size size distances.now times.now }
{
    bad_rows(distances, times, size, size)
}
