// What an improver reckons once of a table of distances: the least gain that counts (gain_floor of
// local_search/mod.rs), from the largest distance (scale of distance/matrix.rs), and whether the legs between some
// calls are as long both ways (symmetric, there too, asks that of all places).
ghost use Rattle.std.specs.Prelude.{◌≡◌, ◌+◌, ◌<◌, length, get_or, drop};
ghost use Rattle.distance.specs.Lookup.{number_f};
ghost use Rattle.whole.specs.Gain.{gain_floor_f};
ghost use Rattle.improve_base.specs.Leg.{AllOpen};
ghost use Rattle.improve_base.specs.Gain.{largest_f, scale_f, legs_equal_f, all_equal_f, symmetric_f};

use crate::leg::open_leg;
use whole::larger;

// The largest of the distances from number k on and of what was found before.
pub fn largest_from(most: f64, distances: &[f64], k: usize) -> f64
    ensures { result ≡ largest_f most (drop k distances.now) }
{
    // A slice, since `skip` goes through all that it leaves out.
    distances[k.min(distances.len())..]
        .iter()
        .fold(most, |found, distance| larger(found, *distance))
}

// The largest distance, and 0 for an empty table. Four distances at a time, each against a largest of its own, so that
// none waits for the one before it.
pub fn scale(distances: &[f64]) -> f64
    ensures { result ≡ scale_f distances.now }
{
    let mut first = 0.0;
    let mut second = 0.0;
    let mut third = 0.0;
    let mut fourth = 0.0;
    let (fours, rest) = distances.as_chunks::<4>();
    for [a, b, c, d] in fours {
        first = larger(first, *a);
        second = larger(second, *b);
        third = larger(third, *c);
        fourth = larger(fourth, *d);
    }
    let most = larger(larger(first, second), larger(third, fourth));
    largest_from(most, rest, 0)
}

// The least gain that counts: a part in 10^12 of the largest distance, since a smaller one may be rounding.
pub fn gain_floor(scale: f64) -> f64
    ensures { result ≡ gain_floor_f scale }
{
    1e-12 * scale
}

// Whether the way back is as long as the way there: their difference is neither above nor below 0.
pub fn legs_equal(there: f64, back: f64) -> bool
    ensures { result ≡ legs_equal_f there back }
{
    let d = there - back;
    if 0.0 < d {
        return false;
    }
    !(d < 0.0)
}

// The same between call number i and each call after it.
pub fn call_symmetric(calls: &[usize], distances: &[f64], size: usize, i: usize) -> bool
    requires { (i < length calls.now) × AllOpen distances.now }
    ensures { let leg = number_f distances.now size in
        result ≡ all_equal_f leg (get_or calls.now i 0) (drop (i + 1) calls.now) }
{
    let one = calls[i];
    for other in &calls[i + 1..] {
        if !legs_equal(
            open_leg(distances, size, one, *other),
            open_leg(distances, size, *other, one),
        ) {
            return false;
        }
    }
    true
}

// The same between any two of these calls.
pub fn symmetric(calls: &[usize], distances: &[f64], size: usize) -> bool
    requires { AllOpen distances.now }
    ensures { result ≡ symmetric_f (number_f distances.now size) calls.now }
{
    for i in 0..calls.len() {
        if !call_symmetric(calls, distances, size, i) {
            return false;
        }
    }
    true
}
