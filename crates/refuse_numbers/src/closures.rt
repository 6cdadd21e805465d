// Closed legs, by what a leg table holds for one: refusals 22 and 23.
ghost use Rattle.std.specs.Prelude.{◌≡◌};
ghost use Rattle.basics.specs.Lists.{any};
ghost use Rattle.distance.specs.Lookup.{is_closed_f};
ghost use Rattle.refuse_numbers.specs.ClosedLegs.{apart_f, disagree_f};

use distance::matrix::is_closed;

// One of the two is closed and the other is not.
fn closed_apart(x: f64, y: f64) -> bool
    ensures { result ≡ apart_f x y }
{
    is_closed(x) != is_closed(y)
}

// Whether a leg is closed.
pub fn any_closed(distances: &[f64]) -> bool
    ensures { result ≡ any is_closed_f distances.now }
{
    distances.iter().any(|&leg| is_closed(leg))
}

// Whether distance and time disagree on closure, leg by leg; an empty time table agrees.
pub fn closures_differ(distances: &[f64], times: &[f64]) -> bool
    ensures { result ≡ disagree_f distances.now times.now }
{
    distances
        .iter()
        .zip(times)
        .any(|(&distance, &time)| closed_apart(distance, time))
}
