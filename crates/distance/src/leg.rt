// The leg from one place to the next: its distance and its travel time together.
ghost use Rattle.std.specs.Prelude.{◌≡◌};
ghost use Rattle.distance.specs.Lookup.{drive_f};

use crate::matrix::{get, travel_time};

#[derive(Clone, Copy)]
pub struct Leg {
    pub distance: f64,
    pub time: f64,
}

// Whoever drives from one place to another reads the leg here: there is none where it is closed.
pub fn leg_between(
    distances: &[f64],
    times: &[f64],
    size: usize,
    from: usize,
    to: usize,
) -> Option<Leg>
    ensures { result ≡ drive_f distances.now times.now size from to }
{
    let distance = get(distances, size, from, to)?;
    let time = travel_time(distances, times, size, from, to)?;
    Some(Leg { distance, time })
}
