// A leg as the lists have it: its two numbers, and for a closed one in both what stands for it, here `shut`.
ghost use Rattle.std.specs.Prelude.{◌≡◌, false, get_or};
ghost use Rattle.std.specs.Float.{inf};
ghost use Rattle.definitions.specs.Sheet.{time_table};
ghost use Rattle.distance.specs.Lookup.{drive_f};
ghost use Rattle.cut_stops.specs.Stops.{listed_as, pair_f};

use distance::leg::{Leg, leg_between};
use distance::matrix::is_closed;
use whole::infinity;

// By what is read of the leg.
fn listed_leg(drive: Option<Leg>, shut: f64) -> Leg
    ensures { result ≡ listed_as shut drive }
{
    match drive {
        Some(leg) => leg,
        None => Leg {
            distance: shut,
            time: shut,
        },
    }
}

// By the numbers of both tables.
fn listed_pair(distance: f64, time: f64, shut: f64) -> Leg
    ensures { result ≡ listed_as shut (pair_f distance time) }
{
    if is_closed(distance) {
        return Leg {
            distance: shut,
            time: shut,
        };
    }
    if is_closed(time) {
        return Leg {
            distance: shut,
            time: shut,
        };
    }
    Leg { distance, time }
}

// Number i of a table, and infinity where there is none.
fn number_in(table: &[f64], i: usize) -> f64
    ensures { result ≡ get_or table.now i (inf false) }
{
    if table.len() <= i {
        return infinity();
    }
    table[i]
}

// By number i of both tables.
fn listed_in(distances: &[f64], times: &[f64], i: usize, shut: f64) -> Leg
    ensures { let by = time_table distances.now times.now in
        result ≡ listed_as shut (pair_f (get_or distances.now i (inf false)) (get_or by i (inf false))) }
{
    let distance = number_in(distances, i);
    if times.len() == 0 {
        return listed_pair(distance, distance, shut);
    }
    listed_pair(distance, number_in(times, i), shut)
}

// The leg from one place to another. Inside tables whose index cannot wrap the place in both is worked out once.
pub fn listed_between(
    distances: &[f64],
    times: &[f64],
    size: usize,
    from: usize,
    to: usize,
    shut: f64,
) -> Leg
    ensures { result ≡ listed_as shut (drive_f distances.now times.now size from to) }
{
    if 0x1_0000_0000 < size {
        return listed_leg(leg_between(distances, times, size, from, to), shut);
    }
    if size <= from {
        return listed_pair(infinity(), infinity(), shut);
    }
    if size <= to {
        return listed_pair(infinity(), infinity(), shut);
    }
    listed_in(distances, times, from * size + to, shut)
}
