// Lists too short, behind refusal 13, and the length of a leg table, behind 14. Here `places` may be any number.
ghost use Rattle.std.specs.Prelude.{◌≡◌, ◌*◌, eqb};
ghost use Rattle.definitions.specs.Room as Room;
ghost use Rattle.refuse_lists.specs.Needs.{results_short, too_short_of};

use crate::kind::{Kind, Results};

// Some list is shorter than it has to be.
pub fn short(needs: &[usize], rooms: &[usize]) -> bool
    ensures { result ≡ Room.short needs.now rooms.now }
{
    rooms.len() < needs.len() || needs.iter().zip(rooms).any(|(need, room)| room < need)
}

// A result list is shorter than the call needs for what it is lent.
pub fn results_short(
    results: Results,
    tour: &[usize],
    calls: &[u8],
    ends: &[u8],
    rooms: &[usize],
) -> bool
    ensures { result ≡ results_short results tour.now calls.now ends.now rooms.now }
{
    let t = tour.len();
    let n = calls.len();
    match results {
        Results::Nothing => false,
        Results::Cut => {
            let needs = [t, t, t];
            short(&needs, rooms)
        }
        Results::Visits => {
            let needs = [n, n + 4];
            short(&needs, rooms)
        }
        Results::Run => {
            let needs = [n];
            short(&needs, rooms)
        }
        Results::RunList => {
            let needs = [n, ends.len()];
            short(&needs, rooms)
        }
    }
}

// Fewer customers than places, a short result list, or for the marker fewer break places than runs.
pub fn too_short(
    places: usize,
    customers: usize,
    kind: Kind,
    tour: &[usize],
    calls: &[u8],
    ends: &[u8],
    breaks: &[u8],
    rooms: &[usize],
) -> bool
    ensures { result ≡ too_short_of kind places customers tour.now calls.now ends.now
        breaks.now rooms.now }
{
    let results = kind.results;
    let behind = breaks.len() < ends.len();
    (customers < places)
        | (results_short(results, tour, calls, ends, rooms) | (kind.marks & behind))
}

// From 2 ^ 32 places on the square is above every length.
pub fn is_square(n: usize, places: usize) -> bool
    ensures { result ≡ eqb n (places * places) }
{
    if 0xFFFF_FFFF < places {
        return false;
    }
    n == places * places
}
