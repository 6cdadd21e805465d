// The mark on an accepted sheet: its bytes are read into arrays, and the runs given are marked against the plan of its
// tour, with the breaks of the plan where the placement puts them.
ghost use Rattle.definitions.specs.Bytes.{numbers_of};
ghost use Rattle.placements.specs.Chosen.{placement_of};
ghost use Rattle.sheet_loaded.specs.Held.{Found};
ghost use Rattle.bytes_mark.specs.Mark.{given_runs, SheetMarked};

use call_cuts::marking::Marking;
use cut_table::cells::MOST_CUT;
use models::placement::Placement;
use sheet_loaded::load::load;
use sheet_read::read::Contents;

// The marker's answer for the runs given, in bytes; `breaks` has a break place for each run, from 1, or 0 for none.
pub fn mark_sheet(
    bytes: &[u8],
    found: Contents,
    calls: &[u8],
    ends: &[u8],
    breaks: &[u8],
    placement: Placement,
) -> Marking
    requires { Found bytes.now found }
    ensures { let given = given_runs (numbers_of calls.now) (numbers_of ends.now)
        (numbers_of breaks.now) in
        SheetMarked (placement_of placement) bytes.now given result }
{
    let mut distances = [0.0; 4096];
    let mut times = [0.0; 4096];
    let mut tour = [0usize; MOST_CUT];
    let l = load(bytes, found, &mut distances, &mut times, &mut tour);
    let customers = l.customers;
    call_cuts::marking::mark(
        l.head,
        customers,
        l.head.places,
        &distances[..l.distance_count],
        &times[..l.time_count],
        &tour[..l.calls],
        calls,
        ends,
        breaks,
        placement,
    )
}
