// The improvers on an accepted sheet: its bytes are read into arrays, and the runs given, in bytes too, are improved.
ghost use Rattle.definitions.specs.Bytes.{numbers_of};
ghost use Rattle.sheet_loaded.specs.Held.{Found};
ghost use Rattle.bytes_improve.specs.Improve.{runs, SheetReversed, SheetEliminated};

use call_improvers::eliminating::{Elimination, eliminate_routes};
use call_improvers::reversing::{Reversed, two_opt_improve};
use cut_table::cells::MOST_CUT;
use sheet_loaded::load::load;
use sheet_read::read::Contents;

// The run given with stretches of its calls reversed, on the sheet that the bytes are.
pub fn reverse_sheet(bytes: &[u8], found: Contents, run: &[u8], improved: &mut [u8]) -> Reversed
    requires { Found bytes.now found }
    ensures { let old = improved.old in
        let new = improved.new in
        SheetReversed bytes.now (numbers_of run.now) old result new }
{
    let mut distances = [0.0; 4096];
    let mut times = [0.0; 4096];
    let mut tour = [0usize; MOST_CUT];
    let l = load(bytes, found, &mut distances, &mut times, &mut tour);
    let customers = l.customers;
    two_opt_improve(
        l.head,
        customers,
        l.head.places,
        &distances[..l.distance_count],
        &times[..l.time_count],
        run,
        &mut *improved,
    )
}

// The runs given with each that can be emptied into the others emptied, on the sheet that the bytes are.
pub fn eliminate_sheet(
    bytes: &[u8],
    found: Contents,
    calls: &[u8],
    ends: &[u8],
    left_calls: &mut [u8],
    left_ends: &mut [u8],
) -> Elimination
    requires { Found bytes.now found }
    ensures { let given = runs (numbers_of calls.now) (numbers_of ends.now) in
        let old = runs left_calls.old left_ends.old in
        let new = runs left_calls.new left_ends.new in
        SheetEliminated bytes.now given old result new }
{
    let mut distances = [0.0; 4096];
    let mut times = [0.0; 4096];
    let mut tour = [0usize; MOST_CUT];
    let l = load(bytes, found, &mut distances, &mut times, &mut tour);
    let customers = l.customers;
    eliminate_routes(
        l.head,
        customers,
        l.head.places,
        &distances[..l.distance_count],
        &times[..l.time_count],
        calls,
        ends,
        &mut *left_calls,
        &mut *left_ends,
    )
}
