// What the listing prints for the bytes of a sheet, written at the front of a lent buffer.
ghost use Rattle.std.specs.Prelude.{◌≤◌, length};
ghost use Rattle.definitions.specs.Sheet.{Sheet};
ghost use Rattle.definitions.specs.Drop.{split_tw};
ghost use Rattle.definitions.specs.Listing.{plan_text, listing};
ghost use Rattle.listing_lines.specs.Put.{Put};
ghost use Rattle.sheet_loaded.specs.Held.{InMemory, Held, Found};

use cut_table::cells::MOST_CUT;
use listing_lines::lines::refusal_line;
use listing_lines::plan::plan_text;
use models::customer::Customer;
use models::head::Head;
use models::placement::Placement;
use sheet_loaded::load::load;
use sheet_plan::plan::plan_held;
use sheet_read::read::{Contents, Reading, read};

// The plan of the tour on the sheet that is held, with the breaks where the clock puts them.
fn held_text(
    out: &mut [u8],
    tour: &[usize],
    head: Head,
    customers: [Customer; 64],
    distances: &[f64],
    times: &[f64],
) -> usize
    requires in_bounds { 16384 ≤ length out.old }
    requires held { Held tour.now head customers distances.now times.now }
    ensures text { let visited = tour.now in
        ((s : Sheet) → InMemory s visited head customers distances.now times.now
        → Put 0 (plan_text s visited (split_tw s visited)) out.old out.new result) }
    ensures short { result ≤ length out.old }
{
    let mut served = [0usize; MOST_CUT];
    let mut ends = [0usize; MOST_CUT];
    let mut places = [0usize; MOST_CUT];
    let mut starts = [0.0; MOST_CUT];
    let mut dropped = [0usize; MOST_CUT];
    let cut = plan_held(
        tour,
        head,
        customers,
        distances,
        times,
        Placement::Clock,
        &mut served,
        &mut ends,
        &mut places,
        &mut starts,
        &mut dropped,
    );
    plan_text(
        &mut *out,
        0,
        tour,
        &served[..cut.served],
        &ends[..cut.runs],
        &places[..cut.runs],
        &starts[..cut.runs],
        &dropped[..cut.dropped],
        cut.distance,
        cut.cost,
    )
}

// The plan of accepted words.
fn sheet_text(out: &mut [u8], bytes: &[u8], found: Contents) -> usize
    requires in_bounds { 16384 ≤ length out.old }
    requires found { Found bytes.now found }
    ensures text { Put 0 (listing bytes.now) out.old out.new result }
    ensures short { result ≤ length out.old }
{
    let mut distances = [0.0; 4096];
    let mut times = [0.0; 4096];
    let mut tour = [0usize; MOST_CUT];
    let l = load(bytes, found, &mut distances, &mut times, &mut tour);
    let customers = l.customers;
    held_text(
        &mut *out,
        &tour[..l.calls],
        l.head,
        customers,
        &distances[..l.distance_count],
        &times[..l.time_count],
    )
}

// For any bytes: the plan of the sheet that they are, or why they are refused.
pub fn text(out: &mut [u8], bytes: &[u8]) -> usize
    requires { 16384 ≤ length out.old }
    ensures text { Put 0 (listing bytes.now) out.old out.new result }
    ensures short { result ≤ length out.old }
{
    match read(bytes) {
        Reading::Sheet(found) => sheet_text(&mut *out, bytes, found),
        Reading::Refused(number, word) => { refusal_line(&mut *out, 0, number as u64, word as u64) }
    }
}
