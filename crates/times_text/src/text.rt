// The timelines of a cutting's runs, given as text, on the sheet that bytes are. The sheet is told first, then the
// text, then the runs. The longest text has 128 calls, each in a run of its own, and some 185,600 bytes.
ghost use Rattle.std.specs.Prelude.{◌≡◌, List, ℕ, ◌≤◌, length};
ghost use Rattle.definitions.specs.Sheet.{Sheet};
ghost use Rattle.definitions.specs.Reader as Reader;
ghost use Rattle.listing_lines.specs.Put.{Put};
ghost use Rattle.sheet_loaded.specs.Held.{InMemory, Held, Found};
ghost use Rattle.texts.specs.CuttingText as Text;
ghost use Rattle.texts.specs.TimesText.{runs_times, times_text};
ghost use Rattle.texts.proofs.ReadRuns.{EndsIn};

use crate::runs::runs_text;
use byte_lists::{narrow, widen};
use cut_table::cells::MOST_CUT;
use cutting_text::read::{CuttingRead, read_cutting};
use mark_lines::bad::bad_line;
use mark_lines::refusal::{runs_refused, sheet_refused};
use models::customer::Customer;
use models::domain::MOST_CALLS;
use models::head::Head;
use refuse_order::by_call::refuse_marking;
use sheet_loaded::load::load;
use sheet_read::read::{Contents, Reading, read};

// The timelines of runs on the sheet that is held: refused as their mark is, or told.
fn held_text(
    out: &mut [u8],
    tour: &[usize],
    head: Head,
    customers: [Customer; 64],
    distances: &[f64],
    times: &[f64],
    calls: &[u8],
    ends: &[u8],
    places: &[u8],
) -> usize
    requires in_bounds { 196608 ≤ length out.old }
    requires held { Held tour.now head customers distances.now times.now }
    ensures text { let visited = tour.now in
        let given = Text.runs calls.now ends.now places.now in
        ((s : Sheet) → InMemory s visited head customers distances.now times.now
        → Put 0 (runs_times s visited given) out.old out.new result) }
    ensures short { result ≤ length out.old }
{
    let number = refuse_marking(
        head,
        customers,
        head.places,
        distances,
        times,
        tour,
        calls,
        ends,
        places,
    );
    if number != 0 {
        return runs_refused(&mut *out, 0, number);
    }
    let mut call_numbers = [0usize; MOST_CALLS];
    let many = widen(calls, &mut call_numbers);
    let mut end_numbers = [0usize; MOST_CALLS];
    let runs = widen(ends, &mut end_numbers);
    let mut place_numbers = [0usize; MOST_CALLS];
    let placed = widen(places, &mut place_numbers);
    runs_text(
        &mut *out,
        &call_numbers[..many],
        &end_numbers[..runs],
        &place_numbers[..placed],
        customers,
        distances,
        times,
        head,
    )
}

// The timelines of runs on the sheet of accepted words, with each list in bytes.
fn sheet_text(
    out: &mut [u8],
    bytes: &[u8],
    found: Contents,
    calls: &[u8],
    ends: &[u8],
    places: &[u8],
) -> usize
    requires in_bounds { 196608 ≤ length out.old }
    requires found { Found bytes.now found }
    ensures text { let given = Text.runs calls.now ends.now places.now in
        ((s : Sheet) (tour : List ℕ) → Reader.read bytes.now ≡ Reader.sheet s tour
        → Put 0 (runs_times s tour given) out.old out.new result) }
    ensures short { result ≤ length out.old }
{
    let mut distances = [0.0; 4096];
    let mut times = [0.0; 4096];
    let mut tour = [0usize; MOST_CUT];
    let l = load(bytes, found, &mut distances, &mut times, &mut tour);
    let customers = l.customers;
    held_text(
        &mut *out,
        &tour[..l.calls],
        l.head,
        customers,
        &distances[..l.distance_count],
        &times[..l.time_count],
        calls,
        ends,
        places,
    )
}

// The same with the run ends of a text, which are at most the number of its calls. Where that is more than 128, the
// runs are refused whatever their ends are; else each end is a byte.
fn byte_text(
    out: &mut [u8],
    bytes: &[u8],
    found: Contents,
    calls: &[u8],
    ends: &[usize],
    places: &[u8],
) -> usize
    requires in_bounds { 196608 ≤ length out.old }
    requires found { Found bytes.now found }
    requires ends_in { EndsIn calls.now ends.now × (length ends.now ≤ 16385) }
    ensures text { let given = Text.runs calls.now ends.now places.now in
        ((s : Sheet) (tour : List ℕ) → Reader.read bytes.now ≡ Reader.sheet s tour
        → Put 0 (runs_times s tour given) out.old out.new result) }
    ensures short { result ≤ length out.old }
{
    let n = ends.len();
    let mut end_bytes = [0u8; 16385];
    narrow(ends, n, &mut end_bytes);
    sheet_text(&mut *out, bytes, found, calls, &end_bytes[..n], places)
}

// The text of a cutting, told on the sheet of accepted words.
fn told_text(out: &mut [u8], bytes: &[u8], found: Contents, cutting: &[u8]) -> usize
    requires in_bounds { (196608 ≤ length out.old) × (length cutting.now ≤ 16384) }
    requires found { Found bytes.now found }
    ensures text { let text = times_text bytes.now cutting.now in
        Put 0 text out.old out.new result }
    ensures short { result ≤ length out.old }
{
    let mut calls = [0u8; 16385];
    let mut ends = [0usize; 16385];
    let mut places = [0u8; 16385];
    match read_cutting(cutting, &mut calls, &mut ends, &mut places) {
        CuttingRead::Runs(n, runs) => byte_text(
            &mut *out,
            bytes,
            found,
            &calls[..n],
            &ends[..runs],
            &places[..runs],
        ),
        CuttingRead::Bad(line, column, m) => {
            bad_line(&mut *out, 0, line as u64, column as u64, m)
        }
    }
}

// For any bytes of a sheet, and any of a cutting that are not too many.
pub fn text(out: &mut [u8], bytes: &[u8], cutting: &[u8]) -> usize
    requires { (196608 ≤ length out.old) × (length cutting.now ≤ 16384) }
    ensures text { let text = times_text bytes.now cutting.now in
        Put 0 text out.old out.new result }
    ensures short { result ≤ length out.old }
{
    match read(bytes) {
        Reading::Sheet(found) => told_text(&mut *out, bytes, found, cutting),
        Reading::Refused(number, word) => { sheet_refused(&mut *out, 0, number, word as u64) }
    }
}
