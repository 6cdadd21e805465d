// The mark of a cutting, given as text, on the sheet that bytes are. The sheet is told first, then the text, then the
// runs.
ghost use Rattle.std.specs.Prelude.{◌≡◌, List, ℕ, ◌≤◌, length};
ghost use Rattle.whole.specs.Whole.{fl};
ghost use Rattle.definitions.specs.Sheet.{Sheet};
ghost use Rattle.definitions.specs.Drop.{split_tw};
ghost use Rattle.definitions.specs.Reader as Reader;
ghost use Rattle.listing_lines.specs.Put.{Put};
ghost use Rattle.mark_lines.specs.Verdicts.{verdict_text_f};
ghost use Rattle.sheet_loaded.specs.Held.{InMemory, Held, Found};
ghost use Rattle.texts.specs.CuttingText as Text;
ghost use Rattle.texts.specs.MarkText.{cutting_text, mark_text};
ghost use Rattle.texts.proofs.ReadRuns.{EndsIn};

use byte_lists::narrow;
use call_cuts::marking::Marking;
use cut_table::cells::MOST_CUT;
use cutting_text::read::{CuttingRead, read_cutting};
use mark_lines::bad::bad_line;
use mark_lines::refusal::{runs_refused, sheet_refused};
use mark_lines::verdict::verdict_text;
use marker::verdict::Verdict;
use models::customer::Customer;
use models::head::Head;
use models::placement::Placement;
use sheet_loaded::load::load;
use sheet_plan::cut::cut_held;
use sheet_read::read::{Contents, Reading, read};

// A verdict on runs of these calls, beside the plan of the tour on the sheet that is held.
fn verdict_held(
    out: &mut [u8],
    tour: &[usize],
    head: Head,
    customers: [Customer; 64],
    distances: &[f64],
    times: &[f64],
    calls: &[u8],
    v: Verdict,
) -> usize
    requires in_bounds { 4096 ≤ length out.old }
    requires held { Held tour.now head customers distances.now times.now }
    ensures text { let visited = tour.now in
        ((s : Sheet) → InMemory s visited head customers distances.now times.now
        → let x = split_tw s visited in
        let text = verdict_text_f visited x.served x.dropped (fl x.cost) calls.now v in
        Put 0 text out.old out.new result) }
    ensures short { result ≤ length out.old }
{
    let mut served = [0usize; MOST_CUT];
    let mut ends = [0usize; MOST_CUT];
    let mut dropped = [0usize; MOST_CUT];
    let cut = cut_held(
        tour,
        head,
        customers,
        distances,
        times,
        Placement::Clock,
        &mut served,
        &mut ends,
        &mut dropped,
    );
    verdict_text(
        &mut *out,
        0,
        tour,
        &served[..cut.served],
        &dropped[..cut.dropped],
        cut.cost,
        calls,
        v,
    )
}

// The mark of runs on the sheet that is held: refused, or the verdict.
fn held_text(
    out: &mut [u8],
    tour: &[usize],
    head: Head,
    customers: [Customer; 64],
    distances: &[f64],
    times: &[f64],
    calls: &[u8],
    ends: &[u8],
    places: &[u8],
) -> usize
    requires in_bounds { 4096 ≤ length out.old }
    requires held { Held tour.now head customers distances.now times.now }
    ensures text { let visited = tour.now in
        let given = Text.runs calls.now ends.now places.now in
        ((s : Sheet) → InMemory s visited head customers distances.now times.now
        → Put 0 (cutting_text s visited given) out.old out.new result) }
    ensures short { result ≤ length out.old }
{
    match call_cuts::marking::mark(
        head,
        customers,
        head.places,
        distances,
        times,
        tour,
        calls,
        ends,
        places,
        Placement::Clock,
    ) {
        Marking::Refused(number) => runs_refused(&mut *out, 0, number),
        Marking::Verdict(v) => verdict_held(
            &mut *out, tour, head, customers, distances, times, calls, v,
        ),
    }
}

// The same on the sheet of accepted words, with each list in bytes.
fn sheet_text(
    out: &mut [u8],
    bytes: &[u8],
    found: Contents,
    calls: &[u8],
    ends: &[u8],
    places: &[u8],
) -> usize
    requires in_bounds { 4096 ≤ length out.old }
    requires found { Found bytes.now found }
    ensures text { let given = Text.runs calls.now ends.now places.now in
        ((s : Sheet) (tour : List ℕ) → Reader.read bytes.now ≡ Reader.sheet s tour
        → Put 0 (cutting_text s tour given) out.old out.new result) }
    ensures short { result ≤ length out.old }
{
    let mut distances = [0.0; 4096];
    let mut times = [0.0; 4096];
    let mut tour = [0usize; MOST_CUT];
    let l = load(bytes, found, &mut distances, &mut times, &mut tour);
    let customers = l.customers;
    held_text(
        &mut *out,
        &tour[..l.calls],
        l.head,
        customers,
        &distances[..l.distance_count],
        &times[..l.time_count],
        calls,
        ends,
        places,
    )
}

// The same with the run ends of a text, which are at most the number of its calls. Where that is more than 128, the
// runs are refused whatever their ends are; else each end is a byte.
fn runs_text(
    out: &mut [u8],
    bytes: &[u8],
    found: Contents,
    calls: &[u8],
    ends: &[usize],
    places: &[u8],
) -> usize
    requires in_bounds { 4096 ≤ length out.old }
    requires found { Found bytes.now found }
    requires ends_in { EndsIn calls.now ends.now × (length ends.now ≤ 16385) }
    ensures text { let given = Text.runs calls.now ends.now places.now in
        ((s : Sheet) (tour : List ℕ) → Reader.read bytes.now ≡ Reader.sheet s tour
        → Put 0 (cutting_text s tour given) out.old out.new result) }
    ensures short { result ≤ length out.old }
{
    let n = ends.len();
    let mut end_bytes = [0u8; 16385];
    narrow(ends, n, &mut end_bytes);
    sheet_text(&mut *out, bytes, found, calls, &end_bytes[..n], places)
}

// The text of a cutting, marked on the sheet of accepted words.
fn marked_text(out: &mut [u8], bytes: &[u8], found: Contents, cutting: &[u8]) -> usize
    requires in_bounds { (4096 ≤ length out.old) × (length cutting.now ≤ 16384) }
    requires found { Found bytes.now found }
    ensures text { let text = mark_text bytes.now cutting.now in
        Put 0 text out.old out.new result }
    ensures short { result ≤ length out.old }
{
    let mut calls = [0u8; 16385];
    let mut ends = [0usize; 16385];
    let mut places = [0u8; 16385];
    match read_cutting(cutting, &mut calls, &mut ends, &mut places) {
        CuttingRead::Runs(n, runs) => runs_text(
            &mut *out,
            bytes,
            found,
            &calls[..n],
            &ends[..runs],
            &places[..runs],
        ),
        CuttingRead::Bad(line, column, m) => {
            bad_line(&mut *out, 0, line as u64, column as u64, m)
        }
    }
}

// For any bytes of a sheet, and any of a cutting that are not too many.
pub fn text(out: &mut [u8], bytes: &[u8], cutting: &[u8]) -> usize
    requires { (4096 ≤ length out.old) × (length cutting.now ≤ 16384) }
    ensures text { let text = mark_text bytes.now cutting.now in
        Put 0 text out.old out.new result }
    ensures short { result ≤ length out.old }
{
    match read(bytes) {
        Reading::Sheet(found) => marked_text(&mut *out, bytes, found, cutting),
        Reading::Refused(number, word) => { sheet_refused(&mut *out, 0, number, word as u64) }
    }
}
