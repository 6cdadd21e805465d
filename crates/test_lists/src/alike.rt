// Whether a recorded answer is what is made of the run list.
ghost use Rattle.std.specs.Prelude.{◌≡◌, false, ◌≤◌, length};
ghost use Rattle.cut_theory.specs.Tab.{most_cut};
ghost use Rattle.definitions.specs.Domain.{most_calls};
ghost use Rattle.definitions.specs.Reader as Reader;
ghost use Rattle.definitions.specs.Refusals.{ends_fall};
ghost use Rattle.cut_stops.specs.Stops.{Below64};
ghost use Rattle.sheet_loaded.specs.Held.{Found};
ghost use Rattle.test_runs.specs.Along.{Short};
ghost use Rattle.test_runs.specs.Runs.{given_in};
ghost use Rattle.test_lists.specs.Answers.{Fits, list_alike, sheet_alike, calls_alike, runs_alike};

use crate::cut::cut_text;
use crate::given::{is_counted, list_end, write_numbers};
use cut_table::cells::MOST_CUT;
use models::domain::MOST_CALLS;
use refuse_lists::runs::ends_fall;
use sheet_loaded::load::{Loaded, load};
use sheet_read::read::{Contents, Reading, read};
use test_runs::runs::runs_text;

// Whether the recorded text, from its start to its end, is that of a sheet that is held, these calls and run ends.
fn text_alike(
    calls: &[usize],
    ends: &[usize],
    recorded: &[u8],
    tour: &[usize],
    held: Loaded,
    distances: &[f64],
    times: &[f64],
) -> bool
    requires fits { Fits calls.now ends.now recorded.now }
    requires calls_value { ends_fall 0 ends.now (length calls.now) ≡ false }
    requires tour_len_bound { (length tour.now ≤ most_cut) × Below64 tour.now }
    ensures { let G = given_in held distances.now times.now in
        let tour = tour.now in
        result ≡ list_alike G tour calls.now ends.now recorded.now }
{
    let mut end = runs_text(recorded, calls, ends, held, distances, times);
    end = cut_text(recorded, end, tour, held, distances, times);
    end == recorded.len()
}

// The same of calls and run ends in bytes: where the ends fall, they have no answer.
fn list_alike(
    calls: &[u8],
    ends: &[u8],
    recorded: &[u8],
    tour: &[usize],
    held: Loaded,
    distances: &[f64],
    times: &[f64],
) -> bool
    requires fits { Fits calls.now ends.now recorded.now }
    requires tour_len_bound { (length tour.now ≤ most_cut) × Below64 tour.now }
    ensures { let G = given_in held distances.now times.now in
        let tour = tour.now in
        result ≡ list_alike G tour calls.now ends.now recorded.now }
{
    if ends_fall(ends, calls.len()) {
        return false;
    }
    let mut call_numbers = [0usize; MOST_CALLS];
    write_numbers(calls, &mut call_numbers);
    let mut end_numbers = [0usize; MOST_CALLS];
    write_numbers(ends, &mut end_numbers);
    text_alike(
        &call_numbers[..calls.len()],
        &end_numbers[..ends.len()],
        recorded,
        tour,
        held,
        distances,
        times,
    )
}

// The same of an accepted sheet.
fn accepted_alike(sheet: &[u8], found: Contents, calls: &[u8], ends: &[u8], recorded: &[u8]) -> bool
    requires found { Found sheet.now found }
    requires fits { Fits calls.now ends.now recorded.now }
    ensures { let read = Reader.read sheet.now in
        result ≡ sheet_alike read calls.now ends.now recorded.now }
{
    let mut distances = [0.0; 4096];
    let mut times = [0.0; 4096];
    let mut tour = [0usize; MOST_CUT];
    let held = load(sheet, found, &mut distances, &mut times, &mut tour);
    list_alike(
        calls,
        ends,
        recorded,
        &tour[..held.calls],
        held,
        &distances[..held.distance_count],
        &times[..held.time_count],
    )
}

// The same of any sheet: a refused one has no answer.
fn sheet_alike(sheet: &[u8], calls: &[u8], ends: &[u8], recorded: &[u8]) -> bool
    requires { Fits calls.now ends.now recorded.now }
    ensures { let read = Reader.read sheet.now in
        result ≡ sheet_alike read calls.now ends.now recorded.now }
{
    match read(sheet) {
        Reading::Refused(_, _) => false,
        Reading::Sheet(found) => accepted_alike(sheet, found, calls, ends, recorded),
    }
}

// The same of what stands behind the run ends: with too many calls, or where it ends before them, it has no answer.
fn calls_alike(ends: &[u8], rest: &[u8], recorded: &[u8]) -> bool
    requires { (length ends.now ≤ most_calls) × Short recorded.now }
    ensures { result ≡ calls_alike ends.now rest.now recorded.now }
{
    if !is_counted(rest) {
        return false;
    }
    let end = list_end(rest);
    sheet_alike(&rest[end..], &rest[1..end], ends, recorded)
}

// The same of a question: with too many run ends, or where it ends before them, it has no answer.
pub fn runs_alike(question: &[u8], recorded: &[u8]) -> bool
    requires { Short recorded.now }
    ensures { result ≡ runs_alike question.now recorded.now }
{
    if !is_counted(question) {
        return false;
    }
    let end = list_end(question);
    calls_alike(&question[1..end], &question[end..], recorded)
}
