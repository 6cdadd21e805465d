// Verdicts in words. Each function gives the place after what it wrote, and asks for room for the longest: its words,
// and 21 bytes for each number.
ghost use Rattle.std.specs.Prelude.{◌≡◌, ℕ, ◌+◌, ◌-◌, ◌*◌, ◌≤◌, List, ◌++◌, Float, length, drop};
ghost use Rattle.definitions.specs.Listing as Listing;
ghost use Rattle.definitions.specs.Listing.{spaced};
ghost use Rattle.listing_lines.specs.Number.{whole_part};
ghost use Rattle.listing_lines.specs.Put.{Put};
ghost use Rattle.marker.specs.Figures.{number_in};
ghost use Rattle.texts.specs.MarkText.{figure, next_text, call_text};
ghost use Rattle.mark_lines.specs.Verdicts.{words_f, drops_f, verdict_text_f};

use listing_lines::number::whole_part;
use listing_lines::plan::drop_lines;
use listing_lines::text::{numbered, spaced, word};
use marker::verdict::Verdict;
use models::byte::number_of;

// The call number k of the cutting, from 0, or that it has ended.
fn next_call(out: &mut [u8], at: usize, calls: &[u8], k: usize) -> usize
    requires { at + 21 ≤ length out.old }
    ensures text { Put at (next_text (drop k calls.now)) out.old out.new result }
    ensures short { result ≤ at + 21 }
{
    if k < calls.len() {
        return spaced(&mut *out, at, number_of(calls[k]) as u64);
    }
    word(&mut *out, at, b" none")
}

// The same of the calls that the planner serves.
fn next_served(out: &mut [u8], at: usize, served: &[usize], k: usize) -> usize
    requires { at + 21 ≤ length out.old }
    ensures text { Put at (next_text (drop k served.now)) out.old out.new result }
    ensures short { result ≤ at + 21 }
{
    if k < served.len() {
        return spaced(&mut *out, at, served[k] as u64);
    }
    word(&mut *out, at, b" none")
}

// A position, from 1, as an index.
fn index_of(position: usize) -> usize
    ensures { result ≡ position - 1 }
{
    position.saturating_sub(1)
}

// Other calls, from this position on, from 1.
fn other_words(out: &mut [u8], at: usize, position: usize, calls: &[u8], served: &[usize]) -> usize
    requires { at + 103 ≤ length out.old }
    ensures text { let given = next_text (drop (position - 1) calls.now) in
        let planned = next_text (drop (position - 1) served.now) in
        let first = figure "other calls at" position ++ Listing.text ":" ++ given in
        let text = first ++ Listing.text " where the planner serves" ++ planned in
        Put at text out.old out.new result }
    ensures short { result ≤ at + 103 }
{
    let k = index_of(position);
    let mut end = numbered(&mut *out, at, b"other calls at", position as u64);
    end = word(&mut *out, end, b":");
    end = next_call(&mut *out, end, calls, k);
    end = word(&mut *out, end, b" where the planner serves");
    next_served(&mut *out, end, served, k)
}

// A run, and two figures behind words.
fn run_words(
    out: &mut [u8],
    at: usize,
    run: usize,
    what: &[u8],
    a: u64,
    than: &[u8],
    b: u64,
) -> usize
    requires { at + (66 + length what.now + length than.now) ≤ length out.old }
    ensures text { let text = figure "run" run ++ (what.now ++ spaced a) ++ (than.now ++ spaced b) in
        Put at text out.old out.new result }
    ensures short { result ≤ at + (66 + length what.now + length than.now) }
{
    let mut end = numbered(&mut *out, at, b"run", run as u64);
    end = numbered(&mut *out, end, what, a);
    numbered(&mut *out, end, than, b)
}

// A load over what the vehicle holds, in one measure.
fn load_words(
    out: &mut [u8],
    at: usize,
    run: usize,
    load: u64,
    capacity: u32,
    measure: &[u8],
) -> usize
    requires { at + (81 + length measure.now) ≤ length out.old }
    ensures text { let text = figure "run" run ++ figure " overloaded:" load ++ figure " of" capacity ++ measure.now in
        Put at text out.old out.new result }
    ensures short { result ≤ at + (81 + length measure.now) }
{
    let end = run_words(
        &mut *out,
        at,
        run,
        b" overloaded:",
        load,
        b" of",
        capacity as u64,
    );
    word(&mut *out, end, measure)
}

// A call of a run.
fn call_words(out: &mut [u8], at: usize, run: usize, place: usize, customer: usize) -> usize
    requires { at + 80 ≤ length out.old }
    ensures text { Put at (call_text run place customer) out.old out.new result }
    ensures short { result ≤ at + 80 }
{
    let mut end = numbered(&mut *out, at, b"run", run as u64);
    end = numbered(&mut *out, end, b" call", place as u64);
    numbered(&mut *out, end, b" customer", customer as u64)
}

// A break that starts too late.
fn late_break(
    out: &mut [u8],
    at: usize,
    run: usize,
    place: usize,
    customer: usize,
    start: f64,
    latest: f64,
) -> usize
    requires { at + 160 ≤ length out.old }
    ensures text { let times = figure ": break could start at" (whole_part start) in
        let text = call_text run place customer ++ times ++ figure ", latest" (whole_part latest) in
        Put at text out.old out.new result }
    ensures short { result ≤ at + 160 }
{
    let mut end = call_words(&mut *out, at, run, place, customer);
    end = numbered(&mut *out, end, b": break could start at", whole_part(start));
    numbered(&mut *out, end, b", latest", whole_part(latest))
}

// A window that is missed.
fn missed_window(
    out: &mut [u8],
    at: usize,
    run: usize,
    place: usize,
    customer: usize,
    readiness: f64,
    due: f64,
) -> usize
    requires { at + 160 ≤ length out.old }
    ensures text { let shut = figure ": window shut at" (whole_part due) in
        let text = call_text run place customer ++ shut ++ figure ", ready at" (whole_part readiness) in
        Put at text out.old out.new result }
    ensures short { result ≤ at + 160 }
{
    let mut end = call_words(&mut *out, at, run, place, customer);
    end = numbered(&mut *out, end, b": window shut at", whole_part(due));
    numbered(&mut *out, end, b", ready at", whole_part(readiness))
}

// A break that is missing.
fn missing_break(out: &mut [u8], at: usize, run: usize, duration: f64, earliest: f64) -> usize
    requires { at + 160 ≤ length out.old }
    ensures text { let home = figure " without its break: home at" (whole_part duration) in
        let text = figure "run" run ++ home ++ figure ", earliest" (whole_part earliest) in
        Put at text out.old out.new result }
    ensures short { result ≤ at + 160 }
{
    run_words(
        &mut *out,
        at,
        run,
        b" without its break: home at",
        whole_part(duration),
        b", earliest",
        whole_part(earliest),
    )
}

// A run over its distance or its duration limit.
fn over_limit(out: &mut [u8], at: usize, run: usize, what: &[u8], value: f64, limit: f64) -> usize
    requires { at + (69 + length what.now) ≤ length out.old }
    ensures text { let over = what.now ++ spaced (whole_part value) in
        Put at (figure "run" run ++ over ++ figure " of" (whole_part limit)) out.old out.new result }
    ensures short { result ≤ at + (69 + length what.now) }
{
    run_words(
        &mut *out,
        at,
        run,
        what,
        whole_part(value),
        b" of",
        whole_part(limit),
    )
}

// A cost beside the planner's, and by how much they differ.
fn cost_words(out: &mut [u8], at: usize, how: &[u8], by: f64, cost: f64, planned: f64) -> usize
    requires { at + (72 + length how.now) ≤ length out.old }
    ensures text { let difference = how.now ++ spaced (whole_part by) in
        let text = difference ++ figure ":" (whole_part cost) ++ figure " against" (whole_part planned) in
        Put at text out.old out.new result }
    ensures short { result ≤ at + (72 + length how.now) }
{
    let mut end = numbered(&mut *out, at, how, whole_part(by));
    end = numbered(&mut *out, end, b":", whole_part(cost));
    numbered(&mut *out, end, b" against", whole_part(planned))
}

// A leg that is closed.
fn leg_words(out: &mut [u8], at: usize, run: usize, leg: usize) -> usize
    requires { at + 58 ≤ length out.old }
    ensures text { let text = figure "run" run ++ figure " leg" leg ++ Listing.text ": no road" in
        Put at text out.old out.new result }
    ensures short { result ≤ at + 58 }
{
    let mut end = numbered(&mut *out, at, b"run", run as u64);
    end = numbered(&mut *out, end, b" leg", leg as u64);
    word(&mut *out, end, b": no road")
}

// A fault on the ride of a run.
fn ride_words(out: &mut [u8], at: usize, v: Verdict) -> usize
    requires bound { (3 ≤ number_in v) × (number_in v ≤ 7) }
    requires at_in_bounds { at + 160 ≤ length out.old }
    ensures text { (served calls : List ℕ) (planned : Float)
        → Put at (words_f served planned calls v) out.old out.new result }
    ensures short { result ≤ at + 160 }
{
    match v {
        Verdict::BreakTooLate {
            run,
            place,
            customer,
            start,
            latest,
        } => late_break(&mut *out, at, run, place, customer, start, latest),
        Verdict::WindowMissed {
            run,
            place,
            customer,
            readiness,
            due,
        } => missed_window(&mut *out, at, run, place, customer, readiness, due),
        Verdict::BreakMissing {
            run,
            duration,
            earliest,
        } => missing_break(&mut *out, at, run, duration, earliest),
        Verdict::TooFar {
            run,
            distance,
            limit,
        } => over_limit(&mut *out, at, run, b" too far:", distance, limit),
        Verdict::TooLong {
            run,
            duration,
            limit,
        } => over_limit(&mut *out, at, run, b" too long:", duration, limit),
        _ => at,
    }
}

// A verdict on runs of these calls, beside the customers that the planner serves and its cost.
fn verdict_words(
    out: &mut [u8],
    at: usize,
    served: &[usize],
    planned: f64,
    calls: &[u8],
    v: Verdict,
) -> usize
    requires { at + 160 ≤ length out.old }
    ensures text { let text = words_f served.now planned calls.now v in
        Put at text out.old out.new result }
    ensures short { result ≤ at + 160 }
{
    match v {
        Verdict::OtherCalls { position } => other_words(&mut *out, at, position, calls, served),
        Verdict::Overload {
            run,
            load,
            capacity,
        } => load_words(&mut *out, at, run, load, capacity, b" seats"),
        Verdict::WheelchairOverload {
            run,
            load,
            capacity,
        } => load_words(&mut *out, at, run, load, capacity, b" wheelchair places"),
        Verdict::RoadClosed { run, leg } => leg_words(&mut *out, at, run, leg),
        Verdict::Best => numbered(&mut *out, at, b"best", whole_part(planned)),
        Verdict::Dearer { by } => cost_words(
            &mut *out,
            at,
            b"dearer by",
            by,
            planned + by,
            planned,
        ),
        Verdict::Cheaper { by } => cost_words(
            &mut *out,
            at,
            b"cheaper by",
            by,
            planned - by,
            planned,
        ),
        _ => ride_words(&mut *out, at, v),
    }
}

// Behind other calls, and behind no other verdict, the dropped positions of the tour by their customers.
fn drops_behind(out: &mut [u8], at: usize, tour: &[usize], dropped: &[usize], v: Verdict) -> usize
    requires { at + 26 * length dropped.now ≤ length out.old }
    ensures text { let text = drops_f tour.now dropped.now v in
        Put at text out.old out.new result }
    ensures short { result ≤ at + 26 * length dropped.now }
{
    if bytes_mark::values::number_of(v) == 1 {
        return drop_lines(&mut *out, at, tour, dropped);
    }
    at
}

// Its line, and behind other calls the planner's drops: the positions of the tour that are not served.
pub fn verdict_text(
    out: &mut [u8],
    at: usize,
    tour: &[usize],
    served: &[usize],
    dropped: &[usize],
    planned: f64,
    calls: &[u8],
    v: Verdict,
) -> usize
    requires { at + (161 + 26 * length dropped.now) ≤ length out.old }
    ensures text { let text = verdict_text_f tour.now served.now dropped.now planned
        calls.now v in
        Put at text out.old out.new result }
    ensures short { result ≤ at + (161 + 26 * length dropped.now) }
{
    let mut end = verdict_words(&mut *out, at, served, planned, calls, v);
    end = word(&mut *out, end, b"\n");
    drops_behind(&mut *out, end, tour, dropped, v)
}
