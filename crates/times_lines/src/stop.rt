// The line of a call.
ghost use Rattle.std.specs.Prelude.{◌≡◌, ◌+◌, ◌≤◌, length, Some};
ghost use Rattle.models.specs.Records.{opening_of};
ghost use Rattle.listing_lines.specs.Put.{Put};
ghost use Rattle.texts.specs.TimesText as Text;
ghost use Rattle.times_lines.specs.Told.{start_at, window_in, pause_in, stop_in};

use listing_lines::number::whole_part;
use listing_lines::text::word;
use models::customer::TimeWindow;
use templates::fill::filled;
use visits::visit::Visit;

// The start of the break at call number k, if that is its place.
pub fn start_at(place: usize, start: Option<f64>, k: usize) -> Option<f64>
    ensures { result ≡ start_at place start k }
{
    if place == k { start } else { None }
}

// The break, if it is taken here.
fn rest_words(out: &mut [u8], at: usize, start: Option<f64>, duration: f64) -> usize
    requires { at + 80 ≤ length out.old }
    ensures text { Put at (Text.rest_words (pause_in duration start)) out.old out.new result }
    ensures short { result ≤ at + 60 }
{
    let Some(from) = start else {
        return at;
    };
    filled(
        &mut *out,
        at,
        b" break % to %,",
        &[whole_part(from), whole_part(from + duration)],
    )
}

// A window, how long before or after due the service starts, and the end of the line.
fn slack_words(out: &mut [u8], at: usize, ready: u64, due: u64, begin: u64) -> usize
    requires { at + 110 ≤ length out.old }
    ensures text { let text = Text.window_words (Some (record { ready = ready; due = due })) begin in
        Put at text out.old out.new result }
    ensures short { result ≤ at + 90 }
{
    if begin <= due {
        return filled(
            &mut *out,
            at,
            b", window % to %, slack %\n",
            &[ready, due, due - begin],
        );
    }
    filled(
        &mut *out,
        at,
        b", window % to %, late %\n",
        &[ready, due, begin - due],
    )
}

// The window, if there is one, and the end of the line.
fn window_words(out: &mut [u8], at: usize, opening: Option<TimeWindow>, begin: u64) -> usize
    requires { at + 110 ≤ length out.old }
    ensures text { Put at (Text.window_words (window_in (opening_of opening)) begin) out.old out.new result }
    ensures short { result ≤ at + 90 }
{
    let Some(window) = opening else {
        return word(&mut *out, at, b"\n");
    };
    slack_words(
        &mut *out,
        at,
        whole_part(window.ready),
        whole_part(window.due),
        begin,
    )
}

// Call number k of run n. `start` is that of the break, if it is taken here.
pub fn stop_line(
    out: &mut [u8],
    at: usize,
    n: u64,
    k: u64,
    visit: Visit,
    begin: f64,
    start: Option<f64>,
    duration: f64,
    opening: Option<TimeWindow>,
) -> usize
    requires { at + 420 ≤ length out.old }
    ensures text { let told = stop_in (pause_in duration start) (opening_of opening) visit begin in
        Put at (Text.stop_line n k told) out.old out.new result }
    ensures short { result ≤ at + 400 }
{
    let load = visit.load_after;
    let served = whole_part(begin);
    let mut end = filled(
        &mut *out,
        at,
        b"run % call % customer %: arrive %,",
        &[
            n,
            k,
            visit.customer_id as u64,
            whole_part(visit.arrival_time),
        ],
    );
    end = rest_words(&mut *out, end, start, duration);
    end = filled(
        &mut *out,
        end,
        b" serve %, leave %, seats %, wheelchairs %",
        &[
            served,
            whole_part(visit.departure_time),
            load.seats,
            load.wheelchairs,
        ],
    );
    window_words(&mut *out, end, opening, served)
}
