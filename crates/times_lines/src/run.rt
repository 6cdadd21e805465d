// The lines of a run: its calls, what it comes to, and what it violates. The room asked for is that of the longest
// lines.
ghost use Rattle.std.specs.Prelude.{◌≡◌, cond, [], map, ◌+◌, ◌*◌, ◌≤◌, eqb, length, take};
ghost use Rattle.basics.specs.Lists.{is_empty};
ghost use Rattle.models.specs.Records.{customer_of, rest_of};
ghost use Rattle.visits.specs.Building.{built_of};
ghost use Rattle.listing_lines.specs.Put.{Put};
ghost use Rattle.texts.specs.TimesText as Text;
ghost use Rattle.times_lines.specs.Told.{figures_in, told_at, stops_in, violation_in, run_text_f};

use crate::stop::{start_at, stop_line};
use crate::violation::violation_line;
use evaluation::schedule::record_index;
use listing_lines::number::whole_part;
use models::customer::Customer;
use models::vehicle::VehicleBreak;
use templates::fill::filled;
use visits::evaluator::Built;
use visits::rest::duration_of;
use visits::visit::{MOST_VIOLATIONS, Violation, Visit};

// Call number k of run n, with its window from the customers' records and the break of the run.
fn line_of(
    out: &mut [u8],
    at: usize,
    n: u64,
    k: usize,
    visit: Visit,
    begin: f64,
    customers: [Customer; 64],
    place: usize,
    start: Option<f64>,
    duration: f64,
) -> usize
    requires { at + 420 ≤ length out.old }
    ensures text { let told = told_at (map customer_of customers) duration place start k visit begin in
        Put at (Text.stop_line n k told) out.old out.new result }
    ensures short { result ≤ at + 400 }
{
    let index = record_index(visit.customer_id);
    let customer = customers[index];
    let opening = customer.time_window;
    let here = start_at(place, start, k);
    stop_line(
        &mut *out, at, n, k as u64, visit, begin, here, duration, opening,
    )
}

// The first `count` visits, with when each service starts.
pub fn stop_lines(
    out: &mut [u8],
    at: usize,
    n: u64,
    visits: [Visit; 128],
    begins: [f64; 128],
    count: usize,
    customers: [Customer; 64],
    place: usize,
    start: Option<f64>,
    duration: f64,
) -> usize
    requires { (count ≤ 128) × (at + (400 * count + 20) ≤ length out.old) }
    ensures text { let stops = stops_in (map customer_of customers) duration place start 1
        (take count visits) (take count begins) in
        Put at (Text.stop_lines n 1 stops) out.old out.new result }
    ensures short { result ≤ at + 400 * count }
    ensures driven { let stops = stops_in (map customer_of customers) duration place start 1
        (take count visits) (take count begins) in
        is_empty stops ≡ eqb count 0 }
{
    let mut end = at;
    for (i, visit) in visits[..count].iter().enumerate() {
        end = line_of(
            &mut *out,
            end,
            n,
            i + 1,
            *visit,
            begins[i],
            customers,
            place,
            start,
            duration,
        );
    }
    end
}

// What run n of so many visits comes to; nothing, where none is made.
pub fn totals_line(
    out: &mut [u8],
    at: usize,
    n: u64,
    count: usize,
    distance: f64,
    duration: f64,
    lateness: f64,
    pay: f64,
) -> usize
    requires { at + 170 ≤ length out.old }
    ensures text { let line = Text.totals_line n (figures_in distance duration lateness pay 0) in
        Put at (cond (eqb count 0) [] line) out.old out.new result }
    ensures short { result ≤ at + 150 }
{
    if count == 0 {
        return at;
    }
    filled(
        &mut *out,
        at,
        b"run %: home at %, distance %, lateness %, pay %\n",
        &[
            n,
            whole_part(duration),
            whole_part(distance),
            whole_part(lateness),
            whole_part(pay),
        ],
    )
}

// The first `found` violations.
pub fn violation_lines(
    out: &mut [u8],
    at: usize,
    n: u64,
    violations: [Violation; MOST_VIOLATIONS],
    found: usize,
) -> usize
    requires { (found ≤ 132) × (at + (150 * found + 20) ≤ length out.old) }
    ensures text { let text = Text.violation_lines n (map violation_in (take found violations)) in
        Put at text out.old out.new result }
    ensures short { result ≤ at + 150 * found }
{
    let mut end = at;
    for violation in &violations[..found] {
        end = violation_line(&mut *out, end, n, *violation);
    }
    end
}

// All lines of run n, whose break is at this place, with the sheet's customers and break.
pub fn run_lines(
    out: &mut [u8],
    at: usize,
    n: u64,
    run: Built,
    begins: [f64; 128],
    customers: [Customer; 64],
    rest: Option<VehicleBreak>,
    place: usize,
) -> usize
    requires count_bound { (run.count ≤ 128) × (run.found ≤ 132) }
    requires found_in_bounds { at + (400 * run.count + 150 * run.found + 170) ≤ length out.old }
    ensures text { let text = run_text_f (map customer_of customers) (rest_of rest) place n (built_of run)
        (take run.count begins) in
        Put at text out.old out.new result }
    ensures short { result ≤ at + (400 * run.count + 150 * run.found + 150) }
{
    let duration = duration_of(rest);
    let start = run.start;
    let visits = run.visits;
    let violations = run.violations;
    let mut end = stop_lines(
        &mut *out, at, n, visits, begins, run.count, customers, place, start, duration,
    );
    end = totals_line(
        &mut *out,
        end,
        n,
        run.count,
        run.distance,
        run.duration,
        run.lateness,
        run.lateness_cost,
    );
    violation_lines(&mut *out, end, n, violations, run.found)
}
