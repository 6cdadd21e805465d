// The lines of a run that is built: its visits, its violations and its totals.
ghost use Rattle.std.specs.Prelude.{◌≡◌, [], ◌∷◌, take};
ghost use Rattle.definitions.specs.Listing.{spaced};
ghost use Rattle.models.specs.Load.{load_of};
ghost use Rattle.visits.specs.Building.{built_of};
ghost use Rattle.test_runs.specs.Along.{follows};
ghost use Rattle.test_runs.specs.Words as Words;
ghost use Rattle.test_runs.specs.Words.{each, load_figures, visit_line, over_figures, violation_figures, violation_line, break_figures, total_figures, built_lines};

use crate::recorded::{figure, number, word};
use models::count::fewer;
use models::load::Load;
use visits::evaluator::Built;
use visits::visit::{MOST_VIOLATIONS, Violation, ViolationType, Visit};

// A number, and two figures.
fn number_and_two(recorded: &[u8], at: usize, n: u64, first: f64, second: f64) -> usize
    ensures { let words = spaced n ∷ Words.figure first ∷ Words.figure second ∷ [] in
        result ≡ follows recorded.now at words }
{
    let mut end = number(recorded, at, n);
    end = figure(recorded, end, first);
    figure(recorded, end, second)
}

// Seats, then wheelchair places.
fn load_figures(recorded: &[u8], at: usize, load: Load) -> usize
    ensures { result ≡ follows recorded.now at (load_figures (load_of load)) }
{
    let end = number(recorded, at, load.seats);
    number(recorded, end, load.wheelchairs)
}

// A customer, the times of arrival and departure, and the load.
fn visit_line(recorded: &[u8], at: usize, visit: Visit) -> usize
    ensures { result ≡ follows recorded.now at (visit_line visit) }
{
    let customer = visit.customer_id as u64;
    let load = visit.load_after;
    let mut end = word(recorded, at, b"visit");
    end = number_and_two(
        recorded,
        end,
        customer,
        visit.arrival_time,
        visit.departure_time,
    );
    end = load_figures(recorded, end, load);
    word(recorded, end, b"\n")
}

// The number of a violation in a measure, what is carried and what the vehicle holds.
fn over_figures(recorded: &[u8], at: usize, n: u64, load: u64, capacity: u32) -> usize
    ensures { result ≡ follows recorded.now at (over_figures n load capacity) }
{
    let mut end = number(recorded, at, n);
    end = number(recorded, end, load);
    number(recorded, end, capacity as u64)
}

// The number of a violation, and its figures.
fn violation_figures(recorded: &[u8], at: usize, kind: ViolationType) -> usize
    ensures { result ≡ follows recorded.now at (violation_figures kind) }
{
    match kind {
        ViolationType::TimeWindowViolated {
            customer_id,
            arrival,
            due,
        } => {
            let end = number(recorded, at, 1);
            number_and_two(recorded, end, customer_id as u64, arrival, due)
        }
        ViolationType::BreakNotPlaceable => number(recorded, at, 2),
        ViolationType::CapacityExceeded { load, capacity } => {
            over_figures(recorded, at, 3, load, capacity)
        }
        ViolationType::MaxDistanceExceeded {
            distance,
            max_distance,
        } => number_and_two(recorded, at, 4, distance, max_distance),
        ViolationType::MaxDurationExceeded {
            duration,
            max_duration,
        } => number_and_two(recorded, at, 5, duration, max_duration),
        ViolationType::WheelchairsExceeded { load, capacity } => {
            over_figures(recorded, at, 6, load, capacity)
        }
        ViolationType::ClosedLeg { leg } => {
            let end = number(recorded, at, 7);
            number(recorded, end, leg as u64)
        }
    }
}

// The number of a violation with its figures, as a line.
fn violation_line(recorded: &[u8], at: usize, violation: Violation) -> usize
    ensures { result ≡ follows recorded.now at (violation_line violation) }
{
    let kind = violation.kind;
    let mut end = word(recorded, at, b"violation");
    end = violation_figures(recorded, end, kind);
    word(recorded, end, b"\n")
}

// The first visits of an array.
fn visit_lines(recorded: &[u8], at: usize, visits: [Visit; 128], count: usize) -> usize
    ensures { result ≡ follows recorded.now at (each visit_line (take count visits)) }
{
    let n = fewer(count, 128);
    let mut end = at;
    for visit in &visits[..n] {
        end = visit_line(recorded, end, *visit);
    }
    end
}

// The first violations of an array.
fn violation_lines(
    recorded: &[u8],
    at: usize,
    violations: [Violation; MOST_VIOLATIONS],
    count: usize,
) -> usize
    ensures { result ≡ follows recorded.now at (each violation_line (take count violations)) }
{
    let n = fewer(count, MOST_VIOLATIONS);
    let mut end = at;
    for violation in &violations[..n] {
        end = violation_line(recorded, end, *violation);
    }
    end
}

// The break's place and start, where there is a break.
fn break_figures(recorded: &[u8], at: usize, place: usize, start: Option<f64>) -> usize
    ensures { result ≡ follows recorded.now at (break_figures place start) }
{
    match start {
        None => at,
        Some(time) => {
            let end = number(recorded, at, place as u64);
            figure(recorded, end, time)
        }
    }
}

// Distance, duration, lateness with its cost, and load.
fn total_figures(recorded: &[u8], at: usize, built: Built) -> usize
    ensures { result ≡ follows recorded.now at (total_figures (built_of built)) }
{
    let load = built.load;
    let mut end = figure(recorded, at, built.distance);
    end = figure(recorded, end, built.duration);
    end = figure(recorded, end, built.lateness);
    end = figure(recorded, end, built.lateness_cost);
    load_figures(recorded, end, load)
}

// All lines of the run: the visits and the violations, then the totals and the break.
pub fn built_lines(recorded: &[u8], at: usize, built: Built) -> usize
    ensures { result ≡ follows recorded.now at (built_lines (built_of built)) }
{
    let start = built.start;
    let visits = built.visits;
    let violations = built.violations;
    let mut end = visit_lines(recorded, at, visits, built.count);
    end = violation_lines(recorded, end, violations, built.found);
    end = word(recorded, end, b"route");
    end = total_figures(recorded, end, built);
    end = break_figures(recorded, end, built.place, start);
    word(recorded, end, b"\n")
}
