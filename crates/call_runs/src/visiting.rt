// The visits of a run on an array of customers: refused by number, or the run built, with the visits and violations
// that are to be written.
ghost use Rattle.std.specs.Prelude.{◌≡◌};
ghost use Rattle.call_runs.specs.Visiting.{route_answer, given_by, refused_by, ListsFrom};

use byte_lists::widen;
use models::customer::Customer;
use models::domain::MOST_CALLS;
use models::head::Head;
use models::load::Load;
use refuse_order::by_call::refuse_visiting;
use visits::evaluator;
use visits::evaluator::Built;
use visits::visit::{MOST_VIOLATIONS, Violation, Visit};

// The visits and the violations by their counts, and the totals. The place is that of the break, from 1, or 0.
#[derive(Clone, Copy)]
pub struct RouteFigures {
    pub visits: usize,
    pub violations: usize,
    pub distance: f64,
    pub duration: f64,
    pub lateness: f64,
    pub lateness_cost: f64,
    pub load: Load,
    pub place: usize,
    pub start: Option<f64>,
}

#[derive(Clone, Copy)]
pub enum Route {
    Refused(u32),
    Built(RouteFigures),
}

// The answer, and what is to be written: the first `count` visits and the first `found` violations.
#[derive(Clone, Copy)]
pub struct Listed {
    pub route: Route,
    pub visits: [Visit; 128],
    pub count: usize,
    pub violations: [Violation; MOST_VIOLATIONS],
    pub found: usize,
}

// Nothing is to be written.
fn refused(number: u32) -> Listed
    ensures { result ≡ refused_by number }
{
    Listed {
        route: Route::Refused(number),
        visits: evaluator::blank_visits(),
        count: 0,
        violations: evaluator::blank_violations(),
        found: 0,
    }
}

// All visits and all violations found are to be written.
fn gives(built: Built) -> Listed
    ensures { result ≡ given_by built }
{
    let visits = built.visits;
    let violations = built.violations;
    let load = built.load;
    let start = built.start;
    let figures = RouteFigures {
        visits: built.count,
        violations: built.found,
        distance: built.distance,
        duration: built.duration,
        lateness: built.lateness,
        lateness_cost: built.lateness_cost,
        load,
        place: built.place,
        start,
    };
    Listed {
        route: Route::Built(figures),
        visits,
        count: built.count,
        violations,
        found: built.found,
    }
}

// There is room for so many visits and violations.
pub fn build_route(
    head: Head,
    all: [Customer; 64],
    n: usize,
    distances: &[f64],
    times: &[f64],
    run: &[u8],
    visits: usize,
    violations: usize,
) -> Listed
    ensures { let d = distances.now in
        let t = times.now in
        let answered = route_answer head d t run.now visits violations in
        ListsFrom answered visits violations n all result }
{
    let number = refuse_visiting(head, all, n, distances, times, run, visits, violations);
    if number != 0 {
        return refused(number);
    }
    let mut calls = [0usize; MOST_CALLS];
    let k = widen(run, &mut calls);
    let built = evaluator::build_route(
        &calls[..k],
        all,
        distances,
        times,
        head.places,
        head.capacity,
        head.limits,
    );
    gives(built)
}
