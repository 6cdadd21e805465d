// The visits of a run as a public call: the customers are gathered into an array, on which the call is checked and the
// run built; its visits and violations are written at the front of the lent lists.
ghost use Rattle.definitions.specs.Bytes.{numbers_of};
ghost use Rattle.planner.specs.Calls.{lent_sheet};
ghost use Rattle.planner.specs.Visiting.{route_output, Writes, VisitContract};

use call_runs::visiting::{Listed, Route};
use lending::{count, gathered};
use models::customer::Customer;
use models::head::Head;
use visits::lists::{scattered_violations, scattered_visits};
use visits::visit::{Violation, Visit};

// What is listed is written at the front of the lent lists, as far as there is room.
fn write(listed: Listed, visits: &mut [Visit], violations: &mut [Violation]) -> Route
    ensures { let old = route_output visits.old violations.old in
        let new = route_output visits.new violations.new in
        Writes listed old result new }
{
    scattered_visits(listed.visits, listed.count, &mut *visits);
    scattered_violations(listed.violations, listed.found, &mut *violations);
    listed.route
}

// A run, lent in bytes, with its visits, its totals and what it violates: the visits and the violations are written at
// the front of the lent lists.
pub fn build_route(
    head: Head,
    customers: &[Customer],
    distances: &[f64],
    times: &[f64],
    run: &[u8],
    visits: &mut [Visit],
    violations: &mut [Violation],
) -> Route
    ensures { let sheet = lent_sheet head customers.now distances.now times.now in
        let old = route_output visits.old violations.old in
        let new = route_output visits.new violations.new in
        VisitContract sheet (numbers_of run.now) old result new }
{
    let n = count(customers);
    let all = gathered(customers);
    let visit_room = visits.len();
    let violation_room = violations.len();
    let listed = call_runs::visiting::build_route(
        head,
        all,
        n,
        distances,
        times,
        run,
        visit_room,
        violation_room,
    );
    write(listed, &mut *visits, &mut *violations)
}
