// The walk through the calls of a run with its break place: the first fault at a call, or the way home.
ghost use Rattle.std.specs.Prelude.{◌≡◌, ◌<◌, length};
ghost use Rattle.whole.specs.Whole.{fl};
ghost use Rattle.models.specs.Records.{customer_of, break_of, rest_of};
ghost use Rattle.clock.specs.Serving.{start_label};
ghost use Rattle.evaluation.specs.Records.{lent};
ghost use Rattle.marker.specs.Walking.{break_at_f, break_or_f, call_fault_f, walk_f};

use crate::verdict::Verdict;
use clock::schedule::{Label, Scheduled, break_start_at, ready_at, serve};
use distance::leg::leg_between;
use evaluation::schedule::record_index;
use models::customer::{Customer, due_or_zero};
use models::vehicle::VehicleBreak;

// The break, at the call that has it alone.
pub fn break_at(rest: Option<VehicleBreak>, place: usize, k: usize) -> Option<VehicleBreak>
    ensures { rest_of result ≡ break_at_f (rest_of rest) place k }
{
    if place == k { rest } else { None }
}

// The break's figures, 0 where there is none.
pub fn break_or(rest: Option<VehicleBreak>) -> VehicleBreak
    ensures { break_of result ≡ break_or_f (rest_of rest) }
{
    match rest {
        None => VehicleBreak {
            earliest: 0.0,
            latest: 0.0,
            duration: 0.0,
        },
        Some(b) => b,
    }
}

// Why the run's call number k, at customer cid, fails: the break's start past latest before the window.
pub fn call_fault(
    run: usize,
    k: usize,
    cid: usize,
    customer: Customer,
    here: Option<VehicleBreak>,
    arrival: f64,
) -> Verdict
    ensures { result ≡ call_fault_f run k cid (customer_of customer) (rest_of here) arrival }
{
    match ready_at(here, arrival) {
        None => {
            let b = break_or(here);
            Verdict::BreakTooLate {
                run,
                place: k,
                customer: cid,
                start: break_start_at(b, arrival),
                latest: b.latest,
            }
        }
        Some(readiness) => {
            let opening = customer.time_window;
            Verdict::WindowMissed {
                run,
                place: k,
                customer: cid,
                readiness,
                due: due_or_zero(opening),
            }
        }
    }
}

// The calls of run number `run` served in order from the depot, the break at its place alone, and the way home. A leg
// that is closed stops the walk, as a fault at a call does.
pub fn walk(
    run: usize,
    calls: &[usize],
    place: usize,
    customers: [Customer; 64],
    distances: &[f64],
    times: &[f64],
    size: usize,
    rest: Option<VehicleBreak>,
) -> Result<Scheduled, Verdict>
    requires { length calls.now < 0xFFFF_FFFF_FFFF_FFFF }
    ensures { let tables = lent customers distances.now times.now size in
        result ≡ walk_f tables (rest_of rest) run place 1 (fl 0) 0 start_label calls.now }
{
    let mut distance = 0.0;
    let mut label = Label::start();
    let mut prev = 0;
    for (i, &cid) in calls.iter().enumerate() {
        let k = i + 1;
        let Some(leg) = leg_between(distances, times, size, prev, cid) else {
            return Err(Verdict::RoadClosed { run, leg: k });
        };
        distance = distance + leg.distance;
        let travel = leg.time;
        let index = record_index(cid);
        let customer = customers[index];
        let here = break_at(rest, place, k);
        let Some(l) = serve(label, travel, customer, k, here) else {
            return Err(call_fault(run, k, cid, customer, here, label.time + travel));
        };
        label = l;
        prev = cid;
    }
    let Some(back) = leg_between(distances, times, size, prev, 0) else {
        return Err(Verdict::RoadClosed {
            run,
            leg: calls.len() + 1,
        });
    };
    Ok(label.home(distance + back.distance, back.time))
}
