// A call that a run without a break reaches (ga/split_tw.rs): its window, and its service.
ghost use Rattle.std.specs.Prelude.{◌≡◌};
ghost use Rattle.models.specs.Records.{opening_of, customer_of};
ghost use Rattle.cut_runs.specs.Runs.{enter_f, visit_f};

use models::customer::{Customer, TimeWindow};
use whole::larger;

// The time on the way through a run without a break, and what its lateness costs so far.
#[derive(Clone, Copy)]
pub struct Elapsed {
    pub time: f64,
    pub late_cost: f64,
}

// Late ends the run without a penalty, and costs with one; then the window's opening is waited for.
pub fn enter(
    opening: Option<TimeWindow>,
    penalty: Option<f64>,
    time: f64,
    late_cost: f64,
) -> Option<Elapsed>
    ensures { result ≡ enter_f (opening_of opening) penalty time late_cost }
{
    let Some(window) = opening else {
        return Some(Elapsed { time, late_cost });
    };
    let start = larger(time, window.ready);
    if !window.is_violated(time) {
        return Some(Elapsed {
            time: start,
            late_cost,
        });
    }
    match penalty {
        None => None,
        Some(p) => Some(Elapsed {
            time: start,
            late_cost: late_cost + p * (time - window.due),
        }),
    }
}

// A call that is reached at this time: its window, and its service; none where the window ends the run.
pub fn visit(customer: Customer, time: f64, late_cost: f64) -> Option<Elapsed>
    ensures { result ≡ visit_f (customer_of customer) time late_cost }
{
    let opening = customer.time_window;
    let penalty = customer.lateness_penalty;
    let v = enter(opening, penalty, time, late_cost)?;
    Some(Elapsed {
        time: v.time + customer.service_duration,
        late_cost: v.late_cost,
    })
}
