// One call of a run visited, also where it is reached too late.
ghost use Rattle.std.specs.Prelude.{◌≡◌, true, ℕ, ◌+◌, Some};
ghost use Rattle.basics.specs.Options.{present};
ghost use Rattle.distance.specs.Lookup.{drive_f};
ghost use Rattle.models.specs.Load.{load_of, UpTo, Countable};
ghost use Rattle.models.specs.Records.{opening_of, customer_of};
ghost use Rattle.visits.specs.Visiting.{rest_at_of, trip_of, visited_of, begin_f, served_f, start_trip, visit_f};

use crate::rest::RestAt;
use crate::visit::{Violation, ViolationType, Visit};
use clock::schedule::{Label, enter};
use distance::leg::{Leg, leg_between};
use models::customer::{Customer, TimeWindow, due_or_zero};
use models::load::Load;

// A call as it is left, and whether it was reached after due without a penalty.
#[derive(Clone, Copy)]
pub struct Served {
    pub label: Label,
    pub shut: bool,
}

// Some way through the calls: the label, the distance travelled, the load, and the last place.
#[derive(Clone, Copy)]
pub struct Trip {
    pub label: Label,
    pub distance: f64,
    pub load: Load,
    pub prev: usize,
}

// A call visited: the trip with it, the visit, and the violation of its window, which counts where that is shut.
#[derive(Clone, Copy)]
pub struct VisitedCall {
    pub trip: Trip,
    pub visit: Visit,
    pub violation: Violation,
    pub shut: bool,
}

// A leg of a run that has no closed one, so the second case is never met.
pub fn open_leg(distances: &[f64], times: &[f64], size: usize, from: usize, to: usize) -> Leg
    requires { present (drive_f distances.now times.now size from to) ≡ true }
    ensures { Some result ≡ drive_f distances.now times.now size from to }
{
    match leg_between(distances, times, size, from, to) {
        Some(leg) => leg,
        None => Leg {
            distance: 0.0,
            time: 0.0,
        },
    }
}

// When service starts, from readiness on.
pub fn service_start(opening: Option<TimeWindow>, ready: f64) -> f64
    ensures { result ≡ begin_f (opening_of opening) ready }
{
    match opening {
        None => ready,
        Some(window) => ready + window.waiting_time(ready),
    }
}

// A call from readiness on, also where its window is shut: then nothing is charged.
pub fn attend(customer: Customer, ready: f64, label: Label) -> Served
    ensures { result ≡ served_f (customer_of customer) ready label }
{
    let service = customer.service_duration;
    let Some(l) = enter(customer, ready, label) else {
        let opening = customer.time_window;
        return Served {
            label: Label {
                time: service_start(opening, ready) + service,
                ..label
            },
            shut: true,
        };
    };
    Served {
        label: Label {
            time: l.time + service,
            ..l
        },
        shut: false,
    }
}

impl Trip {
    pub fn start() -> Trip
        ensures { trip_of result ≡ start_trip }
    {
        Trip {
            label: Label::start(),
            distance: 0.0,
            load: Load::none(),
            prev: 0,
        }
    }

    // Call number `index`, a leg away.
    pub fn visit(
        self,
        rest: RestAt,
        index: usize,
        cid: usize,
        customer: Customer,
        leg: Leg,
    ) -> VisitedCall
        requires { Countable (load_of self.load) }
        ensures call { let c = customer_of customer in
            visited_of result ≡ visit_f (trip_of self) (rest_at_of rest) index cid c leg.distance leg.time }
        ensures counted { (k : ℕ) → UpTo k (load_of self.load) → UpTo (k + 1) (load_of result.trip.load) }
    {
        let before = self.label;
        let opening = customer.time_window;
        let arrival = before.time + leg.time;
        let ready = rest.ready_at(index, arrival);
        let call = attend(customer, ready, before);
        let label = call.label;
        let carried = self.load;
        let load = carried.plus(customer.demand);
        VisitedCall {
            trip: Trip {
                label,
                distance: self.distance + leg.distance,
                load,
                prev: cid,
            },
            visit: Visit {
                customer_id: cid,
                arrival_time: arrival,
                departure_time: label.time,
                load_after: load,
            },
            violation: Violation {
                kind: ViolationType::TimeWindowViolated {
                    customer_id: cid,
                    arrival: ready,
                    due: due_or_zero(opening),
                },
            },
            shut: call.shut,
        }
    }
}
