// Refusals 1, 2 and 4 of single records.
// Each test of a record is a few comparisons, so all are made and none is skipped.
ghost use Rattle.std.specs.Prelude.{◌≡◌, [], ◌∷◌};
ghost use Rattle.basics.specs.Options.{present};
ghost use Rattle.definitions.specs.Domain.{is_penalty, is_number};
ghost use Rattle.definitions.specs.Sheet.{soft};
ghost use Rattle.definitions.specs.Refusals.{bad_optional, bad_break, bad_window, bad_customer, bad_depot};
ghost use Rattle.models.specs.Records.{opening_of, customer_of, rest_of};
ghost use Rattle.whole.specs.Value.{value};
ghost use Rattle.refuse_numbers.specs.Falling.{window_falls_f, break_falls_f};

use crate::numbers::{unfit_number, unfit_penalty, unfit_zero};
use models::customer::{Customer, TimeWindow, has_window};
use models::vehicle::VehicleBreak;

pub fn bad_limit(limit: Option<f64>) -> bool
    ensures { result ≡ bad_optional value is_number limit }
{
    match limit {
        None => false,
        Some(max) => unfit_number(max),
    }
}

pub fn bad_break(rest: Option<VehicleBreak>) -> bool
    ensures { result ≡ bad_break value (rest_of rest) }
{
    match rest {
        None => false,
        Some(b) => { unfit_number(b.earliest) | unfit_number(b.latest) | unfit_number(b.duration) }
    }
}

pub fn bad_window(opening: Option<TimeWindow>) -> bool
    ensures { result ≡ bad_window value (opening_of opening) }
{
    match opening {
        None => false,
        Some(w) => unfit_number(w.ready) | unfit_number(w.due),
    }
}

pub fn bad_penalty(penalty: Option<f64>) -> bool
    ensures { result ≡ bad_optional value is_penalty penalty }
{
    match penalty {
        None => false,
        Some(p) => unfit_penalty(p),
    }
}

pub fn bad_customer(c: Customer) -> bool
    ensures { result ≡ bad_customer value (customer_of c) }
{
    let opening = c.time_window;
    let penalty = c.lateness_penalty;
    !c.demand.may_be_asked()
        | unfit_number(c.service_duration)
        | bad_window(opening)
        | bad_penalty(penalty)
}

pub fn has_penalty(penalty: Option<f64>) -> bool
    ensures { result ≡ present penalty }
{
    penalty.is_some()
}

// The depot's record with demand, service, window or penalty.
pub fn bad_depot(c: Customer) -> bool
    ensures { result ≡ bad_depot value (customer_of c ∷ []) }
{
    let penalty = c.lateness_penalty;
    !c.demand.is_none() | unfit_zero(c.service_duration) | has_window(c) | has_penalty(penalty)
}

// Ready above due.
pub fn window_falls(opening: Option<TimeWindow>) -> bool
    ensures { result ≡ window_falls_f (opening_of opening) }
{
    match opening {
        None => false,
        Some(w) => w.ready > w.due,
    }
}

// Earliest above latest.
pub fn break_falls(rest: Option<VehicleBreak>) -> bool
    ensures { result ≡ break_falls_f (rest_of rest) }
{
    match rest {
        None => false,
        Some(b) => b.earliest > b.latest,
    }
}

// Window and penalty.
pub fn is_soft(c: Customer) -> bool
    ensures { result ≡ soft (customer_of c) }
{
    let penalty = c.lateness_penalty;
    has_window(c) & has_penalty(penalty)
}
