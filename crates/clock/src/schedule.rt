// The clock of a run that carries a driver's break (evaluation/schedule.rs). It keeps two labels: with the break still
// to take, and with it taken.
ghost use Rattle.std.specs.Prelude.{◌≡◌, ◌<◌};
ghost use Rattle.models.specs.Records.{window_of, customer_of, break_of, rest_of};
ghost use Rattle.clock.specs.Records.{clock_of};
ghost use Rattle.clock.specs.Serving.{start_label, break_start_f, ready_f, place_after_f, charge_f, enter_f, serve_f, carry_f, smaller_f, earlier_f};
ghost use Rattle.clock.specs.Clock.{excused_f, begun_f, skipped_f, taken_f, push_f, alive_f, is_excused_f, counts_f, home_f, finish_f};

use models::customer::{Customer, TimeWindow};
use models::vehicle::VehicleBreak;
use whole::larger;

// The bus with a call served. The place is the number of the call at which the break was taken, from 1, or 0.
#[derive(Clone, Copy)]
pub struct Label {
    pub time: f64,
    pub lateness: f64,
    pub cost: f64,
    pub place: usize,
}

// What the clock reports of a run: its totals, with the place of the break.
#[derive(Clone, Copy)]
pub struct Scheduled {
    pub distance: f64,
    pub duration: f64,
    pub lateness: f64,
    pub cost: f64,
    pub place: usize,
}

// The clock of a run that grows one call at a time: the labels before and after the break, the last place, and the
// number of the next call.
#[derive(Clone, Copy)]
pub struct BreakClock {
    pub rest: VehicleBreak,
    pub before: Option<Label>,
    pub after: Option<Label>,
    pub prev: usize,
    pub index: usize,
}

// The break here starts at the later of arrival and earliest.
pub fn break_start_at(rest: VehicleBreak, arrival: f64) -> f64
    ensures { result ≡ break_start_f (break_of rest) arrival }
{
    larger(arrival, rest.earliest)
}

// Ready on arrival or, with the break here, after it; not at all where the break would start after latest.
pub fn ready_at(rest: Option<VehicleBreak>, arrival: f64) -> Option<f64>
    ensures { result ≡ ready_f (rest_of rest) arrival }
{
    match rest {
        None => Some(arrival),
        Some(b) => {
            let start = break_start_at(b, arrival);
            if start > b.latest {
                None
            } else {
                Some(start + b.duration)
            }
        }
    }
}

// The break place after call number `index`, with the break there or without.
pub fn place_after(rest: Option<VehicleBreak>, index: usize, place: usize) -> usize
    ensures { result ≡ place_after_f (rest_of rest) index place }
{
    match rest {
        None => place,
        Some(_) => index,
    }
}

// The label with its lateness at the window added, and the cost of that; late without a penalty fails.
pub fn charge(window: TimeWindow, penalty: Option<f64>, ready: f64, label: Label) -> Option<Label>
    ensures { result ≡ charge_f (window_of window) penalty ready label }
{
    if !window.is_violated(ready) {
        return Some(label);
    }
    match penalty {
        None => None,
        Some(p) => {
            let late = window.lateness(ready);
            Some(Label {
                lateness: label.lateness + late,
                cost: label.cost + p * late,
                ..label
            })
        }
    }
}

// The label as service starts, from readiness on: lateness is charged, and then the window's opening waited for. None
// where it is late without a penalty.
pub fn enter(customer: Customer, ready: f64, label: Label) -> Option<Label>
    ensures { result ≡ enter_f (customer_of customer).window (customer_of customer).penalty ready label }
{
    let opening = customer.time_window;
    let penalty = customer.lateness_penalty;
    match opening {
        None => Some(Label {
            time: ready,
            ..label
        }),
        Some(window) => {
            let l = charge(window, penalty, ready, label)?;
            let waiting = window.waiting_time(ready);
            Some(Label {
                time: ready + waiting,
                ..l
            })
        }
    }
}

// Call number `index`, `travel` away: the way there, the break if it is here, the wait for the window, and service.
pub fn serve(
    label: Label,
    travel: f64,
    customer: Customer,
    index: usize,
    rest: Option<VehicleBreak>,
) -> Option<Label>
    ensures { result ≡ serve_f (customer_of customer) (rest_of rest) index travel label }
{
    let arrival = label.time + travel;
    let ready = ready_at(rest, arrival)?;
    let place = place_after(rest, index, label.place);
    let l = enter(customer, ready, label)?;
    Some(Label {
        time: l.time + customer.service_duration,
        place,
        ..l
    })
}

// The same for a label that may be none.
pub fn carry(
    label: Option<Label>,
    travel: f64,
    customer: Customer,
    index: usize,
    rest: Option<VehicleBreak>,
) -> Option<Label>
    ensures { result ≡ carry_f (customer_of customer) (rest_of rest) index travel label }
{
    match label {
        None => None,
        Some(l) => serve(l, travel, customer, index, rest),
    }
}

// Home before earliest needs no break.
pub fn excused(rest: VehicleBreak, home: f64) -> bool
    ensures { result ≡ excused_f (break_of rest) home }
{
    home < rest.earliest
}

// The same of a label that may be none, with the way back.
pub fn is_excused(rest: VehicleBreak, label: Option<Label>, back: f64) -> bool
    ensures { result ≡ is_excused_f (break_of rest) back label }
{
    match label {
        None => false,
        Some(l) => excused(rest, l.time + back),
    }
}

impl Label {
    // At the depot at time 0, nothing late.
    pub fn start() -> Label
        ensures { result ≡ start_label }
    {
        Label {
            time: 0.0,
            lateness: 0.0,
            cost: 0.0,
            place: 0,
        }
    }

    // Smaller by time, then by lateness cost.
    pub fn smaller(y: Label, x: Label) -> bool
        ensures { result ≡ smaller_f y x }
    {
        if y.time < x.time {
            return true;
        }
        if y.time == x.time {
            return y.cost < x.cost;
        }
        false
    }

    // The smaller of the two; a tie keeps the first.
    pub fn earlier(a: Option<Label>, b: Option<Label>) -> Option<Label>
        ensures { result ≡ earlier_f a b }
    {
        let Some(x) = a else {
            return b;
        };
        let Some(y) = b else {
            return a;
        };
        if Label::smaller(y, x) {
            Some(y)
        } else {
            Some(x)
        }
    }

    // Home after the way back, with the distance travelled in all.
    pub fn home(self, distance: f64, back: f64) -> Scheduled
        ensures { result ≡ home_f distance back self }
    {
        Scheduled {
            distance,
            duration: self.time + back,
            lateness: self.lateness,
            cost: self.cost,
            place: self.place,
        }
    }
}

impl BreakClock {
    // The bus at the depot at time 0.
    pub fn new(rest: VehicleBreak) -> BreakClock
        ensures { clock_of result ≡ begun_f (break_of rest) }
    {
        BreakClock {
            rest,
            before: Some(Label::start()),
            after: None,
            prev: 0,
            index: 1,
        }
    }

    // The label before the break with one call more, `travel` away.
    pub fn skipped(self, customer: Customer, travel: f64) -> Option<Label>
        ensures { result ≡ skipped_f (clock_of self) (customer_of customer) travel }
    {
        let before = self.before;
        carry(before, travel, customer, self.index, None)
    }

    // The label after the break with one call more: the smaller of the one carried on and the one with the break here.
    pub fn taken(self, customer: Customer, travel: f64) -> Option<Label>
        ensures { result ≡ taken_f (clock_of self) (customer_of customer) travel }
    {
        let rest = self.rest;
        let before = self.before;
        let after = self.after;
        let index = self.index;
        let here = carry(before, travel, customer, index, Some(rest));
        let carried = carry(after, travel, customer, index, None);
        Label::earlier(carried, here)
    }

    // One call more, `travel` away.
    pub fn push(self, cid: usize, customer: Customer, travel: f64) -> BreakClock
        requires { self.index < 0xFFFF_FFFF_FFFF_FFFF }
        ensures { clock_of result ≡ push_f (clock_of self) cid (customer_of customer) travel }
    {
        let rest = self.rest;
        BreakClock {
            rest,
            before: self.skipped(customer, travel),
            after: self.taken(customer, travel),
            prev: cid,
            index: self.index + 1,
        }
    }

    // Whether some way of placing the break serves the calls so far; if not, no run that goes on from here has one.
    pub fn alive(self) -> bool
        ensures { result ≡ alive_f (clock_of self) }
    {
        self.before.is_some() || self.after.is_some()
    }

    // The label that counts: before the break where it needs none, and else after it.
    pub fn counts(self, back: f64) -> Option<Label>
        ensures { result ≡ counts_f back (clock_of self) }
    {
        let rest = self.rest;
        let before = self.before;
        let after = self.after;
        if is_excused(rest, before, back) {
            before
        } else {
            after
        }
    }

    // The run ended by the way back, with the distance travelled in all; none where no label counts.
    pub fn finish(self, distance: f64, back: f64) -> Option<Scheduled>
        ensures { result ≡ finish_f distance back (clock_of self) }
    {
        let l = self.counts(back)?;
        Some(l.home(distance, back))
    }
}
