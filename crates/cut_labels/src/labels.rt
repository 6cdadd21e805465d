// The labels of a run that has taken its break, one for each call at which it was taken: label k has its time,
// lateness, lateness cost and place at k of four lists. Those that are left stand at the front, in the order of their
// places.
ghost use Rattle.std.specs.Prelude.{◌≡◌, ◌||◌, ◌<◌, ◌≤◌, ltb};
ghost use Rattle.basics.specs.Options.{present};
ghost use Rattle.cut_theory.specs.Tab.{cells};
ghost use Rattle.models.specs.Records.{customer_of, break_of};
ghost use Rattle.clock.specs.Least.{limits_on};
ghost use Rattle.cut_labels.specs.Labels.{lists, label_at, labels_in, Full, Put, Carried, Served, unbroken_f, best_f};

use clock::least::{excused_home, kept_home, pick};
use clock::schedule::{Label, Scheduled, carry, serve};
use cut_table::cells::CELLS;
use models::customer::Customer;
use models::limits::RouteLimits;
use models::vehicle::VehicleBreak;

// Label number k, from 0.
pub fn label_at(
    times: &[f64; CELLS],
    lates: &[f64; CELLS],
    pays: &[f64; CELLS],
    places: &[usize; CELLS],
    k: usize,
) -> Label
    requires { k < cells }
    ensures { let x = lists times.now lates.now pays.now places.now in
        result ≡ label_at x k }
{
    Label {
        time: times[k],
        lateness: lates[k],
        cost: pays[k],
        place: places[k],
    }
}

// Puts a label, if there is one, behind the first n. Gives how many there are then.
pub fn put(
    times: &mut [f64; CELLS],
    lates: &mut [f64; CELLS],
    pays: &mut [f64; CELLS],
    places: &mut [usize; CELLS],
    n: usize,
    label: Option<Label>,
) -> usize
    requires { Full (lists times.old lates.old pays.old places.old) × (n < cells) }
    ensures { let old = lists times.old lates.old pays.old places.old in
        let new = lists times.new lates.new pays.new places.new in
        Put n label old new result }
{
    let Some(l) = label else {
        return n;
    };
    times[n] = l.time;
    lates[n] = l.lateness;
    pays[n] = l.cost;
    places[n] = l.place;
    n + 1
}

// Call number `index`, `travel` away, served by each of the n labels. Those that can't serve it are left out. Gives how
// many are left.
pub fn carry_on(
    times: &mut [f64; CELLS],
    lates: &mut [f64; CELLS],
    pays: &mut [f64; CELLS],
    places: &mut [usize; CELLS],
    n: usize,
    travel: f64,
    customer: Customer,
    index: usize,
) -> usize
    requires { Full (lists times.old lates.old pays.old places.old) × (n ≤ cells) }
    ensures { let old = lists times.old lates.old pays.old places.old in
        let new = lists times.new lates.new pays.new places.new in
        Carried (customer_of customer) index travel n old new result }
{
    let mut left = 0;
    for k in 0..n {
        let label = label_at(&*times, &*lates, &*pays, &*places, k);
        let next = serve(label, travel, customer, index, None);
        left = put(
            &mut *times,
            &mut *lates,
            &mut *pays,
            &mut *places,
            left,
            next,
        );
    }
    left
}

// Call number `index`, `travel` away, served with the break taken before or here: the n labels carried on, and behind
// them that of `before` with the break here, if it can be. Gives how many there are then.
pub fn call_served(
    times: &mut [f64; CELLS],
    lates: &mut [f64; CELLS],
    pays: &mut [f64; CELLS],
    places: &mut [usize; CELLS],
    n: usize,
    before: Option<Label>,
    travel: f64,
    customer: Customer,
    index: usize,
    rest: VehicleBreak,
) -> usize
    requires { Full (lists times.old lates.old pays.old places.old) × (n < cells) }
    ensures { let old = lists times.old lates.old pays.old places.old in
        let new = lists times.new lates.new pays.new places.new in
        Served (customer_of customer) (break_of rest) index travel before n old new result }
{
    let left = carry_on(
        &mut *times,
        &mut *lates,
        &mut *pays,
        &mut *places,
        n,
        travel,
        customer,
        index,
    );
    let here = carry(before, travel, customer, index, Some(rest));
    put(
        &mut *times,
        &mut *lates,
        &mut *pays,
        &mut *places,
        left,
        here,
    )
}

// Whether a label is left, before the break or after it.
pub fn some_left(before: Option<Label>, n: usize) -> bool
    ensures { result ≡ (present before || ltb 0 n) }
{
    match before {
        Some(_) => true,
        None => 0 < n,
    }
}

// Home without a break, of a label that may be none.
pub fn unbroken_home(
    before: Option<Label>,
    rest: VehicleBreak,
    limits: RouteLimits,
    distance: f64,
    back: f64,
) -> Option<Scheduled>
    ensures { result ≡ unbroken_f (limits_on limits) distance back (break_of rest) before }
{
    match before {
        None => None,
        Some(l) => excused_home(l, rest, limits, distance, back),
    }
}

// The best way home, among those that keep the limits: without a break where the run needs none, and else with one of
// the n labels; of equals the first.
pub fn best_home(
    times: &[f64; CELLS],
    lates: &[f64; CELLS],
    pays: &[f64; CELLS],
    places: &[usize; CELLS],
    n: usize,
    before: Option<Label>,
    rest: VehicleBreak,
    limits: RouteLimits,
    distance: f64,
    back: f64,
) -> Option<Scheduled>
    requires { n ≤ cells }
    ensures { let x = lists times.now lates.now pays.now places.now in
        result ≡ best_f (limits_on limits) distance back (break_of rest) before (labels_in x n) }
{
    let mut best = unbroken_home(before, rest, limits, distance, back);
    for k in 0..n {
        let label = label_at(times, lates, pays, places, k);
        best = pick(best, kept_home(label, limits, distance, back));
    }
    best
}
