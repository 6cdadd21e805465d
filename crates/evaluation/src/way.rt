// The way of a run with no break, from anywhere on: a call more, the calls that are left, and home.
ghost use Rattle.std.specs.Prelude.{◌≡◌, ◌<◌, length};
ghost use Rattle.basics.specs.Options.{value_or};
ghost use Rattle.distance.specs.Lookup.{drive_f};
ghost use Rattle.models.specs.Records.{customer_of};
ghost use Rattle.evaluation.specs.Records.{lent};
ghost use Rattle.evaluation.specs.Way.{start_way, way_on_f, way_f, plain_f, closed_f};

use crate::schedule::record_index;
use clock::schedule::{Label, Scheduled, serve};
use distance::leg::leg_between;
use models::customer::Customer;

// Some way through the calls: the distance travelled, the label, and the last place.
#[derive(Clone, Copy)]
pub struct Way {
    pub distance: f64,
    pub label: Label,
    pub prev: usize,
}

impl Way {
    // Before the first call.
    pub fn start() -> Way
        ensures { result ≡ start_way }
    {
        Way {
            distance: 0.0,
            label: Label::start(),
            prev: 0,
        }
    }

    // One call more, `leg` far and `travel` long away; none where its window fails.
    pub fn on(self, cid: usize, customer: Customer, leg: f64, travel: f64) -> Option<Way>
        ensures { result ≡ way_on_f (customer_of customer) leg travel self cid }
    {
        let label = self.label;
        let l = serve(label, travel, customer, 0, None)?;
        Some(Way {
            distance: self.distance + leg,
            label: l,
            prev: cid,
        })
    }
}

// The way on through these calls; none where a window fails or a leg is closed.
pub fn way_through(
    from: Way,
    calls: &[usize],
    customers: [Customer; 64],
    distances: &[f64],
    times: &[f64],
    size: usize,
) -> Option<Way>
    ensures { let tables = lent customers distances.now times.now size in
        result ≡ way_f tables from calls.now }
{
    let mut way = from;
    for &cid in calls {
        let prev = way.prev;
        let leg = leg_between(distances, times, size, prev, cid)?;
        let index = record_index(cid);
        let w = way.on(cid, customers[index], leg.distance, leg.time)?;
        way = w;
    }
    Some(way)
}

// The totals of a run that these calls end, if it can be had.
pub fn plain_from(
    from: Way,
    calls: &[usize],
    customers: [Customer; 64],
    distances: &[f64],
    times: &[f64],
    size: usize,
) -> Option<Scheduled>
    ensures { let tables = lent customers distances.now times.now size in
        result ≡ plain_f tables from calls.now }
{
    let d = way_through(from, calls, customers, distances, times, size)?;
    let label = d.label;
    let prev = d.prev;
    let back = leg_between(distances, times, size, prev, 0)?;
    Some(label.home(d.distance + back.distance, back.time))
}

// The number of the first closed leg of a run, from 1, which leaves the depot, to the way home; 0 where none is closed.
pub fn first_closed(route: &[usize], distances: &[f64], times: &[f64], size: usize) -> usize
    requires { length route.now < 0xFFFF_FFFF_FFFF_FFFF }
    ensures { let leg = drive_f distances.now times.now size in
        result ≡ value_or 0 (closed_f leg 1 0 route.now) }
{
    let mut prev = 0;
    for (i, &cid) in route.iter().enumerate() {
        let Some(_) = leg_between(distances, times, size, prev, cid) else {
            return i + 1;
        };
        prev = cid;
    }
    match leg_between(distances, times, size, prev, 0) {
        Some(_) => 0,
        None => route.len() + 1,
    }
}
