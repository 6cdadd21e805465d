// What the cut reads of each place and leg (ga/split_tw.rs looks it up anew for every run), worked out
// once as lists of numbers: these can be lent to every row, where a table of records would be copied. A
// closed leg to a call stands there as the number that the tables have for it, in distance and in time alike,
// so one look at the distance says whether it is open; where it is not, the row ends. A closed way home stands
// there as NaN: the cost of a run that ends with it is NaN too, and that is below no other cost, so no cell of
// the table ever takes it, and no row looks whether the way home is open.
ghost use Rattle.std.specs.Prelude.{◌≡◌, ◌+◌, ◌*◌, ◌<◌, ◌≤◌, length};
ghost use Rattle.std.proofs.lemmas.List.Edits.{sets};
ghost use Rattle.std.specs.Float.{nan};
ghost use Rattle.cut_theory.specs.Tab.{most_cut};
ghost use Rattle.distance.specs.Lookup.{drive_f};
ghost use Rattle.models.specs.Records.{window_of, opening_of, customer_of};
ghost use Rattle.evaluation.specs.Records.{lent};
ghost use Rattle.cut_stops.specs.Stops.{opening_at, penalty_at, code, times_in, price_in, stop_of, codes_of, record_figures, leg_figures, codes_each, figures_each, numbers, Long, stop_at, StopsOf, Below64, leg_lists, LegsLong, LegsWritten};

use crate::between::listed_between;
use cut_table::cells::MOST_CUT;
use distance::matrix::no_road;
use evaluation::route::place_before;
use models::customer::{Customer, TimeWindow};
use models::load::Space;

// So many codes (demand in each measure, window, penalty) and figures (four legs, and four of the record)
// has a place, and so many have all 64.
const CODES: usize = 4;

const FIGURES: usize = 8;

pub const ALL_CODES: usize = 64 * CODES;

pub const ALL_FIGURES: usize = 64 * FIGURES;

// A place: its record, and the legs from the depot and home, in distance and in time, as the lists have them.
#[derive(Clone, Copy)]
pub struct Stop {
    pub customer: Customer,
    pub out: f64,
    pub back: f64,
    pub time_out: f64,
    pub time_back: f64,
}

// An opening from its code, which is 1 where there is a window, and its times.
fn opening_of(windowed: u32, ready: f64, due: f64) -> Option<TimeWindow>
    ensures { opening_of result ≡ opening_at windowed ready due }
{
    if windowed == 1 {
        Some(TimeWindow { ready, due })
    } else {
        None
    }
}

// A penalty from its code, which is 1 where there is one, and its price.
fn penalty_of(charged: u32, each: f64) -> Option<f64>
    ensures { result ≡ penalty_at charged each }
{
    if charged == 1 { Some(each) } else { None }
}

// The record of place c, from the lists.
pub fn customer_at(codes: &[u32], figures: &[f64], c: usize) -> Customer
    requires { Long (numbers codes.now figures.now) × (c < 64) }
    ensures { customer_of result ≡ (stop_at (numbers codes.now figures.now) c).customer }
{
    let k = CODES * c;
    let f = FIGURES * c;
    let seats = codes[k];
    let wheelchairs = codes[k + 1];
    let service = figures[f + 4];
    Customer {
        demand: Space { seats, wheelchairs },
        service_duration: service,
        time_window: opening_of(codes[k + 2], figures[f + 5], figures[f + 6]),
        lateness_penalty: penalty_of(codes[k + 3], figures[f + 7]),
    }
}

// Place c, from the lists.
pub fn stop_at(codes: &[u32], figures: &[f64], c: usize) -> Stop
    requires { Long (numbers codes.now figures.now) × (c < 64) }
    ensures { stop_of result ≡ stop_at (numbers codes.now figures.now) c }
{
    let f = FIGURES * c;
    Stop {
        customer: customer_at(codes, figures, c),
        out: figures[f],
        back: figures[f + 1],
        time_out: figures[f + 2],
        time_back: figures[f + 3],
    }
}

// The code of an opening.
fn opening_code(opening: Option<TimeWindow>) -> u32
    ensures { result ≡ code (opening_of opening) }
{
    match opening {
        None => 0,
        Some(_) => 1,
    }
}

// The times of an opening; zeros stand where there is no window.
fn opening_times(opening: Option<TimeWindow>) -> TimeWindow
    ensures { window_of result ≡ times_in (opening_of opening) }
{
    match opening {
        None => TimeWindow {
            ready: 0.0,
            due: 0.0,
        },
        Some(w) => w,
    }
}

// The code of a penalty.
fn penalty_code(penalty: Option<f64>) -> u32
    ensures { result ≡ code penalty }
{
    match penalty {
        None => 0,
        Some(_) => 1,
    }
}

// The price of a penalty; zero stands where there is none.
fn penalty_price(penalty: Option<f64>) -> f64
    ensures { result ≡ price_in penalty }
{
    match penalty {
        None => 0.0,
        Some(each) => each,
    }
}

// Puts the record of place c into the lists.
pub fn put_customer(
    customer: Customer,
    c: usize,
    codes: &mut [u32; ALL_CODES],
    figures: &mut [f64; ALL_FIGURES],
)
    requires { c < 64 }
    ensures codes_after { codes.new ≡ sets codes.old (codes_each * c) (codes_of (customer_of customer)) }
    ensures figures_after { let old = figures.old in
        figures.new ≡ sets old (figures_each * c + 4) (record_figures (customer_of customer)) }
{
    let opening = customer.time_window;
    let penalty = customer.lateness_penalty;
    let times = opening_times(opening);
    let k = CODES * c;
    codes[k] = customer.demand.seats;
    codes[k + 1] = customer.demand.wheelchairs;
    codes[k + 2] = opening_code(opening);
    codes[k + 3] = penalty_code(penalty);
    let f = FIGURES * c;
    figures[f + 4] = customer.service_duration;
    figures[f + 5] = times.ready;
    figures[f + 6] = times.due;
    figures[f + 7] = penalty_price(penalty);
}

// What stands for a closed way home.
fn no_number() -> f64
    ensures { result ≡ nan }
{
    0.0 / 0.0
}

// Puts the legs of place c into the lists.
pub fn put_legs(
    distances: &[f64],
    times: &[f64],
    size: usize,
    c: usize,
    figures: &mut [f64; ALL_FIGURES],
)
    requires { c < 64 }
    ensures { let leg = drive_f distances.now times.now size in
        figures.new ≡ sets figures.old (figures_each * c) (leg_figures leg c) }
{
    let out = listed_between(distances, times, size, 0, c, no_road());
    let back = listed_between(distances, times, size, c, 0, no_number());
    let f = FIGURES * c;
    figures[f] = out.distance;
    figures[f + 1] = back.distance;
    figures[f + 2] = out.time;
    figures[f + 3] = back.time;
}

// Works out the places of these calls.
pub fn work_out_calls(
    calls: &[usize],
    customers: [Customer; 64],
    distances: &[f64],
    times: &[f64],
    size: usize,
    codes: &mut [u32; ALL_CODES],
    figures: &mut [f64; ALL_FIGURES],
)
    requires { Long (numbers codes.old figures.old) × Below64 calls.now }
    ensures { let t = lent customers distances.now times.now size in
        StopsOf t calls.now (numbers codes.new figures.new) }
{
    for &c in calls {
        put_legs(distances, times, size, c, &mut *figures);
        put_customer(customers[c], c, &mut *codes, &mut *figures);
    }
}

// Works out the legs between the calls held, each from the call before it, from number `from` on.
pub fn write_legs(
    distances: &[f64],
    times: &[f64],
    size: usize,
    held: &[usize],
    from: usize,
    legs: &mut [f64; MOST_CUT],
    time_legs: &mut [f64; MOST_CUT],
)
    requires { (length held.now ≤ most_cut) × LegsLong (leg_lists legs.old time_legs.old) }
    ensures { let by = drive_f distances.now times.now size in
        let old = leg_lists legs.old time_legs.old in
        let new = leg_lists legs.new time_legs.new in
        LegsWritten by held.now from old new }
{
    for k in from..held.len() {
        let prev = place_before(held, k);
        let cid = held[k];
        let leg = listed_between(distances, times, size, prev, cid, no_road());
        legs[k] = leg.distance;
        time_legs[k] = leg.time;
    }
}
