// Work done a number of times on a sheet that is read once.
ghost use Rattle.std.specs.Prelude.{◌≡◌, false};
ghost use Rattle.definitions.specs.Reader as Reader;
ghost use Rattle.improve_base.specs.Leg.{AllOpen, shut};
ghost use Rattle.sheet_loaded.specs.Held.{Found};
ghost use Rattle.bench_timing.specs.Work.{Callable, instance_in, split_tw_cost, split_cost, reversed_distance, runs_left, work_f, barred, gives_f, last_of, timed};

use crate::every::write_every;
use cut_table::cells::MOST_CUT;
use improve_base::search::search_of;
use models::placement::Placement;
use refuse_numbers::closures::any_closed;
use route_elimination::route_elimination::eliminate_routes;
use sheet_loaded::load::{Loaded, load};
use sheet_read::read::{Contents, Reading, read};
use split::split::split;
use split_tw::split_tw::split_tw;
use two_opt::two_opt::two_opt_improve;

#[derive(Clone, Copy)]
pub enum Work {
    // With breaks where this placement puts them.
    SplitTw(Placement),
    Split,
    // The tour as one run.
    TwoOpt,
    // The tour cut into runs of so many calls.
    Eliminate(usize),
}

// The cost of the cut by capacity, windows, limits and break.
fn split_tw_cost(
    placement: Placement,
    tour: &[usize],
    held: Loaded,
    distances: &[f64],
    times: &[f64],
    served: &mut [usize; 128],
    ends: &mut [usize; 128],
    dropped: &mut [usize; 128],
) -> f64
    requires { Callable tour.now }
    ensures { let sheet = instance_in held distances.now times.now in
        result ≡ split_tw_cost placement sheet tour.now }
{
    let head = held.head;
    let customers = held.customers;
    let cut = split_tw(
        tour,
        customers,
        distances,
        times,
        head.places,
        head.capacity,
        head.fixed_cost,
        head.limits,
        placement,
        &mut *served,
        &mut *ends,
        &mut *dropped,
    );
    cut.cost
}

// The cost of the cut by loads and closed legs alone.
fn split_cost(
    tour: &[usize],
    held: Loaded,
    distances: &[f64],
    times: &[f64],
    served: &mut [usize; 128],
    ends: &mut [usize; 128],
    dropped: &mut [usize; 128],
) -> f64
    requires { Callable tour.now }
    ensures { let sheet = instance_in held distances.now times.now in
        result ≡ split_cost sheet tour.now }
{
    let head = held.head;
    let customers = held.customers;
    let cut = split(
        tour,
        customers,
        distances,
        times,
        head.places,
        head.capacity,
        head.fixed_cost,
        &mut *served,
        &mut *ends,
        &mut *dropped,
    );
    cut.cost
}

// The distance of the tour after the reversals.
fn reversed_distance(
    tour: &[usize],
    held: Loaded,
    distances: &[f64],
    times: &[f64],
    current: &mut [usize; 128],
) -> f64
    requires callable { Callable tour.now }
    requires all_open { AllOpen distances.now × AllOpen times.now }
    ensures { let sheet = instance_in held distances.now times.now in
        result ≡ reversed_distance sheet tour.now }
{
    let head = held.head;
    let customers = held.customers;
    let search = search_of(customers, head.places, head.limits);
    two_opt_improve(
        tour,
        customers,
        distances,
        times,
        head.places,
        search,
        &mut *current,
    )
}

// How many runs are left of those of so many calls.
fn runs_left(
    run: usize,
    tour: &[usize],
    held: Loaded,
    distances: &[f64],
    times: &[f64],
    calls: &mut [usize; 128],
    ends: &mut [usize; 128],
) -> f64
    requires callable { Callable tour.now }
    requires all_open { AllOpen distances.now × AllOpen times.now }
    ensures { let sheet = instance_in held distances.now times.now in
        result ≡ runs_left run sheet tour.now }
{
    let head = held.head;
    let customers = held.customers;
    let mut given = [0usize; 128];
    let many = write_every(tour.len(), run, &mut given);
    let search = search_of(customers, head.places, head.limits);
    let left = eliminate_routes(
        tour,
        &given[..many],
        customers,
        distances,
        times,
        head.places,
        head.capacity,
        head.fixed_cost,
        search,
        &mut *calls,
        &mut *ends,
    );
    std::num::nearest_u64_to_f64(left.runs as u64)
}

// One round. The arrays are for what the work writes.
fn once(
    work: Work,
    tour: &[usize],
    held: Loaded,
    distances: &[f64],
    times: &[f64],
    first: &mut [usize; 128],
    second: &mut [usize; 128],
    third: &mut [usize; 128],
) -> f64
    requires callable { Callable tour.now }
    requires times_value { barred work distances.now times.now ≡ false }
    ensures { let sheet = instance_in held distances.now times.now in
        result ≡ work_f work sheet tour.now }
{
    match work {
        Work::SplitTw(placement) => split_tw_cost(
            placement,
            tour,
            held,
            distances,
            times,
            &mut *first,
            &mut *second,
            &mut *third,
        ),
        Work::Split => split_cost(
            tour,
            held,
            distances,
            times,
            &mut *first,
            &mut *second,
            &mut *third,
        ),
        Work::TwoOpt => reversed_distance(tour, held, distances, times, &mut *first),
        Work::Eliminate(run) => runs_left(
            run,
            tour,
            held,
            distances,
            times,
            &mut *first,
            &mut *second,
        ),
    }
}

// What the last of n rounds gives.
fn repeated(
    n: u32,
    work: Work,
    tour: &[usize],
    held: Loaded,
    distances: &[f64],
    times: &[f64],
) -> f64
    requires callable { Callable tour.now }
    requires times_value { barred work distances.now times.now ≡ false }
    ensures { let sheet = instance_in held distances.now times.now in
        result ≡ last_of n (work_f work sheet tour.now) }
{
    let mut first = [0usize; 128];
    let mut second = [0usize; 128];
    let mut third = [0usize; 128];
    let mut given = 0.0;
    for _ in 0..n {
        given = once(
            work,
            tour,
            held,
            distances,
            times,
            &mut first,
            &mut second,
            &mut third,
        );
    }
    given
}

// Whether one of the two tables closes a leg.
fn is_shut(distances: &[f64], times: &[f64]) -> bool
    ensures { result ≡ shut distances.now times.now }
{
    any_closed(distances) || any_closed(times)
}

// Whether a closed leg bars the work: the improvers take none.
fn is_barred(work: Work, distances: &[f64], times: &[f64]) -> bool
    ensures { result ≡ barred work distances.now times.now }
{
    match work {
        Work::SplitTw(_) => false,
        Work::Split => false,
        Work::TwoOpt => is_shut(distances, times),
        Work::Eliminate(_) => is_shut(distances, times),
    }
}

// The same where the work takes the sheet, and else 0.
fn rounds(n: u32, work: Work, tour: &[usize], held: Loaded, distances: &[f64], times: &[f64]) -> f64
    requires { Callable tour.now }
    ensures { let sheet = instance_in held distances.now times.now in
        result ≡ last_of n (gives_f work sheet tour.now) }
{
    if is_barred(work, distances, times) {
        return 0.0;
    }
    repeated(n, work, tour, held, distances, times)
}

// The same on an accepted sheet.
fn on_sheet(bytes: &[u8], found: Contents, work: Work, n: u32) -> f64
    requires { Found bytes.now found }
    ensures { result ≡ timed work n (Reader.read bytes.now) }
{
    let mut distances = [0.0; 4096];
    let mut times = [0.0; 4096];
    let mut tour = [0usize; MOST_CUT];
    let held = load(bytes, found, &mut distances, &mut times, &mut tour);
    rounds(
        n,
        work,
        &tour[..held.calls],
        held,
        &distances[..held.distance_count],
        &times[..held.time_count],
    )
}

// The same on any bytes: 0 where they are refused.
pub fn on_bytes(bytes: &[u8], work: Work, n: u32) -> f64
    ensures { result ≡ timed work n (Reader.read bytes.now) }
{
    match read(bytes) {
        Reading::Refused(_, _) => 0.0,
        Reading::Sheet(found) => on_sheet(bytes, found, work, n),
    }
}
