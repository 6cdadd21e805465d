// The two cuts with their lists stored in bytes: they are reckoned in arrays of numbers, and what is counted is stored,
// as far as there is room.
ghost use Rattle.std.specs.Prelude.{◌≤◌, length};
ghost use Rattle.cut_theory.specs.Tab.{most_cut};
ghost use Rattle.cut_stops.specs.Stops.{Below64};
ghost use Rattle.split_tw.specs.SplitTw.{split_tw_f};
ghost use Rattle.call_cuts.specs.Stored.{plain_of, timed_of, cut_lists, CutStored};

use byte_lists::narrow;
use cut_table::cells::MOST_CUT;
use models::customer::Customer;
use models::head::Head;
use models::placement::Placement;
use split::split::split;
use split_tw::answer::SplitResult;
use split_tw::split_tw::split_tw;

// By loads and closed legs alone.
pub fn split_stored(
    head: Head,
    all: [Customer; 64],
    distances: &[f64],
    times: &[f64],
    tour: &[usize],
    served: &mut [u8],
    run_ends: &mut [u8],
    dropped: &mut [u8],
) -> SplitResult
    requires { (length tour.now ≤ most_cut) × Below64 tour.now }
    ensures { let cut = split_tw_f (plain_of head all distances.now times.now) tour.now in
        let old = cut_lists served.old run_ends.old dropped.old in
        let new = cut_lists served.new run_ends.new dropped.new in
        CutStored cut result old new }
{
    let mut calls = [0usize; MOST_CUT];
    let mut ends = [0usize; MOST_CUT];
    let mut gone = [0usize; MOST_CUT];
    let counts = split(
        tour,
        all,
        distances,
        times,
        head.places,
        head.capacity,
        head.fixed_cost,
        &mut calls,
        &mut ends,
        &mut gone,
    );
    narrow(&calls, counts.served, &mut *served);
    narrow(&ends, counts.runs, &mut *run_ends);
    narrow(&gone, counts.dropped, &mut *dropped);
    counts
}

// By loads, closed legs, windows, limits and break, which goes where the placement puts it.
pub fn split_tw_stored(
    head: Head,
    all: [Customer; 64],
    distances: &[f64],
    times: &[f64],
    tour: &[usize],
    served: &mut [u8],
    run_ends: &mut [u8],
    dropped: &mut [u8],
    placement: Placement,
) -> SplitResult
    requires { (length tour.now ≤ most_cut) × Below64 tour.now }
    ensures { let I = timed_of head all distances.now times.now placement in
        let cut = split_tw_f I tour.now in
        let old = cut_lists served.old run_ends.old dropped.old in
        let new = cut_lists served.new run_ends.new dropped.new in
        CutStored cut result old new }
{
    let mut calls = [0usize; MOST_CUT];
    let mut ends = [0usize; MOST_CUT];
    let mut gone = [0usize; MOST_CUT];
    let counts = split_tw(
        tour,
        all,
        distances,
        times,
        head.places,
        head.capacity,
        head.fixed_cost,
        head.limits,
        placement,
        &mut calls,
        &mut ends,
        &mut gone,
    );
    narrow(&calls, counts.served, &mut *served);
    narrow(&ends, counts.runs, &mut *run_ends);
    narrow(&gone, counts.dropped, &mut *dropped);
    counts
}
