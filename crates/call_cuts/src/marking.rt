// The marker on an array of customers: refused by number, or the verdict. The planner's cut, with its breaks where the
// placement puts them, is reckoned in arrays of the call's own, and the cutting is marked against it.
ghost use Rattle.std.specs.Prelude.{◌≡◌, false, ◌≤◌, length};
ghost use Rattle.cut_theory.specs.Tab.{most_cut};
ghost use Rattle.cut_stops.specs.Stops.{Below64};
ghost use Rattle.definitions.specs.Domain.{most_calls};
ghost use Rattle.definitions.specs.Refusals.{ends_fall};
ghost use Rattle.call_shared.specs.Answers.{Answers};
ghost use Rattle.call_cuts.specs.Marking.{mark_for, marked_f};

use byte_lists::widen;
use cut_table::cells::MOST_CUT;
use marker::verdict::Verdict;
use models::customer::Customer;
use models::domain::MOST_CALLS;
use models::head::Head;
use models::placement::Placement;
use refuse_order::by_call::refuse_marking;
use split_tw::split_tw::split_tw;

#[derive(Clone, Copy)]
pub enum Marking {
    Refused(u32),
    Verdict(Verdict),
}

// The mark without the refusals, on numbers, against the cut by the chosen placement.
fn mark_numbers(
    head: Head,
    all: [Customer; 64],
    distances: &[f64],
    times: &[f64],
    tour: &[usize],
    calls: &[usize],
    ends: &[usize],
    places: &[usize],
    chosen: Placement,
) -> Verdict
    requires tour_len_bound { (length tour.now ≤ most_cut) × Below64 tour.now }
    requires calls_len_bound { (length calls.now ≤ most_calls) × (length ends.now ≤ length places.now) }
    requires calls_value { ends_fall 0 ends.now (length calls.now) ≡ false }
    ensures { result ≡ marked_f head all distances.now times.now tour.now
        calls.now ends.now places.now chosen }
{
    let mut served = [0usize; MOST_CUT];
    let mut run_ends = [0usize; MOST_CUT];
    let mut dropped = [0usize; MOST_CUT];
    let cut = split_tw(
        tour,
        all,
        distances,
        times,
        head.places,
        head.capacity,
        head.fixed_cost,
        head.limits,
        chosen,
        &mut served,
        &mut run_ends,
        &mut dropped,
    );
    let held = cut.served;
    marker::mark::mark(
        &served[..held],
        cut.cost,
        calls,
        ends,
        places,
        all,
        distances,
        times,
        head,
    )
}

// `calls` and `ends` are the runs of the cutting, and `places` has a break place for each, all in bytes.
pub fn mark(
    head: Head,
    all: [Customer; 64],
    n: usize,
    distances: &[f64],
    times: &[f64],
    tour: &[usize],
    calls: &[u8],
    ends: &[u8],
    places: &[u8],
    placement: Placement,
) -> Marking
    ensures { let answered = mark_for head distances.now times.now tour.now
        calls.now ends.now places.now placement in
        Answers answered n all result }
{
    let number = refuse_marking(head, all, n, distances, times, tour, calls, ends, places);
    if number != 0 {
        return Marking::Refused(number);
    }
    let mut call_numbers = [0usize; MOST_CALLS];
    let many = widen(calls, &mut call_numbers);
    let mut end_numbers = [0usize; MOST_CALLS];
    let runs = widen(ends, &mut end_numbers);
    let mut place_numbers = [0usize; MOST_CALLS];
    let placed = widen(places, &mut place_numbers);
    let verdict = mark_numbers(
        head,
        all,
        distances,
        times,
        tour,
        &call_numbers[..many],
        &end_numbers[..runs],
        &place_numbers[..placed],
        placement,
    );
    Marking::Verdict(verdict)
}
