// The cutting of a tour on an array of customers: refused by number with nothing written, or the counts
// of the lists that are written, in bytes.
ghost use Rattle.call_cuts.specs.Cutting.{split_for, split_tw_for, Cuts};

use crate::stored::{split_stored, split_tw_stored};
use models::customer::Customer;
use models::head::Head;
use models::placement::Placement;
use refuse_order::by_call::refuse_cutting;
use split_tw::answer::SplitResult;

// What is written is told by its counts.
#[derive(Clone, Copy)]
pub enum Cut {
    Refused(u32),
    Cut(SplitResult),
}

// By loads and closed legs alone.
pub fn split(
    head: Head,
    all: [Customer; 64],
    n: usize,
    distances: &[f64],
    times: &[f64],
    tour: &[usize],
    served: &mut [u8],
    run_ends: &mut [u8],
    dropped: &mut [u8],
) -> Cut
    ensures { let old = served.old in
        let ends = run_ends.old in
        let gone = dropped.old in
        let calls = tour.now in
        let answered = split_for head distances.now times.now calls old ends gone in
        Cuts answered n all old ends gone result served.new run_ends.new dropped.new }
{
    let number = refuse_cutting(
        head,
        all,
        n,
        distances,
        times,
        tour,
        served.len(),
        run_ends.len(),
        dropped.len(),
    );
    if number != 0 {
        return Cut::Refused(number);
    }
    let counts = split_stored(
        head,
        all,
        distances,
        times,
        tour,
        &mut *served,
        &mut *run_ends,
        &mut *dropped,
    );
    Cut::Cut(counts)
}

// By loads, closed legs, windows, limits and break, which goes where the placement puts it.
pub fn split_tw(
    head: Head,
    all: [Customer; 64],
    n: usize,
    distances: &[f64],
    times: &[f64],
    tour: &[usize],
    served: &mut [u8],
    run_ends: &mut [u8],
    dropped: &mut [u8],
    placement: Placement,
) -> Cut
    ensures { let old = served.old in
        let ends = run_ends.old in
        let gone = dropped.old in
        let calls = tour.now in
        let answered = split_tw_for head distances.now times.now calls old ends gone placement in
        Cuts answered n all old ends gone result served.new run_ends.new dropped.new }
{
    let number = refuse_cutting(
        head,
        all,
        n,
        distances,
        times,
        tour,
        served.len(),
        run_ends.len(),
        dropped.len(),
    );
    if number != 0 {
        return Cut::Refused(number);
    }
    let counts = split_tw_stored(
        head,
        all,
        distances,
        times,
        tour,
        &mut *served,
        &mut *run_ends,
        &mut *dropped,
        placement,
    );
    Cut::Cut(counts)
}
