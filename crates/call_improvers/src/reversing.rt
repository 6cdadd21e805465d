// The reversal of stretches on an array of customers: refused by number with nothing written, or the run as it is left,
// in bytes.
ghost use Rattle.definitions.specs.Bytes.{numbers_of};
ghost use Rattle.call_improvers.specs.Reversing.{reverse_for, Reverses};

use byte_lists::{narrow, widen};
use improve_base::search::search_of;
use models::customer::Customer;
use models::domain::MOST_CALLS;
use models::head::Head;
use refuse_order::by_call::refuse_reversing;

// A run as it is left: how many calls are written, and its distance.
#[derive(Clone, Copy)]
pub struct ImprovedRun {
    pub calls: usize,
    pub distance: f64,
}

#[derive(Clone, Copy)]
pub enum Reversed {
    Refused(u32),
    Improved(ImprovedRun),
}

// Stretches of a run are reversed while that lowers its distance and keeps it allowed.
pub fn two_opt_improve(
    head: Head,
    all: [Customer; 64],
    n: usize,
    distances: &[f64],
    times: &[f64],
    run: &[u8],
    improved: &mut [u8],
) -> Reversed
    ensures { let old = improved.old in
        let calls = numbers_of run.now in
        let answered = reverse_for head distances.now times.now calls old in
        Reverses answered n all old result improved.new }
{
    let number = refuse_reversing(head, all, n, distances, times, run, improved.len());
    if number != 0 {
        return Reversed::Refused(number);
    }
    let search = search_of(all, head.places, head.limits);
    let mut calls = [0usize; MOST_CALLS];
    let k = widen(run, &mut calls);
    let mut turned = [0usize; MOST_CALLS];
    let distance = two_opt::two_opt::two_opt_improve(
        &calls[..k],
        all,
        distances,
        times,
        head.places,
        search,
        &mut turned,
    );
    narrow(&turned, run.len(), &mut *improved);
    Reversed::Improved(ImprovedRun {
        calls: run.len(),
        distance,
    })
}
