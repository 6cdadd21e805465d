// The mark of a cutting: its calls against those that the planner serves, its runs one by one, and its cost against the
// planner's.
ghost use Rattle.std.specs.Prelude.{◌≡◌, false, map, ◌≤◌, length};
ghost use Rattle.whole.specs.Whole.{fl};
ghost use Rattle.definitions.specs.Marker.{differ, with_places};
ghost use Rattle.definitions.specs.RunList.{runs_of};
ghost use Rattle.definitions.specs.Refusals.{ends_fall};
ghost use Rattle.models.specs.Records.{customer_of};
ghost use Rattle.evaluation.specs.Tables.{Asks};
ghost use Rattle.marker.specs.RunMark.{ground_of};
ghost use Rattle.marker.specs.Marks.{against_f, runs_mark_f, mark_f};

use crate::run::mark_run;
use crate::verdict::Verdict;
use evaluation::load::{Demands, demands_of};
use models::count::fewer;
use models::customer::Customer;
use models::head::Head;

// The position, from 1, where the lists differ first or one has ended; none where they are the same.
pub fn differ(calls: &[usize], served: &[usize]) -> Option<usize>
    ensures { result ≡ differ 1 calls.now served.now }
{
    if let Some(i) = calls.iter().zip(served).position(|(a, b)| a != b) {
        return Some(i + 1);
    }
    if calls.len() == served.len() {
        None
    } else {
        Some(fewer(calls.len(), served.len()) + 1)
    }
}

// The first fault of the runs, each with its break place, or the sum of their costs. Breaks beyond the runs are unread.
pub fn mark_runs(
    calls: &[usize],
    ends: &[usize],
    breaks: &[usize],
    customers: [Customer; 64],
    demands: &Demands,
    distances: &[f64],
    times: &[f64],
    head: Head,
) -> Result<f64, Verdict>
    requires calls_len_bound { (length calls.now ≤ 128) × (length ends.now ≤ length breaks.now) }
    requires asks { Asks (map customer_of customers) demands.now }
    requires calls_value { ends_fall 0 ends.now (length calls.now) ≡ false }
    ensures { let area = ground_of customers distances.now times.now head in
        let runs = runs_of calls.now ends.now in
        result ≡ runs_mark_f area 1 (fl 0) (with_places runs breaks.now) }
{
    let mut total = 0.0;
    let mut p = 0;
    for (k, &e) in ends.iter().enumerate() {
        let cost = mark_run(
            k + 1,
            &calls[p..e],
            breaks[k],
            customers,
            demands,
            distances,
            times,
            head,
        )?;
        total = total + cost;
        p = e;
    }
    Ok(total)
}

// The cost against the planner's.
pub fn against(planner: f64, cost: f64) -> Verdict
    ensures { result ≡ against_f planner cost }
{
    if planner < cost {
        return Verdict::Dearer { by: cost - planner };
    }
    if cost < planner {
        return Verdict::Cheaper { by: planner - cost };
    }
    Verdict::Best
}

// The mark of the runs, each with its break place, against the customers that the planner serves and its cost.
pub fn mark(
    served: &[usize],
    cost: f64,
    calls: &[usize],
    ends: &[usize],
    breaks: &[usize],
    customers: [Customer; 64],
    distances: &[f64],
    times: &[f64],
    head: Head,
) -> Verdict
    requires calls_len_bound { (length calls.now ≤ 128) × (length ends.now ≤ length breaks.now) }
    requires calls_value { ends_fall 0 ends.now (length calls.now) ≡ false }
    ensures { let area = ground_of customers distances.now times.now head in
        result ≡ mark_f area served.now cost calls.now ends.now breaks.now }
{
    if let Some(position) = differ(calls, served) {
        return Verdict::OtherCalls { position };
    }
    let demands = demands_of(customers);
    match mark_runs(
        calls, ends, breaks, customers, &demands, distances, times, head,
    ) {
        Err(v) => v,
        Ok(total) => against(cost, total),
    }
}
