// The lines of a plan: those of all its runs, those of all its dropped calls, and its total. The room asked for is that
// of the longest lines.
ghost use Rattle.std.specs.Prelude.{◌≡◌, ◌+◌, ◌*◌, ◌≤◌, map, length};
ghost use Rattle.definitions.specs.Drop as Drop;
ghost use Rattle.definitions.specs.Listing.{drop_lines};
ghost use Rattle.definitions.specs.RunList.{runs_of};
ghost use Rattle.theorems.proofs.RunListLaws.{RiseTo};
ghost use Rattle.listing_lines.specs.Number.{whole_part};
ghost use Rattle.listing_lines.specs.Put.{Put};
ghost use Rattle.listing_lines.specs.Plan.{runs_text, printed, result_text};

use crate::lines::{drop_line, run_line, total_line};
use crate::number::whole_part;

// The runs of a run list, each with the place of its break, from 1, or 0 for none, and its start.
pub fn run_lines(
    out: &mut [u8],
    at: usize,
    calls: &[usize],
    ends: &[usize],
    places: &[usize],
    starts: &[f64],
) -> usize
    requires rise_to { RiseTo 0 ends.now (length calls.now) }
    requires ends_in_bounds { (length ends.now ≤ length places.now) × (length ends.now ≤ length starts.now) }
    requires calls_in_bounds { at + (51 * length ends.now + 21 * length calls.now) ≤ length out.old }
    ensures text { let runs = runs_of calls.now ends.now in
        let text = runs_text runs places.now (map whole_part starts.now) in
        Put at text out.old out.new result }
    ensures short { result ≤ at + (51 * length ends.now + 21 * length calls.now) }
{
    let mut end = at;
    let mut from = 0;
    for (k, &to) in ends.iter().enumerate() {
        let start = whole_part(starts[k]);
        end = run_line(&mut *out, end, &calls[from..to], places[k], start);
        from = to;
    }
    end
}

// The customer of a call, a position of the tour from 1.
pub fn call_at(tour: &[usize], position: usize) -> usize
    ensures { result ≡ Drop.call_at tour.now position }
{
    tour.get(position.saturating_sub(1)).copied().unwrap_or(0)
}

// The dropped calls, in drop order.
pub fn drop_lines(out: &mut [u8], at: usize, tour: &[usize], dropped: &[usize]) -> usize
    requires { at + 26 * length dropped.now ≤ length out.old }
    ensures text { let text = drop_lines tour.now dropped.now in
        Put at text out.old out.new result }
    ensures short { result ≤ at + 26 * length dropped.now }
{
    let mut end = at;
    for &position in dropped {
        end = drop_line(&mut *out, end, call_at(tour, position));
    }
    end
}

// A plan of the tour: served customers, run ends, and the breaks of the runs; dropped positions; distance and cost.
pub fn plan_text(
    out: &mut [u8],
    at: usize,
    tour: &[usize],
    served: &[usize],
    ends: &[usize],
    places: &[usize],
    starts: &[f64],
    dropped: &[usize],
    distance: f64,
    cost: f64,
) -> usize
    requires rise_to { RiseTo 0 ends.now (length served.now) }
    requires ends_in_bounds { (length ends.now ≤ length places.now) × (length ends.now ≤ length starts.now) }
    requires lines_in_bounds { let lines = 51 * length ends.now + 21 * length served.now + 26 * length dropped.now + 110 in
        at + lines ≤ length out.old }
    ensures text { let x = printed served.now ends.now places.now dropped.now
        (whole_part distance) (whole_part cost) in
        let text = result_text tour.now x (map whole_part starts.now) in
        Put at text out.old out.new result }
    ensures short { result ≤ length out.old }
{
    let mut end = run_lines(&mut *out, at, served, ends, places, starts);
    end = drop_lines(&mut *out, end, tour, dropped);
    total_line(
        &mut *out,
        end,
        whole_part(distance),
        whole_part(cost),
        served,
        dropped,
    )
}
