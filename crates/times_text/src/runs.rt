// The timelines of runs, one after the other. The room asked for is that of the longest lines: 550 bytes for a call
// with its violation, and 900 for the rest of a run.
ghost use Rattle.std.specs.Prelude.{◌≡◌, ◌+◌, ◌*◌, ◌≤◌, length};
ghost use Rattle.basics.specs.Lists.{All};
ghost use Rattle.definitions.specs.Marker.{with_places};
ghost use Rattle.definitions.specs.RunList.{runs_of};
ghost use Rattle.theorems.proofs.RunListLaws.{RiseTo};
ghost use Rattle.models.specs.Load.{space_of};
ghost use Rattle.evaluation.specs.Records.{lent, limits_of};
ghost use Rattle.listing_lines.specs.Put.{Put};
ghost use Rattle.times_text.specs.Runs.{Own, run_of, run_times_f, times_f};

use models::customer::Customer;
use models::head::Head;
use timeline::timeline::timeline_of;
use times_lines::run::run_lines;

// Run n, with its break at this place.
pub fn run_text(
    out: &mut [u8],
    at: usize,
    n: u64,
    route: &[usize],
    place: usize,
    customers: [Customer; 64],
    distances: &[f64],
    times: &[f64],
    head: Head,
) -> usize
    requires route_len_bound { (length route.now ≤ 128) × (place ≤ length route.now) }
    requires route_in_bounds { at + (550 * length route.now + 920) ≤ length out.old }
    ensures text { let tables = lent customers distances.now times.now head.places in
        let run = run_of route.now place in
        let text = run_times_f tables (space_of head.capacity) (limits_of head.limits) n run in
        Put at text out.old out.new result }
    ensures short { result ≤ at + (550 * length route.now + 900) }
{
    let limits = head.limits;
    let told = timeline_of(
        route,
        customers,
        distances,
        times,
        head.places,
        head.capacity,
        limits,
        place,
    );
    let run = told.run;
    let begins = told.begins;
    let rest = limits.rest;
    run_lines(&mut *out, at, n, run, begins, customers, rest, place)
}

// All runs of a run list, each with the place of its break.
pub fn runs_text(
    out: &mut [u8],
    calls: &[usize],
    ends: &[usize],
    places: &[usize],
    customers: [Customer; 64],
    distances: &[f64],
    times: &[f64],
    head: Head,
) -> usize
    requires rise_to { RiseTo 0 ends.now (length calls.now) }
    requires calls_len_bound { (length calls.now ≤ 128) × (length ends.now ≤ length places.now) }
    requires all { All Own (with_places (runs_of calls.now ends.now) places.now) }
    requires ends_in_bounds { 550 * length calls.now + 900 * length ends.now + 20 ≤ length out.old }
    ensures text { let tables = lent customers distances.now times.now head.places in
        let runs = with_places (runs_of calls.now ends.now) places.now in
        let text = times_f tables (space_of head.capacity) (limits_of head.limits) 1 runs in
        Put 0 text out.old out.new result }
    ensures short { result ≤ length out.old }
{
    let mut end = 0;
    let mut from = 0;
    for (k, &to) in ends.iter().enumerate() {
        end = run_text(
            &mut *out,
            end,
            (k + 1) as u64,
            &calls[from..to],
            places[k],
            customers,
            distances,
            times,
            head,
        );
        from = to;
    }
    end
}
