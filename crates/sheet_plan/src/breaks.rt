// The breaks of a plan's runs, written into lent lists.
ghost use Rattle.std.specs.Prelude.{◌≡◌, ◌≤◌, length};
ghost use Rattle.basics.specs.Options.{value_or};
ghost use Rattle.whole.specs.Whole.{fl};
ghost use Rattle.definitions.specs.Room.{written};
ghost use Rattle.theorems.proofs.RunListLaws.{RiseTo};
ghost use Rattle.evaluation.specs.Records.{lent, limits_of, taken_of};
ghost use Rattle.sheet_plan.specs.Breaks.{break_by, breaks_f, places_in, starts_in};

use evaluation::route::Taken;
use models::customer::Customer;
use models::limits::RouteLimits;
use models::placement::Placement;
use placements::placed::eval_by;

// The break of a run, where the placement puts it; none in a run that isn't allowed.
fn break_by(
    run: &[usize],
    customers: [Customer; 64],
    distances: &[f64],
    times: &[f64],
    size: usize,
    limits: RouteLimits,
    placement: Placement,
) -> Taken
    ensures { let tables = lent customers distances.now times.now size in
        taken_of result ≡ break_by tables (limits_of limits) placement run.now }
{
    let Some(e) = eval_by(run, customers, distances, times, size, limits, placement) else {
        return Taken {
            place: 0,
            start: None,
        };
    };
    let start = e.start;
    Taken {
        place: e.place,
        start,
    }
}

// When a break starts, and 0 where there is none.
fn start_or_zero(start: Option<f64>) -> f64
    ensures { result ≡ value_or (fl 0) start }
{
    match start {
        None => 0.0,
        Some(time) => time,
    }
}

// At the front of the lists, for each run of a run list: the number of the call, from 1, at which it takes its break,
// where the placement puts that, and when the break starts; both are 0 where there is none.
pub fn write_breaks(
    calls: &[usize],
    ends: &[usize],
    customers: [Customer; 64],
    distances: &[f64],
    times: &[f64],
    size: usize,
    limits: RouteLimits,
    placement: Placement,
    places: &mut [usize],
    starts: &mut [f64],
)
    requires rise_to { RiseTo 0 ends.now (length calls.now) }
    requires ends_in_bounds { (length ends.now ≤ length places.old) × (length ends.now ≤ length starts.old) }
    ensures places { let t = lent customers distances.now times.now size in
        let breaks = breaks_f t (limits_of limits) placement calls.now ends.now in
        places.new ≡ written (places_in breaks) places.old }
    ensures starts { let t = lent customers distances.now times.now size in
        let breaks = breaks_f t (limits_of limits) placement calls.now ends.now in
        starts.new ≡ written (starts_in breaks) starts.old }
{
    let mut from = 0;
    for (k, &to) in ends.iter().enumerate() {
        let b = break_by(
            &calls[from..to],
            customers,
            distances,
            times,
            size,
            limits,
            placement,
        );
        places[k] = b.place;
        let start = b.start;
        starts[k] = start_or_zero(start);
        from = to;
    }
}
