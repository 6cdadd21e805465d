// Whether a run may take a customer at a place: it is not too long with it and in time, where that is asked.
ghost use Rattle.std.specs.Prelude.{◌≡◌, true, false, cond, ◌&&◌, ◌≤◌, length};
ghost use Rattle.std.specs.Float.Ieee as Ieee;
ghost use Rattle.std.specs.Float.{binary64};
ghost use Rattle.models.specs.Limits.{within_f};
ghost use Rattle.cut_stops.specs.Stops.{numbers, Long};
ghost use Rattle.improve_base.specs.Leg.{AllOpen};
ghost use Rattle.improve_runs.specs.RunLists.{room, Sound, runs, runs_in, run_at};
ghost use Rattle.latest.specs.Floats.{day_in, times_in, between_f};
ghost use Rattle.place_choice.specs.Insertion.{given_in, pays_f, fits_in_f, allowed_f, Inside};

use crate::insertion::Spot;
use evaluation::route::place_before;
use improve_base::route::{is_too_far, limited_distance};
use improve_base::search::Search;
use latest::backward::{bounds_from, fits_between};
use latest::hours::{Day, day_of};
use latest::onward::{Times, serve_all, set_out};
use models::load::Space;

// What is given beside the lists of records and the leg tables.
#[derive(Clone, Copy)]
pub struct Given {
    // the rows of the leg tables
    pub size: usize,
    pub capacity: Space,
    // the fixed run cost
    pub fixed: f64,
    // what an improver is told of the sheet
    pub search: Search,
}

// A customer that is to be placed, what has been added before it, and what is saved.
#[derive(Clone, Copy)]
pub struct Mover {
    pub call: usize,
    pub added: f64,
    pub saved: f64,
}

impl Mover {
    // Whether less is added than is saved where it adds so much.
    pub fn pays(self, cost: f64) -> bool
        ensures { result ≡ pays_f self cost }
    {
        self.added + cost < self.saved
    }
}

// Whether a run is not too long and in time with c at a place of its own.
pub fn fits_in(
    route: &[usize],
    spot: Spot,
    c: usize,
    given: Given,
    codes: &[u32],
    figures: &[f64],
    distances: &[f64],
    times: &[f64],
) -> bool
    requires fact { let lists = numbers codes.now figures.now in
        Long lists × (length route.now ≤ room) × (spot.pos ≤ length route.now) }
    requires all_open { AllOpen distances.now × AllOpen times.now }
    ensures { let lists = numbers codes.now figures.now in
        let G = given_in given lists distances.now times.now in
        result ≡ fits_in_f G c route.now spot.pos spot.cost }
{
    let search = given.search;
    let limits = search.limits;
    let size = given.size;
    let pos = spot.pos;
    let far = limited_distance(limits, route, distances, size);
    if is_too_far(limits, far + spot.cost) {
        return false;
    }
    let day = day_of(limits);
    let left = serve_all(
        day,
        set_out(),
        0,
        &route[..pos],
        codes,
        figures,
        distances,
        times,
        size,
    );
    let due = bounds_from(day, route, pos, codes, figures, distances, times, size);
    fits_between(
        day, left, due, route, pos, c, codes, figures, distances, times, size,
    )
}

// Whether the run of a place may take c there, where that is asked.
pub fn is_allowed(
    calls: &[usize],
    ends: &[usize],
    many: usize,
    count: usize,
    spot: Spot,
    c: usize,
    given: Given,
    codes: &[u32],
    figures: &[f64],
    distances: &[f64],
    times: &[f64],
) -> bool
    requires fact { let rest = runs calls.now ends.now many count in
        Sound rest × Inside (runs_in rest) spot × Long (numbers codes.now figures.now) }
    requires all_open { AllOpen distances.now × AllOpen times.now }
    ensures result_value { let lists = numbers codes.now figures.now in
        let G = given_in given lists distances.now times.now in
        let rest = runs_in (runs calls.now ends.now many count) in
        result ≡ allowed_f G c (run_at rest spot.run) spot }
    ensures constrained_value { result ≡ false → given.search.constrained ≡ true }
{
    let search = given.search;
    if !search.constrained {
        return true;
    }
    let k = spot.run;
    let from = place_before(ends, k);
    let to = ends[k];
    fits_in(
        &calls[from..to],
        spot,
        c,
        given,
        codes,
        figures,
        distances,
        times,
    )
}

// The best place so far, or this one of a run that is `far` long, where that is limited, if c fits in there: the calls
// before it are left at `left`, and those behind it have to be reached before `due`.
pub fn better(
    best: Spot,
    spot: Spot,
    far: f64,
    day: Day,
    left: Times,
    due: Times,
    route: &[usize],
    c: usize,
    given: Given,
    codes: &[u32],
    figures: &[f64],
    distances: &[f64],
    times: &[f64],
) -> Spot
    requires long { Long (numbers codes.now figures.now) }
    requires all_open { AllOpen distances.now × AllOpen times.now }
    ensures { let lists = numbers codes.now figures.now in
        let G = given_in given lists distances.now times.now in
        let short = within_f G.search.limits.max_distance (Ieee.add binary64 far spot.cost) in
        let fits = between_f G.tables (day_in day) route.now spot.pos c (times_in left) (times_in due) in
        result ≡ cond (short && fits) spot best }
{
    let search = given.search;
    let limits = search.limits;
    if is_too_far(limits, far + spot.cost) {
        return best;
    }
    if fits_between(
        day, left, due, route, spot.pos, c, codes, figures, distances, times, given.size,
    ) {
        return spot;
    }
    best
}
