// The best of the places where a customer may go: the cheapest if it is allowed, or else the first of the cheapest that
// are.
ghost use Rattle.std.specs.Prelude.{◌≡◌, true, ◌+◌, ◌≤◌, length};
ghost use Rattle.distance.specs.Lookup.{number_f};
ghost use Rattle.evaluation.specs.Tables.{asked_f, Asks};
ghost use Rattle.cut_stops.specs.Stops.{numbers, Long, records_in};
ghost use Rattle.improve_base.specs.Leg.{AllOpen};
ghost use Rattle.improve_runs.specs.RunLists.{room, Sound, runs, runs_in};
ghost use Rattle.latest.specs.Floats.{day_f, Listed};
ghost use Rattle.place_choice.specs.Loads.{room_f, Loaded};
ghost use Rattle.place_choice.specs.Insertion.{given_in, leg_f, nowhere_f, folded, offered, places_in, places_of, each_from, better_in, better_of, best_f, wanted_f, Wants, Finds};

use crate::insertion::{Spot, cheapest_place, insertion_cost, nowhere, spot_at};
use crate::loads::{Loads, has_room, load_at};
use crate::tested::{Given, Mover, better, is_allowed};
use evaluation::load::{Demands, demand_at};
use evaluation::route::place_before;
use improve_base::route::limited_distance;
use latest::backward::list_bounds;
use latest::hours::day_of;
use latest::onward::{Times, serve_all, set_out};

// Whether a place that adds so much is cheaper than the best so far and pays.
pub fn is_wanted(best: Spot, cost: f64, mover: Mover) -> bool
    ensures { result ≡ wanted_f mover best cost }
{
    if !(cost < best.cost) {
        return false;
    }
    mover.pays(cost)
}

// The number of the first place in a run, from number `from` on, that is cheaper than the best so far and pays; one
// more than the last where there is none.
pub fn next_wanted(
    best: Spot,
    route: &[usize],
    from: usize,
    mover: Mover,
    distances: &[f64],
    size: usize,
) -> usize
    requires route_len_bound { (length route.now ≤ room) × (from ≤ length route.now + 1) }
    requires all_open { AllOpen distances.now }
    ensures { Wants mover best (number_f distances.now size) route.now from result }
{
    let c = mover.call;
    for pos in from..=route.len() {
        let cost = insertion_cost(route, pos, c, distances, size);
        if is_wanted(best, cost, mover) {
            return pos;
        }
    }
    route.len() + 1
}

// The best place so far, or one in run k, of which number `first` is the first that is wanted; the lists hold the
// bounds of its calls from there on. The calls before a place are gone through once.
pub fn best_from(
    first: usize,
    best: Spot,
    route: &[usize],
    k: usize,
    mover: Mover,
    given: Given,
    codes: &[u32],
    figures: &[f64],
    distances: &[f64],
    times: &[f64],
    befores: &[f64],
    afters: &[f64],
) -> Spot
    requires fact { let lists = numbers codes.now figures.now in
        Long lists × (length route.now ≤ room) × (given.search.constrained ≡ true) }
    requires fact_2 { let G = given_in given (numbers codes.now figures.now) distances.now times.now in
        let day = day_f G.search.limits in
        Wants mover best (leg_f G) route.now 0 first
        × Listed G.tables day route.now first befores.now afters.now }
    requires all_open { AllOpen distances.now × AllOpen times.now }
    ensures { let lists = numbers codes.now figures.now in
        let G = given_in given lists distances.now times.now in
        let places = places_in (leg_f G) k mover.call route.now in
        result ≡ folded (better_in G mover route.now) best places }
{
    let search = given.search;
    let limits = search.limits;
    let size = given.size;
    let c = mover.call;
    let day = day_of(limits);
    let far = limited_distance(limits, route, distances, size);
    let mut found = best;
    let mut left = set_out();
    let mut gone = 0;
    let mut pos = first;
    // A `while`: from a place it goes on to the next that is wanted, and not to the next in the run.
    while pos <= route.len() {
        let prev = place_before(route, gone);
        left = serve_all(
            day,
            left,
            prev,
            &route[gone..pos],
            codes,
            figures,
            distances,
            times,
            size,
        );
        gone = pos;
        let due = Times {
            before: befores[pos],
            after: afters[pos],
        };
        let spot = spot_at(route, k, pos, c, distances, size);
        found = better(
            found, spot, far, day, left, due, route, c, given, codes, figures, distances, times,
        );
        pos = next_wanted(found, route, pos + 1, mover, distances, size);
    }
    found
}

// The same of a run of which nothing is known yet.
pub fn best_in(
    best: Spot,
    route: &[usize],
    k: usize,
    mover: Mover,
    given: Given,
    codes: &[u32],
    figures: &[f64],
    distances: &[f64],
    times: &[f64],
    befores: &mut [f64],
    afters: &mut [f64],
) -> Spot
    requires fact { let lists = numbers codes.now figures.now in
        Long lists × (length route.now ≤ room) × (given.search.constrained ≡ true) }
    requires befores_len { (length befores.old ≡ 129) × (length afters.old ≡ 129) }
    requires all_open { AllOpen distances.now × AllOpen times.now }
    ensures result_value { let lists = numbers codes.now figures.now in
        let G = given_in given lists distances.now times.now in
        let places = places_in (leg_f G) k mover.call route.now in
        result ≡ folded (better_in G mover route.now) best places }
    ensures befores_len_2 { (length befores.new ≡ 129) × (length afters.new ≡ 129) }
{
    let search = given.search;
    let first = next_wanted(best, route, 0, mover, distances, given.size);
    if route.len() < first {
        return best;
    }
    let day = day_of(search.limits);
    list_bounds(
        day,
        route,
        first,
        codes,
        figures,
        distances,
        times,
        given.size,
        &mut *befores,
        &mut *afters,
    );
    best_from(
        first, best, route, k, mover, given, codes, figures, distances, times, befores, afters,
    )
}

// The same, if the run has room.
pub fn best_offered(
    best: Spot,
    fits: bool,
    route: &[usize],
    k: usize,
    mover: Mover,
    given: Given,
    codes: &[u32],
    figures: &[f64],
    distances: &[f64],
    times: &[f64],
    befores: &mut [f64],
    afters: &mut [f64],
) -> Spot
    requires fact { let lists = numbers codes.now figures.now in
        Long lists × (length route.now ≤ room) × (given.search.constrained ≡ true) }
    requires befores_len { (length befores.old ≡ 129) × (length afters.old ≡ 129) }
    requires all_open { AllOpen distances.now × AllOpen times.now }
    ensures result_value { let lists = numbers codes.now figures.now in
        let G = given_in given lists distances.now times.now in
        let places = offered fits (places_in (leg_f G) k mover.call route.now) in
        result ≡ folded (better_in G mover route.now) best places }
    ensures befores_len_2 { (length befores.new ≡ 129) × (length afters.new ≡ 129) }
{
    if fits {
        return best_in(
            best,
            route,
            k,
            mover,
            given,
            codes,
            figures,
            distances,
            times,
            &mut *befores,
            &mut *afters,
        );
    }
    best
}

// The best of all places in the runs that have room.
pub fn best_tested(
    calls: &[usize],
    ends: &[usize],
    many: usize,
    count: usize,
    loads: &Loads,
    demands: &Demands,
    mover: Mover,
    given: Given,
    codes: &[u32],
    figures: &[f64],
    distances: &[f64],
    times: &[f64],
) -> Spot
    requires fact { let rest = runs calls.now ends.now many count in
        Sound rest × Loaded (asked_f demands.now) (runs_in rest) 256 loads.now }
    requires long { Long (numbers codes.now figures.now) × (given.search.constrained ≡ true) }
    requires all_open { AllOpen distances.now × AllOpen times.now }
    ensures { let lists = numbers codes.now figures.now in
        let G = given_in given lists distances.now times.now in
        let room = room_f (asked_f demands.now) G.capacity in
        let rest = runs_in (runs calls.now ends.now many count) in
        let places = each_from (places_of (leg_f G) room mover.call) 0 rest in
        result ≡ folded (better_of G mover rest) nowhere_f places }
{
    let asked = demand_at(demands, mover.call);
    let capacity = given.capacity;
    let mut befores = [0.0; 129];
    let mut afters = [0.0; 129];
    let mut best = nowhere();
    let mut from = 0;
    for k in 0..count {
        let to = ends[k];
        let fits = has_room(load_at(loads, k), asked, capacity);
        best = best_offered(
            best,
            fits,
            &calls[from..to],
            k,
            mover,
            given,
            codes,
            figures,
            distances,
            times,
            &mut befores,
            &mut afters,
        );
        from = to;
    }
    best
}

// Where a customer adds least and is allowed, while what is added stays below what is saved; none where no place is.
pub fn best_place(
    calls: &[usize],
    ends: &[usize],
    many: usize,
    count: usize,
    loads: &Loads,
    demands: &Demands,
    mover: Mover,
    given: Given,
    codes: &[u32],
    figures: &[f64],
    distances: &[f64],
    times: &[f64],
) -> Option<Spot>
    requires fact { let rest = runs calls.now ends.now many count in
        Sound rest × Loaded (asked_f demands.now) (runs_in rest) 256 loads.now }
    requires fact_2 { let lists = numbers codes.now figures.now in
        Long lists × Asks (records_in lists) demands.now }
    requires all_open { AllOpen distances.now × AllOpen times.now }
    ensures { let lists = numbers codes.now figures.now in
        let G = given_in given lists distances.now times.now in
        let rest = runs_in (runs calls.now ends.now many count) in
        Finds (best_f G mover rest) rest result }
{
    let c = mover.call;
    let capacity = given.capacity;
    let least = cheapest_place(
        calls, ends, many, count, loads, demands, c, capacity, distances, given.size,
    );
    if !mover.pays(least.cost) {
        return None;
    }
    if is_allowed(
        calls, ends, many, count, least, c, given, codes, figures, distances, times,
    ) {
        return Some(least);
    }
    let best = best_tested(
        calls, ends, many, count, loads, demands, mover, given, codes, figures, distances, times,
    );
    if mover.pays(best.cost) {
        return Some(best);
    }
    None
}
