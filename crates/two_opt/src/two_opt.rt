// The reversal of stretches of a run (local_search/two_opt.rs): while one lowers the distance and makes a run that is
// allowed, it is taken. Only sheets without lateness pay and without closed legs come here.
ghost use Rattle.std.specs.Prelude.{◌≡◌, suc, ◌+◌, ◌-◌, ◌<◌, ◌≤◌, true, cond, ◌&&◌, length, take, drop};
ghost use Rattle.definitions.specs.Room.{written};
ghost use Rattle.std.specs.Float.Ieee as Ieee;
ghost use Rattle.distance.specs.Lookup.{number_f};
ghost use Rattle.evaluation.specs.Records.{limits_of, lent};
ghost use Rattle.cut_stops.specs.Stops.{numbers, Long, listed};
ghost use Rattle.improve_base.specs.Leg.{AllOpen};
ghost use Rattle.improve_base.specs.Route.{far_f};
ghost use Rattle.improve_base.specs.Search.{search_of};
ghost use Rattle.improve_base.specs.Prefix.{prefix_of, failed_f, index_f, feasible_from_f, Leads};
ghost use Rattle.two_opt.specs.Delta.{into_f, reversal_delta_f, delta_f};
ghost use Rattle.two_opt.specs.Rules.{rules_of};
ghost use Rattle.two_opt.specs.TwoOpt.{state, reversed_f, tried_all_f, pass_f, most_passes, passes_f, improved_f, improved_distance_f};

use crate::reverse::reverse;
use crate::rules::{Rules, rules_of};
use cut_stops::stops::{ALL_CODES, ALL_FIGURES};
use cut_table::held::write_front;
use evaluation::route::{call_at, place_before};
use improve_base::leg::open_leg;
use improve_base::prefix::{Prefix, feasible_from, go_on, has_failed, set_out};
use improve_base::records::list_records;
use improve_base::route::{is_too_far, limited_distance, route_distance};
use improve_base::search::Search;
use models::customer::Customer;

// What turning the segment changes in the length of its own legs: nothing where the distances are symmetric, else each
// leg back less the leg there.
pub fn reversal_delta(segment: &[usize], distances: &[f64], size: usize, symmetric: bool) -> f64
    requires { AllOpen distances.now }
    ensures { result ≡ reversal_delta_f (number_f distances.now size) symmetric segment.now }
{
    if symmetric {
        return 0.0;
    }
    let mut sum = 0.0;
    for [prev, next] in segment.array_windows::<2>() {
        let back = open_leg(distances, size, *next, *prev);
        sum += back - open_leg(distances, size, *prev, *next);
    }
    sum
}

// The same for the calls of a run from i up to `end`.
pub fn turned_between(
    route: &[usize],
    distances: &[f64],
    size: usize,
    symmetric: bool,
    i: usize,
    end: usize,
) -> f64
    requires i_lt_end { (i < end) × (end ≤ length route.now) }
    requires all_open { AllOpen distances.now }
    ensures { let leg = number_f distances.now size in
        result ≡ reversal_delta_f leg symmetric (take (end - i) (drop i route.now)) }
{
    reversal_delta(&route[i..end], distances, size, symmetric)
}

// The same for the calls from i up to and with j; `turned` is what it comes to for those before j.
pub fn turned_on(
    route: &[usize],
    distances: &[f64],
    size: usize,
    symmetric: bool,
    turned: f64,
    i: usize,
    j: usize,
) -> f64
    requires i_lt_j { (i < j) × (j < length route.now) }
    requires turned_value { let leg = number_f distances.now size in
        turned ≡ reversal_delta_f leg symmetric (take (j - i) (drop i route.now)) }
    requires all_open { AllOpen distances.now }
    ensures { let leg = number_f distances.now size in
        result ≡ reversal_delta_f leg symmetric (take (suc j - i) (drop i route.now)) }
{
    if symmetric {
        return turned;
    }
    let prev = route[j - 1];
    let next = route[j];
    let back = open_leg(distances, size, next, prev);
    turned + (back - open_leg(distances, size, prev, next))
}

// The leg into call number i, from 0.
pub fn leg_into(route: &[usize], distances: &[f64], size: usize, i: usize) -> f64
    requires i_in_bounds { i < length route.now }
    requires all_open { AllOpen distances.now }
    ensures { result ≡ into_f (number_f distances.now size) i route.now }
{
    let first = route[i];
    let prev_i = place_before(route, i);
    open_leg(distances, size, prev_i, first)
}

// What turning the calls from i up to and with j changes in the distance; `into` is the leg into call i, and `turned`
// what their own legs change.
pub fn two_opt_delta(
    route: &[usize],
    distances: &[f64],
    size: usize,
    symmetric: bool,
    into: f64,
    turned: f64,
    i: usize,
    j: usize,
) -> f64
    requires i_lt_j { (i < j) × (j < length route.now) }
    requires into_value { into ≡ into_f (number_f distances.now size) i route.now }
    requires turned_value { let leg = number_f distances.now size in
        turned ≡ reversal_delta_f leg symmetric (take (suc j - i) (drop i route.now)) }
    requires all_open { AllOpen distances.now }
    ensures { result ≡ delta_f (number_f distances.now size) symmetric i j route.now }
{
    let first = route[i];
    let last = route[j];
    let prev_i = place_before(route, i);
    let end = j + 1;
    let next_j = call_at(route, end);
    let old_cost = into + open_leg(distances, size, last, next_j);
    let new_in = open_leg(distances, size, prev_i, last);
    let new_cost = new_in + open_leg(distances, size, first, next_j);
    new_cost - old_cost + turned
}

// Whether a change in the distance is a gain that counts.
pub fn gains(rules: Rules, delta: f64) -> bool
    ensures { result ≡ Ieee.lt delta (Ieee.neg rules.floor) }
{
    delta < -rules.floor
}

// The search on a run: whether a reversal is taken, and the distance of the run, where it is limited.
#[derive(Clone, Copy)]
pub struct SoFar {
    pub improved: bool,
    pub far: f64,
}

// Whether the run that these calls end may be made: it is feasible, where that is asked.
pub fn is_allowed(
    prefix: Prefix,
    calls: &[usize],
    codes: &[u32],
    figures: &[f64],
    distances: &[f64],
    times: &[f64],
    size: usize,
    rules: Rules,
) -> bool
    requires long { Long (numbers codes.now figures.now) }
    requires calls_bound { index_f (prefix_of prefix) + length calls.now < 0xFFFF_FFFF_FFFF_FFFF }
    requires all_open { AllOpen distances.now × AllOpen times.now }
    ensures { let lists = numbers codes.now figures.now in
        let tables = listed lists distances.now times.now size in
        let feasible = feasible_from_f tables (limits_of rules.limits) (prefix_of prefix) calls.now in
        result ≡ cond rules.constrained feasible true }
{
    if rules.constrained {
        let limits = rules.limits;
        return feasible_from(
            prefix, calls, codes, figures, distances, times, size, limits,
        );
    }
    true
}

// Turns the calls from i up to and with j, which changes the distance by `delta`, where the run is not too long then,
// and turns them back where it is not allowed; `prefix` is where the calls before i leave the bus.
pub fn reverse_if_allowed(
    current: &mut [usize],
    codes: &[u32],
    figures: &[f64],
    distances: &[f64],
    times: &[f64],
    size: usize,
    rules: Rules,
    prefix: Prefix,
    i: usize,
    j: usize,
    delta: f64,
    tried: SoFar,
) -> SoFar
    requires long { Long (numbers codes.now figures.now) × (i < j) × (j < length current.old) }
    requires fact { let tables = listed (numbers codes.now figures.now) distances.now times.now size in
        Leads tables (limits_of rules.limits) (take i current.old) (prefix_of prefix) }
    requires fact_2 { let leg = number_f distances.now size in
        (delta ≡ delta_f leg rules.symmetric i j current.old)
        × (tried.far ≡ far_f (limits_of rules.limits) leg current.old) }
    requires all_open { AllOpen distances.now × AllOpen times.now }
    ensures improved_after { let lists = numbers codes.now figures.now in
        let tables = listed lists distances.now times.now size in
        let old = state current.old tried.improved in
        state current.new result.improved ≡ reversed_f tables (rules_of rules) i j old }
    ensures far_value { let leg = number_f distances.now size in
        result.far ≡ far_f (limits_of rules.limits) leg current.new }
{
    let limits = rules.limits;
    if is_too_far(limits, tried.far + delta) {
        return tried;
    }
    let end = j + 1;
    reverse(&mut current[i..end]);
    if !is_allowed(
        prefix,
        &current[i..],
        codes,
        figures,
        distances,
        times,
        size,
        rules,
    ) {
        reverse(&mut current[i..end]);
        return tried;
    }
    let far = limited_distance(limits, &current[..], distances, size);
    SoFar {
        improved: true,
        far,
    }
}

// Whether no run that begins so may be made.
pub fn no_run(rules: Rules, prefix: Prefix) -> bool
    ensures { result ≡ rules.constrained && failed_f (prefix_of prefix) }
{
    if rules.constrained {
        return has_failed(prefix);
    }
    false
}

// For the first call i of the stretch, each last call in turn: a reversal that gains is made where it is allowed. The
// calls before i stay, so where they cannot be served, none is.
pub fn try_all(
    current: &mut [usize],
    codes: &[u32],
    figures: &[f64],
    distances: &[f64],
    times: &[f64],
    size: usize,
    rules: Rules,
    prefix: Prefix,
    i: usize,
    tried: SoFar,
) -> SoFar
    requires long { Long (numbers codes.now figures.now) × (i < length current.old) }
    requires fact { let tables = listed (numbers codes.now figures.now) distances.now times.now size in
        Leads tables (limits_of rules.limits) (take i current.old) (prefix_of prefix) }
    requires far_value { tried.far ≡ far_f (limits_of rules.limits) (number_f distances.now size) current.old }
    requires all_open { AllOpen distances.now × AllOpen times.now }
    ensures improved_after { let lists = numbers codes.now figures.now in
        let tables = listed lists distances.now times.now size in
        let old = state current.old tried.improved in
        let all = tried_all_f tables (rules_of rules) (length current.old) i old in
        state current.new result.improved ≡ all }
    ensures far_value_2 { let leg = number_f distances.now size in
        result.far ≡ far_f (limits_of rules.limits) leg current.new }
    ensures current_unchanged { take i current.new ≡ take i current.old }
{
    if no_run(rules, prefix) {
        return tried;
    }
    let mut known = tried;
    let mut into = leg_into(&current[..], distances, size, i);
    let mut turned = turned_between(&current[..], distances, size, rules.symmetric, i, i + 1);
    for j in i + 1..current.len() {
        turned = turned_on(&current[..], distances, size, rules.symmetric, turned, i, j);
        let delta = two_opt_delta(
            &current[..],
            distances,
            size,
            rules.symmetric,
            into,
            turned,
            i,
            j,
        );
        if !gains(rules, delta) {
            continue;
        }
        known = reverse_if_allowed(
            &mut *current,
            codes,
            figures,
            distances,
            times,
            size,
            rules,
            prefix,
            i,
            j,
            delta,
            known,
        );
        into = leg_into(&current[..], distances, size, i);
        turned = turned_between(&current[..], distances, size, rules.symmetric, i, j + 1);
    }
    known
}

// A pass: each first call in turn; a run of fewer than two calls has none. Gives whether a reversal is taken.
pub fn pass(
    current: &mut [usize],
    codes: &[u32],
    figures: &[f64],
    distances: &[f64],
    times: &[f64],
    size: usize,
    rules: Rules,
) -> bool
    requires long { Long (numbers codes.now figures.now) }
    requires all_open { AllOpen distances.now × AllOpen times.now }
    ensures { let lists = numbers codes.now figures.now in
        let tables = listed lists distances.now times.now size in
        state current.new result ≡ pass_f tables (rules_of rules) current.old }
{
    let limits = rules.limits;
    let far = limited_distance(limits, &current[..], distances, size);
    let mut tried = SoFar {
        improved: false,
        far,
    };
    let rest = limits.rest;
    let mut prefix = set_out(rest);
    for i in 0..current.len().saturating_sub(1) {
        tried = try_all(
            &mut *current,
            codes,
            figures,
            distances,
            times,
            size,
            rules,
            prefix,
            i,
            tried,
        );
        let cid = current[i];
        prefix = go_on(prefix, cid, codes, figures, distances, times, size);
    }
    tried.improved
}

// Enough passes for every sheet: a run is at most 129 legs of 10,000,000 long, and each pass that takes a reversal
// makes it shorter by 1 at the least. On other numbers the search ends here.
pub const MOST_PASSES: u32 = 1_290_000_000;

// Passes until one takes no reversal.
pub fn passes(
    current: &mut [usize],
    codes: &[u32],
    figures: &[f64],
    distances: &[f64],
    times: &[f64],
    size: usize,
    rules: Rules,
)
    requires long { Long (numbers codes.now figures.now) }
    requires all_open { AllOpen distances.now × AllOpen times.now }
    ensures { let lists = numbers codes.now figures.now in
        let tables = listed lists distances.now times.now size in
        current.new ≡ passes_f tables (rules_of rules) most_passes current.old }
{
    for _ in 0..MOST_PASSES {
        if !pass(&mut *current, codes, figures, distances, times, size, rules) {
            return;
        }
    }
}

// The run in a list, of two calls at least, improved there.
pub fn improve_in_place(
    current: &mut [usize],
    customers: [Customer; 64],
    distances: &[f64],
    times: &[f64],
    size: usize,
    search: Search,
)
    requires { AllOpen distances.now × AllOpen times.now }
    ensures { let tables = lent customers distances.now times.now size in
        current.new ≡ improved_f tables (search_of search) current.old }
{
    let rules = rules_of(search, &current[..], distances, size);
    let mut codes = [0u32; ALL_CODES];
    let mut figures = [0.0; ALL_FIGURES];
    list_records(customers, &mut codes, &mut figures);
    passes(
        &mut *current,
        &codes,
        &figures,
        distances,
        times,
        size,
        rules,
    );
}

// The run, improved inside a list of its length. Gives its distance. Nothing can be turned in a run of fewer than two
// calls.
pub fn improve(
    route: &[usize],
    customers: [Customer; 64],
    distances: &[f64],
    times: &[f64],
    size: usize,
    search: Search,
    current: &mut [usize],
) -> f64
    requires current_len { length current.old ≡ length route.now }
    requires all_open { AllOpen distances.now × AllOpen times.now }
    ensures result_value { let tables = lent customers distances.now times.now size in
        result ≡ improved_distance_f tables (search_of search) route.now }
    ensures current_after { let tables = lent customers distances.now times.now size in
        current.new ≡ improved_f tables (search_of search) route.now }
{
    write_front(route, &mut *current);
    if route.len() < 2 {
        return route_distance(route, distances, size);
    }
    improve_in_place(&mut *current, customers, distances, times, size, search);
    route_distance(&current[..], distances, size)
}

// The same at the front of a longer list; what lies beyond the run stays.
pub fn two_opt_improve(
    route: &[usize],
    customers: [Customer; 64],
    distances: &[f64],
    times: &[f64],
    size: usize,
    search: Search,
    current: &mut [usize],
) -> f64
    requires route_in_bounds { length route.now ≤ length current.old }
    requires all_open { AllOpen distances.now × AllOpen times.now }
    ensures result_value { let tables = lent customers distances.now times.now size in
        result ≡ improved_distance_f tables (search_of search) route.now }
    ensures current_after { let tables = lent customers distances.now times.now size in
        let improved = improved_f tables (search_of search) route.now in
        current.new ≡ written improved current.old }
{
    let n = route.len();
    improve(
        route,
        customers,
        distances,
        times,
        size,
        search,
        &mut current[..n],
    )
}
