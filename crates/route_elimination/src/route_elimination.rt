// Route elimination (local_search/route_elimination.rs): a run is emptied by inserting its customers into the others,
// where that adds less than the run costs.
ghost use Rattle.std.specs.Prelude.{◌≡◌, false, ◌-◌, ◌<◌, ◌≤◌, length};
ghost use Rattle.definitions.specs.RunList.{runs_of};
ghost use Rattle.definitions.specs.Refusals.{ends_fall};
ghost use Rattle.evaluation.specs.Tables.{Asks};
ghost use Rattle.cut_stops.specs.Stops.{numbers, Long, records_in};
ghost use Rattle.improve_base.specs.Leg.{AllOpen};
ghost use Rattle.improve_runs.specs.RunLists.{room, Sound, runs, runs_in};
ghost use Rattle.place_choice.specs.Insertion.{given_in, lent_given};
ghost use Rattle.route_elimination.specs.Elimination.{finite_f, part_at, Tries, emptied_f, eliminated_f, Eliminates, lists, Leaves};

use crate::placing::{all_placed, place_all};
use cut_stops::stops::{ALL_CODES, ALL_FIGURES};
use cut_table::held::{number, remove, write_front};
use evaluation::load::{Demands, demands_of};
use evaluation::route::place_before;
use improve_base::records::list_records;
use improve_base::route::route_distance;
use improve_base::search::Search;
use improve_runs::picking::shortest;
use improve_runs::runs::{drop_empty, lengths_of, paste, take_over, without_run};
use models::customer::Customer;
use models::load::Space;
use place_choice::tested::Given;
use whole::infinity;

// How many calls and runs are left.
#[derive(Clone, Copy)]
pub struct Left {
    pub calls: usize,
    pub runs: usize,
}

// Neither infinite nor NaN.
pub fn is_finite(x: f64) -> bool
    ensures { result ≡ finite_f x }
{
    let top = infinity();
    x < top && -top < x
}

// Whether run r can go: the others take its customers for less than it costs. They are then in the other two lists.
// Behind the last of them the Rust asks that too, with the gain floor; in whole numbers it has been answered by then.
pub fn emptied(
    calls: &[usize],
    ends: &[usize],
    many: usize,
    count: usize,
    r: usize,
    rest_calls: &mut [usize],
    rest_ends: &mut [usize],
    given: Given,
    demands: &Demands,
    codes: &[u32],
    figures: &[f64],
    distances: &[f64],
    times: &[f64],
) -> bool
    requires sound { Sound (runs calls.now ends.now many count) × (r < count) }
    requires rest_calls_len { (length rest_calls.old ≡ room) × (length rest_ends.old ≡ room) }
    requires fact { let lists = numbers codes.now figures.now in
        Long lists × Asks (records_in lists) demands.now }
    requires all_open { AllOpen distances.now × AllOpen times.now }
    ensures { let lists = numbers codes.now figures.now in
        let G = given_in given lists distances.now times.now in
        let old = runs_in (runs calls.now ends.now many count) in
        let new = runs rest_calls.new rest_ends.new many (count - 1) in
        Tries (emptied_f G (part_at old r)) result new }
{
    let from = place_before(ends, r);
    let to = ends[r];
    let run = &calls[from..to];
    let saved = route_distance(run, distances, given.size) + given.fixed;
    if !is_finite(saved) {
        return false;
    }
    let held = without_run(
        calls,
        ends,
        many,
        count,
        r,
        &mut *rest_calls,
        &mut *rest_ends,
    );
    let placed = place_all(
        &mut *rest_calls,
        &mut *rest_ends,
        held,
        count - 1,
        run,
        saved,
        given,
        demands,
        codes,
        figures,
        distances,
        times,
    );
    all_placed(placed)
}

// The shortest run that can go goes, and the search begins again, until none can. Gives how many runs are left.
pub fn eliminate(
    calls: &mut [usize],
    ends: &mut [usize],
    many: usize,
    count: usize,
    given: Given,
    demands: &Demands,
    codes: &[u32],
    figures: &[f64],
    distances: &[f64],
    times: &[f64],
) -> usize
    requires sound { Sound (runs calls.old ends.old many count) }
    requires fact { let lists = numbers codes.now figures.now in
        Long lists × Asks (records_in lists) demands.now }
    requires all_open { AllOpen distances.now × AllOpen times.now }
    ensures { let lists = numbers codes.now figures.now in
        let G = given_in given lists distances.now times.now in
        let old = runs_in (runs calls.old ends.old many count) in
        Eliminates (eliminated_f G old) (runs calls.new ends.new many result) }
{
    let mut rest_calls = [0usize; 128];
    let mut rest_ends = [0usize; 128];
    let mut left = count;
    'search: loop {
        left = drop_empty(&mut *ends, left);
        let lengths = lengths_of(ends, left);
        let mut pending = [0usize; 128];
        number(&mut pending, 0, left);
        for n in (1..=left).rev() {
            let j = shortest(&pending[..n], &lengths);
            let r = pending[j];
            let goes = emptied(
                calls,
                ends,
                many,
                left,
                r,
                &mut rest_calls,
                &mut rest_ends,
                given,
                demands,
                codes,
                figures,
                distances,
                times,
            );
            if goes {
                left -= 1;
                take_over(&mut *calls, &mut *ends, &rest_calls, &rest_ends, many, left);
                continue 'search;
            }
            remove(&mut pending, n, j);
        }
        break 'search;
    }
    left
}

// The same over a lent run list: what is left is written at the front of two others.
pub fn eliminate_routes(
    calls: &[usize],
    ends: &[usize],
    customers: [Customer; 64],
    distances: &[f64],
    times: &[f64],
    size: usize,
    capacity: Space,
    fixed: f64,
    search: Search,
    out_calls: &mut [usize],
    out_ends: &mut [usize],
) -> Left
    requires calls_value { let rise = ends_fall 0 ends.now (length calls.now) ≡ false in
        (length calls.now ≤ 128) × (length ends.now ≤ 128) × rise }
    requires calls_in_bounds { (length calls.now ≤ length out_calls.old) × (length ends.now ≤ length out_ends.old) }
    requires all_open { AllOpen distances.now × AllOpen times.now }
    ensures { let G = lent_given customers distances.now times.now size capacity fixed search in
        let old = lists out_calls.old out_ends.old in
        let new = lists out_calls.new out_ends.new in
        Leaves (eliminated_f G (runs_of calls.now ends.now)) result old new }
{
    let given = Given {
        size,
        capacity,
        fixed,
        search,
    };
    let demands = demands_of(customers);
    let mut codes = [0u32; ALL_CODES];
    let mut figures = [0.0; ALL_FIGURES];
    list_records(customers, &mut codes, &mut figures);
    let many = calls.len();
    let mut held_calls = [0usize; 128];
    let mut held_ends = [0usize; 128];
    paste(&mut held_calls, 0, calls);
    paste(&mut held_ends, 0, ends);
    let count = eliminate(
        &mut held_calls,
        &mut held_ends,
        many,
        ends.len(),
        given,
        &demands,
        &codes,
        &figures,
        distances,
        times,
    );
    write_front(&held_calls[..many], &mut *out_calls);
    write_front(&held_ends[..count], &mut *out_ends);
    Left {
        calls: many,
        runs: count,
    }
}
