// What is made of a run list, as a recorded text says it: the visits of each run, whether it may be made and what it
// costs, each run reversed, and the runs left by elimination.
ghost use Rattle.std.specs.Prelude.{◌≡◌, ◌≤◌, length};
ghost use Rattle.definitions.specs.RunList.{runs_of};
ghost use Rattle.definitions.specs.Room.{written};
ghost use Rattle.theorems.proofs.RunListLaws.{RiseTo};
ghost use Rattle.improve_base.specs.Leg.{AllOpen};
ghost use Rattle.two_opt.specs.TwoOpt.{improved_f, improved_distance_f};
ghost use Rattle.route_elimination.specs.Elimination.{eliminated_f, Leaves, lists};
ghost use Rattle.test_runs.specs.declared.runs.Topic.TheVariants as Topics;
ghost use Rattle.test_runs.specs.Along.{follows};
ghost use Rattle.test_runs.specs.Words.{each, line, numbers};
ghost use Rattle.test_runs.specs.Runs.{RunList, Drivable, given_in, run_words, unimproved, improved_words, runs_words};

use crate::evaluations::evaluation_line;
use crate::lines::built_lines;
use crate::recorded::{calls, figure, word};
use evaluation::route::{effective_cost, route_feasible};
use improve_base::search::search_of;
use refuse_numbers::closures::any_closed;
use refuse_numbers::customers::{Test, any_applies};
use route_elimination::route_elimination::{Left, eliminate_routes};
use sheet_loaded::load::Loaded;
use two_opt::two_opt::two_opt_improve;
use visits::evaluator::build_route;

// What there is to say of each run.
#[derive(Clone, Copy)]
pub enum Topic {
    Visits,
    Evaluation,
    Reversal,
    Calls,
}

// The visits of a run.
fn visited(
    recorded: &[u8],
    at: usize,
    run: &[usize],
    held: Loaded,
    distances: &[f64],
    times: &[f64],
) -> usize
    requires { length run.now ≤ 128 }
    ensures { let G = given_in held distances.now times.now in
        result ≡ follows recorded.now at (run_words G Topics.Visits run.now) }
{
    let head = held.head;
    let customers = held.customers;
    let built = build_route(
        run,
        customers,
        distances,
        times,
        head.places,
        head.capacity,
        head.limits,
    );
    built_lines(recorded, at, built)
}

// Whether a run may be made, and what it costs.
fn evaluated(
    recorded: &[u8],
    at: usize,
    run: &[usize],
    held: Loaded,
    distances: &[f64],
    times: &[f64],
) -> usize
    ensures { let G = given_in held distances.now times.now in
        result ≡ follows recorded.now at (run_words G Topics.Evaluation run.now) }
{
    let head = held.head;
    let customers = held.customers;
    let size = head.places;
    let feasible = route_feasible(run, customers, distances, times, size, head.limits);
    let cost = effective_cost(run, customers, distances, times, size, head.limits);
    evaluation_line(recorded, at, feasible, cost)
}

// A run after reversals, at the front of the list, and its distance.
fn improved(
    run: &[usize],
    held: Loaded,
    distances: &[f64],
    times: &[f64],
    current: &mut [usize],
) -> f64
    requires run_in_bounds { length run.now ≤ length current.old }
    requires all_open { AllOpen distances.now × AllOpen times.now }
    ensures distance { let G = given_in held distances.now times.now in
        result ≡ improved_distance_f G.tables G.search run.now }
    ensures calls { let G = given_in held distances.now times.now in
        let calls = improved_f G.tables G.search run.now in
        current.new ≡ written calls current.old }
{
    let head = held.head;
    let customers = held.customers;
    let size = head.places;
    let search = search_of(customers, size, head.limits);
    two_opt_improve(
        run,
        customers,
        distances,
        times,
        size,
        search,
        &mut *current,
    )
}

// A run after reversals, behind its distance.
fn reversed(
    recorded: &[u8],
    at: usize,
    run: &[usize],
    held: Loaded,
    distances: &[f64],
    times: &[f64],
) -> usize
    requires run_len_bound { length run.now ≤ 128 }
    requires all_open { AllOpen distances.now × AllOpen times.now }
    ensures { let G = given_in held distances.now times.now in
        result ≡ follows recorded.now at (run_words G Topics.Reversal run.now) }
{
    let n = run.len();
    let mut current = [0usize; 128];
    let distance = improved(run, held, distances, times, &mut current);
    let mut end = word(recorded, at, b"reversed");
    end = figure(recorded, end, distance);
    calls(recorded, end, &current[..n])
}

// The calls of a run.
fn listed(recorded: &[u8], at: usize, run: &[usize]) -> usize
    ensures { result ≡ follows recorded.now at (line "left" (numbers run.now)) }
{
    let end = word(recorded, at, b"left");
    calls(recorded, end, run)
}

// The lines on one run.
fn run_text(
    recorded: &[u8],
    at: usize,
    topic: Topic,
    run: &[usize],
    held: Loaded,
    distances: &[f64],
    times: &[f64],
) -> usize
    requires run_len_bound { length run.now ≤ 128 }
    requires drivable { Drivable topic distances.now times.now }
    ensures { let G = given_in held distances.now times.now in
        result ≡ follows recorded.now at (run_words G topic run.now) }
{
    match topic {
        Topic::Visits => visited(recorded, at, run, held, distances, times),
        Topic::Evaluation => evaluated(recorded, at, run, held, distances, times),
        Topic::Reversal => reversed(recorded, at, run, held, distances, times),
        Topic::Calls => listed(recorded, at, run),
    }
}

// Those on every run.
fn each_run(
    recorded: &[u8],
    at: usize,
    topic: Topic,
    all: &[usize],
    ends: &[usize],
    held: Loaded,
    distances: &[f64],
    times: &[f64],
) -> usize
    requires all_len_bound { (length all.now ≤ 128) × RiseTo 0 ends.now (length all.now) }
    requires drivable { Drivable topic distances.now times.now }
    ensures { let G = given_in held distances.now times.now in
        let runs = runs_of all.now ends.now in
        result ≡ follows recorded.now at (each (run_words G topic) runs) }
{
    let mut end = at;
    let mut from = 0;
    for &to in ends {
        end = run_text(recorded, end, topic, &all[from..to], held, distances, times);
        from = to;
    }
    end
}

// The runs left by elimination, at the front of the lists, and how many there are.
fn eliminated(
    all: &[usize],
    ends: &[usize],
    held: Loaded,
    distances: &[f64],
    times: &[f64],
    left_calls: &mut [usize],
    left_ends: &mut [usize],
) -> Left
    requires run_list { RunList all.now ends.now }
    requires all_in_bounds { (length all.now ≤ length left_calls.old) × (length ends.now ≤ length left_ends.old) }
    requires all_open { AllOpen distances.now × AllOpen times.now }
    ensures { let G = given_in held distances.now times.now in
        let runs = runs_of all.now ends.now in
        let old = lists left_calls.old left_ends.old in
        let new = lists left_calls.new left_ends.new in
        Leaves (eliminated_f G runs) result old new }
{
    let head = held.head;
    let customers = held.customers;
    let search = search_of(customers, head.places, head.limits);
    eliminate_routes(
        all,
        ends,
        customers,
        distances,
        times,
        head.places,
        head.capacity,
        head.fixed_cost,
        search,
        &mut *left_calls,
        &mut *left_ends,
    )
}

// Those runs, one to a line.
fn left_lines(
    recorded: &[u8],
    at: usize,
    all: &[usize],
    ends: &[usize],
    held: Loaded,
    distances: &[f64],
    times: &[f64],
) -> usize
    requires run_list { RunList all.now ends.now }
    requires all_open { AllOpen distances.now × AllOpen times.now }
    ensures { let G = given_in held distances.now times.now in
        let left = eliminated_f G (runs_of all.now ends.now) in
        result ≡ follows recorded.now at (each (run_words G Topics.Calls) left) }
{
    let mut left_calls = [0usize; 128];
    let mut left_ends = [0usize; 128];
    let left = eliminated(
        all,
        ends,
        held,
        distances,
        times,
        &mut left_calls,
        &mut left_ends,
    );
    each_run(
        recorded,
        at,
        Topic::Calls,
        &left_calls[..left.calls],
        &left_ends[..left.runs],
        held,
        distances,
        times,
    )
}

// What the improvers make of the runs.
fn improved_text(
    recorded: &[u8],
    at: usize,
    all: &[usize],
    ends: &[usize],
    held: Loaded,
    distances: &[f64],
    times: &[f64],
) -> usize
    requires run_list { RunList all.now ends.now }
    requires all_open { AllOpen distances.now × AllOpen times.now }
    ensures { let G = given_in held distances.now times.now in
        let runs = runs_of all.now ends.now in
        result ≡ follows recorded.now at (improved_words G runs) }
{
    let reversal = Topic::Reversal;
    let end = each_run(recorded, at, reversal, all, ends, held, distances, times);
    left_lines(recorded, end, all, ends, held, distances, times)
}

// Whether the improvers don't take the sheet: some customer's lateness is paid for, or a leg is closed.
fn is_unimproved(held: Loaded, distances: &[f64], times: &[f64]) -> bool
    ensures { result ≡ unimproved (given_in held distances.now times.now) }
{
    let head = held.head;
    let customers = held.customers;
    if any_applies(Test::Soft, customers, head.places) {
        return true;
    }
    any_closed(distances) || any_closed(times)
}

// All of it. A sheet that the improvers don't take has visits and evaluations only.
pub fn runs_text(
    recorded: &[u8],
    all: &[usize],
    ends: &[usize],
    held: Loaded,
    distances: &[f64],
    times: &[f64],
) -> usize
    requires { RunList all.now ends.now }
    ensures { let G = given_in held distances.now times.now in
        let runs = runs_of all.now ends.now in
        result ≡ follows recorded.now 0 (runs_words G runs) }
{
    let visits = Topic::Visits;
    let mut end = each_run(recorded, 0, visits, all, ends, held, distances, times);
    let evaluation = Topic::Evaluation;
    end = each_run(recorded, end, evaluation, all, ends, held, distances, times);
    if is_unimproved(held, distances, times) {
        return end;
    }
    improved_text(recorded, end, all, ends, held, distances, times)
}
