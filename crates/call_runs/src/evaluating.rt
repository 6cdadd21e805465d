// The evaluations of a run on an array of customers: refused by number, or the answer.
ghost use Rattle.call_runs.specs.Evaluating.{feasible_answer, cost_answer, eval_answer};
ghost use Rattle.call_shared.specs.Answers.{Answers};

use byte_lists::widen;
use evaluation::route;
use evaluation::route::RouteEval;
use models::customer::Customer;
use models::domain::MOST_CALLS;
use models::head::Head;
use models::placement::Placement;
use placements::placed::eval_by;
use refuse_order::by_call::refuse_evaluating;

#[derive(Clone, Copy)]
pub enum Feasible {
    Refused(u32),
    Answer(bool),
}

// Infinite where the run is not allowed.
#[derive(Clone, Copy)]
pub enum Cost {
    Refused(u32),
    Answer(f64),
}

#[derive(Clone, Copy)]
pub enum Evaluation {
    Refused(u32),
    NotAllowed,
    Allowed(RouteEval),
}

// Whether a run serves each call in time, or late at a penalty, places its break and keeps the limits.
pub fn route_feasible(
    head: Head,
    all: [Customer; 64],
    n: usize,
    distances: &[f64],
    times: &[f64],
    run: &[u8],
) -> Feasible
    ensures { let d = distances.now in
        let t = times.now in
        Answers (λ cs. feasible_answer head cs d t run.now) n all result }
{
    let number = refuse_evaluating(head, all, n, distances, times, run);
    if number != 0 {
        return Feasible::Refused(number);
    }
    let mut calls = [0usize; MOST_CALLS];
    let k = widen(run, &mut calls);
    let feasible = route::route_feasible(
        &calls[..k],
        all,
        distances,
        times,
        head.places,
        head.limits,
    );
    Feasible::Answer(feasible)
}

// The distance and the lateness cost.
pub fn effective_cost(
    head: Head,
    all: [Customer; 64],
    n: usize,
    distances: &[f64],
    times: &[f64],
    run: &[u8],
) -> Cost
    ensures { let d = distances.now in
        let t = times.now in
        Answers (λ cs. cost_answer head cs d t run.now) n all result }
{
    let number = refuse_evaluating(head, all, n, distances, times, run);
    if number != 0 {
        return Cost::Refused(number);
    }
    let mut calls = [0usize; MOST_CALLS];
    let k = widen(run, &mut calls);
    let cost = route::effective_cost(&calls[..k], all, distances, times, head.places, head.limits);
    Cost::Answer(cost)
}

// What a run comes to, with its break where the placement puts it, if it is allowed.
pub fn route_eval(
    head: Head,
    all: [Customer; 64],
    n: usize,
    distances: &[f64],
    times: &[f64],
    run: &[u8],
    placement: Placement,
) -> Evaluation
    ensures { let d = distances.now in
        let t = times.now in
        Answers (λ cs. eval_answer head cs d t run.now placement) n all result }
{
    let number = refuse_evaluating(head, all, n, distances, times, run);
    if number != 0 {
        return Evaluation::Refused(number);
    }
    let mut calls = [0usize; MOST_CALLS];
    let k = widen(run, &mut calls);
    match eval_by(
        &calls[..k],
        all,
        distances,
        times,
        head.places,
        head.limits,
        placement,
    ) {
        None => Evaluation::NotAllowed,
        Some(e) => Evaluation::Allowed(e),
    }
}
