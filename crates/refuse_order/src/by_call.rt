// The refusal of each call. What a call does not take is empty, and a result list is given by its length.
// Runs, run ends and break places are lent in bytes.
ghost use Rattle.std.specs.Prelude.{[], ◌∷◌};
ghost use Rattle.definitions.specs.Lent.{cutting, evaluating, visiting, marking, reversing, eliminating};
ghost use Rattle.refuse_order.specs.Lent.{sheet_for, lent_for};
ghost use Rattle.refuse_order.specs.Order.{Refuses, Images};

use crate::order::refusal;
use models::customer::Customer;
use models::head::Head;
use refuse_lists::kind::{Kind, Results};

// split, split_tw: served customers, run ends, dropped positions.
pub fn refuse_cutting(
    head: Head,
    customers: [Customer; 64],
    count: usize,
    distances: &[f64],
    times: &[f64],
    tour: &[usize],
    served: usize,
    run_ends: usize,
    dropped: usize,
) -> u32
    ensures refused { let s = sheet_for head distances.now times.now in
        let lent = lent_for s tour.now [] [] [] (served ∷ run_ends ∷ dropped ∷ []) in
        Refuses cutting lent count customers result }
    ensures image { Images (sheet_for head distances.now times.now) count customers result }
{
    let none: [u8; 0] = [];
    let rooms = [served, run_ends, dropped];
    let kind = Kind {
        takes_ends: false,
        marks: false,
        improves: false,
        results: Results::Cut,
    };
    refusal(
        kind, head, customers, count, distances, times, tour, &none, &none, &none, &rooms,
    )
}

// route_feasible, route_eval, effective_cost.
pub fn refuse_evaluating(
    head: Head,
    customers: [Customer; 64],
    count: usize,
    distances: &[f64],
    times: &[f64],
    run: &[u8],
) -> u32
    ensures refused { let s = sheet_for head distances.now times.now in
        let lent = lent_for s [] run.now [] [] [] in
        Refuses evaluating lent count customers result }
    ensures image { Images (sheet_for head distances.now times.now) count customers result }
{
    let tour: [usize; 0] = [];
    let none: [u8; 0] = [];
    let rooms: [usize; 0] = [];
    let kind = Kind {
        takes_ends: false,
        marks: false,
        improves: false,
        results: Results::Nothing,
    };
    refusal(
        kind, head, customers, count, distances, times, &tour, run, &none, &none, &rooms,
    )
}

// build_route: visits, violations.
pub fn refuse_visiting(
    head: Head,
    customers: [Customer; 64],
    count: usize,
    distances: &[f64],
    times: &[f64],
    run: &[u8],
    visits: usize,
    violations: usize,
) -> u32
    ensures refused { let s = sheet_for head distances.now times.now in
        let lent = lent_for s [] run.now [] [] (visits ∷ violations ∷ []) in
        Refuses visiting lent count customers result }
    ensures image { Images (sheet_for head distances.now times.now) count customers result }
{
    let tour: [usize; 0] = [];
    let none: [u8; 0] = [];
    let rooms = [visits, violations];
    let kind = Kind {
        takes_ends: false,
        marks: false,
        improves: false,
        results: Results::Visits,
    };
    refusal(
        kind, head, customers, count, distances, times, &tour, run, &none, &none, &rooms,
    )
}

// The marker.
pub fn refuse_marking(
    head: Head,
    customers: [Customer; 64],
    count: usize,
    distances: &[f64],
    times: &[f64],
    tour: &[usize],
    calls: &[u8],
    ends: &[u8],
    breaks: &[u8],
) -> u32
    ensures refused { let s = sheet_for head distances.now times.now in
        let lent = lent_for s tour.now calls.now ends.now breaks.now [] in
        Refuses marking lent count customers result }
    ensures image { Images (sheet_for head distances.now times.now) count customers result }
{
    let rooms: [usize; 0] = [];
    let kind = Kind {
        takes_ends: true,
        marks: true,
        improves: false,
        results: Results::Nothing,
    };
    refusal(
        kind, head, customers, count, distances, times, tour, calls, ends, breaks, &rooms,
    )
}

// two_opt_improve: calls.
pub fn refuse_reversing(
    head: Head,
    customers: [Customer; 64],
    count: usize,
    distances: &[f64],
    times: &[f64],
    run: &[u8],
    res: usize,
) -> u32
    ensures refused { let s = sheet_for head distances.now times.now in
        let lent = lent_for s [] run.now [] [] (res ∷ []) in
        Refuses reversing lent count customers result }
    ensures image { Images (sheet_for head distances.now times.now) count customers result }
{
    let tour: [usize; 0] = [];
    let none: [u8; 0] = [];
    let rooms = [res];
    let kind = Kind {
        takes_ends: false,
        marks: false,
        improves: true,
        results: Results::Run,
    };
    refusal(
        kind, head, customers, count, distances, times, &tour, run, &none, &none, &rooms,
    )
}

// eliminate_routes: calls, run ends.
pub fn refuse_eliminating(
    head: Head,
    customers: [Customer; 64],
    count: usize,
    distances: &[f64],
    times: &[f64],
    calls: &[u8],
    ends: &[u8],
    result_calls: usize,
    result_ends: usize,
) -> u32
    ensures refused { let s = sheet_for head distances.now times.now in
        let lent = lent_for s [] calls.now ends.now [] (result_calls ∷ result_ends ∷ []) in
        Refuses eliminating lent count customers result }
    ensures image { Images (sheet_for head distances.now times.now) count customers result }
{
    let tour: [usize; 0] = [];
    let none: [u8; 0] = [];
    let rooms = [result_calls, result_ends];
    let kind = Kind {
        takes_ends: true,
        marks: false,
        improves: true,
        results: Results::RunList,
    };
    refusal(
        kind, head, customers, count, distances, times, &tour, calls, ends, &none, &rooms,
    )
}
