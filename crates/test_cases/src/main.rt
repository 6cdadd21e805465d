// The bench cases a to q, and r with a customer listed twice, each cut by the planner: a line says the refusal, or
// the runs as customers, with the break and the time at home where the sheet has a break, then the dropped positions,
// cost and distance. Breaks go where the clock puts them; q is cut by least pay too, and by that the clock's run of it
// is marked.
// A tour is written as the digits of a number.
#![tactic(auto)]

use call_cuts::cutting::Cut;
use call_cuts::marking::{Marking, mark};
use call_runs::evaluating::Evaluation;
use evaluation::route::RouteEval;
use listing_lines::number::whole_part;
use marker::verdict::Verdict;
use models::byte::number_of;
use models::placement::Placement;
use split_tw::answer::SplitResult;
use std::io;
use test_sheets::changes::{Change, changed};
use test_sheets::digits::{begin, digits};

// A sheet, and where the breaks go.
#[derive(Clone, Copy)]
struct Case {
    change: Change,
    placement: Placement,
}

fn text(rt: &impl Print, words: &str) -> io::Result<()> {
    rt.print(words)
}

// A word, and a number behind it.
fn numbered(rt: &impl Print, word: &str, n: u64) -> io::Result<()> {
    print!(rt; "{word}{n}")
}

// The same of a float that holds a whole number.
fn amount(rt: &impl Print, word: &str, x: f64) -> io::Result<()> {
    numbered(rt, word, whole_part(x))
}

fn after_blank(rt: &impl Print, n: u8) -> io::Result<()> {
    numbered(rt, " ", n as u64)
}

fn numbers(rt: &impl Print, list: &[u8]) -> io::Result<()> {
    for n in list {
        after_blank(rt, *n)?;
    }
    Ok(())
}

fn evaluate(case: Case, run: &[u8]) -> Evaluation {
    let change = case.change;
    let placement = case.placement;
    let sheet = changed(change);
    let head = sheet.head;
    let customers = sheet.customers;
    let distances = sheet.distances;
    let times = [0.0];
    test_calls::route_eval(head, customers, &distances, &times[..0], run, placement)
}

// The break, if one is taken, and the time at home.
fn show_times(rt: &impl Print, eval: RouteEval) -> io::Result<()> {
    let start = eval.start;
    if let Some(time) = start {
        numbered(rt, " rest ", eval.place as u64)?;
        amount(rt, " at ", time)?;
    }
    amount(rt, " home ", eval.duration)
}

// Whether the sheet has a break.
fn has_break(change: Change) -> bool {
    match change {
        Change::Break(_, _) => true,
        Change::BreakAtPrice => true,
        _ => false,
    }
}

// A run as customers, with its break where the sheet has one.
fn show_run(rt: &impl Print, case: Case, run: &[u8]) -> io::Result<()> {
    text(rt, " run")?;
    numbers(rt, run)?;
    let change = case.change;
    if has_break(change) {
        if let Evaluation::Allowed(eval) = evaluate(case, run) {
            show_times(rt, eval)?;
        }
    }
    text(rt, ";")
}

fn show_stretch(
    rt: &impl Print,
    case: Case,
    served: &[u8],
    from: usize,
    to: usize,
) -> io::Result<()> {
    if from <= to {
        if to <= served.len() {
            show_run(rt, case, &served[from..to])?;
        }
    }
    Ok(())
}

fn item(list: &[u8], i: usize) -> usize {
    if i < list.len() {
        number_of(list[i])
    } else {
        0
    }
}

// The runs that end at the first n of the ends.
fn show_runs(rt: &impl Print, case: Case, served: &[u8], ends: &[u8], n: usize) -> io::Result<()> {
    let mut from = 0;
    for i in 0..n {
        let to = item(ends, i);
        show_stretch(rt, case, served, from, to)?;
        from = to;
    }
    Ok(())
}

fn show_drops(rt: &impl Print, positions: &[u8]) -> io::Result<()> {
    text(rt, " drop")?;
    numbers(rt, positions)?;
    text(rt, ";")
}

// The first n of the dropped positions, if there are any.
fn show_dropped(rt: &impl Print, dropped: &[u8], n: usize) -> io::Result<()> {
    if n > 0 {
        if n <= dropped.len() {
            show_drops(rt, &dropped[0..n])?;
        }
    }
    Ok(())
}

fn cut(case: Case, tour: &[usize], served: &mut [u8], ends: &mut [u8], dropped: &mut [u8]) -> Cut {
    let change = case.change;
    let placement = case.placement;
    let sheet = changed(change);
    let head = sheet.head;
    let customers = sheet.customers;
    let distances = sheet.distances;
    let times = [0.0];
    test_calls::split_tw(
        head,
        customers,
        &distances,
        &times[..0],
        tour,
        served,
        ends,
        dropped,
        placement,
    )
}

fn show_totals(rt: &impl Print, counts: SplitResult) -> io::Result<()> {
    amount(rt, " cost ", counts.cost)?;
    amount(rt, " distance ", counts.distance)
}

// The runs of a tour, its drops, and what they come to; or the number of its refusal.
fn show_cut(rt: &impl Print, case: Case, tour: &[usize]) -> io::Result<()> {
    let mut served = [0; 3];
    let mut ends = [0; 3];
    let mut dropped = [0; 3];
    match cut(case, tour, &mut served, &mut ends, &mut dropped) {
        Cut::Refused(number) => numbered(rt, " refused ", number as u64),
        Cut::Cut(counts) => {
            show_runs(rt, case, &served, &ends, counts.runs)?;
            show_dropped(rt, &dropped, counts.dropped)?;
            show_totals(rt, counts)
        }
    }
}

fn show_named(rt: &impl Print, name: &str, case: Case, tour: usize) -> io::Result<()> {
    let calls = digits(tour);
    text(rt, name)?;
    text(rt, ":")?;
    show_cut(rt, case, &calls[begin(tour)..])?;
    text(rt, "\n")
}

// A case by the clock, with its letter.
fn show(rt: &impl Print, letter: &str, change: Change, tour: usize) -> io::Result<()> {
    let placement = Placement::Clock;
    show_named(rt, letter, Case { change, placement }, tour)
}

// In the fourth case there are no calls, and in the fifth one run is as far as two.
fn loads(rt: &impl Print) -> io::Result<()> {
    show(rt, "a", Change::Nothing, 12)?;
    show(rt, "b", Change::Capacity(3), 12)?;
    show(rt, "c", Change::Capacity(1), 12)?;
    show(rt, "d", Change::Nothing, 0)?;
    show(rt, "e", Change::Between(22.0), 12)
}

fn windows(rt: &impl Print) -> io::Result<()> {
    show(rt, "f", Change::Due(10.0), 12)?;
    show(rt, "g", Change::Due(9.0), 12)?;
    show(rt, "h", Change::DueAtPrice(9.0, 3.0), 12)
}

fn limits(rt: &impl Print) -> io::Result<()> {
    show(rt, "i", Change::DistanceLimit(27.0), 12)?;
    show(rt, "j", Change::DistanceLimit(26.0), 12)?;
    show(rt, "k", Change::DistanceLimit(23.0), 12)?;
    show(rt, "l", Change::FarHome(30.0, 27.0), 12)
}

fn breaks(rt: &impl Print) -> io::Result<()> {
    show(rt, "m", Change::Break(20.0, 30.0), 12)?;
    show(rt, "n", Change::Break(20.0, 30.0), 1)?;
    show(rt, "o", Change::Break(5.0, 9.0), 12)?;
    show(rt, "p", Change::Break(5.0, 10.0), 12)?;
    show(rt, "q", Change::BreakAtPrice, 12)
}

// The run 1 2 with its break at call 1, marked by the placement.
fn mark_first(case: Case) -> Marking {
    let change = case.change;
    let placement = case.placement;
    let sheet = changed(change);
    let head = sheet.head;
    let customers = sheet.customers;
    let distances = sheet.distances;
    let times = [0.0];
    mark(
        head,
        customers,
        head.places,
        &distances,
        &times[..0],
        &[1, 2],
        &[1, 2],
        &[2],
        &[1],
        placement,
    )
}

fn show_dearer(rt: &impl Print, verdict: Verdict) -> io::Result<()> {
    if let Verdict::Dearer { by } = verdict {
        amount(rt, "q by the clock, marked by least pay: dearer by ", by)?;
        text(rt, "\n")?;
    }
    Ok(())
}

fn least_pay(rt: &impl Print) -> io::Result<()> {
    let case = Case {
        change: Change::BreakAtPrice,
        placement: Placement::Least,
    };
    show_named(rt, "q by least pay", case, 12)?;
    if let Marking::Verdict(verdict) = mark_first(case) {
        show_dearer(rt, verdict)?;
    }
    Ok(())
}

fn repeats(rt: &impl Print) -> io::Result<()> {
    show(rt, "r", Change::Nothing, 121)
}

fn main(rt: HostRuntime) -> io::Result<()> {
    loads(&rt)?;
    windows(&rt)?;
    limits(&rt)?;
    breaks(&rt)?;
    least_pay(&rt)?;
    repeats(&rt)
}
