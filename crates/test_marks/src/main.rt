// The marker's verdicts on the worked sheets: a line says the name of a mark, and its verdict with the values that it
// carries.
// Tours, calls, run ends and break places are written as the digits of a number.
#![tactic(auto)]

use call_cuts::marking::{Marking, mark};
use listing_lines::number::whole_part;
use marker::verdict::Verdict;
use models::byte::byte_of;
use models::customer::Customer;
use models::head::Head;
use models::placement::Placement;
use std::io;
use test_sheets::changes::{Change, changed};
use test_sheets::digits::{begin, digits};
use test_sheets::full::full;

fn wide(x: u32) -> u64 {
    x as u64
}

fn text(rt: &impl Print, words: &str) -> io::Result<()> {
    rt.print(words)
}

// A word, and a number behind it.
fn numbered(rt: &impl Print, word: &str, n: u64) -> io::Result<()> {
    print!(rt; "{word}{n}")
}

// The same of a float that holds a whole number.
fn amount(rt: &impl Print, word: &str, x: f64) -> io::Result<()> {
    numbered(rt, word, whole_part(x))
}

fn run_fault(rt: &impl Print, fault: &str, run: usize) -> io::Result<()> {
    text(rt, fault)?;
    numbered(rt, " in run ", run as u64)
}

fn over(rt: &impl Print, fault: &str, run: usize, value: u64, limit: u64) -> io::Result<()> {
    run_fault(rt, fault, run)?;
    numbered(rt, ": ", value)?;
    numbered(rt, " over ", limit)
}

fn after(rt: &impl Print, time: f64, limit: f64) -> io::Result<()> {
    amount(rt, ": ", time)?;
    amount(rt, " after ", limit)
}

fn break_missing(rt: &impl Print, run: usize, duration: f64, earliest: f64) -> io::Result<()> {
    run_fault(rt, "break missing", run)?;
    amount(rt, ": ", duration)?;
    amount(rt, " not before ", earliest)
}

fn at_call(
    rt: &impl Print,
    place: usize,
    customer: usize,
    time: f64,
    limit: f64,
) -> io::Result<()> {
    numbered(rt, " at call ", place as u64)?;
    numbered(rt, ", customer ", customer as u64)?;
    after(rt, time, limit)
}

// A verdict on a single call, and no other.
fn show_call_fault(rt: &impl Print, verdict: Verdict) -> io::Result<()> {
    match verdict {
        Verdict::BreakTooLate {
            run,
            place,
            customer,
            start,
            latest,
        } => {
            run_fault(rt, "break too late", run)?;
            at_call(rt, place, customer, start, latest)
        }
        Verdict::WindowMissed {
            run,
            place,
            customer,
            readiness,
            due,
        } => {
            run_fault(rt, "window missed", run)?;
            at_call(rt, place, customer, readiness, due)
        }
        _ => Ok(()),
    }
}

// A verdict on a run, or on a single call of it, and no other.
fn show_fault(rt: &impl Print, verdict: Verdict) -> io::Result<()> {
    match verdict {
        Verdict::Overload {
            run,
            load,
            capacity,
        } => over(rt, "overload", run, load, wide(capacity)),
        Verdict::WheelchairOverload {
            run,
            load,
            capacity,
        } => over(rt, "wheelchair overload", run, load, wide(capacity)),
        Verdict::RoadClosed { run, leg } => {
            run_fault(rt, "road closed", run)?;
            numbered(rt, ", leg ", leg as u64)
        }
        Verdict::BreakMissing {
            run,
            duration,
            earliest,
        } => break_missing(rt, run, duration, earliest),
        Verdict::TooFar {
            run,
            distance,
            limit,
        } => over(rt, "too far", run, whole_part(distance), whole_part(limit)),
        Verdict::TooLong {
            run,
            duration,
            limit,
        } => over(rt, "too long", run, whole_part(duration), whole_part(limit)),
        _ => show_call_fault(rt, verdict),
    }
}

// A verdict in words, with the values that it carries.
fn show_verdict(rt: &impl Print, verdict: Verdict) -> io::Result<()> {
    match verdict {
        Verdict::OtherCalls { position } => numbered(
            rt,
            "other calls at position ",
            position as u64,
        ),
        Verdict::Best => text(rt, "best"),
        Verdict::Dearer { by } => amount(rt, "dearer by ", by),
        Verdict::Cheaper { by } => amount(rt, "cheaper by ", by),
        _ => show_fault(rt, verdict),
    }
}

fn show(rt: &impl Print, name: &str, marking: Marking) -> io::Result<()> {
    text(rt, name)?;
    text(rt, ": ")?;
    match marking {
        Marking::Refused(number) => numbered(rt, "refused ", number as u64),
        Marking::Verdict(verdict) => show_verdict(rt, verdict),
    }?;
    text(rt, "\n")
}

// The digits of a number in bytes.
fn byte_digits(n: usize) -> [u8; 5] {
    let d = digits(n);
    [
        byte_of(d[0]),
        byte_of(d[1]),
        byte_of(d[2]),
        byte_of(d[3]),
        byte_of(d[4]),
    ]
}

// The mark of runs with these ends and break places by the clock, on a sheet without a time table.
fn judge(
    head: Head,
    customers: [Customer; 64],
    distances: &[f64],
    tour: &[usize],
    calls: &[u8],
    ends: usize,
    breaks: usize,
) -> Marking {
    let times = [0.0];
    let run_ends = byte_digits(ends);
    let run_breaks = byte_digits(breaks);
    let from = begin(ends);
    mark(
        head,
        customers,
        head.places,
        distances,
        &times[..0],
        tour,
        calls,
        &run_ends[from..],
        &run_breaks[from..],
        Placement::Clock,
    )
}

// The mark of a cutting of a tour: the calls of all runs, the run ends, and a break place for each run.
fn tell(
    rt: &impl Print,
    name: &str,
    head: Head,
    customers: [Customer; 64],
    distances: &[f64],
    tour: usize,
    calls: usize,
    ends: usize,
    breaks: usize,
) -> io::Result<()> {
    let given = digits(tour);
    let cut = byte_digits(calls);
    let marking = judge(
        head,
        customers,
        distances,
        &given[begin(tour)..],
        &cut[begin(calls)..],
        ends,
        breaks,
    );
    show(rt, name, marking)
}

// The same on a bench sheet.
fn cut(
    rt: &impl Print,
    name: &str,
    change: Change,
    tour: usize,
    calls: usize,
    ends: usize,
    breaks: usize,
) -> io::Result<()> {
    let sheet = changed(change);
    let customers = sheet.customers;
    let distances = sheet.distances;
    tell(
        rt, name, sheet.head, customers, &distances, tour, calls, ends, breaks,
    )
}

// The same on the full sheet.
fn full_cut(
    rt: &impl Print,
    name: &str,
    tour: usize,
    calls: usize,
    ends: usize,
    breaks: usize,
) -> io::Result<()> {
    let sheet = full();
    let customers = sheet.customers;
    let distances = sheet.distances;
    tell(
        rt, name, sheet.head, customers, &distances, tour, calls, ends, breaks,
    )
}

// The mark of a tour as one run on a bench sheet.
fn run(rt: &impl Print, name: &str, change: Change, tour: usize, place: usize) -> io::Result<()> {
    cut(rt, name, change, tour, tour, 5 - begin(tour), place)
}

// The mark of a tour as one run on the full sheet.
fn full_run(rt: &impl Print, name: &str, tour: usize, place: usize) -> io::Result<()> {
    full_cut(rt, name, tour, tour, 5 - begin(tour), place)
}

fn costs(rt: &impl Print) -> io::Result<()> {
    run(rt, "q", Change::BreakAtPrice, 12, 2)?;
    run(rt, "best", Change::Nothing, 12, 0)?;
    cut(rt, "dearer", Change::Nothing, 12, 12, 12, 0)?;
    run(rt, "both measures full", Change::Wheelchairs(4, 2), 12, 0)?;
    cut(rt, "a bay each", Change::Wheelchairs(4, 1), 12, 12, 12, 0)
}

// A call changed, one left out, none at all, one too many.
fn calls(rt: &impl Print) -> io::Result<()> {
    cut(rt, "changed", Change::Nothing, 12, 11, 2, 0)?;
    cut(rt, "left out", Change::Nothing, 12, 1, 1, 0)?;
    cut(rt, "none", Change::Nothing, 12, 0, 0, 0)?;
    cut(rt, "too many", Change::Nothing, 12, 121, 23, 0)
}

// Sheets on which calls are dropped.
fn drops(rt: &impl Print) -> io::Result<()> {
    cut(rt, "nothing", Change::Capacity(1), 12, 0, 0, 0)?;
    cut(rt, "no bay", Change::Wheelchairs(4, 0), 12, 0, 0, 0)?;
    cut(rt, "served", Change::Due(9.0), 12, 2, 1, 0)?;
    run(rt, "dropped", Change::Due(9.0), 12, 0)
}

fn faults(rt: &impl Print) -> io::Result<()> {
    run(rt, "load", Change::Capacity(3), 12, 0)?;
    run(rt, "wheelchairs", Change::Wheelchairs(4, 1), 12, 0)?;
    run(
        rt,
        "seats before wheelchairs",
        Change::Wheelchairs(3, 1),
        12,
        0,
    )?;
    run(rt, "window", Change::Due(14.0), 21, 0)?;
    run(rt, "break", Change::Break(5.0, 10.0), 12, 2)?;
    run(rt, "missing", Change::Break(20.0, 30.0), 12, 0)?;
    run(rt, "far", Change::DistanceLimit(26.0), 12, 0)
}

// No road between the two customers.
fn roads(rt: &impl Print) -> io::Result<()> {
    run(rt, "closed", Change::Between(268435455.0), 12, 0)?;
    run(
        rt,
        "closed the other way",
        Change::Between(268435455.0),
        21,
        0,
    )?;
    cut(
        rt,
        "a run each",
        Change::Between(268435455.0),
        12,
        12,
        12,
        0,
    )
}

// The run of customer 1 is home at 20 without a break.
fn edge(rt: &impl Print) -> io::Result<()> {
    run(rt, "home before earliest", Change::Break(21.0, 30.0), 1, 0)?;
    run(rt, "break not needed", Change::Break(21.0, 30.0), 1, 1)?;
    run(rt, "home at earliest", Change::Break(20.0, 30.0), 1, 0)?;
    run(rt, "n", Change::Break(20.0, 30.0), 1, 1)
}

fn full_costs(rt: &impl Print) -> io::Result<()> {
    full_run(rt, "full best", 12, 2)?;
    full_cut(rt, "full dearer", 12, 12, 12, 1)?;
    full_run(rt, "full cheaper", 52, 2)?;
    full_run(rt, "full break taken", 2, 1)
}

fn full_faults(rt: &impl Print) -> io::Result<()> {
    full_run(rt, "full load", 2453, 1)?;
    full_run(rt, "full break", 24, 2)?;
    full_run(rt, "full window", 1, 1)?;
    full_run(rt, "full missing", 4, 0)?;
    full_run(rt, "full at earliest", 2, 0)?;
    full_run(rt, "full far", 42, 1)?;
    full_run(rt, "full long", 32, 1)
}

// Of two faults the one that is told.
fn order(rt: &impl Print) -> io::Result<()> {
    full_cut(rt, "calls before load", 2134, 2222, 4, 0)?;
    full_run(rt, "load before walk", 2134, 0)?;
    full_run(rt, "break before window", 23, 2)?;
    full_run(rt, "earlier call first", 213, 3)?;
    full_run(rt, "walk before missing", 21, 0)?;
    full_run(rt, "missing before distance", 24, 0)?;
    full_run(rt, "distance before duration", 24, 1)
}

// Of two runs the first with a fault.
fn runs(rt: &impl Print) -> io::Result<()> {
    full_cut(rt, "first run first", 321, 321, 23, 11)?;
    full_cut(rt, "second run long", 132, 132, 13, 1)?;
    full_cut(rt, "second run window", 21, 21, 12, 11)
}

fn main(rt: HostRuntime) -> io::Result<()> {
    costs(&rt)?;
    calls(&rt)?;
    drops(&rt)?;
    faults(&rt)?;
    roads(&rt)?;
    edge(&rt)?;
    full_costs(&rt)?;
    full_faults(&rt)?;
    order(&rt)?;
    runs(&rt)
}
