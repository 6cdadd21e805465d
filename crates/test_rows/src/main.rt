// The leg tables row by row: in two tables of three rows each number in turn is out of range, and a line says for each
// of the nine after how many rows that is found.
#![tactic(auto)]

use refuse_numbers::tables::bad_rows;
use std::io;

// The table that has the number out of range.
#[derive(Clone, Copy)]
enum Spoilt {
    Distances,
    Times,
    // The distances, and the time table is empty.
    DistancesAlone,
    Neither,
}

// The table with a number out of range in one place.
fn bad_at(place: usize) -> [f64; 9] {
    let mut table = [1.0; 9];
    if place < 9 {
        table[place] = -1.0;
    }
    table
}

// The least number of rows after which something is found; 4 where three rows have nothing.
fn rows_until_found(distances: &[f64], times: &[f64]) -> u64 {
    if bad_rows(distances, times, 3, 0) {
        return 0;
    }
    if bad_rows(distances, times, 3, 1) {
        return 1;
    }
    if bad_rows(distances, times, 3, 2) {
        return 2;
    }
    if bad_rows(distances, times, 3, 3) {
        return 3;
    }
    4
}

fn rows_with(what: Spoilt, place: usize) -> u64 {
    let sound = [1.0; 9];
    let bad = bad_at(place);
    match what {
        Spoilt::Distances => rows_until_found(&bad, &sound),
        Spoilt::Times => rows_until_found(&sound, &bad),
        Spoilt::DistancesAlone => rows_until_found(&bad, &sound[..0]),
        Spoilt::Neither => rows_until_found(&sound, &sound),
    }
}

fn show(rt: &impl Print, what: Spoilt, place: usize) -> io::Result<()> {
    let rows = rows_with(what, place);
    print!(rt; " {rows}")
}

fn all_places(rt: &impl Print, what: Spoilt) -> io::Result<()> {
    for place in 0..9 {
        show(rt, what, place)?;
    }
    Ok(())
}

fn line(rt: &impl Print, word: &str, what: Spoilt) -> io::Result<()> {
    print!(rt; "{word}")?;
    all_places(rt, what)?;
    println!(rt)
}

fn main(rt: HostRuntime) -> io::Result<()> {
    line(&rt, "distances:", Spoilt::Distances)?;
    line(&rt, "times:", Spoilt::Times)?;
    line(&rt, "distances alone:", Spoilt::DistancesAlone)?;
    line(&rt, "neither:", Spoilt::Neither)
}
