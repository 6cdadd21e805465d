// The rows of a timeline at the front of lent lists: three times and two loads for each visit, a number and three
// figures for each violation.
ghost use Rattle.std.specs.Prelude.{◌≡◌, ◌+◌, ◌*◌, ◌≤◌, ◌<◌, length, set};
ghost use Rattle.definitions.specs.Room.{written};
ghost use Rattle.bytes_visits.specs.Rows.{rows_to, times_row_f, loads_row_f, number_row_f, figures_row_f};

use crate::figures::{figures_of, number_of};
use visits::visit::{MOST_VIOLATIONS, Violation, Visit};

// Two numbers written from index `at` on, and three.
pub fn put_two(at: usize, a: u64, b: u64, list: &mut [u64])
    requires { at + 1 < length list.old }
    ensures { list.new ≡ set (set list.old at a) (at + 1) b }
{
    list[at] = a;
    list[at + 1] = b;
}

pub fn put_three(at: usize, a: f64, b: f64, c: f64, list: &mut [f64])
    requires { at + 2 < length list.old }
    ensures { list.new ≡ set (set (set list.old at a) (at + 1) b) (at + 2) c }
{
    list[at] = a;
    list[at + 1] = b;
    list[at + 2] = c;
}

// Arrival, service start and departure of the first n visits.
pub fn write_times(visits: [Visit; 128], begins: [f64; 128], n: usize, times: &mut [f64])
    requires { (n ≤ 128) × (3 * n ≤ length times.old) }
    ensures { times.new ≡ written (rows_to (times_row_f visits begins) n) times.old }
{
    for (i, visit) in visits[..n].iter().enumerate() {
        put_three(
            3 * i,
            visit.arrival_time,
            begins[i],
            visit.departure_time,
            &mut *times,
        );
    }
}

// Seats and wheelchair places taken after each of the first n visits.
pub fn write_loads(visits: [Visit; 128], n: usize, loads: &mut [u64])
    requires { (n ≤ 128) × (2 * n ≤ length loads.old) }
    ensures { loads.new ≡ written (rows_to (loads_row_f visits) n) loads.old }
{
    for (i, visit) in visits[..n].iter().enumerate() {
        let load = visit.load_after;
        put_two(2 * i, load.seats, load.wheelchairs, &mut *loads);
    }
}

// The numbers of the first n violations.
pub fn write_numbers(list: [Violation; MOST_VIOLATIONS], n: usize, numbers: &mut [u8])
    requires { (n ≤ 132) × (n ≤ length numbers.old) }
    ensures { numbers.new ≡ written (rows_to (number_row_f list) n) numbers.old }
{
    for (i, violation) in list[..n].iter().enumerate() {
        numbers[i] = number_of(violation.kind);
    }
}

// Their figures.
pub fn write_figures(list: [Violation; MOST_VIOLATIONS], n: usize, values: &mut [f64])
    requires { (n ≤ 132) × (3 * n ≤ length values.old) }
    ensures { values.new ≡ written (rows_to (figures_row_f list) n) values.old }
{
    for (i, violation) in list[..n].iter().enumerate() {
        let row = figures_of(violation.kind);
        put_three(3 * i, row.first, row.second, row.third, &mut *values);
    }
}
