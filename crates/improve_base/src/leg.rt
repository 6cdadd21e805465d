// Legs of tables that close none: a sheet with a closed leg is not improved. A length by one table; and the leg from
// one place to the next by both, as distance::leg reads it, where a cell that both tables have is found once for both.
ghost use Rattle.std.specs.Prelude.{◌≡◌, Some};
ghost use Rattle.definitions.specs.Sheet.{time_table};
ghost use Rattle.distance.specs.Lookup.{number_f, drive_f};
ghost use Rattle.improve_base.specs.Leg.{AllOpen, CellOf, leg_of};

use distance::matrix::lookup;
use whole::infinity;

// The length of a leg, by the lookup. Every caller knows that the table closes none, so the second way is never gone.
pub fn looked_up(table: &[f64], size: usize, from: usize, to: usize) -> f64
    requires { AllOpen table.now }
    ensures { result ≡ number_f table.now size from to }
{
    match lookup(table, size, from, to) {
        Some(length) => length,
        None => infinity(),
    }
}

// The travel time of a leg, by the lookup; without a time table it is the distance.
pub fn time_looked_up(distances: &[f64], times: &[f64], size: usize, from: usize, to: usize) -> f64
    requires { AllOpen distances.now × AllOpen times.now }
    ensures { result ≡ number_f (time_table distances.now times.now) size from to }
{
    if times.len() == 0 {
        looked_up(distances, size, from, to)
    } else {
        looked_up(times, size, from, to)
    }
}

// The cell of a leg in a table with so many; `many` for places beyond the rows or too many rows.
pub fn cell_of(size: usize, from: usize, to: usize, many: usize) -> usize
    ensures { CellOf size from to many result }
{
    if 0x1_0000_0000 < size {
        return many;
    }
    if size <= from {
        return many;
    }
    if size <= to {
        return many;
    }
    from * size + to
}

// The length of a leg. In a table that closes none each number is one, so it is read with no further test.
pub fn open_leg(table: &[f64], size: usize, from: usize, to: usize) -> f64
    requires { AllOpen table.now }
    ensures { result ≡ number_f table.now size from to }
{
    if size <= from {
        return looked_up(table, size, from, to);
    }
    if size <= to {
        return looked_up(table, size, from, to);
    }
    if 0x1_0000_0000 < size {
        return looked_up(table, size, from, to);
    }
    let i = from * size + to;
    if table.len() <= i {
        return looked_up(table, size, from, to);
    }
    table[i]
}

// A leg that is read, and its cell. The cell stands between the two numbers: side by side they would be read as one,
// which waits until both have been written.
#[derive(Clone, Copy)]
pub struct LegAt {
    pub distance: f64,
    pub cell: usize,
    pub time: f64,
}

// A leg whose cell is not in both tables.
pub fn read_between(
    distances: &[f64],
    times: &[f64],
    size: usize,
    from: usize,
    to: usize,
    cell: usize,
) -> LegAt
    requires { AllOpen distances.now × AllOpen times.now }
    ensures { Some (leg_of result) ≡ drive_f distances.now times.now size from to }
{
    LegAt {
        distance: looked_up(distances, size, from, to),
        cell,
        time: time_looked_up(distances, times, size, from, to),
    }
}

// The distance and the travel time of a leg.
pub fn leg_on(distances: &[f64], times: &[f64], size: usize, from: usize, to: usize) -> LegAt
    requires { AllOpen distances.now × AllOpen times.now }
    ensures { Some (leg_of result) ≡ drive_f distances.now times.now size from to }
{
    let cell = cell_of(size, from, to, distances.len());
    if distances.len() <= cell {
        return read_between(distances, times, size, from, to, cell);
    }
    let distance = distances[cell];
    if times.len() == 0 {
        return LegAt {
            distance,
            cell,
            time: distance,
        };
    }
    if times.len() <= cell {
        return read_between(distances, times, size, from, to, cell);
    }
    LegAt {
        distance,
        cell,
        time: times[cell],
    }
}
