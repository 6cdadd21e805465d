// The leg tables (distance/matrix.rs): distances and, where given, travel times, by rows.
ghost use Rattle.std.specs.Prelude.{◌≡◌, ◌<◌};
ghost use Rattle.definitions.specs.Sheet.{time_table};
ghost use Rattle.definitions.specs.Domain.{no_road};
ghost use Rattle.whole.specs.Whole.{fl};
ghost use Rattle.distance.specs.Lookup.{is_closed_f, number_f, road_f, lookup_f};

use whole::infinity;

// What a table holds for a leg without a road.
pub fn no_road() -> f64
    ensures { result ≡ fl no_road }
{
    268435455.0
}

// Whether a number of a leg table closes its leg.
pub fn is_closed(number: f64) -> bool
    ensures { result ≡ is_closed_f number }
{
    number == no_road()
}

// What a number of a leg table says: a leg's length, or that there is no road.
pub fn road_of(number: f64) -> Option<f64>
    ensures { result ≡ road_f number }
{
    if is_closed(number) {
        None
    } else {
        Some(number)
    }
}

// The number in row `from` and column `to` of a table with `size` rows, and infinity where there is none.
fn number_at(table: &[f64], size: usize, from: usize, to: usize) -> f64
    ensures { result ≡ number_f table.now size from to }
{
    if size <= from {
        return infinity();
    }
    if size <= to {
        return infinity();
    }
    if 0x1_0000_0000 < size {
        return number_wide(table, size, from, to);
    }
    let i = from * size + to;
    if table.len() <= i {
        return infinity();
    }
    table[i]
}

// The same inside the rows and columns, where the index could wrap: the row is tested by a quotient, and the column
// by a difference.
fn number_wide(table: &[f64], size: usize, from: usize, to: usize) -> f64
    requires from_lt_size { from < size }
    requires to_lt_size { to < size }
    ensures { result ≡ number_f table.now size from to }
{
    let rows = table.len() / size;
    if rows < from {
        return infinity();
    }
    let start = from * size;
    let rest = table.len() - start;
    if rest <= to {
        return infinity();
    }
    let i = start + to;
    table[i]
}

// The length of a leg by a table, if there is a road.
pub fn lookup(table: &[f64], size: usize, from: usize, to: usize) -> Option<f64>
    ensures { result ≡ lookup_f table.now size from to }
{
    road_of(number_at(table, size, from, to))
}

// By the time table, or without one by the distances.
fn lookup_time(distances: &[f64], times: &[f64], size: usize, from: usize, to: usize) -> Option<f64>
    ensures { result ≡ lookup_f (time_table distances.now times.now) size from to }
{
    if times.len() == 0 {
        lookup(distances, size, from, to)
    } else {
        lookup(times, size, from, to)
    }
}

// A view over the lent tables, each of its own lifetime; without a time table `times` is empty.
#[derive(Clone, Copy)]
pub struct DistanceMatrix<'a, 'b> {
    distances: &'a [f64],
    times: &'b [f64],
    size: usize,
}

// The two lookups over it.
impl<'a, 'b> DistanceMatrix<'a, 'b> {
    pub fn get(self, from: usize, to: usize) -> Option<f64>
        ensures { result ≡ lookup_f self.entry.distances.now self.entry.size from to }
    {
        lookup(self.distances, self.size, from, to)
    }

    pub fn travel_time(self, from: usize, to: usize) -> Option<f64>
        ensures { let times = time_table self.entry.distances.now self.entry.times.now in
            result ≡ lookup_f times self.entry.size from to }
    {
        lookup_time(self.distances, self.times, self.size, from, to)
    }
}

// The distance from one place to another.
pub fn get(distances: &[f64], size: usize, from: usize, to: usize) -> Option<f64>
    ensures { result ≡ lookup_f distances.now size from to }
{
    // no time is asked, so the distances stand for the times
    let matrix = DistanceMatrix {
        distances,
        times: distances,
        size,
    };
    matrix.get(from, to)
}

// The travel time from one place to another; without a time table it is the distance.
pub fn travel_time(
    distances: &[f64],
    times: &[f64],
    size: usize,
    from: usize,
    to: usize,
) -> Option<f64>
    ensures { result ≡ lookup_f (time_table distances.now times.now) size from to }
{
    let matrix = DistanceMatrix {
        distances,
        times,
        size,
    };
    matrix.travel_time(from, to)
}
