// An accepted sheet read into lent arrays.
ghost use Rattle.std.specs.Prelude.{List, ◌≡◌, ℕ};
ghost use Rattle.definitions.specs.Sheet.{Sheet};
ghost use Rattle.definitions.specs.Reader as Reader;
ghost use Rattle.sheet_loaded.specs.Held.{Found};
ghost use Rattle.sheet_loaded.specs.Loaded.{arrays, Holds};

use cut_table::cells::MOST_CUT;
use models::customer::Customer;
use models::head::Head;
use sheet_read::customers::customers_of;
use sheet_read::read::Contents;
use sheet_read::values::{write_tour, write_values};

// What a sheet has besides its tables and tour, and how many distances, times and calls stand at the front of the
// arrays.
#[derive(Clone, Copy)]
pub struct Loaded {
    pub head: Head,
    pub customers: [Customer; 64],
    pub distance_count: usize,
    pub time_count: usize,
    pub calls: usize,
}

// The tables and the tour are written at the front of the arrays; head and counts are as the reader found them.
pub fn load(
    bytes: &[u8],
    found: Contents,
    distances: &mut [f64; 4096],
    times: &mut [f64; 4096],
    tour: &mut [usize; MOST_CUT],
) -> Loaded
    requires { Found bytes.now found }
    ensures { let old = arrays distances.old times.old tour.old in
        let new = arrays distances.new times.new tour.new in
        ((s : Sheet) (calls : List ℕ) → Reader.read bytes.now ≡ Reader.sheet s calls
        → Holds s calls result old new) }
{
    write_values(bytes, 0xC, &mut *distances);
    write_values(bytes, 0xD, &mut *times);
    write_tour(bytes, &mut *tour);
    let head = found.head;
    Loaded {
        head,
        customers: customers_of(bytes),
        distance_count: found.distances,
        time_count: found.times,
        calls: found.calls,
    }
}
