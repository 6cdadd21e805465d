// The reader, all but its records: refused by number and word with nothing written, or a sheet's head
// with its distances, times and tour written at the front of the lent lists.
ghost use Rattle.std.specs.Prelude.{◌≡◌, [], ◌∷◌};
ghost use Rattle.definitions.specs.Reader.{reader_needs, read_into};
ghost use Rattle.definitions.specs.Room.{short};
ghost use Rattle.call_reader.specs.Reading.{records_in, rooms_of, Reads};

use refuse_lists::lengths;
use sheet_read::read::{Contents, Reading};
use sheet_read::values::{write_tour, write_values};

// What is written is told by its counts.
#[derive(Clone, Copy)]
pub enum Read {
    // Number, and word index from 0.
    Refused(u32, usize),
    Sheet(Contents),
}

// Whether a lent list is too short for some sheet.
fn too_short(customers: usize, distances: usize, times: usize, calls: usize) -> bool
    ensures { result ≡ short reader_needs (customers ∷ distances ∷ times ∷ calls ∷ []) }
{
    let needs = [64, 4096, 4096, 128];
    let rooms = [customers, distances, times, calls];
    lengths::short(&needs, &rooms)
}

// How many records an answer counts.
pub fn records_of(read: Read) -> usize
    ensures { result ≡ records_in read }
{
    match read {
        Read::Refused(number, word) => 0,
        Read::Sheet(contents) => contents.customers,
    }
}

// There is room for so many customers.
pub fn read_sheet(
    bytes: &[u8],
    customers: usize,
    distances: &mut [f64],
    times: &mut [f64],
    tour: &mut [usize],
) -> Read
    ensures { let rooms = rooms_of customers distances.old times.old tour.old in
        Reads (read_into rooms bytes.now)
        distances.old times.old tour.old result
        distances.new times.new tour.new }
{
    if too_short(customers, distances.len(), times.len(), tour.len()) {
        return Read::Refused(13, 0);
    }
    match sheet_read::read::read(bytes) {
        Reading::Refused(number, word) => Read::Refused(number, word),
        Reading::Sheet(contents) => {
            write_values(bytes, 0xC, &mut *distances);
            write_values(bytes, 0xD, &mut *times);
            write_tour(bytes, &mut *tour);
            Read::Sheet(contents)
        }
    }
}
