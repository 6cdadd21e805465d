// The reader as a public call: a sheet's head is answered, and its customers, distances, times and tour are written at
// the front of the lent lists.
ghost use Rattle.planner.specs.Reading.{read_output, ReadContract};

use call_reader::reading::{Read, records_of};
use lending::scattered;
use models::customer::Customer;
use sheet_read::customers::customers_of;

// A sheet read from its bytes. The records are read from any bytes, and written as far as the answer counts them: where
// the bytes are refused nothing is written.
pub fn read_sheet(
    bytes: &[u8],
    customers: &mut [Customer],
    distances: &mut [f64],
    times: &mut [f64],
    tour: &mut [usize],
) -> Read
    ensures { let old = read_output
        customers.old distances.old times.old tour.old in
        let new = read_output
        customers.new distances.new times.new tour.new in
        ReadContract bytes.now old result new }
{
    let all = customers_of(bytes);
    let room = customers.len();
    let read = call_reader::reading::read_sheet(
        bytes,
        room,
        &mut *distances,
        &mut *times,
        &mut *tour,
    );
    let n = records_of(read);
    scattered(all, n, &mut *customers);
    read
}
