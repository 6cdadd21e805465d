// The timeline of a run on an accepted sheet: its bytes are read into arrays.
ghost use Rattle.definitions.specs.Bytes.{numbers_of};
ghost use Rattle.sheet_loaded.specs.Held.{Found};
ghost use Rattle.bytes_visits.specs.Told.{lists, Roomy, SheetTold};

use crate::run::{Visiting, time_run};
use cut_table::cells::MOST_CUT;
use sheet_loaded::load::load;
use sheet_read::read::Contents;

// The run given, in bytes, with its break at call number `place`, from 1, or 0 for none.
pub fn visits_sheet(
    bytes: &[u8],
    found: Contents,
    run: &[u8],
    place: usize,
    hours: &mut [f64],
    loads: &mut [u64],
    numbers: &mut [u8],
    figures: &mut [f64],
) -> Visiting
    requires found { Found bytes.now found }
    requires roomy { Roomy (lists hours.old loads.old numbers.old figures.old) }
    ensures { let old = lists hours.old loads.old numbers.old figures.old in
        let new = lists hours.new loads.new numbers.new figures.new in
        SheetTold bytes.now (numbers_of run.now) place old result new }
{
    let mut distances = [0.0; 4096];
    let mut times = [0.0; 4096];
    let mut tour = [0usize; MOST_CUT];
    let l = load(bytes, found, &mut distances, &mut times, &mut tour);
    let customers = l.customers;
    let head = l.head;
    time_run(
        head,
        customers,
        &distances[..l.distance_count],
        &times[..l.time_count],
        run,
        place,
        &mut *hours,
        &mut *loads,
        &mut *numbers,
        &mut *figures,
    )
}
