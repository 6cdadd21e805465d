// The reading of a sheet, a number of times.
ghost use Rattle.std.specs.Prelude.{◌≡◌, length};
ghost use Rattle.whole.specs.Whole.{fl};
ghost use Rattle.definitions.specs.Reader as Reader;
ghost use Rattle.sheet_loaded.specs.Held.{Found};
ghost use Rattle.bench_timing.specs.Work.{last_of, on_sheet};

use cut_table::cells::MOST_CUT;
use sheet_loaded::load::load;
use sheet_read::read::{Contents, Reading, read};

// Reads accepted bytes into the arrays, and gives the number of calls.
fn loaded_calls(
    bytes: &[u8],
    found: Contents,
    distances: &mut [f64; 4096],
    times: &mut [f64; 4096],
    tour: &mut [usize; MOST_CUT],
) -> f64
    requires { Found bytes.now found }
    ensures { result ≡ on_sheet (λ s calls. fl (length calls)) (Reader.read bytes.now) }
{
    let l = load(bytes, found, &mut *distances, &mut *times, &mut *tour);
    std::num::nearest_u64_to_f64(l.calls as u64)
}

// Any bytes, read once: 0 where they are refused.
fn read_calls(
    bytes: &[u8],
    distances: &mut [f64; 4096],
    times: &mut [f64; 4096],
    tour: &mut [usize; MOST_CUT],
) -> f64
    ensures { result ≡ on_sheet (λ s calls. fl (length calls)) (Reader.read bytes.now) }
{
    match read(bytes) {
        Reading::Refused(_, _) => 0.0,
        Reading::Sheet(found) => {
            loaded_calls(bytes, found, &mut *distances, &mut *times, &mut *tour)
        }
    }
}

// The number of calls, after the whole reading in each round.
#[unsafe(no_mangle)]
pub extern "C" fn timing_read(sheet: &[u8], rounds: u32) -> f64
    ensures { result ≡ last_of rounds (on_sheet (λ s calls. fl (length calls)) (Reader.read sheet.now)) }
{
    let mut distances = [0.0; 4096];
    let mut times = [0.0; 4096];
    let mut tour = [0usize; MOST_CUT];
    let mut calls = 0.0;
    for _ in 0..rounds {
        calls = read_calls(sheet, &mut distances, &mut times, &mut tour);
    }
    calls
}
