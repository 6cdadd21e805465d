// Each work, as a program outside calls it. All give 0 for refused bytes and without a round, and the improvers also
// where a leg is closed.
ghost use Rattle.std.specs.Prelude.{◌≡◌};
ghost use Rattle.definitions.specs.Reader as Reader;
ghost use Rattle.models.specs.declared.placement.Placement.TheVariants.{Clock, Least};
ghost use Rattle.bench_timing.specs.declared.work.Work.TheVariants as Works;
ghost use Rattle.bench_timing.specs.Work.{timed};

use crate::work::{Work, on_bytes};
use models::placement::Placement;

// The cost of the cut by capacity, windows, limits and break.
#[unsafe(no_mangle)]
pub extern "C" fn timing_split_tw(sheet: &[u8], rounds: u32) -> f64
    ensures { result ≡ timed (Works.SplitTw Clock) rounds (Reader.read sheet.now) }
{
    on_bytes(sheet, Work::SplitTw(Placement::Clock), rounds)
}

// The same with breaks where the least is paid for lateness.
#[unsafe(no_mangle)]
pub extern "C" fn timing_split_least(sheet: &[u8], rounds: u32) -> f64
    ensures { result ≡ timed (Works.SplitTw Least) rounds (Reader.read sheet.now) }
{
    on_bytes(sheet, Work::SplitTw(Placement::Least), rounds)
}

// The cost of the cut by loads and closed legs alone.
#[unsafe(no_mangle)]
pub extern "C" fn timing_split(sheet: &[u8], rounds: u32) -> f64
    ensures { result ≡ timed Works.Split rounds (Reader.read sheet.now) }
{
    on_bytes(sheet, Work::Split, rounds)
}

// The distance of the tour as one run after the reversals.
#[unsafe(no_mangle)]
pub extern "C" fn timing_two_opt(sheet: &[u8], rounds: u32) -> f64
    ensures { result ≡ timed Works.TwoOpt rounds (Reader.read sheet.now) }
{
    on_bytes(sheet, Work::TwoOpt, rounds)
}

// How many runs are left of the tour cut into runs of `run` calls.
#[unsafe(no_mangle)]
pub extern "C" fn timing_eliminate(sheet: &[u8], run: usize, rounds: u32) -> f64
    ensures { result ≡ timed (Works.Eliminate run) rounds (Reader.read sheet.now) }
{
    on_bytes(sheet, Work::Eliminate(run), rounds)
}
