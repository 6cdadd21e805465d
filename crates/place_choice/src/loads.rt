// The loads of runs, and whether a run has room for one more.
ghost use Rattle.std.specs.Prelude.{◌≡◌, ℕ, ◌+◌, ◌<◌, length};
ghost use Rattle.definitions.specs.Load.{plus, carried};
ghost use Rattle.models.specs.Load.{space_of, load_of, UpTo, Countable};
ghost use Rattle.evaluation.specs.Tables.{asked_f};
ghost use Rattle.improve_runs.specs.RunLists.{room, Sound, runs, runs_in};
ghost use Rattle.place_choice.specs.Loads.{all_loads, load_in, Written, Loaded};

use evaluation::load::{Demands, load_of};
use models::load::{Load, Space};

// So many numbers has the load of a run, and so many have those of all runs that there is room for.
const MEASURES: usize = 2;

pub const ALL_LOADS: usize = 128 * MEASURES;

// The load of each run, as numbers, its seats and then its wheelchair places: these can be lent, where structs would
// be copied. Whoever adds a measure adds a part of the next two functions.
pub type Loads = [u64; ALL_LOADS];

// The load of run k.
pub fn load_at(loads: &Loads, k: usize) -> Load
    requires { k < room }
    ensures { load_of result ≡ load_in loads.now k }
{
    let n = MEASURES * k;
    Load {
        seats: loads[n],
        wheelchairs: loads[n + 1],
    }
}

// Writes the load of run k.
pub fn put_load(loads: &mut Loads, k: usize, load: Load)
    requires { (length loads.old ≡ all_loads) × (k < room) }
    ensures { Written loads.old k (load_of load) loads.new }
{
    let n = MEASURES * k;
    loads[n] = load.seats;
    loads[n + 1] = load.wheelchairs;
}

// Works out the loads of the runs.
pub fn loads_of(
    calls: &[usize],
    ends: &[usize],
    many: usize,
    count: usize,
    demands: &Demands,
    loads: &mut Loads,
)
    requires { Sound (runs calls.now ends.now many count) × (length loads.old ≡ all_loads) }
    ensures { let rest = runs_in (runs calls.now ends.now many count) in
        Loaded (asked_f demands.now) rest 128 loads.new }
{
    let mut from = 0;
    for k in 0..count {
        let to = ends[k];
        let load = load_of(&calls[from..to], demands);
        put_load(&mut *loads, k, load);
        from = to;
    }
}

// Whether a load leaves room for what a call asks.
pub fn has_room(load: Load, asked: Space, capacity: Space) -> bool
    requires { Countable (load_of load) }
    ensures { result ≡ carried (plus (load_of load) (space_of asked)) (space_of capacity) }
{
    let with_call = load.plus(asked);
    with_call.fits(capacity)
}

// Adds what a call asks to the load of run k.
pub fn add_load(loads: &mut Loads, k: usize, asked: Space)
    requires { (length loads.old ≡ all_loads) × (k < room) × Countable (load_in loads.old k) }
    ensures fact { let more = plus (load_in loads.old k) (space_of asked) in
        Written loads.old k more loads.new }
    ensures fact_2 { let old = loads.old in
        let new = loads.new in
        ((n : ℕ) → UpTo n (load_in old k) → UpTo (n + 1) (load_in new k)) }
{
    let load = load_at(loads, k);
    put_load(&mut *loads, k, load.plus(asked));
}
