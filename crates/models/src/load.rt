// What calls ask for and what a vehicle holds. Whoever adds a measure adds it here: a field of both structs, and a part
// of each function.
ghost use Rattle.std.specs.Prelude.{◌≡◌, true, ◌&&◌, ℕ, ◌+◌, ◌*◌, ◌<◌, ◌≤◌, eqb, leb};
ghost use Rattle.definitions.specs.Domain.{is_demand, is_capacity};
ghost use Rattle.definitions.specs.Load.{no_load, plus, seated, wheeled, carried, each_of};
ghost use Rattle.models.specs.Load.{seat_space, space_of, load_of, UpTo, Countable};

use crate::domain::{is_capacity, is_demand};

// What a call asks for, or a vehicle holds.
#[derive(Clone, Copy)]
pub struct Space {
    pub seats: u32,
    pub wheelchairs: u32,
}

// What calls ask for in all: it has room for the sum of many.
#[derive(Clone, Copy)]
pub struct Load {
    pub seats: u64,
    pub wheelchairs: u64,
}

fn wide(x: u32) -> u64
    ensures { (result ≡ x) × (result < 4294967296) }
{
    x as u64
}

// In each of the two measures.
fn both(seats: bool, wheelchairs: bool) -> bool
    ensures { result ≡ seats && wheelchairs }
{
    seats && wheelchairs
}

// In one measure: whether so much is held.
fn holds(x: u64, most: u32) -> bool
    ensures { (result ≡ leb x most) × (result ≡ true → x < 4294967296) }
{
    x <= wide(most)
}

// In one measure: so much more.
fn more(x: u64, y: u32) -> u64
    requires { x ≤ 1000 * 4294967296 }
    ensures { (result ≡ x + y) × (result < x + 4294967296) }
{
    x + wide(y)
}

// So many seats, and nothing else.
pub fn seats(n: u32) -> Space
    ensures { result ≡ seat_space n }
{
    Space {
        seats: n,
        wheelchairs: 0,
    }
}

impl Space {
    // It is what a call may ask for.
    pub fn may_be_asked(self) -> bool
        ensures { result ≡ each_of is_demand (space_of self) }
    {
        both(is_demand(self.seats), is_demand(self.wheelchairs))
    }

    // It is what a vehicle may hold.
    pub fn may_be_held(self) -> bool
        ensures { result ≡ each_of is_capacity (space_of self) }
    {
        both(is_capacity(self.seats), is_capacity(self.wheelchairs))
    }

    // Whether a vehicle of this capacity holds it.
    pub fn fits(self, capacity: Space) -> bool
        ensures { result ≡ carried (space_of self) (space_of capacity) }
    {
        both(
            self.seats <= capacity.seats,
            self.wheelchairs <= capacity.wheelchairs,
        )
    }

    pub fn is_none(self) -> bool
        ensures { result ≡ each_of (λ n. eqb n 0) (space_of self) }
    {
        both(self.seats == 0, self.wheelchairs == 0)
    }
}

impl Load {
    // An empty vehicle's.
    pub fn none() -> Load
        ensures { load_of result ≡ no_load }
    {
        Load {
            seats: 0,
            wheelchairs: 0,
        }
    }

    // With one call more.
    pub fn plus(self, space: Space) -> Load
        requires { Countable (load_of self) }
        ensures result_value { load_of result ≡ plus (load_of self) (space_of space) }
        ensures by_index { (k : ℕ) → UpTo k (load_of self) → UpTo (k + 1) (load_of result) }
    {
        Load {
            seats: more(self.seats, space.seats),
            wheelchairs: more(self.wheelchairs, space.wheelchairs),
        }
    }

    // Whether it has the seats, and the wheelchair places.
    pub fn seated(self, capacity: Space) -> bool
        ensures { result ≡ seated (load_of self) (space_of capacity) }
    {
        holds(self.seats, capacity.seats)
    }

    pub fn wheeled(self, capacity: Space) -> bool
        ensures { result ≡ wheeled (load_of self) (space_of capacity) }
    {
        holds(self.wheelchairs, capacity.wheelchairs)
    }

    // Whether a vehicle of this capacity holds it.
    pub fn fits(self, capacity: Space) -> bool
        ensures value { result ≡ carried (load_of self) (space_of capacity) }
        ensures up_to { result ≡ true → UpTo 1 (load_of self) }
    {
        both(
            holds(self.seats, capacity.seats),
            holds(self.wheelchairs, capacity.wheelchairs),
        )
    }
}
