// What records and calls ask for, one by one and in all.
ghost use Rattle.std.specs.Prelude.{◌≡◌, map, ◌≤◌, length};
ghost use Rattle.models.specs.Load.{space_of, load_of, UpTo};
ghost use Rattle.models.specs.Records.{customer_of};
ghost use Rattle.evaluation.specs.Tables.{asked_f, load_f, Asks};

use crate::schedule::record_index;
use models::customer::Customer;
use models::load::{Load, Space};

// What each record asks for, as numbers, the seats of all and then their wheelchair places: these can be lent, where
// records would be copied. Whoever adds a measure makes the list longer, and adds a part of the next two functions.
pub type Demands = [u32; 128];

pub fn demands_of(customers: [Customer; 64]) -> Demands
    ensures { (length result ≡ 128) × Asks (map customer_of customers) result }
{
    let mut demands = [0u32; 128];
    for (i, customer) in customers.iter().enumerate() {
        demands[i] = customer.demand.seats;
        demands[64 + i] = customer.demand.wheelchairs;
    }
    demands
}

// What a call asks for, from that list.
pub fn demand_at(demands: &Demands, cid: usize) -> Space
    ensures { space_of result ≡ asked_f demands.now cid }
{
    let index = record_index(cid);
    let seats = demands[index];
    let wheelchairs = demands[64 + index];
    Space { seats, wheelchairs }
}

// What the calls ask for in all.
pub fn load_of(calls: &[usize], demands: &Demands) -> Load
    requires { length calls.now ≤ 128 }
    ensures { (load_of result ≡ load_f demands.now calls.now) × UpTo 128 (load_of result) }
{
    let mut load = Load::none();
    for &cid in calls {
        load = load.plus(demand_at(demands, cid));
    }
    load
}
