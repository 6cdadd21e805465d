// Lent lists of customers: their length, one of their records, and as many as fit copied to and from an array of 64.
#![tactic(auto)]

ghost use Rattle.std.specs.Prelude.{◌≡◌, ◌<◌, min, length, get_or, take};
ghost use Rattle.definitions.specs.Room.{written};
ghost use Rattle.models.specs.Records.{depot_record};
ghost use Rattle.lending.specs.Padding.{padded};

use models::count::fewer;
use models::customer::{Customer, depots};

pub fn count(customers: &[Customer]) -> usize
    ensures { result ≡ length customers.now }
{
    customers.len()
}

pub fn customer_at(customers: &[Customer], i: usize) -> Customer
    requires { i < length customers.now }
    ensures { result ≡ get_or customers.now i depot_record }
{
    customers[i]
}

// How many of n records an array of `held` holds and a list of so many takes.
pub fn fitting(n: usize, held: usize, room: usize) -> usize
    ensures { result ≡ min (min n held) room }
{
    let m = fewer(n, held);
    fewer(m, room)
}

// The first 64 records, and the depot's after them where there are fewer.
pub fn gathered(customers: &[Customer]) -> [Customer; 64]
    ensures { result ≡ padded 64 customers.now }
{
    let n = fewer(customers.len(), 64);
    let mut all = depots();
    all[..n].copy_from_slice(&customers[..n]);
    all
}

// The first n records written at the front, as far as there is room; the rest stays.
pub fn scattered(records: [Customer; 64], n: usize, customers: &mut [Customer])
    ensures { let old = customers.old in
        customers.new ≡ written (take (min n (length old)) records) old }
{
    let m = fitting(n, 64, customers.len());
    customers[..m].copy_from_slice(&records[..m]);
}
