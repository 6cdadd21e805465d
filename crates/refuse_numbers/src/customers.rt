// Tests of the customers that a sheet has: the first `places` of those lent.
ghost use Rattle.std.specs.Prelude.{◌≡◌, map, take};
ghost use Rattle.basics.specs.Lists.{any};
ghost use Rattle.models.specs.Records.{customer_of};
ghost use Rattle.refuse_numbers.specs.Customers.{test_of};

use crate::records::{bad_customer, is_soft, window_falls};
use models::customer::Customer;

// What is asked of a customer's record, in the order of the refusals.
#[derive(Clone, Copy)]
pub enum Test {
    // A number out of range (1).
    OutOfRange,
    // Ready above due (2).
    Falling,
    // Lateness pay (4).
    Soft,
}

// Whether the refusal that is tested for applies to a customer.
pub fn applies(test: Test, c: Customer) -> bool
    ensures { result ≡ test_of test (customer_of c) }
{
    match test {
        Test::OutOfRange => bad_customer(c),
        Test::Falling => {
            let opening = c.time_window;
            window_falls(opening)
        }
        Test::Soft => is_soft(c),
    }
}

// Whether the test applies to one of the first `places` customers.
pub fn any_applies(test: Test, customers: [Customer; 64], places: usize) -> bool
    ensures { result ≡ any (test_of test) (take places (map customer_of customers)) }
{
    customers.iter().take(places).any(|&c| applies(test, c))
}
