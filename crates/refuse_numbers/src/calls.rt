// Refusal 1 of lists of calls: a tour in numbers, a run list in bytes.
ghost use Rattle.std.specs.Prelude.{◌≡◌, not};
ghost use Rattle.basics.specs.Lists.{any};
ghost use Rattle.definitions.specs.Domain.{is_call};
ghost use Rattle.definitions.specs.Refusals.{bad_tour, bad_run_list};

use models::byte::number_of;
use models::domain::{MOST_CALLS, is_call};

// A number that is no customer.
fn no_customer(places: usize, tour: &[usize]) -> bool
    ensures { result ≡ any (λ c. not (is_call places c)) tour.now }
{
    tour.iter().any(|&c| !is_call(places, c))
}

// A byte that is none.
fn no_customer_byte(places: usize, calls: &[u8]) -> bool
    ensures { result ≡ any (λ c. not (is_call places c)) calls.now }
{
    calls.iter().any(|&c| !is_call(places, number_of(c)))
}

// More than 128 calls, or a call out of range.
pub fn bad_tour(places: usize, tour: &[usize]) -> bool
    ensures { result ≡ bad_tour places tour.now }
{
    MOST_CALLS < tour.len() || no_customer(places, tour)
}

pub fn bad_run_list(places: usize, calls: &[u8]) -> bool
    ensures { result ≡ bad_run_list places calls.now }
{
    MOST_CALLS < calls.len() || no_customer_byte(places, calls)
}
