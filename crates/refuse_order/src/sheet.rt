// Refusals 14, 1, 2, 5, 4 and 23 of a sheet, with the first customers lent in an array.
ghost use Rattle.std.specs.Prelude.{◌≡◌, ◌&&◌, [], map, length, take};
ghost use Rattle.basics.specs.Lists.{any};
ghost use Rattle.basics.specs.Options.{present};
ghost use Rattle.definitions.specs.Sheet.{any_soft};
ghost use Rattle.definitions.specs.Refusals.{tables_odd};
ghost use Rattle.models.specs.Records.{customer_of, rest_of};
ghost use Rattle.refuse_lists.specs.Needs.{runs_odd_of};
ghost use Rattle.refuse_order.specs.Lent.{sheet_of, lent_of};
ghost use Rattle.refuse_order.specs.Order.{bad_head, by_rows};
ghost use Rattle.distance.specs.Lookup.{is_closed_f};
ghost use Rattle.refuse_numbers.specs.Falling.{pairs_fall_f};

use models::customer::Customer;
use models::domain::is_places;
use models::head::Head;
use models::vehicle::has_rest;
use refuse_lists::kind::Kind;
use refuse_lists::lengths::is_square;
use refuse_lists::runs::runs_odd;
use refuse_numbers::calls::{bad_run_list, bad_tour};
use refuse_numbers::closures::any_closed;
use refuse_numbers::customers::{Test, any_applies};
use refuse_numbers::numbers::unfit_number;
use refuse_numbers::records::{bad_break, bad_depot, bad_limit, break_falls};
use refuse_numbers::tables::bad_tables;

// A leg table is not places squared long; an empty time table is none.
pub fn tables_odd(head: Head, distances: &[f64], times: &[f64]) -> bool
    ensures { result ≡ tables_odd (sheet_of head [] distances.now times.now) }
{
    let d = distances.len();
    let t = times.len();
    !is_square(d, head.places) | !((t == 0) | is_square(t, head.places))
}

pub fn bad_head(head: Head) -> bool
    ensures { result ≡ bad_head (sheet_of head [] [] []) }
{
    let limits = head.limits;
    let max_distance = limits.max_distance;
    let max_duration = limits.max_duration;
    let rest = limits.rest;
    let numbers = !is_places(head.places)
        | !head.capacity.may_be_held()
        | unfit_number(head.fixed_cost);
    numbers | bad_limit(max_distance) | bad_limit(max_duration) | bad_break(rest)
}

// Where the head is bad nothing else is looked at: `places` may then be any number.
pub fn out_of_range(
    head: Head,
    customers: [Customer; 64],
    distances: &[f64],
    times: &[f64],
    tour: &[usize],
    calls: &[u8],
) -> bool
    ensures { let s = sheet_of head customers distances.now times.now in
        result ≡ by_rows (lent_of s tour.now calls.now [] [] []) }
{
    if bad_head(head) {
        return true;
    }
    let places = head.places;
    let depot = customers[0];
    if bad_depot(depot) {
        return true;
    }
    if any_applies(Test::OutOfRange, customers, places) {
        return true;
    }
    if bad_tables(distances, times, places) {
        return true;
    }
    bad_tour(places, tour) | bad_run_list(places, calls)
}

pub fn pairs_fall(head: Head, customers: [Customer; 64]) -> bool
    ensures { result ≡ pairs_fall_f (sheet_of head customers [] []) }
{
    let limits = head.limits;
    let rest = limits.rest;
    break_falls(rest) | any_applies(Test::Falling, customers, head.places)
}

pub fn runs_uneven(kind: Kind, head: Head, calls: &[u8], ends: &[u8], breaks: &[u8]) -> bool
    ensures { let rest = present (rest_of head.limits.rest) in
        result ≡ runs_odd_of kind rest (length calls.now) ends.now breaks.now }
{
    let limits = head.limits;
    let rest = limits.rest;
    runs_odd(kind, has_rest(rest), calls.len(), ends, breaks)
}

pub fn lateness_pay(improves: bool, customers: [Customer; 64], places: usize) -> bool
    ensures { result ≡ improves && any_soft (take places (map customer_of customers)) }
{
    improves && any_applies(Test::Soft, customers, places)
}

// Closed legs, given to an improver.
pub fn closed_legs(improves: bool, distances: &[f64]) -> bool
    ensures { result ≡ improves && any is_closed_f distances.now }
{
    improves && any_closed(distances)
}
