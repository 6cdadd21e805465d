// The refusals in order: the number of the first that fits, and 0 where none does.
// Every test is made, whatever the others say, so each bounds itself.
ghost use Rattle.refuse_order.specs.Lent.{sheet_for, lent_for};
ghost use Rattle.refuse_order.specs.Order.{call_of, Refuses, Images};

use crate::sheet::{closed_legs, lateness_pay, out_of_range, pairs_fall, runs_uneven, tables_odd};
use models::customer::Customer;
use models::head::Head;
use refuse_lists::called::repeats;
use refuse_lists::first::first_fit;
use refuse_lists::kind::Kind;
use refuse_lists::lengths::too_short;
use refuse_numbers::closures::closures_differ;

// `count` customers are lent, and the array holds the first of them.
pub fn refusal(
    kind: Kind,
    head: Head,
    customers: [Customer; 64],
    count: usize,
    distances: &[f64],
    times: &[f64],
    tour: &[usize],
    calls: &[u8],
    ends: &[u8],
    breaks: &[u8],
    rooms: &[usize],
) -> u32
    ensures refused { let s = sheet_for head distances.now times.now in
        let lent = lent_for s tour.now calls.now ends.now
        breaks.now rooms.now in
        Refuses (call_of kind) lent count customers result }
    ensures image { Images (sheet_for head distances.now times.now) count customers result }
{
    let numbers = [13, 14, 1, 21, 2, 22, 5, 4, 23];
    let fits = [
        too_short(head.places, count, kind, tour, calls, ends, breaks, rooms),
        tables_odd(head, distances, times),
        out_of_range(head, customers, distances, times, tour, calls),
        repeats(tour),
        pairs_fall(head, customers),
        closures_differ(distances, times),
        runs_uneven(kind, head, calls, ends, breaks),
        lateness_pay(kind.improves, customers, head.places),
        closed_legs(kind.improves, distances),
    ];
    first_fit(&numbers, &fits)
}
