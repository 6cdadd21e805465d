// Route elimination on an array of customers: refused by number with nothing written, or the runs that are left, in
// bytes.
ghost use Rattle.definitions.specs.Bytes.{numbers_of};
ghost use Rattle.call_improvers.specs.Eliminating.{eliminate_for, Eliminates};

use byte_lists::{narrow, widen};
use improve_base::search::search_of;
use models::customer::Customer;
use models::domain::MOST_CALLS;
use models::head::Head;
use refuse_order::by_call::refuse_eliminating;
use route_elimination::route_elimination::Left;

#[derive(Clone, Copy)]
pub enum Elimination {
    Refused(u32),
    Left(Left),
}

// Each run that can be emptied into the others is.
pub fn eliminate_routes(
    head: Head,
    all: [Customer; 64],
    n: usize,
    distances: &[f64],
    times: &[f64],
    calls: &[u8],
    ends: &[u8],
    left_calls: &mut [u8],
    left_ends: &mut [u8],
) -> Elimination
    ensures { let calls_left = left_calls.old in
        let ends_left = left_ends.old in
        let answered = eliminate_for head distances.now times.now
        (numbers_of calls.now) (numbers_of ends.now) calls_left ends_left in
        Eliminates answered n all calls_left ends_left result left_calls.new left_ends.new }
{
    let number = refuse_eliminating(
        head,
        all,
        n,
        distances,
        times,
        calls,
        ends,
        left_calls.len(),
        left_ends.len(),
    );
    if number != 0 {
        return Elimination::Refused(number);
    }
    let search = search_of(all, head.places, head.limits);
    let mut call_numbers = [0usize; MOST_CALLS];
    let many = widen(calls, &mut call_numbers);
    let mut end_numbers = [0usize; MOST_CALLS];
    let runs = widen(ends, &mut end_numbers);
    let mut kept_calls = [0usize; MOST_CALLS];
    let mut kept_ends = [0usize; MOST_CALLS];
    let left = route_elimination::route_elimination::eliminate_routes(
        &call_numbers[..many],
        &end_numbers[..runs],
        all,
        distances,
        times,
        head.places,
        head.capacity,
        head.fixed_cost,
        search,
        &mut kept_calls,
        &mut kept_ends,
    );
    narrow(&kept_calls, left.calls, &mut *left_calls);
    narrow(&kept_ends, left.runs, &mut *left_ends);
    Elimination::Left(left)
}
