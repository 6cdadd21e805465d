// When the service of each call starts, by the visits.
ghost use Rattle.std.specs.Prelude.{◌≡◌, map, ◌≤◌, take};
ghost use Rattle.models.specs.Records.{customer_of};
ghost use Rattle.visits.specs.Visiting.{rest_at_of, ready_at_f, begin_f};
ghost use Rattle.timeline.specs.Timing.{window_f, begins_f};

use evaluation::schedule::record_index;
use models::customer::Customer;
use visits::rest::RestAt;
use visits::trip::service_start;
use visits::visit::Visit;

// Call number `index`: from readiness on, as soon as its window is open.
pub fn begin_of(visit: Visit, index: usize, customers: [Customer; 64], rest: RestAt) -> f64
    ensures { let readiness = ready_at_f (rest_at_of rest) index visit.arrival_time in
        result ≡ begin_f (window_f (map customer_of customers) visit.customer_id) readiness }
{
    let known = record_index(visit.customer_id);
    let customer = customers[known];
    let opening = customer.time_window;
    let ready = rest.ready_at(index, visit.arrival_time);
    service_start(opening, ready)
}

// The first `count` are those of the first visits. Inlined, its lists would take stack in a caller that walks a run
// besides.
#[inline(never)]
pub fn begins_of(
    visits: [Visit; 128],
    count: usize,
    customers: [Customer; 64],
    rest: RestAt,
) -> [f64; 128]
    requires { count ≤ 128 }
    ensures { take count result ≡ begins_f (map customer_of customers) (rest_at_of rest) 1 (take count visits) }
{
    let mut begins = [0.0; 128];
    for (i, visit) in visits[..count].iter().enumerate() {
        begins[i] = begin_of(*visit, i + 1, customers, rest);
    }
    begins
}
