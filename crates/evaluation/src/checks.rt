// Whether `route_feasible` has to be asked at all (route_checks_needed of evaluation/mod.rs).
ghost use Rattle.std.specs.Prelude.{◌≡◌, map, take};
ghost use Rattle.basics.specs.Options.{present};
ghost use Rattle.models.specs.Records.{customer_of};
ghost use Rattle.evaluation.specs.Records.{limits_of};
ghost use Rattle.evaluation.specs.Checks.{windowed_any, limited_f, checks_needed_f};

use models::count::fewer;
use models::customer::{Customer, has_window};
use models::limits::RouteLimits;
use models::vehicle::has_rest;

// Whether one of the first n customers has a window.
pub fn has_time_windows(customers: [Customer; 64], n: usize) -> bool
    ensures { result ≡ windowed_any (take n (map customer_of customers)) }
{
    let end = fewer(n, 64);
    customers[..end]
        .iter()
        .any(|customer| has_window(*customer))
}

// Whether the limit is set.
pub fn has_limit(limit: Option<f64>) -> bool
    ensures { result ≡ present limit }
{
    limit.is_some()
}

// Whether a limit or a break is set.
pub fn is_limited(limits: RouteLimits) -> bool
    ensures { result ≡ limited_f (limits_of limits) }
{
    let max_distance = limits.max_distance;
    if has_limit(max_distance) {
        return true;
    }
    let max_duration = limits.max_duration;
    if has_limit(max_duration) {
        return true;
    }
    let rest = limits.rest;
    has_rest(rest)
}

// Whether `route_feasible` has to be asked at all: without a window among the first n customers, a limit and a break
// every run is feasible.
pub fn route_checks_needed(customers: [Customer; 64], n: usize, limits: RouteLimits) -> bool
    ensures { result ≡ checks_needed_f (map customer_of customers) n (limits_of limits) }
{
    if has_time_windows(customers, n) {
        return true;
    }
    is_limited(limits)
}
