// The distance of a run, as the improvers report and compare it (route_distance of local_search/two_opt.rs), and
// whether it is longer than its limit.
ghost use Rattle.std.specs.Prelude.{◌≡◌, not};
ghost use Rattle.models.specs.Limits.{within_f};
ghost use Rattle.distance.specs.Lookup.{number_f};
ghost use Rattle.evaluation.specs.Records.{limits_of};
ghost use Rattle.improve_base.specs.Leg.{AllOpen};
ghost use Rattle.improve_base.specs.Route.{route_distance_f, far_f};

use crate::leg::open_leg;
use models::limits::{RouteLimits, allows};

// The distance of a run, both depot legs too; a run without calls has none.
pub fn route_distance(route: &[usize], distances: &[f64], size: usize) -> f64
    requires { AllOpen distances.now }
    ensures { result ≡ route_distance_f (number_f distances.now size) route.now }
{
    if route.len() == 0 {
        return 0.0;
    }
    let mut prev = route[0];
    let mut dist = open_leg(distances, size, 0, prev);
    for next in &route[1..] {
        dist += open_leg(distances, size, prev, *next);
        prev = *next;
    }
    dist + open_leg(distances, size, prev, 0)
}

// The distance of a run, where it is limited.
pub fn limited_distance(limits: RouteLimits, route: &[usize], distances: &[f64], size: usize) -> f64
    requires { AllOpen distances.now }
    ensures { result ≡ far_f (limits_of limits) (number_f distances.now size) route.now }
{
    let max = limits.max_distance;
    match max {
        None => 0.0,
        Some(_) => route_distance(route, distances, size),
    }
}

// Whether a run of this distance is longer than its limit.
pub fn is_too_far(limits: RouteLimits, far: f64) -> bool
    ensures { result ≡ not (within_f limits.max_distance far) }
{
    !allows(limits.max_distance, far)
}
