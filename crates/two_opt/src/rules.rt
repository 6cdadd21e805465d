// What the reversals of one run are told of it and of the sheet, reckoned once.
ghost use Rattle.std.specs.Prelude.{◌≡◌};
ghost use Rattle.distance.specs.Lookup.{number_f};
ghost use Rattle.improve_base.specs.Leg.{AllOpen};
ghost use Rattle.improve_base.specs.Search.{search_of};
ghost use Rattle.two_opt.specs.Rules.{rules_of, rules_f};

use improve_base::gain::{gain_floor, scale, symmetric};
use improve_base::search::Search;
use models::limits::RouteLimits;

#[derive(Clone, Copy)]
pub struct Rules {
    pub limits: RouteLimits,
    // whether `route_feasible` has to be asked of a run
    pub constrained: bool,
    // whether the legs between its calls are as long both ways
    pub symmetric: bool,
    // the least gain that counts
    pub floor: f64,
}

// What the reversals of this run are told. A reversal keeps the calls, so no other place is asked about.
pub fn rules_of(search: Search, route: &[usize], distances: &[f64], size: usize) -> Rules
    requires { AllOpen distances.now }
    ensures { let leg = number_f distances.now size in
        rules_of result ≡ rules_f leg distances.now (search_of search) route.now }
{
    let both_ways = symmetric(route, distances, size);
    let floor = gain_floor(scale(distances));
    let limits = search.limits;
    Rules {
        limits,
        constrained: search.constrained,
        symmetric: both_ways,
        floor,
    }
}
