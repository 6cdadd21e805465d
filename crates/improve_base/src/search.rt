// What an improver is told of a sheet besides its records and tables: its limits, and whether `route_feasible` has to
// be asked.
ghost use Rattle.std.specs.Prelude.{◌≡◌, map};
ghost use Rattle.models.specs.Records.{customer_of};
ghost use Rattle.evaluation.specs.Records.{limits_of};
ghost use Rattle.improve_base.specs.Search.{search_of, search_f};

use evaluation::checks::route_checks_needed;
use models::customer::Customer;
use models::limits::RouteLimits;

#[derive(Clone, Copy)]
pub struct Search {
    pub limits: RouteLimits,
    // whether `route_feasible` has to be asked of a run
    pub constrained: bool,
}

// What an improver is told of the sheet with these records and limits.
pub fn search_of(customers: [Customer; 64], size: usize, limits: RouteLimits) -> Search
    ensures { search_of result ≡ search_f (map customer_of customers) size (limits_of limits) }
{
    Search {
        limits,
        constrained: route_checks_needed(customers, size, limits),
    }
}
