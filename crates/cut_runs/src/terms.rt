// What every run of a cut is held to, and the cost that is added for it.
use models::limits::RouteLimits;
use models::load::Space;
use models::placement::Placement;

#[derive(Clone, Copy)]
pub struct Terms {
    // what a vehicle holds
    pub capacity: Space,
    // the cost added for every run
    pub fixed: f64,
    pub limits: RouteLimits,
    // where a run's break goes
    pub placement: Placement,
    // whether loads and closed legs alone bar a run: then no window and penalty, no limit and no break counts
    pub loads_alone: bool,
}
