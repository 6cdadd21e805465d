// What a vehicle allows a run besides its capacity (RouteLimits of evaluation/mod.rs).
ghost use Rattle.std.specs.Prelude.{◌≡◌};
ghost use Rattle.models.specs.Limits.{limit_f, within_f, allow_f};

use crate::vehicle::VehicleBreak;

#[derive(Clone, Copy)]
pub struct RouteLimits {
    pub max_distance: Option<f64>,
    pub max_duration: Option<f64>,
    pub rest: Option<VehicleBreak>,
}

// The limit, and 0 where there is none.
pub fn limit_or_zero(limit: Option<f64>) -> f64
    ensures { result ≡ limit_f limit }
{
    limit.unwrap_or(0.0)
}

// At most the limit, if given.
pub fn allows(limit: Option<f64>, x: f64) -> bool
    ensures { result ≡ within_f limit x }
{
    limit.is_none_or(|max| x <= max)
}

impl RouteLimits {
    // Distance and duration each at most their limit, if given.
    pub fn allow(self, distance: f64, duration: f64) -> bool
        ensures { result ≡ allow_f self.max_distance self.max_duration distance duration }
    {
        allows(self.max_distance, distance) && allows(self.max_duration, duration)
    }
}
