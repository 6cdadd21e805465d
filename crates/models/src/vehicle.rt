// The vehicle's break (models/vehicle.rs).
ghost use Rattle.std.specs.Prelude.{◌≡◌};
ghost use Rattle.basics.specs.Options.{present};
ghost use Rattle.models.specs.Records.{rest_of};

#[derive(Clone, Copy)]
pub struct VehicleBreak {
    pub earliest: f64,
    pub latest: f64,
    pub duration: f64,
}

// Whether the break is set.
pub fn has_rest(rest: Option<VehicleBreak>) -> bool
    ensures { result ≡ present (rest_of rest) }
{
    rest.is_some()
}
