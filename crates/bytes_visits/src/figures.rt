// A violation by its number and three figures; those that it has not are 0.
ghost use Rattle.std.specs.Prelude.{◌≡◌, [], ◌∷◌};
ghost use Rattle.visits.specs.Figures.{number_in};
ghost use Rattle.bytes_visits.specs.Rows.{held_f, figures_in};

use visits::visit::ViolationType;

#[derive(Clone, Copy)]
pub struct Figures {
    pub first: f64,
    pub second: f64,
    pub third: f64,
}

// A number that a float holds, and 0 for one beyond.
pub fn held(n: u64) -> f64
    ensures { result ≡ held_f n }
{
    if n <= 0x20_0000_0000_0000 {
        n as f64
    } else {
        0.0
    }
}

pub fn three(first: f64, second: f64, third: f64) -> Figures
    ensures { result.first ∷ result.second ∷ result.third ∷ [] ≡ first ∷ second ∷ third ∷ [] }
{
    Figures {
        first,
        second,
        third,
    }
}

// The violations are numbered from 1.
pub fn number_of(kind: ViolationType) -> u8
    ensures { result ≡ number_in kind }
{
    match kind {
        ViolationType::TimeWindowViolated { .. } => 1,
        ViolationType::BreakNotPlaceable => 2,
        ViolationType::CapacityExceeded { .. } => 3,
        ViolationType::MaxDistanceExceeded { .. } => 4,
        ViolationType::MaxDurationExceeded { .. } => 5,
        ViolationType::WheelchairsExceeded { .. } => 6,
        ViolationType::ClosedLeg { .. } => 7,
    }
}

pub fn figures_of(kind: ViolationType) -> Figures
    ensures { result.first ∷ result.second ∷ result.third ∷ [] ≡ figures_in kind }
{
    match kind {
        ViolationType::TimeWindowViolated {
            customer_id,
            arrival,
            due,
        } => three(held(customer_id as u64), arrival, due),
        ViolationType::BreakNotPlaceable => three(0.0, 0.0, 0.0),
        ViolationType::CapacityExceeded { load, capacity } => three(
            held(load),
            capacity as f64,
            0.0,
        ),
        ViolationType::MaxDistanceExceeded {
            distance,
            max_distance,
        } => three(distance, max_distance, 0.0),
        ViolationType::MaxDurationExceeded {
            duration,
            max_duration,
        } => three(duration, max_duration, 0.0),
        ViolationType::WheelchairsExceeded { load, capacity } => three(
            held(load),
            capacity as f64,
            0.0,
        ),
        ViolationType::ClosedLeg { leg } => three(held(leg as u64), 0.0, 0.0),
    }
}
