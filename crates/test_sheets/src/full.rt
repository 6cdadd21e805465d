// The sheet with all that one may have: service, windows, a penalty, a fixed cost, both limits and a break. Each
// customer can be served alone, so that of no tour a call is dropped.
ghost use Rattle.std.specs.Prelude.{◌≡◌};
ghost use Rattle.models.specs.Load.{seat_space};

use models::customer::{Customer, TimeWindow, depots};
use models::head::Head;
use models::limits::RouteLimits;
use models::load::seats;
use models::vehicle::VehicleBreak;

#[derive(Clone, Copy)]
pub struct FullSheet {
    pub head: Head,
    pub customers: [Customer; 64],
    pub distances: [f64; 36],
}

fn customer(demand: u32, service_duration: f64) -> Customer {
    Customer {
        demand: seats(demand),
        service_duration,
        time_window: None,
        lateness_penalty: None,
    }
}

fn windowed(
    service_duration: f64,
    ready: f64,
    due: f64,
    lateness_penalty: Option<f64>,
) -> Customer {
    Customer {
        demand: seats(1),
        service_duration,
        time_window: Some(TimeWindow { ready, due }),
        lateness_penalty,
    }
}

// The customers 1 to 5.
fn customers() -> [Customer; 64] {
    let mut all = depots();
    all[1] = windowed(1.0, 0.0, 14.0, None);
    all[2] = customer(2, 0.0);
    all[3] = windowed(20.0, 0.0, 31.0, None);
    all[4] = customer(1, 3.0);
    all[5] = windowed(1.0, 26.0, 27.0, Some(5.0));
    all
}

fn limits() -> RouteLimits {
    let rest = VehicleBreak {
        earliest: 24.0,
        latest: 30.0,
        duration: 4.0,
    };
    RouteLimits {
        max_distance: Some(60.0),
        max_duration: Some(80.0),
        rest: Some(rest),
    }
}

// The legs, place by place.
fn distances() -> [f64; 36] {
    [
        // from place 0
        0.0, 10.0, 12.0, 25.0, 20.0, 6.0,
        // from place 1
        10.0, 0.0, 5.0, 16.0, 15.0, 9.0,
        // from place 2
        12.0, 5.0, 0.0, 20.0, 30.0, 3.0,
        // from place 3
        25.0, 16.0, 20.0, 0.0, 20.0, 20.0,
        // from place 4
        20.0, 15.0, 30.0, 20.0, 0.0, 20.0,
        // from place 5
        6.0, 9.0, 3.0, 20.0, 20.0, 0.0,
    ]
}

pub fn full() -> FullSheet
    ensures { (result.head.places ≡ 6) × (result.head.capacity ≡ seat_space 4) }
{
    let head = Head {
        places: 6,
        capacity: seats(4),
        fixed_cost: 3.0,
        limits: limits(),
    };
    FullSheet {
        head,
        customers: customers(),
        distances: distances(),
    }
}
