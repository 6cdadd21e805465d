// The sheets of the bench cases: the base, and the changes by which a case differs from it.
ghost use Rattle.std.specs.Prelude.{◌≡◌, ◌+◌, ◌*◌, ◌<◌, set};
ghost use Rattle.models.specs.Load.{seat_space};

use models::customer::{Customer, TimeWindow, depots};
use models::head::Head;
use models::limits::RouteLimits;
use models::load::{Space, seats};
use models::vehicle::VehicleBreak;

#[derive(Clone, Copy)]
pub struct Sheet {
    pub head: Head,
    pub customers: [Customer; 64],
    pub distances: [f64; 9],
}

fn customer(
    demand: Space,
    time_window: Option<TimeWindow>,
    lateness_penalty: Option<f64>,
) -> Customer {
    Customer {
        demand,
        service_duration: 0.0,
        time_window,
        lateness_penalty,
    }
}

fn limits(max_distance: Option<f64>, rest: Option<VehicleBreak>) -> RouteLimits {
    RouteLimits {
        max_distance,
        max_duration: None,
        rest,
    }
}

// Three places, with the depot: legs 0-1 10, 0-2 12, 1-2 5 both ways, demands 2, capacity 4.
pub fn base() -> Sheet
    ensures { (result.head.places ≡ 3) × (result.head.capacity ≡ seat_space 4) }
{
    let head = Head {
        places: 3,
        capacity: seats(4),
        fixed_cost: 0.0,
        limits: limits(None, None),
    };
    let c = customer(seats(2), None, None);
    let mut customers = depots();
    customers[1] = c;
    customers[2] = c;
    let distances = [0.0, 10.0, 12.0, 10.0, 0.0, 5.0, 12.0, 5.0, 0.0];
    Sheet {
        head,
        customers,
        distances,
    }
}

impl Sheet {
    pub fn capacity(mut self, capacity: u32) -> Sheet
        ensures { (result.head.capacity ≡ seat_space capacity) × (result.head.places ≡ self.head.places)
            × (result.customers ≡ self.customers) × (result.distances ≡ self.distances) }
    {
        let space = seats(capacity);
        let mut head = self.head;
        head.capacity = space;
        self.head = head;
        self
    }

    // A wheelchair place for each customer beside the seats, and what a vehicle then holds.
    pub fn wheelchairs(mut self, capacity: Space) -> Sheet
        ensures { (result.head.capacity ≡ capacity) × (result.head.places ≡ self.head.places)
            × (result.distances ≡ self.distances) }
    {
        let demand = Space {
            seats: 2,
            wheelchairs: 1,
        };
        let c = customer(demand, None, None);
        self.customers[1] = c;
        self.customers[2] = c;
        let mut head = self.head;
        head.capacity = capacity;
        self.head = head;
        self
    }

    // The leg between two places, one way.
    pub fn leg(mut self, from: usize, to: usize, distance: f64) -> Sheet
        requires from_bound { from < 3 }
        requires to_bound { to < 3 }
        ensures { (result.head ≡ self.head) × (result.customers ≡ self.customers)
            × (result.distances ≡ set self.distances (from * 3 + to) distance) }
    {
        self.distances[from * 3 + to] = distance;
        self
    }

    // The window and the penalty of customer 1.
    pub fn window(mut self, ready: f64, due: f64, penalty: Option<f64>) -> Sheet
        ensures { (result.head ≡ self.head) × (result.distances ≡ self.distances) }
    {
        let first = customer(seats(2), Some(TimeWindow { ready, due }), penalty);
        self.customers[1] = first;
        self
    }

    // No case has both a distance limit and a break.
    fn limits(mut self, limits: RouteLimits) -> Sheet
        ensures { (result.head.limits ≡ limits) × (result.head.places ≡ self.head.places)
            × (result.customers ≡ self.customers) × (result.distances ≡ self.distances) }
    {
        let mut head = self.head;
        head.limits = limits;
        self.head = head;
        self
    }

    pub fn distance_limit(self, limit: f64) -> Sheet
        ensures { (result.head.places ≡ self.head.places) × (result.customers ≡ self.customers)
            × (result.distances ≡ self.distances) }
    {
        self.limits(limits(Some(limit), None))
    }

    pub fn rest(self, earliest: f64, latest: f64, duration: f64) -> Sheet
        ensures { (result.head.places ≡ self.head.places) × (result.customers ≡ self.customers)
            × (result.distances ≡ self.distances) }
    {
        let rest = VehicleBreak {
            earliest,
            latest,
            duration,
        };
        self.limits(limits(None, Some(rest)))
    }
}
