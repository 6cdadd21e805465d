// Customer and time window (models/customer.rs).
ghost use Rattle.std.specs.Prelude.{◌≡◌, replicate};
ghost use Rattle.basics.specs.Options.{present};
ghost use Rattle.models.specs.Records.{window_of, opening_of, customer_of, depot_record};
ghost use Rattle.models.specs.Window.{late_f, waiting_f, lateness_f, due_f};

use crate::load::{Space, seats};
use whole::larger;

#[derive(Clone, Copy)]
pub struct TimeWindow {
    pub ready: f64,
    pub due: f64,
}

#[derive(Clone, Copy)]
pub struct Customer {
    pub demand: Space,
    pub service_duration: f64,
    pub time_window: Option<TimeWindow>,
    // A late call costs so much for each unit of lateness; without a penalty it fails.
    pub lateness_penalty: Option<f64>,
}

// The depot's record.
pub fn depot() -> Customer
    ensures { result ≡ depot_record }
{
    Customer {
        demand: seats(0),
        service_duration: 0.0,
        time_window: None,
        lateness_penalty: None,
    }
}

pub fn depots() -> [Customer; 64]
    ensures { result ≡ replicate 64 depot_record }
{
    [depot(); 64]
}

pub fn has_window(customer: Customer) -> bool
    ensures { result ≡ present (customer_of customer).window }
{
    customer.time_window.is_some()
}

// When the window closes, and 0 where there is none.
pub fn due_or_zero(opening: Option<TimeWindow>) -> f64
    ensures { result ≡ due_f (opening_of opening) }
{
    match opening {
        None => 0.0,
        Some(window) => window.due,
    }
}

impl TimeWindow {
    // Late means arrival above due; equal is on time.
    pub fn is_violated(self, arrival: f64) -> bool
        ensures { result ≡ late_f (window_of self) arrival }
    {
        arrival > self.due
    }

    // Waiting is ready minus arrival, if positive.
    pub fn waiting_time(self, arrival: f64) -> f64
        ensures { result ≡ waiting_f (window_of self) arrival }
    {
        if arrival < self.ready {
            self.ready - arrival
        } else {
            0.0
        }
    }

    // How far the arrival is above due, and 0 where it is not.
    pub fn lateness(self, arrival: f64) -> f64
        ensures { result ≡ lateness_f (window_of self) arrival }
    {
        let over = arrival - self.due;
        larger(over, 0.0)
    }
}
