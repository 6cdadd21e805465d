// The sheets of the bench cases, by what a case changes of the base.
ghost use Rattle.std.specs.Prelude.{◌≡◌};

use crate::sheets::{Sheet, base};
use models::load::Space;

#[derive(Clone, Copy)]
pub enum Change {
    Nothing,
    Capacity(u32),
    // A wheelchair place for each customer; the seats and the wheelchair places that a bus has.
    Wheelchairs(u32, u32),
    // The legs between the customers, both ways.
    Between(f64),
    // When customer 1 is due, who is there from time 0 on and can't be served late.
    Due(f64),
    // The same with a price for lateness.
    DueAtPrice(f64, f64),
    DistanceLimit(f64),
    // The leg from customer 1 home, and a distance limit.
    FarHome(f64, f64),
    // The earliest and the latest start of a break of 4.
    Break(f64, f64),
    // A break of 4 from time 0 to 30, and customer 1 from 12 to 13 with a price for lateness of 5.
    BreakAtPrice,
}

pub fn changed(change: Change) -> Sheet
    ensures { result.head.places ≡ 3 }
{
    let sheet = base();
    match change {
        Change::Nothing => sheet,
        Change::Capacity(most) => sheet.capacity(most),
        Change::Wheelchairs(seats, wheelchairs) => sheet.wheelchairs(Space { seats, wheelchairs }),
        Change::Between(leg) => sheet.leg(1, 2, leg).leg(2, 1, leg),
        Change::Due(due) => sheet.window(0.0, due, None),
        Change::DueAtPrice(due, price) => sheet.window(0.0, due, Some(price)),
        Change::DistanceLimit(most) => sheet.distance_limit(most),
        Change::FarHome(leg, most) => sheet.leg(1, 0, leg).distance_limit(most),
        Change::Break(earliest, latest) => sheet.rest(earliest, latest, 4.0),
        Change::BreakAtPrice => sheet.rest(0.0, 30.0, 4.0).window(12.0, 13.0, Some(5.0)),
    }
}
