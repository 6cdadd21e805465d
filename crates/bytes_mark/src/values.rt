// The marker's verdict by its number and values.
ghost use Rattle.std.specs.Prelude.{◌≡◌, [], ◌∷◌, ◌≤◌, length};
ghost use Rattle.whole.specs.Whole.{fl, limit};
ghost use Rattle.definitions.specs.Room.{written};
ghost use Rattle.marker.specs.Figures.{number_in, values_in};
ghost use Rattle.bytes_mark.specs.Values.{Small};

use marker::verdict::Verdict;

// The verdicts are numbered from 1.
pub fn number_of(v: Verdict) -> u32
    ensures { result ≡ number_in v }
{
    match v {
        Verdict::OtherCalls { .. } => 1,
        Verdict::Overload { .. } => 2,
        Verdict::BreakTooLate { .. } => 3,
        Verdict::WindowMissed { .. } => 4,
        Verdict::BreakMissing { .. } => 5,
        Verdict::TooFar { .. } => 6,
        Verdict::TooLong { .. } => 7,
        Verdict::Best => 8,
        Verdict::Dearer { .. } => 9,
        Verdict::Cheaper { .. } => 10,
        Verdict::WheelchairOverload { .. } => 11,
        Verdict::RoadClosed { .. } => 12,
    }
}

// One value at the front of five, and three.
fn write_one(a: f64, values: &mut [f64])
    requires { length values.old ≡ 5 }
    ensures { values.new ≡ written (a ∷ []) values.old }
{
    values[0] = a;
}

fn write_three(a: f64, b: f64, c: f64, values: &mut [f64])
    requires { length values.old ≡ 5 }
    ensures { values.new ≡ written (a ∷ b ∷ c ∷ []) values.old }
{
    values[0] = a;
    values[1] = b;
    values[2] = c;
}

// The two of a closed leg: the run, and the leg's number in it.
fn write_leg(run: usize, leg: usize, values: &mut [f64])
    requires run_le_limit { (run ≤ limit) × (leg ≤ limit) }
    requires values_len { length values.old ≡ 5 }
    ensures { values.new ≡ written (fl run ∷ fl leg ∷ []) values.old }
{
    values[0] = run as f64;
    values[1] = leg as f64;
}

// The three of a load over what the vehicle holds: the run, and in one measure its load and the capacity.
fn write_load(run: usize, load: u64, capacity: u32, values: &mut [f64])
    requires run_le_limit { (run ≤ limit) × (load ≤ limit) }
    requires values_len { length values.old ≡ 5 }
    ensures { values.new ≡ written (fl run ∷ fl load ∷ fl capacity ∷ []) values.old }
{
    values[0] = run as f64;
    values[1] = load as f64;
    values[2] = capacity as f64;
}

// The five of a fault at a call: its run, its place in the run, its customer, and the two times that clash.
fn write_call(run: usize, place: usize, customer: usize, a: f64, b: f64, values: &mut [f64])
    requires run_le_limit { (run ≤ limit) × (place ≤ limit) × (customer ≤ limit) }
    requires values_len { length values.old ≡ 5 }
    ensures { let five = fl run ∷ fl place ∷ fl customer ∷ a ∷ b ∷ [] in
        values.new ≡ written five values.old }
{
    values[0] = run as f64;
    values[1] = place as f64;
    values[2] = customer as f64;
    values[3] = a;
    values[4] = b;
}

// The values of a fault on the ride of a run.
fn write_ride_fault(v: Verdict, values: &mut [f64])
    requires small { Small v }
    requires bound { (3 ≤ number_in v) × (number_in v ≤ 7) }
    requires values_len { length values.old ≡ 5 }
    ensures { values.new ≡ written (values_in v) values.old }
{
    match v {
        Verdict::BreakTooLate {
            run,
            place,
            customer,
            start,
            latest,
        } => write_call(run, place, customer, start, latest, &mut *values),
        Verdict::WindowMissed {
            run,
            place,
            customer,
            readiness,
            due,
        } => write_call(run, place, customer, readiness, due, &mut *values),
        Verdict::BreakMissing {
            run,
            duration,
            earliest,
        } => write_three(run as f64, duration, earliest, &mut *values),
        Verdict::TooFar {
            run,
            distance,
            limit,
        } => write_three(run as f64, distance, limit, &mut *values),
        Verdict::TooLong {
            run,
            duration,
            limit,
        } => write_three(run as f64, duration, limit, &mut *values),
        _ => {}
    }
}

// The values of a verdict, in the order in which it has them, at the front.
pub fn write_values(v: Verdict, values: &mut [f64])
    requires small { Small v }
    requires values_len { length values.old ≡ 5 }
    ensures { values.new ≡ written (values_in v) values.old }
{
    match v {
        Verdict::OtherCalls { position } => write_one(position as f64, &mut *values),
        Verdict::Overload {
            run,
            load,
            capacity,
        } => write_load(run, load, capacity, &mut *values),
        Verdict::WheelchairOverload {
            run,
            load,
            capacity,
        } => write_load(run, load, capacity, &mut *values),
        Verdict::RoadClosed { run, leg } => write_leg(run, leg, &mut *values),
        Verdict::Best => {}
        Verdict::Dearer { by } => write_one(by, &mut *values),
        Verdict::Cheaper { by } => write_one(by, &mut *values),
        _ => write_ride_fault(v, &mut *values),
    }
}
