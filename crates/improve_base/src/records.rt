// The records of the 64 places as numbers in lists that can be lent, where an array of records would be copied.
ghost use Rattle.std.specs.Prelude.{◌≡◌, map};
ghost use Rattle.models.specs.Records.{customer_of};
ghost use Rattle.cut_stops.specs.Stops.{numbers, Long, records_in};

use cut_stops::stops::{ALL_CODES, ALL_FIGURES, put_customer};
use models::customer::Customer;

// Writes them as the cuts do, but for the legs, which the improvers do not read there.
pub fn list_records(
    customers: [Customer; 64],
    codes: &mut [u32; ALL_CODES],
    figures: &mut [f64; ALL_FIGURES],
)
    requires { Long (numbers codes.old figures.old) }
    ensures { let lists = numbers codes.new figures.new in
        Long lists × (records_in lists ≡ map customer_of customers) }
{
    for (c, customer) in customers.iter().enumerate() {
        put_customer(*customer, c, &mut *codes, &mut *figures);
    }
}
