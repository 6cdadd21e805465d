// Refusal 1 of single numbers.
ghost use Rattle.std.specs.Prelude.{◌≡◌, ℕ, eqb};
ghost use Rattle.definitions.specs.Domain.{is_penalty, is_number, is_leg};
ghost use Rattle.definitions.specs.Refusals.{unfit};
ghost use Rattle.whole.specs.Value.{value};

use models::domain::{MOST_NUMBER, MOST_PENALTY, NO_ROAD};
use whole::is_whole;

// Whether x is no service, window end, break number, limit or fixed run cost.
pub fn unfit_number(x: f64) -> bool
    ensures { result ≡ unfit value is_number x }
{
    !is_whole(x, MOST_NUMBER)
}

// Whether x is no number of a leg table: neither a length nor what stands there for a closed leg.
pub fn unfit_leg(x: f64) -> bool
    ensures { result ≡ unfit value is_leg x }
{
    if is_whole(x, MOST_NUMBER) {
        return false;
    }
    if is_whole(x, NO_ROAD - 1) {
        return true;
    }
    !is_whole(x, NO_ROAD)
}

// Whether x is no lateness penalty.
pub fn unfit_penalty(x: f64) -> bool
    ensures { result ≡ unfit value is_penalty x }
{
    !is_whole(x, MOST_PENALTY)
}

// Whether x is not 0.
pub fn unfit_zero(x: f64) -> bool
    ensures { result ≡ unfit value (λ (n : ℕ). eqb n 0) x }
{
    !is_whole(x, 0)
}
