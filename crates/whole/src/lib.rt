// Whole numbers in an `f64`, on which arithmetic is exact up to 2 ^ 53.
#![tactic(auto)]

ghost use Rattle.std.specs.Prelude.{◌≡◌, false, nat_le};
ghost use Rattle.std.specs.Float.{inf};
ghost use Rattle.basics.specs.Options.{holds};
ghost use Rattle.whole.specs.Value.{value};
ghost use Rattle.whole.specs.Larger.{larger_f};

// Above every number: what is not known yet, or can't be had.
pub fn infinity() -> f64
    ensures { result ≡ inf false }
{
    1.0 / 0.0
}

// Whether x is one of the whole numbers 0 to `max`. A NaN, an infinity, a fraction, a negative number and -0.0 are
// none.
pub fn is_whole(x: f64, max: u32) -> bool
    ensures { result ≡ holds (value x) (λ n. nat_le n max) }
{
    if x > -1.0 {
        if x < 18446744073709551616.0 {
            let n = std::num::truncating_f64_to_u64(x);
            if n <= max as u64 {
                return f64::to_bits(n as f64) == f64::to_bits(x);
            }
        }
    }
    false
}

// The larger of two numbers that are no NaN (`f64::max` in the Rust).
pub fn larger(a: f64, b: f64) -> f64
    ensures { result ≡ larger_f a b }
{
    if a < b { b } else { a }
}
