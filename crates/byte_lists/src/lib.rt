// Lent lists of bytes, read as numbers into an array and stored from one: here alone the width changes.
#![tactic(auto)]

ghost use Rattle.std.specs.Prelude.{◌≡◌, min, length, take};
ghost use Rattle.definitions.specs.Room.{written};
ghost use Rattle.definitions.specs.Bytes.{numbers_of, stored};

use lending::fitting;
use models::byte::{byte_of, number_of};
use models::count::fewer;

// Reads bytes to the front of a list of numbers, as far as there is room, and gives how many.
pub fn widen(bytes: &[u8], numbers: &mut [usize]) -> usize
    ensures counted { result ≡ min (length bytes.now) (length numbers.old) }
    ensures read { let old = numbers.old in
        numbers.new ≡ written (take (length old) (numbers_of bytes.now)) old }
{
    let n = fewer(bytes.len(), numbers.len());
    for (k, &byte) in bytes[..n].iter().enumerate() {
        numbers[k] = number_of(byte);
    }
    n
}

// Stores the first n numbers at the front of a list of bytes, as far as there is room; what stands behind them stays.
pub fn narrow(numbers: &[usize], n: usize, bytes: &mut [u8])
    ensures { let old = bytes.old in
        bytes.new ≡ stored (take (min n (length old)) numbers.now) old }
{
    let m = fitting(n, numbers.len(), bytes.len());
    for (k, &number) in numbers[..m].iter().enumerate() {
        bytes[k] = byte_of(number);
    }
}
