// A short list of small numbers, as the calls of a tour, written as the digits of one number.
ghost use Rattle.std.specs.Prelude.{◌≡◌, [], ◌∷◌, ◌/◌, ◌%◌, ◌≤◌};

// The last five digits.
pub fn digits(n: usize) -> [usize; 5]
    ensures { result ≡ n / 10000 % 10 ∷ n / 1000 % 10 ∷ n / 100 % 10 ∷ n / 10 % 10 ∷ n % 10 ∷ [] }
{
    [
        n / 10000 % 10,
        n / 1000 % 10,
        n / 100 % 10,
        n / 10 % 10,
        n % 10,
    ]
}

// Where among them the digits of the number begin; 0 is the empty list.
pub fn begin(n: usize) -> usize
    ensures { result ≤ 5 }
{
    if n == 0 {
        return 5;
    }
    if n < 10 {
        return 4;
    }
    if n < 100 {
        return 3;
    }
    if n < 1000 {
        return 2;
    }
    if n < 10000 { 1 } else { 0 }
}
