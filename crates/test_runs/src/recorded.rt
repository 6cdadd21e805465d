// A recorded text, held against what it should say. Each function is given the text and a place in it, and gives the
// place after what it says there; where the text says something else, that is UNLIKE.
ghost use Rattle.std.specs.Prelude.{◌≡◌, [], ◌∷◌, ◌++◌};
ghost use Rattle.definitions.specs.Listing as Listing;
ghost use Rattle.test_runs.specs.Along.{follow, follows};
ghost use Rattle.test_runs.specs.Words as Words;

use listing_lines::number::whole_part;
use listing_lines::text::spaced;

// A place beyond every recorded text.
pub const UNLIKE: usize = 65536;

// A word.
pub fn word(recorded: &[u8], at: usize, bytes: &[u8]) -> usize
    ensures { result ≡ follow recorded.now at bytes.now }
{
    let n = recorded.len();
    if n < at {
        return UNLIKE;
    }
    if n - at < bytes.len() {
        return UNLIKE;
    }
    let end = at + bytes.len();
    if check::same(&recorded[at..end], bytes) {
        end
    } else {
        UNLIKE
    }
}

// A blank, and a number.
pub fn number(recorded: &[u8], at: usize, n: u64) -> usize
    ensures { result ≡ follow recorded.now at (Listing.spaced n) }
{
    let mut digits = [0u8; 21];
    let end = spaced(&mut digits, 0, n);
    word(recorded, at, &digits[..end])
}

// The same of a float that holds a whole number.
pub fn figure(recorded: &[u8], at: usize, x: f64) -> usize
    ensures { result ≡ follow recorded.now at (Words.figure x) }
{
    number(recorded, at, whole_part(x))
}

// The numbers of customers, and the end of the line.
pub fn calls(recorded: &[u8], at: usize, run: &[usize]) -> usize
    ensures { let words = Words.numbers run.now ++ (Listing.end_of_line ∷ []) in
        result ≡ follows recorded.now at words }
{
    let mut end = at;
    for &call in run {
        end = number(recorded, end, call as u64);
    }
    word(recorded, end, b"\n")
}
