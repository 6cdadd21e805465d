// The lines of the listing. Each function gives the place after its line, and asks for room for the longest: its words,
// and 21 bytes for each number.
ghost use Rattle.std.specs.Prelude.{◌+◌, ◌*◌, ◌≤◌, length};
ghost use Rattle.definitions.specs.Listing as Listing;
ghost use Rattle.definitions.specs.Listing.{customers_text, rest_text};
ghost use Rattle.listing_lines.specs.Put.{Put};
ghost use Rattle.listing_lines.specs.Lines.{start_if, run_text, drop_line, figures};

use crate::text::{ended, numbered, spaced, word};

// The customers of a run.
pub fn customers(out: &mut [u8], at: usize, calls: &[usize]) -> usize
    requires { at + 21 * length calls.now ≤ length out.old }
    ensures text { Put at (customers_text calls.now) out.old out.new result }
    ensures short { result ≤ at + 21 * length calls.now }
{
    let mut end = at;
    for &call in calls {
        end = spaced(&mut *out, end, call as u64);
    }
    end
}

// The break's place and start; a place of 0 is none.
pub fn rest(out: &mut [u8], at: usize, place: usize, start: u64) -> usize
    requires { at + 47 ≤ length out.old }
    ensures text { Put at (rest_text place (start_if place start)) out.old out.new result }
    ensures short { result ≤ at + 47 }
{
    if place == 0 {
        return at;
    }
    let end = numbered(&mut *out, at, b" rest", place as u64);
    spaced(&mut *out, end, start)
}

// A run: its customers, then its break.
pub fn run_line(out: &mut [u8], at: usize, calls: &[usize], place: usize, start: u64) -> usize
    requires { at + (51 + 21 * length calls.now) ≤ length out.old }
    ensures text { let text = run_text calls.now place (start_if place start) in
        Put at text out.old out.new result }
    ensures short { result ≤ at + (51 + 21 * length calls.now) }
{
    let mut end = word(&mut *out, at, b"run");
    end = customers(&mut *out, end, calls);
    end = rest(&mut *out, end, place, start);
    word(&mut *out, end, b"\n")
}

// A dropped call: its customer.
pub fn drop_line(out: &mut [u8], at: usize, customer: usize) -> usize
    requires { at + 26 ≤ length out.old }
    ensures text { Put at (drop_line customer) out.old out.new result }
    ensures short { result ≤ at + 26 }
{
    ended(&mut *out, at, b"drop", customer as u64)
}

// Distance, cost, and how many calls are served and dropped.
pub fn total_line(
    out: &mut [u8],
    at: usize,
    distance: u64,
    cost: u64,
    served: &[usize],
    dropped: &[usize],
) -> usize
    requires { at + 110 ≤ length out.old }
    ensures text { let text = Listing.total_line (figures distance cost served.now dropped.now) in
        Put at text out.old out.new result }
    ensures short { result ≤ at + 110 }
{
    let mut end = numbered(&mut *out, at, b"total", distance);
    end = numbered(&mut *out, end, b" cost", cost);
    end = numbered(&mut *out, end, b" served", served.len() as u64);
    ended(&mut *out, end, b" dropped", dropped.len() as u64)
}

// A refusal: its number and word.
pub fn refusal_line(out: &mut [u8], at: usize, number: u64, index: u64) -> usize
    requires { at + 53 ≤ length out.old }
    ensures text { Put at (Listing.refusal_text number index) out.old out.new result }
    ensures short { result ≤ at + 53 }
{
    let end = numbered(&mut *out, at, b"refused", number);
    ended(&mut *out, end, b" at", index)
}
