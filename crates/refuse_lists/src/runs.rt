// Refusal 5: run ends and break places, which are lent in bytes.
ghost use Rattle.std.specs.Prelude.{◌≡◌, cond, ◌-◌};
ghost use Rattle.definitions.specs.Refusals.{ends_fall, empty_run, break_beyond};
ghost use Rattle.refuse_lists.specs.Needs.{runs_odd_of};

use crate::kind::Kind;
use models::byte::number_of;
use models::domain::MOST_CALLS;

// An end below the one before it, or the last is not the number of calls.
pub fn ends_fall(ends: &[u8], calls: usize) -> bool
    ensures { result ≡ ends_fall 0 ends.now calls }
{
    let mut p = 0u8;
    for &e in ends {
        if e < p {
            return true;
        }
        p = e;
    }
    number_of(p) != calls
}

pub fn empty_run(ends: &[u8]) -> bool
    ensures { result ≡ empty_run 0 ends.now }
{
    let mut p = 0u8;
    for &e in ends {
        if e == p {
            return true;
        }
        p = e;
    }
    false
}

// The last break place of the run from p to e; on a sheet without a break there is none but 0.
pub fn last_place(rest: bool, p: u8, e: u8) -> u8
    ensures { result ≡ cond rest (e - p) 0 }
{
    if !rest {
        return 0;
    }
    if e < p {
        return 0;
    }
    e - p
}

// A break place beyond its run, or on a sheet without a break.
pub fn break_beyond(rest: bool, ends: &[u8], breaks: &[u8]) -> bool
    ensures { result ≡ break_beyond rest 0 ends.now breaks.now }
{
    let mut p = 0u8;
    for (&e, &place) in ends.iter().zip(breaks) {
        if last_place(rest, p, e) < place {
            return true;
        }
        p = e;
    }
    false
}

// All of refusal 5.
pub fn runs_odd(kind: Kind, rest: bool, calls: usize, ends: &[u8], breaks: &[u8]) -> bool
    ensures { result ≡ runs_odd_of kind rest calls ends.now breaks.now }
{
    let many = kind.takes_ends & (MOST_CALLS < ends.len());
    let falling = kind.takes_ends & ends_fall(ends, calls);
    let empty = kind.marks & empty_run(ends);
    let beyond = kind.marks & break_beyond(rest, ends, breaks);
    many | (falling | (empty | beyond))
}
