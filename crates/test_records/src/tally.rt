// How many answers were replayed, and which of them are not as they should be.
ghost use Rattle.std.specs.Prelude.{◌≡◌, ◌<◌};
ghost use Rattle.test_records.specs.Tally.{InRun, most_answers, nothing_yet, weight_of, first_of, counted_with};
ghost use Rattle.test_records.specs.Tally as Counts;

use crate::seen::Seen;

// No more answers than this are replayed in one run.
pub const MOST: u64 = 1_000_000_000_000;

#[derive(Clone, Copy)]
pub struct Tally {
    pub answers: u64,
    // Those that are wrong on purpose, and of these those that were noticed.
    pub wrong: u64,
    pub noticed: u64,
    // Those of the others that are unlike.
    pub unlike: u64,
    // The number of the first that is not as it should be, from 1; 0 where there is none.
    pub first: u64,
}

// What an answer adds to each count, and whether it is not as it should be: unlike, or wrong and not noticed.
#[derive(Clone, Copy)]
pub struct Weight {
    pub wrong: u64,
    pub noticed: u64,
    pub unlike: u64,
    pub amiss: bool,
}

pub fn start() -> Tally
    ensures { result ≡ nothing_yet }
{
    Tally {
        answers: 0,
        wrong: 0,
        noticed: 0,
        unlike: 0,
        first: 0,
    }
}

fn weighed(wrong: u64, noticed: u64, unlike: u64, amiss: bool) -> Weight
    ensures { result ≡ Counts.weight wrong noticed unlike amiss }
{
    Weight {
        wrong,
        noticed,
        unlike,
        amiss,
    }
}

fn weight_of(seen: Seen) -> Weight
    ensures { result ≡ weight_of seen }
{
    match seen {
        Seen::Alike => weighed(0, 0, 0, false),
        Seen::Unlike => weighed(0, 0, 1, true),
        Seen::Noticed => weighed(1, 1, 0, false),
        Seen::Missed => weighed(1, 0, 0, true),
        Seen::End => weighed(0, 0, 0, false),
        Seen::CutShort => weighed(0, 0, 0, false),
        Seen::TooLong => weighed(0, 0, 0, false),
    }
}

// The first answer that is not as it should be.
fn first_of(first: u64, answer: u64, amiss: bool) -> u64
    ensures { result ≡ first_of first answer amiss }
{
    if amiss {
        return if first == 0 { answer } else { first };
    }
    first
}

// One answer more.
pub fn counted(tally: Tally, seen: Seen) -> Tally
    requires in_run { InRun tally }
    requires answers_lt_most_answers { tally.answers < most_answers }
    ensures { result ≡ counted_with tally seen }
{
    let answer = tally.answers + 1;
    let weight = weight_of(seen);
    Tally {
        answers: answer,
        wrong: tally.wrong + weight.wrong,
        noticed: tally.noticed + weight.noticed,
        unlike: tally.unlike + weight.unlike,
        first: first_of(tally.first, answer, weight.amiss),
    }
}
