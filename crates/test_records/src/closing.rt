// The lines that close a run. Each function gives the place after its line, and asks for room for the longest: its
// words, and 21 bytes for each number.
ghost use Rattle.std.specs.Prelude.{◌≡◌, ◌+◌, ◌≤◌, length};
ghost use Rattle.listing_lines.specs.Put.{Put};
ghost use Rattle.test_records.specs.Closing.{first_line, counts, as_it_should, others, count_line, stop_line, last_line, closing};
ghost use Rattle.test_records.specs.Tally.{InRun};

use crate::seen::Seen;
use crate::tally::Tally;
use listing_lines::text::{numbered, spaced, word};

// The first answer that is not as it should be; 0 where there is none.
fn first_line(out: &mut [u8], at: usize, first: u64) -> usize
    requires { at + 51 ≤ length out.old }
    ensures text { Put at (first_line first) out.old out.new result }
    ensures short { result ≤ at + 51 }
{
    if first == 0 {
        return at;
    }
    let end = numbered(&mut *out, at, b"answer", first);
    word(&mut *out, end, b" is not as it should be\n")
}

// How many answers were replayed, how many of them are wrong on purpose, and how many of these were noticed.
fn counts_text(out: &mut [u8], at: usize, tally: Tally) -> usize
    requires { at + 116 ≤ length out.old }
    ensures text { Put at (counts tally) out.old out.new result }
    ensures short { result ≤ at + 116 }
{
    let mut end = numbered(&mut *out, at, b"replayed", tally.answers);
    end = numbered(&mut *out, end, b" answers,", tally.wrong);
    end = numbered(&mut *out, end, b" wrong on purpose,", tally.noticed);
    word(&mut *out, end, b" of these noticed,")
}

// Whether every wrong answer was noticed, and every other one is alike.
fn as_it_should(tally: Tally) -> bool
    ensures { result ≡ as_it_should tally }
{
    tally.noticed == tally.wrong && tally.unlike == 0
}

// How many of the others are unlike.
fn others_text(out: &mut [u8], at: usize, tally: Tally) -> usize
    requires { at + 36 ≤ length out.old }
    ensures text { Put at (others tally) out.old out.new result }
    ensures short { result ≤ at + 36 }
{
    if as_it_should(tally) {
        return word(&mut *out, at, b" all others alike\n");
    }
    let end = spaced(&mut *out, at, tally.unlike);
    word(&mut *out, end, b" others unlike\n")
}

// All counts.
fn count_line(out: &mut [u8], at: usize, tally: Tally) -> usize
    requires { at + 152 ≤ length out.old }
    ensures text { Put at (count_line tally) out.old out.new result }
    ensures short { result ≤ at + 152 }
{
    let end = counts_text(&mut *out, at, tally);
    others_text(&mut *out, end, tally)
}

// The record that ended the run too soon, and what is wrong with it.
fn stop_line(out: &mut [u8], at: usize, number: u64, fault: &[u8]) -> usize
    requires { at + (27 + length fault.now) ≤ length out.old }
    ensures text { Put at (stop_line number fault.now) out.old out.new result }
    ensures short { result ≤ at + (27 + length fault.now) }
{
    let end = numbered(&mut *out, at, b"record", number);
    word(&mut *out, end, fault)
}

// Why the run ended: there was no further record, or the next one is no record.
fn last_line(out: &mut [u8], at: usize, tally: Tally, last: Seen) -> usize
    requires at_in_bounds { at + 152 ≤ length out.old }
    requires in_run { InRun tally }
    ensures text { Put at (last_line tally last) out.old out.new result }
    ensures short { result ≤ at + 152 }
{
    let number = tally.answers + 1;
    match last {
        Seen::End => count_line(&mut *out, at, tally),
        Seen::CutShort => stop_line(&mut *out, at, number, b" is cut short\n"),
        Seen::TooLong => stop_line(&mut *out, at, number, b" is too long\n"),
        Seen::Alike | Seen::Unlike | Seen::Noticed | Seen::Missed => stop_line(
            &mut *out,
            at,
            number,
            b" is one too many\n",
        ),
    }
}

// All of it.
pub fn closing_text(out: &mut [u8], tally: Tally, last: Seen) -> usize
    requires in_bounds { 203 ≤ length out.old }
    requires in_run { InRun tally }
    ensures text { Put 0 (closing tally last) out.old out.new result }
    ensures short { result ≤ length out.old }
{
    let end = first_line(&mut *out, 0, tally.first);
    last_line(&mut *out, end, tally, last)
}

// Says how the run ended, in so many bytes. A write that fails is left at that.
pub fn print_closing(rt: &impl Print, tally: Tally, last: Seen) -> usize
    requires { InRun tally }
    ensures { result ≡ length (closing tally last) }
{
    let mut out = [0u8; 256];
    let end = closing_text(&mut out, tally, last);
    let _ = rt.write_all(&out[..end]);
    end
}
