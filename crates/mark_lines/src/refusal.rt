// Refusals in words. Each function gives the place after what it wrote.
ghost use Rattle.std.specs.Prelude.{◌+◌, ◌≤◌, length};
ghost use Rattle.listing_lines.specs.Put.{Put};
ghost use Rattle.texts.specs.Meaning.{meaning_of};
ghost use Rattle.texts.specs.MarkText as MarkText;
ghost use Rattle.mark_lines.specs.Meanings.{meaning_to5};

use listing_lines::text::{numbered, word};

// What the refusals up to 5 mean.
fn meaning_to_5(out: &mut [u8], at: usize, number: u32) -> usize
    requires { at + 100 ≤ length out.old }
    ensures text { Put at (meaning_to5 number) out.old out.new result }
    ensures short { result ≤ at + 100 }
{
    match number {
        1 => word(
            &mut *out,
            at,
            b"a number out of range, more than 128 calls, or a call that is no customer",
        ),
        2 => word(&mut *out, at, b"ready above due, or earliest above latest"),
        3 => word(
            &mut *out,
            at,
            b"F counts wrongly, or something stands behind it",
        ),
        4 => word(&mut *out, at, b"lateness pay, on a sheet for an improver"),
        5 => word(
            &mut *out,
            at,
            b"run ends that fall or miss the number of calls, or in a mark an empty run or a wrong break place",
        ),
        _ => at,
    }
}

// What a refusal means; nothing for a number that is none.
pub fn meaning(out: &mut [u8], at: usize, number: u32) -> usize
    requires { at + 100 ≤ length out.old }
    ensures text { Put at (meaning_of number) out.old out.new result }
    ensures short { result ≤ at + 100 }
{
    match number {
        11 => word(&mut *out, at, b"a kind that may not stand here"),
        12 => word(&mut *out, at, b"the words end before F"),
        13 => word(&mut *out, at, b"a lent list too short"),
        21 => word(
            &mut *out,
            at,
            b"a repeated customer, whom an earlier E word has called",
        ),
        22 => word(&mut *out, at, b"distance and time disagree on closure"),
        23 => word(&mut *out, at, b"a closed leg, on a sheet for an improver"),
        _ => meaning_to_5(&mut *out, at, number),
    }
}

// The meaning behind a colon, and the end of the line.
fn reason(out: &mut [u8], at: usize, number: u32) -> usize
    requires { at + 103 ≤ length out.old }
    ensures text { Put at (MarkText.reason number) out.old out.new result }
    ensures short { result ≤ at + 103 }
{
    let mut end = word(&mut *out, at, b": ");
    end = meaning(&mut *out, end, number);
    word(&mut *out, end, b"\n")
}

// A refusal of the sheet: its number and word.
pub fn sheet_refused(out: &mut [u8], at: usize, number: u32, index: u64) -> usize
    requires { at + 155 ≤ length out.old }
    ensures text { Put at (MarkText.sheet_refused number index) out.old out.new result }
    ensures short { result ≤ at + 155 }
{
    let mut end = numbered(&mut *out, at, b"refused", number as u64);
    end = numbered(&mut *out, end, b" at", index);
    reason(&mut *out, end, number)
}

// A refusal of the runs.
pub fn runs_refused(out: &mut [u8], at: usize, number: u32) -> usize
    requires { at + 131 ≤ length out.old }
    ensures text { Put at (MarkText.runs_refused number) out.old out.new result }
    ensures short { result ≤ at + 131 }
{
    let end = numbered(&mut *out, at, b"refused", number as u64);
    reason(&mut *out, end, number)
}
