// A bad byte of a cutting in words: where it stands, and what could have stood there.
ghost use Rattle.std.specs.Prelude.{◌≡◌, ◌+◌, ◌≤◌, length};
ghost use Rattle.listing_lines.specs.Put.{Put};
ghost use Rattle.texts.specs.CuttingText as Text;
ghost use Rattle.texts.specs.CuttingText.{expected};
ghost use Rattle.texts.specs.MarkText.{letter_words, number_words, expected_words, bad_text};
ghost use Rattle.cutting_text.specs.Modes.{mode_of, number_of};

use cutting_text::mode::{LineWord, Mode, Number, letter_count, letter_of};
use listing_lines::text::{numbered, word};

// A letter of a word, or the blank behind it.
fn letter_words(out: &mut [u8], at: usize, letter: u8) -> usize
    requires { at + 12 ≤ length out.old }
    ensures text { Put at (letter_words letter) out.old out.new result }
    ensures short { result ≤ at + 12 }
{
    if letter == b' ' {
        return word(&mut *out, at, b"a blank");
    }
    let end = word(&mut *out, at, b"the letter ");
    word(&mut *out, end, &[letter])
}

// The letter of a word that comes next behind so many, or the blank behind it.
fn next_letter(w: LineWord, i: usize) -> u8
    ensures { Text.a_letter result ≡ expected (mode_of (Mode.Spelling w i)) }
{
    if i < letter_count(w) {
        letter_of(w, i)
    } else {
        b' '
    }
}

fn number_words(out: &mut [u8], at: usize, k: Number) -> usize
    requires { at + 22 ≤ length out.old }
    ensures text { Put at (number_words (number_of k)) out.old out.new result }
    ensures short { result ≤ at + 22 }
{
    match k {
        Number::Customer => word(&mut *out, at, b"a customer's number"),
        Number::Place => word(&mut *out, at, b"the place of the break"),
        Number::Start => word(&mut *out, at, b"the start of the break"),
    }
}

// What may stand in this mode.
fn expected_words(out: &mut [u8], at: usize, m: Mode) -> usize
    requires { at + 50 ≤ length out.old }
    ensures text { Put at (expected_words (expected (mode_of m))) out.old out.new result }
    ensures short { result ≤ at + 50 }
{
    match m {
        Mode::Fresh => word(&mut *out, at, b"run, drop, total or #"),
        Mode::Spelling(w, i) => letter_words(&mut *out, at, next_letter(w, i)),
        Mode::Passing => word(&mut *out, at, b"the end of the line"),
        Mode::Before(k) => number_words(&mut *out, at, k),
        Mode::Within(k, _) => number_words(&mut *out, at, k),
        Mode::Between => word(
            &mut *out,
            at,
            b"a customer's number, rest or the end of the line",
        ),
        Mode::Behind => word(&mut *out, at, b"the end of the line"),
    }
}

// The line of a bad byte.
pub fn bad_line(out: &mut [u8], at: usize, line: u64, column: u64, m: Mode) -> usize
    requires { at + 128 ≤ length out.old }
    ensures text { let text = bad_text line column (expected (mode_of m)) in
        Put at text out.old out.new result }
    ensures short { result ≤ at + 128 }
{
    let mut end = numbered(&mut *out, at, b"cutting line", line);
    end = numbered(&mut *out, end, b" column", column);
    end = word(&mut *out, end, b": ");
    end = expected_words(&mut *out, end, m);
    end = word(&mut *out, end, b" was expected");
    word(&mut *out, end, b"\n")
}
