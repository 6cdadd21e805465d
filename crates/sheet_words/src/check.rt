// The leftmost bad word of a sheet, if it has one.
ghost use Rattle.std.specs.Prelude.{◌≡◌, ◌&&◌, false, ◌-◌, eqb, leb, drop, get_or};
ghost use Rattle.definitions.specs.Domain.{closed_apart};
ghost use Rattle.definitions.specs.Words.{words_of, left_over};
ghost use Rattle.definitions.specs.Reader as Reader;
ghost use Rattle.definitions.specs.Reader.{walk, start};
ghost use Rattle.sheet_words.specs.Held.{held_word, no_word, notes_with, outcome_of};

use crate::state::State;
use crate::{Word, left_over, word_at, word_count};
use models::domain::is_closed;
use refuse_lists::called::{is_called, note_call};

#[derive(Clone, Copy)]
pub enum Checked {
    Accepted,
    // Number, and word index from 0.
    Refused(u32, usize),
}

// Behind the last word, where the next has index i: a word, or bytes left over, are words after it.
pub fn behind(bytes: &[u8], i: usize) -> Checked
    ensures { let left = drop i (words_of bytes.now) in
        outcome_of result ≡ Reader.behind i left (left_over bytes.now) }
{
    if i < word_count(bytes) {
        return Checked::Refused(3, i);
    }
    if left_over(bytes) {
        return Checked::Refused(3, i);
    }
    Checked::Accepted
}

// Whether the word calls a customer that is noted already.
pub fn calls_again(called: &[bool], w: Word) -> bool
    ensures { result ≡ eqb w.kind 0xE && get_or called.now w.value false }
{
    w.kind == 0xE && is_called(called, w.value as usize)
}

// Notes the customer that the word calls, if it calls one.
pub fn note_word(called: &mut [bool], w: Word)
    ensures { called.new ≡ notes_with called.old (held_word w) }
{
    if w.kind == 0xE {
        note_call(called, w.value as usize);
    }
}

// One of the two is closed and the other is not.
pub fn closed_apart(m: u32, n: u32) -> bool
    ensures { result ≡ closed_apart m n }
{
    is_closed(m) != is_closed(n)
}

// Whether the word of index i is a time that disagrees on closure with its distance. A table has `full` words, and the
// times stand right behind the distances: the distance is the word `full` words before.
pub fn closure_differs(bytes: &[u8], i: usize, full: usize, w: Word) -> bool
    ensures { let faced = get_or (words_of bytes.now) (i - full) no_word in
        result ≡ eqb w.kind 0xD && (leb full i && closed_apart faced.value w.value) }
{
    if w.kind != 0xD {
        return false;
    }
    if i < full {
        return false;
    }
    let faced = word_at(bytes, i - full);
    closed_apart(faced.value, w.value)
}

// Every word in turn, up to the first that is bad or the last of the sheet.
pub fn check(bytes: &[u8]) -> Checked
    ensures { outcome_of result ≡ walk start 0 (words_of bytes.now) (left_over bytes.now) }
{
    let count = word_count(bytes);
    let mut state = State::start();
    let mut called = [false; 64];
    for i in 0..count {
        let w = word_at(bytes, i);
        let again = calls_again(&called, w);
        let differs = closure_differs(bytes, i, state.full(), w);
        if let Some(number) = state.fault_at(i, w, again, differs) {
            return Checked::Refused(number, i);
        }
        if w.kind == 0xF {
            return behind(bytes, i + 1);
        }
        note_word(&mut called, w);
        state = state.next(w);
    }
    Checked::Refused(12, count)
}
