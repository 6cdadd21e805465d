// The values of a kind, in order: what accepted words say.
ghost use Rattle.std.specs.Prelude.{◌≡◌, ◌+◌, length, drop, get_or, unwrap_or};
ghost use Rattle.whole.specs.Whole.{fl};
ghost use Rattle.definitions.specs.Words.{words_of};
ghost use Rattle.definitions.specs.Reader.{values_of, first_of, tour_of};
ghost use Rattle.definitions.specs.Room.{written};
ghost use Rattle.sheet_words.specs.Held.{no_word};
ghost use Rattle.sheet_read.specs.Parts.{floats_of};
ghost use Rattle.sheet_read.specs.Seeking.{before};
ghost use Rattle.sheet_read.specs.Fitting.{fitting};

use sheet_words::{word_at, word_count};

// The value, and 0 where there is none.
pub fn or_zero(v: Option<u32>) -> u32
    ensures { result ≡ unwrap_or v 0 }
{
    match v {
        None => 0,
        Some(n) => n,
    }
}

// The index of the first word of that kind from `from` on; where there is none, that of the end.
pub fn find(bytes: &[u8], kind: u32, from: usize) -> usize
    ensures { result ≡ from + before kind (drop from (words_of bytes.now)) }
{
    let count = word_count(bytes);
    for i in from..count {
        let w = word_at(bytes, i);
        if w.kind == kind {
            return i;
        }
    }
    count.max(from)
}

// The first value of that kind, if there is one.
pub fn first_value(bytes: &[u8], kind: u32) -> Option<u32>
    ensures { result ≡ first_of (values_of kind (words_of bytes.now)) }
{
    let i = find(bytes, kind, 0);
    if i < word_count(bytes) {
        let w = word_at(bytes, i);
        Some(w.value)
    } else {
        None
    }
}

// The value of the word of index i as a float.
pub fn number_at(bytes: &[u8], i: usize) -> f64
    ensures { result ≡ fl (get_or (words_of bytes.now) i no_word).value }
{
    let w = word_at(bytes, i);
    w.value as f64
}

// And as a customer's number.
pub fn call_at(bytes: &[u8], i: usize) -> usize
    ensures { result ≡ (get_or (words_of bytes.now) i no_word).value }
{
    let w = word_at(bytes, i);
    w.value as usize
}

// How many values of that kind there are.
pub fn count_values(bytes: &[u8], kind: u32) -> usize
    ensures { result ≡ length (values_of kind (words_of bytes.now)) }
{
    let mut n = 0;
    for i in 0..word_count(bytes) {
        let w = word_at(bytes, i);
        if w.kind == kind {
            n += 1;
        }
    }
    n
}

// Writes the values of that kind at the front of `out`, as many as it has room for, and says how many that is.
pub fn write_values(bytes: &[u8], kind: u32, out: &mut [f64]) -> usize
    ensures written { let values = fitting (floats_of kind bytes.now) out.old in
        out.new ≡ written values out.old }
    ensures count { result ≡ length (fitting (floats_of kind bytes.now) out.old) }
{
    let mut n = 0;
    for i in 0..word_count(bytes) {
        let w = word_at(bytes, i);
        if w.kind != kind {
            continue;
        }
        if n == out.len() {
            return n;
        }
        out[n] = number_at(bytes, i);
        n += 1;
    }
    n
}

// Writes the tour at the front of `out`, in the same way.
pub fn write_tour(bytes: &[u8], out: &mut [usize]) -> usize
    ensures written { let calls = fitting (tour_of (words_of bytes.now)) out.old in
        out.new ≡ written calls out.old }
    ensures count { result ≡ length (fitting (tour_of (words_of bytes.now)) out.old) }
{
    let mut n = 0;
    for i in 0..word_count(bytes) {
        let w = word_at(bytes, i);
        if w.kind != 0xE {
            continue;
        }
        if n == out.len() {
            return n;
        }
        out[n] = call_at(bytes, i);
        n += 1;
    }
    n
}
