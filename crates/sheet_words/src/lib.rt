// The words of a sheet: which may stand where, and the leftmost bad one.
// A word has 32 bits, little-endian in the file: the top four bits are the kind, the rest the value.
#![tactic(auto)]

ghost use Rattle.std.specs.Prelude.{◌≡◌, length, get_or};
ghost use Rattle.definitions.specs.Words.{words_of, left_over, little_endian};
ghost use Rattle.sheet_words.specs.Held.{held_word, no_word};

pub mod check;
pub mod state;

#[derive(Clone, Copy)]
pub struct Word {
    pub kind: u32,
    pub value: u32,
}

// How many whole words there are.
pub fn word_count(bytes: &[u8]) -> usize
    ensures { result ≡ length (words_of bytes.now) }
{
    bytes.len() / 4
}

// Whether one to three bytes are left over behind them.
pub fn left_over(bytes: &[u8]) -> bool
    ensures { result ≡ left_over bytes.now }
{
    bytes.len() % 4 != 0
}

// Four bytes, the lowest first.
pub fn little_endian(a: u8, b: u8, c: u8, d: u8) -> u32
    ensures { result ≡ little_endian a b c d }
{
    a as u32 + 0x100 * (b as u32) + 0x1_0000 * (c as u32) + 0x100_0000 * (d as u32)
}

// The word of index i, and a kind that no word has where there is none.
pub fn word_at(bytes: &[u8], i: usize) -> Word
    ensures { held_word result ≡ get_or (words_of bytes.now) i no_word }
{
    if bytes.len() / 4 <= i {
        return Word { kind: 16, value: 0 };
    }
    let at = 4 * i;
    let n = little_endian(bytes[at], bytes[at + 1], bytes[at + 2], bytes[at + 3]);
    Word {
        kind: n / 0x1000_0000,
        value: n % 0x1000_0000,
    }
}
