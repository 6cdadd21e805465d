// The words of a sheet as text, at a place of a lent buffer. Each function gives the place after what it wrote; a word
// shows at most 64 bytes.
ghost use Rattle.std.specs.Prelude.{◌+◌, ◌*◌, ◌≤◌, length};
ghost use Rattle.definitions.specs.Words.{words_of};
ghost use Rattle.texts.specs.SheetText as Text;
ghost use Rattle.listing_lines.specs.Put.{Put};
ghost use Rattle.sheet_words.specs.Held.{held_word, state_of};

use listing_lines::text::word;
use sheet_leads::leads::{break_lead, customer_lead, number, table_lead, tour_lead};
use sheet_words::state::State;
use sheet_words::{Word, word_at, word_count};

// What stands before a number of that kind.
pub fn lead(out: &mut [u8], at: usize, s: State, kind: u32) -> usize
    requires { at + 36 ≤ length out.old }
    ensures text { let lead = Text.lead_in (Text.leads (state_of s)) kind in
        Put at lead out.old out.new result }
    ensures short { result ≤ at + 36 }
{
    match kind {
        1 => word(&mut *out, at, b"places"),
        2 => word(&mut *out, at, b"\ncapacity"),
        0 => word(&mut *out, at, b" wheelchairs"),
        3 => word(&mut *out, at, b"\nfixed cost"),
        4 => word(&mut *out, at, b"\ndistance limit"),
        5 => word(&mut *out, at, b"\nduration limit"),
        6 => break_lead(&mut *out, at, s),
        7 => customer_lead(&mut *out, at, s),
        8 => word(&mut *out, at, b" service"),
        9 => word(&mut *out, at, b" window"),
        0xA => word(&mut *out, at, b" to"),
        0xB => word(&mut *out, at, b" penalty"),
        0xC => table_lead(&mut *out, at, s, 0xC, b"distances"),
        0xD => table_lead(&mut *out, at, s, 0xD, b"times"),
        0xE => tour_lead(&mut *out, at, s),
        _ => at,
    }
}

// A word behind those that left the state.
pub fn show_word(out: &mut [u8], at: usize, s: State, w: Word) -> usize
    requires { at + 64 ≤ length out.old }
    ensures text { Put at (Text.show_word (state_of s) (held_word w)) out.old out.new result }
    ensures short { result ≤ at + 64 }
{
    if w.kind == 0xF {
        let end = tour_lead(&mut *out, at, s);
        return word(&mut *out, end, b"\n");
    }
    let end = lead(&mut *out, at, s, w.kind);
    number(&mut *out, end, w.value)
}

// All words of a file.
pub fn show(out: &mut [u8], bytes: &[u8]) -> usize
    requires { 64 * length (words_of bytes.now) ≤ length out.old }
    ensures text { Put 0 (Text.show_words (words_of bytes.now)) out.old out.new result }
    ensures short { result ≤ length out.old }
{
    let mut state = State::start();
    let mut end = 0;
    for i in 0..word_count(bytes) {
        let w = word_at(bytes, i);
        end = show_word(&mut *out, end, state, w);
        state = state.next(w);
    }
    end
}
