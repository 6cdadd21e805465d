// Replays recorded answers of the Rust planner: reads records on standard input, computes each answer anew, and says
// whether all are alike but those that are wrong on purpose.
#![tactic(auto)]

ghost use Rattle.std.specs.Prelude.{◌≡◌};
ghost use Rattle.definitions.specs.Listing.{listing};
ghost use Rattle.test_runs.specs.Alike.{same_list};
ghost use Rattle.test_runs.specs.Along.{Short};
ghost use Rattle.test_replay.specs.Replayed.{one_of, answer_alike, seen_in};

use listing_text::text::text;
use std::io::Read;
use test_lists::alike::runs_alike;
use test_records::closing::print_closing;
use test_records::record::{Record, read};
use test_records::seen::{Seen, is_answer, seen_of};
use test_records::tally::{MOST, counted, start};

// Whether the recorded text is the listing of the sheet.
fn listing_alike(sheet: &[u8], recorded: &[u8]) -> bool
    ensures { result ≡ same_list (listing sheet.now) recorded.now }
{
    let mut out = [0u8; 16384];
    let end = text(&mut out, sheet);
    check::same(&out[..end], recorded)
}

// Whether a kind is one of two.
fn one_of(kind: u8, a: u8, b: u8) -> bool
    ensures { result ≡ one_of kind a b }
{
    kind == a || kind == b
}

// Whether the recorded answer is the computed one. No other kind of question has an answer.
fn alike(kind: u8, asked: &[u8], recorded: &[u8]) -> bool
    requires { Short recorded.now }
    ensures { result ≡ answer_alike kind asked.now recorded.now }
{
    if one_of(kind, b's', b'S') {
        return listing_alike(asked, recorded);
    }
    if one_of(kind, b'r', b'R') {
        return runs_alike(asked, recorded);
    }
    false
}

// The first byte of a question says its kind: `s` stands before a sheet, whose answer is its listing, and `r` before a
// run list, whose answer is what is made of the runs; `S` and `R` where the answer is wrong on purpose.
fn seen(question: &[u8], recorded: &[u8]) -> Seen
    requires { Short recorded.now }
    ensures { result ≡ seen_in question.now recorded.now }
{
    if question.len() == 0 {
        return Seen::Unlike;
    }
    let kind = question[0];
    let wrong = one_of(kind, b'S', b'R');
    seen_of(wrong, alike(kind, &question[1..], recorded))
}

// Reads a question and its recorded answer, and compares. A question has a byte for its kind, and a sheet of at most
// 34,572 bytes behind at most 258 bytes for run ends and calls, or alone with as many bytes too many; an answer has
// fewer than 65,536. No contract can say what is read.
fn next(input: &mut impl Read) -> Seen {
    let mut question = [0u8; 34962];
    let mut recorded = [0u8; 65535];
    match read(&mut *input, &mut question, &mut recorded) {
        Record::Whole(n, m) => seen(&question[..n], &recorded[..m]),
        Record::End => Seen::End,
        Record::CutShort => Seen::CutShort,
        Record::TooLong => Seen::TooLong,
    }
}

// Record by record, up to the end of the input or the first record that is none.
fn main(rt: HostRuntime) {
    let mut input = rt.reader();
    let mut tally = start();
    let mut last = next(&mut input);
    // A `while`: how many answers come is not known before.
    while tally.answers < MOST && is_answer(last) {
        tally = counted(tally, last);
        last = next(&mut input);
    }
    print_closing(&rt, tally, last);
}
