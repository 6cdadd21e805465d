// Records of an input: a question and the answer to it. Each is the length of its bytes, in 32 bits,
// little-endian, and the bytes. No contract can say which bytes are read; what is proved is that they fit the buffers.
ghost use Rattle.std.specs.Prelude.{◌≡◌, ◌≤◌, length};
ghost use Rattle.test_records.specs.Records.{length_in, PartWithin, RecordWithin, with_answer};

use sheet_words::little_endian;
use std::io::Read;

// A question or an answer.
#[derive(Clone, Copy)]
pub enum Part {
    // It has that many bytes, at the front of the buffer.
    Whole(usize),
    // The input ends before it.
    End,
    // The input ends in the middle of it.
    CutShort,
    // It does not fit the buffer.
    TooLong,
}

#[derive(Clone, Copy)]
pub enum Record {
    // The lengths of the question and of the answer.
    Whole(usize, usize),
    End,
    CutShort,
    TooLong,
}

// A length of 32 bits as a number of bytes.
fn size(n: u32) -> usize
    ensures { result ≡ n }
{
    n as usize
}

// The length that four bytes say.
fn length_of(head: &[u8; 4]) -> usize
    ensures { result ≡ length_in head.now }
{
    size(little_endian(head[0], head[1], head[2], head[3]))
}

// Reads until the buffer is full, the input ends or a read fails: how many bytes are at the front of the buffer.
fn read_full(input: &mut impl Read, buffer: &mut [u8]) -> usize
    ensures { result ≤ length buffer.new }
{
    let mut done = 0;
    // A `while`: how many bytes come at once is not known before.
    while done < buffer.len() {
        match input.read(&mut buffer[done..]) {
            Ok(0) | Err(_) => break,
            Ok(n) => done += n,
        }
    }
    done
}

// The next part, at the front of the buffer.
fn read_part(input: &mut impl Read, buffer: &mut [u8]) -> Part
    ensures { PartWithin (length buffer.new) result }
{
    let mut head = [0u8; 4];
    let got = read_full(&mut *input, &mut head);
    if got == 0 {
        return Part::End;
    }
    if got < 4 {
        return Part::CutShort;
    }
    let n = length_of(&head);
    if buffer.len() < n {
        return Part::TooLong;
    }
    if read_full(&mut *input, &mut buffer[..n]) < n {
        return Part::CutShort;
    }
    Part::Whole(n)
}

// The record whose question has n bytes.
fn with_answer(n: usize, answer: Part) -> Record
    ensures { result ≡ with_answer n answer }
{
    match answer {
        Part::Whole(m) => Record::Whole(n, m),
        Part::End => Record::CutShort,
        Part::CutShort => Record::CutShort,
        Part::TooLong => Record::TooLong,
    }
}

// The next record, into two buffers.
pub fn read(input: &mut impl Read, question: &mut [u8], answer: &mut [u8]) -> Record
    ensures { RecordWithin (length question.new) (length answer.new) result }
{
    match read_part(&mut *input, &mut *question) {
        Part::Whole(n) => {
            let part = read_part(&mut *input, &mut *answer);
            with_answer(n, part)
        }
        Part::End => Record::End,
        Part::CutShort => Record::CutShort,
        Part::TooLong => Record::TooLong,
    }
}
