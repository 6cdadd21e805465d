// The runs of a text, byte by byte.
ghost use Rattle.std.specs.Prelude.{◌≡◌, List, ℕ, ◌+◌, ◌≤◌, ◌<◌, length};
ghost use Rattle.definitions.specs.Listing.{end_of_line};
ghost use Rattle.texts.specs.CuttingText as Text;
ghost use Rattle.cutting_text.specs.Modes.{mode_of};
ghost use Rattle.cutting_text.specs.TextSoFar.{state_of, stepped_of, More, read_of, Few};

use crate::mode::{
    Line, Mode, Number, Turn, blank, column_after, is_blank, letter, line_after, line_end, wanted,
};

// What the bytes so far say: this line, the break place of its run, and how many calls and whole runs there are.
#[derive(Clone, Copy)]
pub struct TextSoFar {
    pub mode: Mode,
    pub place: u8,
    pub calls: usize,
    pub runs: usize,
}

impl TextSoFar {
    pub fn start() -> Self
        ensures begun { (calls ends places : List ℕ) → state_of result calls ends places ≡ Text.begin }
        ensures nothing { (result.calls ≡ 0) × (result.runs ≡ 0) }
    {
        Self {
            mode: Mode::Fresh,
            place: 0,
            calls: 0,
            runs: 0,
        }
    }
}

// A blank: a call that is complete with it is stored.
pub fn blanked(r: TextSoFar, calls: &mut [u8]) -> Option<TextSoFar>
    requires { r.calls < length calls.old }
    ensures said { (ends places : List ℕ) → stepped_of result calls.new ends places
        ≡ Text.blank (mode_of r.mode) (state_of r calls.old ends places) }
    ensures few { More 1 0 r result }
{
    let m = r.mode;
    match blank(m) {
        Turn::Stuck => None,
        Turn::On(on) => Some(TextSoFar { mode: on, ..r }),
        Turn::Call(n) => {
            let k = r.calls;
            calls[k] = n;
            Some(TextSoFar {
                mode: Mode::Between,
                calls: k + 1,
                ..r
            })
        }
        Turn::Place(n) => Some(TextSoFar {
            mode: Mode::Before(Number::Start),
            place: n,
            ..r
        }),
    }
}

// The end of a line: a run that is complete with it is stored.
pub fn line_ended(r: TextSoFar, ends: &mut [usize], places: &mut [u8]) -> Option<TextSoFar>
    requires runs_in_bounds { r.runs < length ends.old }
    requires runs_in_bounds_2 { r.runs < length places.old }
    ensures said { (calls : List ℕ) → r.calls ≤ length calls → stepped_of result calls ends.new places.new
        ≡ Text.line_ended (mode_of r.mode) (state_of r calls ends.old places.old) }
    ensures few { More 0 1 r result }
{
    let m = r.mode;
    match line_end(m) {
        Line::Early => None,
        Line::Passed => Some(TextSoFar {
            mode: Mode::Fresh,
            ..r
        }),
        Line::Run => {
            let k = r.runs;
            ends[k] = r.calls;
            places[k] = r.place;
            Some(TextSoFar {
                mode: Mode::Fresh,
                place: 0,
                runs: k + 1,
                ..r
            })
        }
    }
}

// The next byte, if it may stand here.
pub fn next(
    r: TextSoFar,
    b: u8,
    calls: &mut [u8],
    ends: &mut [usize],
    places: &mut [u8],
) -> Option<TextSoFar>
    requires calls_in_bounds { r.calls < length calls.old }
    requires runs_in_bounds { r.runs < length ends.old }
    requires runs_in_bounds_2 { r.runs < length places.old }
    ensures said { stepped_of result calls.new ends.new places.new
        ≡ Text.step (state_of r calls.old ends.old places.old) b }
    ensures few { More 1 1 r result }
{
    if b == b'\n' {
        let q = blanked(r, &mut *calls)?;
        return line_ended(q, &mut *ends, &mut *places);
    }
    if is_blank(b) {
        return blanked(r, &mut *calls);
    }
    let m = r.mode;
    let on = letter(m, b)?;
    Some(TextSoFar { mode: on, ..r })
}

#[derive(Clone, Copy)]
pub enum CuttingRead {
    // How many calls and runs.
    Runs(usize, usize),
    // Line and column from 1, and the mode of what could have stood there.
    Bad(usize, usize, Mode),
}

// The end of the text ends its last line.
pub fn finished(
    r: TextSoFar,
    line: usize,
    column: usize,
    calls: &mut [u8],
    ends: &mut [usize],
    places: &mut [u8],
) -> CuttingRead
    requires calls_in_bounds { r.calls < length calls.old }
    requires runs_in_bounds { r.runs < length ends.old }
    requires runs_in_bounds_2 { r.runs < length places.old }
    ensures said { let s = state_of r calls.old ends.old places.old in
        read_of result calls.new ends.new places.new
        ≡ Text.walk line column s end_of_line }
    ensures few { Few (r.calls + 1) (r.runs + 1) result }
{
    let Some(q) = next(r, b'\n', &mut *calls, &mut *ends, &mut *places) else {
        let m = r.mode;
        return CuttingRead::Bad(line, column, wanted(m, b'\n'));
    };
    CuttingRead::Runs(q.calls, q.runs)
}

// The runs of a text: their calls, ends and break places at the front of the lists; or its first bad byte.
pub fn read_cutting(
    bytes: &[u8],
    calls: &mut [u8],
    ends: &mut [usize],
    places: &mut [u8],
) -> CuttingRead
    requires bytes_len_bound { length bytes.now < 0xFFFF_FFFF_FFFF_FFFF }
    requires bytes_in_bounds { length bytes.now < length calls.old }
    requires bytes_in_bounds_2 { length bytes.now < length ends.old }
    requires bytes_in_bounds_3 { length bytes.now < length places.old }
    ensures said { read_of result calls.new ends.new places.new
        ≡ Text.read_cutting bytes.now }
    ensures few { Few (length bytes.now + 1) (length bytes.now + 1) result }
{
    let mut r = TextSoFar::start();
    let mut line = 1;
    let mut column = 1;
    for &b in bytes {
        let Some(q) = next(r, b, &mut *calls, &mut *ends, &mut *places) else {
            let m = r.mode;
            return CuttingRead::Bad(line, column, wanted(m, b));
        };
        line = line_after(line, b);
        column = column_after(column, b);
        r = q;
    }
    finished(r, line, column, &mut *calls, &mut *ends, &mut *places)
}
