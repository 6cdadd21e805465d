// What stands in a line so far, and what the next byte makes of it.
ghost use Rattle.std.specs.Prelude.{◌≡◌, cond, suc, ◌<◌, length, get_or, Some};
ghost use Rattle.definitions.specs.Listing.{is_digit};
ghost use Rattle.texts.specs.CuttingText as Text;
ghost use Rattle.cutting_text.specs.Modes.{letters_of, after_of, mode_of, number_of, moved_of, turned, lined};

#[derive(Clone, Copy)]
pub enum LineWord {
    Run,
    Drop,
    Total,
    Rest,
}

#[derive(Clone, Copy)]
pub enum Number {
    Customer,
    Place,
    Start,
}

#[derive(Clone, Copy)]
pub enum Mode {
    Fresh,
    // A word, and how many letters behind its first have come.
    Spelling(LineWord, usize),
    Passing,
    Before(Number),
    Within(Number, u8),
    Between,
    Behind,
}

// What a blank leads to: a number may be complete with it.
#[derive(Clone, Copy)]
pub enum Turn {
    Stuck,
    On(Mode),
    Call(u8),
    Place(u8),
}

// What the end of a line leads to behind a blank.
#[derive(Clone, Copy)]
pub enum Line {
    Early,
    Passed,
    Run,
}

pub fn is_blank(b: u8) -> bool
    ensures { result ≡ Text.is_blank b }
{
    matches!(b, b' ' | b'\t' | b'\r')
}

pub fn is_digit(b: u8) -> bool
    ensures { result ≡ is_digit b }
{
    b.is_ascii_digit()
}

// How many letters a word has behind its first.
pub fn letter_count(w: LineWord) -> usize
    ensures { result ≡ length (letters_of w) }
{
    match w {
        LineWord::Run => 2,
        LineWord::Drop => 3,
        LineWord::Total => 4,
        LineWord::Rest => 3,
    }
}

fn byte_at(letters: &[u8], i: usize) -> u8
    ensures { result ≡ get_or letters.now i 0 }
{
    if i < letters.len() { letters[i] } else { 0 }
}

// The letter number i of a word behind its first, where it has so many.
pub fn letter_of(w: LineWord, i: usize) -> u8
    ensures { result ≡ get_or (letters_of w) i 0 }
{
    match w {
        LineWord::Run => byte_at(b"un", i),
        LineWord::Drop => byte_at(b"rop", i),
        LineWord::Total => byte_at(b"otal", i),
        LineWord::Rest => byte_at(b"est", i),
    }
}

// In a word.
pub fn spelled(w: LineWord, i: usize, b: u8) -> Option<Mode>
    ensures { moved_of result ≡ Text.letter (mode_of (Mode.Spelling w i)) b }
{
    if i >= letter_count(w) {
        return None;
    }
    if b == letter_of(w, i) {
        return Some(Mode::Spelling(w, i + 1));
    }
    None
}

// A number with one more digit.
pub fn grown(k: Number, n: u8, d: u32) -> u32
    requires { d < 256 }
    ensures { result ≡ Text.grown (number_of k) n d }
{
    match k {
        Number::Customer => n as u32 * 10 + d,
        Number::Place => n as u32 * 10 + d,
        Number::Start => 0,
    }
}

// The first letter of a line.
pub fn opening(b: u8) -> Option<Mode>
    ensures { moved_of result ≡ Text.opening b }
{
    if b == b'r' {
        return Some(Mode::Spelling(LineWord::Run, 0));
    }
    if b == b'd' {
        return Some(Mode::Spelling(LineWord::Drop, 0));
    }
    if b == b't' {
        return Some(Mode::Spelling(LineWord::Total, 0));
    }
    if b == b'#' {
        return Some(Mode::Passing);
    }
    None
}

// A digit of a number that was n before it.
pub fn digit(k: Number, n: u8, b: u8) -> Option<Mode>
    ensures { moved_of result ≡ Text.digit (number_of k) n b }
{
    if !is_digit(b) {
        return None;
    }
    let m = grown(k, n, (b - b'0') as u32);
    if m > 255 {
        return None;
    }
    Some(Mode::Within(k, m as u8))
}

// Behind a customer.
pub fn between(b: u8) -> Option<Mode>
    ensures { moved_of result ≡ Text.letter Text.between b }
{
    if b == b'r' {
        return Some(Mode::Spelling(LineWord::Rest, 0));
    }
    digit(Number::Customer, 0, b)
}

// A byte that is no blank and no end of a line: what it leads to, if it may stand here.
pub fn letter(m: Mode, b: u8) -> Option<Mode>
    ensures { moved_of result ≡ Text.letter (mode_of m) b }
{
    match m {
        Mode::Fresh => opening(b),
        Mode::Spelling(w, i) => spelled(w, i, b),
        Mode::Passing => Some(Mode::Passing),
        Mode::Before(k) => digit(k, 0, b),
        Mode::Within(k, n) => digit(k, n, b),
        Mode::Between => between(b),
        Mode::Behind => None,
    }
}

// Behind a word.
pub fn after_word(w: LineWord) -> Mode
    ensures { mode_of result ≡ after_of w }
{
    match w {
        LineWord::Run => Mode::Before(Number::Customer),
        LineWord::Drop => Mode::Passing,
        LineWord::Total => Mode::Passing,
        LineWord::Rest => Mode::Before(Number::Place),
    }
}

// A number is complete.
pub fn taken(k: Number, n: u8) -> Turn
    ensures { (m : Text.Mode) (s : Text.State) → turned result s ≡ Some (Text.taken (number_of k) n (Text.to m s)) }
{
    match k {
        Number::Customer => Turn::Call(n),
        Number::Place => Turn::Place(n),
        Number::Start => Turn::On(Mode::Behind),
    }
}

// A blank behind a word, where all its letters have come.
pub fn word_ended(w: LineWord, i: usize) -> Turn
    ensures { let m = mode_of (Mode.Spelling w i) in
        ((s : Text.State) → turned result s ≡ Text.blank m (Text.to m s)) }
{
    if i < letter_count(w) {
        return Turn::Stuck;
    }
    Turn::On(after_word(w))
}

pub fn blank(m: Mode) -> Turn
    ensures { (s : Text.State) → turned result s ≡ Text.blank (mode_of m) (Text.to (mode_of m) s) }
{
    match m {
        Mode::Fresh => Turn::On(Mode::Fresh),
        Mode::Spelling(w, i) => word_ended(w, i),
        Mode::Passing => Turn::On(Mode::Passing),
        Mode::Before(k) => Turn::On(Mode::Before(k)),
        Mode::Within(k, n) => taken(k, n),
        Mode::Between => Turn::On(Mode::Between),
        Mode::Behind => Turn::On(Mode::Behind),
    }
}

pub fn line_end(m: Mode) -> Line
    ensures { (s : Text.State) → lined result s ≡ Text.line_ended (mode_of m) (Text.to (mode_of m) s) }
{
    match m {
        Mode::Fresh => Line::Passed,
        Mode::Spelling(_, _) => Line::Early,
        Mode::Passing => Line::Passed,
        Mode::Before(_) => Line::Early,
        Mode::Within(_, _) => Line::Early,
        Mode::Between => Line::Run,
        Mode::Behind => Line::Run,
    }
}

// What could have stood in place of a bad byte is what may stand in this mode: at the end of a line that behind a
// blank.
pub fn wanted(m: Mode, b: u8) -> Mode
    ensures { (s : Text.State) → Text.expected (mode_of result) ≡ Text.missing (Text.to (mode_of m) s) b }
{
    if b == b'\n' {
        return match blank(m) {
            Turn::Stuck => m,
            Turn::On(on) => on,
            Turn::Call(_) => Mode::Between,
            Turn::Place(_) => Mode::Before(Number::Start),
        };
    }
    m
}

// Line and column behind a byte.
pub fn line_after(line: usize, b: u8) -> usize
    requires { line < 0xFFFF_FFFF_FFFF_FFFF }
    ensures { result ≡ cond (Text.is_line_end b) (suc line) line }
{
    if b == b'\n' {
        return line + 1;
    }
    line
}

pub fn column_after(column: usize, b: u8) -> usize
    requires { column < 0xFFFF_FFFF_FFFF_FFFF }
    ensures { result ≡ cond (Text.is_line_end b) 1 (suc column) }
{
    if b == b'\n' {
        return 1;
    }
    column + 1
}
