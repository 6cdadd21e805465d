// Words and numbers at a place of a lent buffer. Each function gives the place after what it wrote.
// A number of 64 bits has at most 20 digits, and so 21 bytes with the blank before it.
ghost use Rattle.std.specs.Prelude.{◌≡◌, ◌+◌, ◌<◌, ◌≤◌, ◌++◌, length};
ghost use Rattle.definitions.specs.Listing as Listing;
ghost use Rattle.listing_lines.specs.Put.{Put};

// The bytes of a word.
pub fn word(out: &mut [u8], at: usize, text: &[u8]) -> usize
    requires { at + length text.now ≤ length out.old }
    ensures { Put at text.now out.old out.new result }
{
    let end = at + text.len();
    out[at..end].copy_from_slice(text);
    end
}

// The byte of a digit.
fn digit(d: u64) -> u8
    requires { d < 10 }
    ensures { result ≡ 48 + d }
{
    48 + d as u8
}

// The digits of a number in base ten.
pub fn decimal(out: &mut [u8], at: usize, n: u64) -> usize
    requires { at + length (Listing.decimal n) ≤ length out.old }
    ensures { Put at (Listing.decimal n) out.old out.new result }
{
    if n < 10 {
        out[at] = digit(n);
        return at + 1;
    }
    let end = decimal(&mut *out, at, n / 10);
    out[end] = digit(n % 10);
    end + 1
}

// A blank, and a number.
pub fn spaced(out: &mut [u8], at: usize, n: u64) -> usize
    requires { at + 21 ≤ length out.old }
    ensures text { Put at (Listing.spaced n) out.old out.new result }
    ensures short { result ≤ at + 21 }
{
    let end = word(&mut *out, at, b" ");
    decimal(&mut *out, end, n)
}

// A word, and a number behind it.
pub fn numbered(out: &mut [u8], at: usize, text: &[u8], n: u64) -> usize
    requires { at + (length text.now + 21) ≤ length out.old }
    ensures text { Put at (text.now ++ Listing.spaced n) out.old out.new result }
    ensures short { result ≤ at + (length text.now + 21) }
{
    let end = word(&mut *out, at, text);
    spaced(&mut *out, end, n)
}

// The same, and the end of the line.
pub fn ended(out: &mut [u8], at: usize, text: &[u8], n: u64) -> usize
    requires { at + (length text.now + 22) ≤ length out.old }
    ensures text { let line = text.now ++ Listing.spaced n ++ Listing.end_of_line in
        Put at line out.old out.new result }
    ensures short { result ≤ at + (length text.now + 22) }
{
    let end = numbered(&mut *out, at, text, n);
    word(&mut *out, end, b"\n")
}
