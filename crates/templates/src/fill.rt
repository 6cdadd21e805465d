// A template's text written into a lent buffer: each `%` of the template is a number, the next of a list. Each function
// gives the place after what it wrote. A number of 64 bits has at most 20 digits.
ghost use Rattle.std.specs.Prelude.{◌≡◌, ◌+◌, ◌*◌, ◌≤◌, length, drop};
ghost use Rattle.listing_lines.specs.Put.{Put};
ghost use Rattle.templates.specs.Fill.{piece, takes_one, used_by, fill};

use listing_lines::text::decimal;

// Whether a byte of the template is a gap for one of so many numbers, of which k are used.
fn is_gap(b: u8, k: usize, many: usize) -> bool
    ensures { result ≡ takes_one b k many }
{
    if b == b'%' { k < many } else { false }
}

// How many of the numbers are used behind it.
fn used(b: u8, k: usize, many: usize) -> usize
    requires { k ≤ many }
    ensures { result ≡ used_by b k many }
{
    if is_gap(b, k, many) { k + 1 } else { k }
}

// One byte of the template: the next number, where it is a gap.
fn put_piece(out: &mut [u8], at: usize, b: u8, numbers: &[u64], k: usize) -> usize
    requires { at + 20 ≤ length out.old }
    ensures text { Put at (piece b (drop k numbers.now)) out.old out.new result }
    ensures short { result + 20 * k ≤ at + 1 + 20 * used_by b k (length numbers.now) }
{
    if is_gap(b, k, numbers.len()) {
        return decimal(&mut *out, at, numbers[k]);
    }
    out[at] = b;
    at + 1
}

// The whole template.
pub fn filled(out: &mut [u8], at: usize, template: &[u8], numbers: &[u64]) -> usize
    requires { at + (length template.now + 20 * length numbers.now + 20) ≤ length out.old }
    ensures text { Put at (fill template.now numbers.now) out.old out.new result }
    ensures short { result ≤ at + (length template.now + 20 * length numbers.now) }
{
    let mut end = at;
    let mut k = 0;
    for &b in template {
        end = put_piece(&mut *out, end, b, numbers, k);
        k = used(b, k, numbers.len());
    }
    end
}
