// What is shown for the bytes of any file, at the front of a lent buffer.
ghost use Rattle.std.specs.Prelude.{◌*◌, ◌≤◌, length};
ghost use Rattle.texts.specs.SheetText.{show_file};
ghost use Rattle.listing_lines.specs.Put.{Put};

use crate::show::show;
use listing_lines::lines::refusal_line;
use sheet_words::check::{Checked, check};

// The words of a sheet, or why they are refused.
pub fn show_file(out: &mut [u8], bytes: &[u8]) -> usize
    requires in_bounds { 53 ≤ length out.old }
    requires bytes_in_bounds { 16 * length bytes.now ≤ length out.old }
    ensures text { Put 0 (show_file bytes.now) out.old out.new result }
    ensures short { result ≤ length out.old }
{
    match check(bytes) {
        Checked::Accepted => show(&mut *out, bytes),
        Checked::Refused(number, index) => {
            refusal_line(&mut *out, 0, number as u64, index as u64)
        }
    }
}
