// The reading of a sheet: its head and how many of each part it has, or a refusal.
// The parts themselves are written by their own functions.
ghost use Rattle.std.specs.Prelude.{◌≡◌};
ghost use Rattle.definitions.specs.Reader as Reader;
ghost use Rattle.sheet_read.specs.Summary.{summary_of, held_summary};

use crate::head::head_of;
use crate::values::count_values;
use models::head::Head;
use sheet_words::check::{Checked, check};

#[derive(Clone, Copy)]
pub struct Contents {
    pub head: Head,
    // The depot counts.
    pub customers: usize,
    pub distances: usize,
    pub times: usize,
    pub calls: usize,
}

#[derive(Clone, Copy)]
pub enum Reading {
    Sheet(Contents),
    // Number, and word index from 0.
    Refused(u32, usize),
}

// An accepted sheet has a customer for each place, and a distance from each place to each.
pub fn read(bytes: &[u8]) -> Reading
    ensures { held_summary result ≡ summary_of (Reader.read bytes.now) }
{
    match check(bytes) {
        Checked::Refused(number, word) => Reading::Refused(number, word),
        Checked::Accepted => {
            let head = head_of(bytes);
            let places = head.places;
            Reading::Sheet(Contents {
                head,
                customers: places,
                distances: places * places,
                times: count_values(bytes, 0xD),
                calls: count_values(bytes, 0xE),
            })
        }
    }
}
