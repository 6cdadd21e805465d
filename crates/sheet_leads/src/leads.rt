// What stands before the numbers of a sheet's text, and the numbers, at a place of a lent buffer. Each function gives
// the place after what it wrote.
ghost use Rattle.std.specs.Prelude.{◌≡◌, ◌+◌, ◌≤◌, ◌++◌, length};
ghost use Rattle.definitions.specs.Listing as Listing;
ghost use Rattle.texts.specs.SheetText as Text;
ghost use Rattle.listing_lines.specs.Put.{Put};
ghost use Rattle.sheet_words.specs.Held.{state_of};

use listing_lines::text::{numbered, spaced, word};
use models::domain::is_closed;
use sheet_words::state::State;

// Whether a table's row is whole.
pub fn row_ends(s: State) -> bool
    ensures { result ≡ Text.row_ends (state_of s) }
{
    if s.places == 0 {
        return s.row == 0;
    }
    s.row % (s.places as usize) == 0
}

// The number of the customer whose words come next.
pub fn own_number(s: State) -> u32
    ensures { result ≡ Text.own_number (state_of s) }
{
    if s.places < s.coming {
        return 0;
    }
    s.places - s.coming
}

// What stands before a number of a break.
pub fn break_lead(out: &mut [u8], at: usize, s: State) -> usize
    requires { at + 36 ≤ length out.old }
    ensures text { Put at (Text.break_lead (state_of s)) out.old out.new result }
    ensures short { result ≤ at + 36 }
{
    if s.last.kind != 6 {
        return word(&mut *out, at, b"\nbreak from");
    }
    if s.row == 1 {
        return word(&mut *out, at, b" to");
    }
    word(&mut *out, at, b" for")
}

// What stands before the first number of a table, up to its name and the end of that line.
pub fn table_name(out: &mut [u8], at: usize, name: &[u8]) -> usize
    requires name_len_bound { length name.now ≤ 20 }
    requires at_in_bounds { at + 36 ≤ length out.old }
    ensures text { let lines = Listing.end_of_line ++ name.now ++ Listing.text "\n " in
        Put at lines out.old out.new result }
    ensures short { result ≤ at + 36 }
{
    let mut end = word(&mut *out, at, b"\n");
    end = word(&mut *out, end, name);
    word(&mut *out, end, b"\n ")
}

// What stands before a number of the table of that kind and name.
pub fn table_lead(out: &mut [u8], at: usize, s: State, kind: u32, name: &[u8]) -> usize
    requires name_len_bound { length name.now ≤ 20 }
    requires at_in_bounds { at + 36 ≤ length out.old }
    ensures text { let lead = Text.table_lead kind name.now (state_of s) in
        Put at lead out.old out.new result }
    ensures short { result ≤ at + 36 }
{
    if s.last.kind != kind {
        return table_name(&mut *out, at, name);
    }
    if row_ends(s) {
        return word(&mut *out, at, b"\n ");
    }
    at
}

// What stands before the tour.
pub fn tour_lead(out: &mut [u8], at: usize, s: State) -> usize
    requires { at + 36 ≤ length out.old }
    ensures text { Put at (Text.tour_lead (state_of s)) out.old out.new result }
    ensures short { result ≤ at + 36 }
{
    if s.last.kind == 0xE {
        return at;
    }
    word(&mut *out, at, b"\ntour")
}

// What stands before a customer's demand.
pub fn customer_lead(out: &mut [u8], at: usize, s: State) -> usize
    requires { at + 36 ≤ length out.old }
    ensures text { let lead = Listing.text "\ncustomer" ++ Listing.spaced (Text.own_number (state_of s)) ++ Listing.text " seats" in
        Put at lead out.old out.new result }
    ensures short { result ≤ at + 36 }
{
    let end = numbered(&mut *out, at, b"\ncustomer", own_number(s) as u64);
    word(&mut *out, end, b" seats")
}

// A blank, and a number; a closed leg is a dash.
pub fn number(out: &mut [u8], at: usize, value: u32) -> usize
    requires { at + 21 ≤ length out.old }
    ensures text { Put at (Listing.text " " ++ Text.number_text value) out.old out.new result }
    ensures short { result ≤ at + 21 }
{
    if is_closed(value) {
        return word(&mut *out, at, b" -");
    }
    spaced(&mut *out, at, value as u64)
}
