// A question on a run list: a byte for the number of runs, one for each run end, a byte for the number of calls, one
// for each call, and the bytes of the sheet.
ghost use Rattle.std.specs.Prelude.{◌≡◌, true, ◌≤◌, length};
ghost use Rattle.definitions.specs.Room.{written};
ghost use Rattle.test_lists.specs.Answers.{is_counted, EndsAt};

use models::domain::MOST_CALLS;

// A byte as a number of runs or calls.
pub fn number_of(b: u8) -> usize
    ensures { result ≡ b }
{
    b as usize
}

// Whether a list of run ends or calls stands behind a byte for its length, and is not too long.
pub fn is_counted(bytes: &[u8]) -> bool
    ensures { result ≡ is_counted bytes.now }
{
    if bytes.len() == 0 {
        return false;
    }
    let n = number_of(bytes[0]);
    n < bytes.len() && n <= MOST_CALLS
}

// Where such a list ends.
pub fn list_end(bytes: &[u8]) -> usize
    requires { is_counted bytes.now ≡ true }
    ensures { EndsAt bytes.now result }
{
    number_of(bytes[0]) + 1
}

// Writes bytes, as numbers, at the front of a list.
pub fn write_numbers(bytes: &[u8], numbers: &mut [usize])
    requires { length bytes.now ≤ length numbers.old }
    ensures { numbers.new ≡ written bytes.now numbers.old }
{
    for (k, &byte) in bytes.iter().enumerate() {
        numbers[k] = number_of(byte);
    }
}
