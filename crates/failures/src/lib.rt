// What a program says on standard error where the system fails it.
#![tactic(auto)]

ghost use Rattle.failures.specs.Words.{IsWordsOf};

use arrayvec::ArrayString;
use std::fmt::Write;
use std::io;

// The system's words alone: an error's text without the number that stands behind them in brackets.
fn words(said: &str) -> &str
    ensures { IsWordsOf said.now result.now }
{
    match said.split_once(" (os error ") {
        Some((words, _)) => words,
        None => said,
    }
}

// A line: what failed, as the caller names it, a colon and why. What the system says of an error is shorter than 256
// bytes; were it longer, its number would stand there too.
pub fn fail(rt: &impl Eprint, what: &str, error: &io::Error) -> io::Result<()> {
    let mut said = ArrayString::<256>::new();
    match write!(said, "{error}") {
        Ok(()) => {
            let why = words(said.as_str());
            eprintln!(rt; "{what}: {why}")
        }
        Err(_) => eprintln!(rt; "{what}: {error}"),
    }
}
