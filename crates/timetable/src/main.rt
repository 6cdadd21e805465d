// The program timetable: `timetable SHEET CUTTING` prints the timeline of each run of the cutting in the second file,
// on the sheet in the first. What keeps it from telling anything at all is said on standard error.
#![tactic(auto)]

use failures::fail;
use filling::fill;
use std::env::{Env, FillError};
use std::rt::Files;
use std::{fs, io};
use times_text::text::text;

// Opens the file that argument i names, or says why there is none.
fn open_named<R: Env + Files + Eprint>(rt: &R, i: usize) -> io::Result<Option<R::File>> {
    let mut path = [0u8; 4096];
    let length = match rt.arg(i, &mut path) {
        Ok(length) => length,
        Err(FillError::NotPresent) => {
            eprintln!(rt; "usage: timetable SHEET CUTTING")?;
            return Ok(None);
        }
        Err(FillError::TooLong) => {
            eprintln!(rt; "timetable: a file name: File name too long")?;
            return Ok(None);
        }
    };
    let Ok(path) = str::from_utf8(&path[..length]) else {
        eprintln!(rt; "timetable: a file name: not UTF-8")?;
        return Ok(None);
    };
    match fs::open(rt, path) {
        Ok(file) => Ok(Some(file)),
        Err(error) => {
            fail(rt, path, &error)?;
            Ok(None)
        }
    }
}

// One byte more than the longest sheet that is accepted is enough to answer for any sheet; a cutting may have 16,384.
fn main(rt: HostRuntime) -> io::Result<()> {
    let Some(mut sheet) = open_named(&rt, 1)? else {
        return Ok(());
    };
    let Some(mut cutting) = open_named(&rt, 2)? else {
        return Ok(());
    };
    let mut bytes = [0u8; 34573];
    let n = fill(&mut sheet, &mut bytes)?;
    let mut lines = [0u8; 16385];
    let m = fill(&mut cutting, &mut lines)?;
    if m > 16384 {
        return eprintln!(rt; "timetable: the cutting is longer than 16384 bytes");
    }
    let mut out = [0u8; 196608];
    let end = text(&mut out, &bytes[..n], &lines[..m]);
    match rt.write_all(&out[..end]) {
        Ok(()) => Ok(()),
        Err(error) => fail(&rt, "timetable: standard output", &error),
    }
}
