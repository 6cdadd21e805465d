// The sheet program: `sheet show SHEET` prints the words of a sheet as text, or why they are refused.
#![tactic(auto)]

ghost use Rattle.std.specs.Prelude.{◌≡◌, length};

use failures::fail;
use filling::fill;
use sheet_text::file::show_file;
use std::env::Env;
use std::io::Read;
use std::rt::Files;
use std::{fs, io};

// Room for the text of the longest file that is read: a word of four bytes shows at most 64.
fn text_room() -> [u8; 553168]
    ensures { 553168 ≡ length result }
{
    [0; 553168]
}

// One byte more than the longest sheet that is accepted is enough to answer for any file.
fn show(rt: &impl Print, file: &mut impl Read) -> io::Result<()> {
    let mut bytes = [0u8; 34573];
    let n = fill(&mut *file, &mut bytes)?;
    let mut out = text_room();
    let end = show_file(&mut out, &bytes[..n]);
    rt.write_all(&out[..end])
}

fn show_named<R: Files + Print + Eprint>(rt: &R, path: &[u8]) -> io::Result<()> {
    let Ok(path) = str::from_utf8(path) else {
        return eprintln!(rt; "sheet: a file name: not UTF-8");
    };
    match fs::open(rt, path) {
        Ok(mut file) => show(rt, &mut file),
        Err(error) => fail(rt, path, &error),
    }
}

// The word that comes first.
fn is_show(said: &[u8]) -> bool {
    if said.len() != 4 {
        return false;
    }
    said[0] == b's' && said[1] == b'h' && said[2] == b'o' && said[3] == b'w'
}

fn is_asked_to_show(rt: &impl Env) -> bool {
    let mut name = [0u8; 8];
    match rt.arg(1, &mut name) {
        Ok(said) => is_show(&name[..said]),
        Err(_) => false,
    }
}

fn main(rt: HostRuntime) -> io::Result<()> {
    let mut path = [0u8; 4096];
    match rt.arg(2, &mut path) {
        Ok(length) if is_asked_to_show(&rt) => show_named(&rt, &path[..length]),
        _ => eprintln!(rt; "usage: sheet show SHEET"),
    }
}
