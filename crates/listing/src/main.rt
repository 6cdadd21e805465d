// The listing program: reads the words of a sheet on standard input, and prints its plan or its refusal.
#![tactic(auto)]

use filling::fill;
use listing_text::text::text;
use std::io;

// One byte more than the longest sheet that is accepted is enough to answer for any input.
fn main(rt: HostRuntime) -> io::Result<()> {
    let mut bytes = [0u8; 34573];
    let n = fill(&mut rt.reader(), &mut bytes)?;
    let mut out = [0u8; 16384];
    let end = text(&mut out, &bytes[..n]);
    rt.write_all(&out[..end])
}
