// Reads a scenario text on standard input and prints the listing of its mode table, or one line `refused`, number, place. A write that fails is
// said on standard error.
#![tactic(auto)]

use intake::read_full;
use printing::print::print;
use std::io;

fn main(rt: HostRuntime) -> io::Result<()> {
    // one byte more than the longest text, so that a longer one is seen to be too long
    let mut text = [0u8; 40961];
    let mut out = [0u8; 65536];
    let size = read_full(&mut rt.stdin(), &mut text)?;
    let end = print(&text[..size], &mut out);
    if let Err(error) = rt.write_all(&out[..end]) {
        eprintln!(rt; "modes: cannot write: {error}")?;
    }
    Ok(())
}
