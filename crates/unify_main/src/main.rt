// Unifies pairs of atoms, one a line: a name, the first atom, the second atom, parted by tabs. Writes the line again with `apart`, or with
// `unified` and then for each variable of both atoms what it is bound to, as written, and the unbound variables of what it stands for.
#![tactic(auto)]

mod atom;
mod letters;
mod lines;
mod pair;

use intake::read_full;
use std::io;

fn main(rt: HostRuntime) -> io::Result<()> {
    let mut text = [0u8; 65536];
    let n = read_full(&mut rt.stdin(), &mut text)?;
    lines::each(&rt, &text[..n])
}
