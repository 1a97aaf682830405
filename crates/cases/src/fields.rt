// Fields and lines on standard output.
ghost use Rattle.std.specs.Prelude.{◌≡◌, cond, ◌≤◌, IfOk};

use crate::{print, print_words};
use std::io;
use text::cut::TAB;
use text::name::NAME_BYTES;

pub fn print_byte(rt: &impl Print, b: u8) -> io::Result<()> {
    let shown = [b];
    rt.write_all(&shown)
}

pub fn print_field(rt: &impl Print, n: usize) -> io::Result<()> {
    print_byte(rt, TAB)?;
    print!(rt; "{n}")
}

pub fn print_refused(rt: &impl Print, number: u16, place: usize) -> io::Result<()> {
    rt.write_all(b"\trefused")?;
    print_field(rt, usize::from(number))?;
    print_field(rt, place)
}

// Whether what was compared is the same; how many are: one or none.
pub fn print_same(rt: &impl Print, same: bool) -> io::Result<usize>
    ensures { IfOk result (λ n. (n ≡ cond same 1 0) × (n ≤ 1)) }
{
    if same {
        rt.write_all(b"\tsame")?;
        return Ok(1);
    }
    rt.write_all(b"\tdiffers")?;
    Ok(0)
}

// Byte i of the names: a tab before each name, and a dot for a zero behind it.
fn print_name_byte(rt: &impl Print, i: usize, b: u8) -> io::Result<()> {
    if i % NAME_BYTES == 0 {
        print_byte(rt, TAB)?;
    }
    if b == 0 {
        return print_byte(rt, b'.');
    }
    print_byte(rt, b)
}

fn print_names(rt: &impl Print, names: &[u8]) -> io::Result<()> {
    for (i, b) in names.iter().enumerate() {
        print_name_byte(rt, i, *b)?;
    }
    Ok(())
}

// The lines of an encoded program with its names.
pub fn print_program(rt: &impl Print, words: &[u16], names: &[u8]) -> io::Result<()> {
    rt.write_all(b"\nwords ")?;
    print_words(rt, words)?;
    rt.write_all(b"\nnames")?;
    print_names(rt, names)
}

pub fn print_tally(rt: &impl Print, agreed: usize, tried: usize) -> io::Result<()> {
    print(rt, agreed, b" of ")?;
    print(rt, tried, b" agree\n")
}
