// The lines of the input, and the fields of a line.
use crate::atom::ATOM_CELLS;
use crate::letters::read_cells;
use crate::pair::answer;
use std::io;

// A line: the name of the case, and two atoms of a letter a cell.
fn put_line(rt: &impl Print, line: &[u8]) -> io::Result<()> {
    let mut fields = line.splitn(3, |byte| *byte == b'\t').skip(1);
    let mut first = [0u16; ATOM_CELLS];
    let mut second = [0u16; ATOM_CELLS];
    let a = read_cells(fields.next().unwrap_or_default(), &mut first);
    let b = read_cells(fields.next().unwrap_or_default(), &mut second);
    rt.write_all(line)?;
    answer(rt, a, b)
}

// Every line of the text, in order.
pub fn each(rt: &impl Print, text: &[u8]) -> io::Result<()> {
    for line in text.split_inclusive(|byte| *byte == b'\n') {
        put_line(rt, line.strip_suffix(b"\n").unwrap_or(line))?;
    }
    Ok(())
}
