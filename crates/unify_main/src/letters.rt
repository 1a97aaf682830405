// One letter a cell: `A` to `P` is a variable, `a` to `z` the function of that number, and `0` to `8` the predicate with as many arguments.
ghost use Rattle.std.specs.Prelude.{◌≤◌, length};

use std::io;
use terms::unifier::{FIRST_VARIABLES, VARIABLES};
use terms::walk::{FIRST_VARIABLE, has};

// How many letters are a function's.
const FUNCTION_LETTERS: u16 = 26;
// No cell of an atom.
const NO_CELL: u16 = 65535;

fn cell_of(letter: u8) -> u16 {
    match letter {
        b'A'..=b'P' => FIRST_VARIABLE + u16::from(letter - b'A'),
        b'a'..=b'z' => u16::from(letter - b'a'),
        b'0'..=b'8' => u16::from(letter - b'0'),
        _ => NO_CELL,
    }
}

// The cells that the letters stand for, put into the room; none where they are too many.
pub fn read_cells<'a>(letters: &[u8], room: &'a mut [u16]) -> &'a [u16]
    ensures { length result.now ≤ length room.old }
{
    if room.len() < letters.len() {
        return &[];
    }
    for (cell, letter) in room.iter_mut().zip(letters) {
        *cell = cell_of(*letter);
    }
    &room[..letters.len()]
}

// One letter on its way out.
fn put(rt: &impl Print, letter: u8) -> io::Result<()> {
    rt.write_all(&[letter])
}

// Variable x of the store: those of the second atom have a mark behind their letter.
pub fn put_variable(rt: &impl Print, x: usize) -> io::Result<()> {
    put(rt, b'A' + (x % FIRST_VARIABLES) as u8)?;
    if FIRST_VARIABLES <= x {
        put(rt, b'\'')?;
    }
    Ok(())
}

// A run of cells of the atom whose variables begin at `base`.
pub fn put_run(rt: &impl Print, run: &[u16], base: usize) -> io::Result<()>
    requires { base ≤ 16 }
{
    for cell in run {
        if *cell < FIRST_VARIABLE {
            put(rt, b'a' + (*cell % FUNCTION_LETTERS) as u8)?;
        } else {
            put_variable(rt, base + usize::from(*cell - FIRST_VARIABLE))?;
        }
    }
    Ok(())
}

// A set of variables of the store.
pub fn put_set(rt: &impl Print, set: u32) -> io::Result<()> {
    rt.write_all(b"{")?;
    for x in 0..VARIABLES {
        if has(set, x) {
            put_variable(rt, x)?;
        }
    }
    rt.write_all(b"}\n")
}
