// The cells of an atom: their faults, and how many terms each asks for.
ghost use Rattle.program.specs.Atoms.{variable_of, symbol_of};
ghost use Rattle.program.specs.Part.{CellAs, Meets, Asks, left, next_cell};

use crate::limits::{ATOM_CELLS, MAX_VARIABLE};
use crate::part::Place;
use crate::reply::{Fault, Refusal};
use terms::walk::FIRST_VARIABLE;

// What a cell opens: how many terms it asks for, and how many variables are met after it.
#[derive(Clone, Copy)]
pub struct Opened {
    pub arity: u16,
    pub met: usize,
}

// "a variable is above 15 or skips a number"
fn variable_of(seen: usize, v: usize) -> Result<Opened, Refusal>
    ensures { CellAs result (variable_of seen v) }
{
    if MAX_VARIABLE < v || seen < v {
        return Err(Refusal::BadVariable);
    }
    Ok(Opened {
        arity: 0,
        met: seen.max(v + 1),
    })
}

// "A term is a function number below F with its arguments, or a variable, 32768 + v."
fn symbol_of(functions: &[u16], seen: usize, w: u16) -> Result<Opened, Refusal>
    ensures { CellAs result (symbol_of functions.now seen w) }
{
    if FIRST_VARIABLE <= w {
        return variable_of(seen, usize::from(w - FIRST_VARIABLE));
    }
    let arity = *functions.get(usize::from(w)).ok_or(Refusal::Undeclared)?;
    Ok(Opened { arity, met: seen })
}

// The next cell of an atom of which so many cells were taken.
pub fn take<'a>(
    from: Place<'a>,
    functions: &[u16],
    taken: usize,
    seen: usize,
) -> Result<(Opened, Place<'a>), Fault>
    ensures { Meets from.entry.words.now Asks result (next_cell functions.now taken seen (left from.entry)) }
{
    let (w, next) = from.word()?;
    if ATOM_CELLS <= taken {
        return Err(from.refused(Refusal::LongAtom));
    }
    // A match: behind `map_err` and `?` the check does not find which refusal the fault has.
    match symbol_of(functions, seen, w) {
        Ok(opened) => Ok((opened, next)),
        Err(refusal) => Err(from.refused(refusal)),
    }
}
