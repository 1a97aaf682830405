// The cells of atoms, "one token a cell", each behind a tab.
ghost use Rattle.std.specs.Prelude.{◌≡◌, map, [], ◌≤◌, ◌<◌, length};
ghost use Rattle.terms.specs.Cells.{first_variable, enc, encs, Run};
ghost use Rattle.directory.specs.From.{AtomFrom, AtomsFrom};
ghost use Rattle.written_lines.specs.Tokens.{argument_token, atom_tokens, atoms_tokens, behind_tabs};
ghost use Rattle.written_lines.specs.Walked.{arity_of, Written};

use crate::symbols::Symbols;
use crate::tokens::{put_argument, put_symbol};
use crate::walked::Walked;
use terms::walk::FIRST_VARIABLE;

fn arity_of(functions: &[u16], cell: u16) -> usize
    requires { cell < first_variable → cell < length functions.now }
    ensures { (result ≡ arity_of functions.now cell) × (result < 65536) }
{
    if cell < FIRST_VARIABLE {
        usize::from(functions[usize::from(cell)])
    } else {
        0
    }
}

// So many terms at the start of the cells. A cell changes how many are left, so this counts down by hand.
fn put_arguments(
    out: &mut [u8],
    from: usize,
    cells: &[u16],
    count: usize,
    symbols: &Symbols<'_>,
    modes: &[u16],
) -> Walked
    requires { Run symbols.now.functions.now cells.now count }
    ensures { (a : Run symbols.now.functions.now cells.now count)
        → Written (behind_tabs (map (argument_token symbols.now.names.now (length symbols.now.predicates.now) modes.now) (encs a.terms))) a.rest cells.now out.old out.new from result }
{
    let mut end = from;
    let mut at = 0;
    let mut left = count;
    while 0 < left {
        let cell = cells[at];
        end = put_argument(out, end, symbols, modes, cell);
        left = left - 1 + arity_of(symbols.functions, cell);
        at += 1;
    }
    Walked { at, end }
}

// The atom at a place of the words.
pub fn put_atom(
    out: &mut [u8],
    words: &[u16],
    from: Walked,
    symbols: &Symbols<'_>,
    modes: &[u16],
) -> Walked
    requires { AtomFrom words.now from.at symbols.now.predicates.now symbols.now.functions.now }
    ensures { (a : AtomFrom words.now from.at symbols.now.predicates.now symbols.now.functions.now)
        → Written (behind_tabs (atom_tokens symbols.now.names.now (length symbols.now.predicates.now) modes.now (enc a.atom))) a.rest words.now out.old out.new from.end result }
{
    let predicate = usize::from(words[from.at]);
    let end = put_symbol(out, from.end, symbols.names, predicate);
    let next = from.at + 1;
    let count = usize::from(symbols.predicates[predicate]);
    let walked = put_arguments(out, end, &words[next..], count, symbols, modes);
    Walked {
        at: next + walked.at,
        end: walked.end,
    }
}

// So many atoms of a clause, one after another.
pub fn put_atoms(
    out: &mut [u8],
    words: &[u16],
    from: Walked,
    count: usize,
    symbols: &Symbols<'_>,
) -> Walked
    requires { (AtomsFrom words.now from.at symbols.now.predicates.now symbols.now.functions.now count) × (from.at ≤ length words.now) }
    ensures { (a : AtomsFrom words.now from.at symbols.now.predicates.now symbols.now.functions.now count)
        → Written (behind_tabs (atoms_tokens symbols.now.names.now (length symbols.now.predicates.now) a.atoms)) a.rest words.now out.old out.new from.end result }
{
    let mut walked = from;
    for _ in 0..count {
        walked = put_atom(out, words, walked, symbols, &[]);
    }
    walked
}
