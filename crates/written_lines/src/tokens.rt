// The tokens of a clause or query line, each behind a tab.
ghost use Rattle.std.specs.Prelude.{◌≡◌, cond, ◌∷◌, ◌<◌, length, get_or, eqb};
ghost use Rattle.terms.specs.Cells.{first_variable};
ghost use Rattle.program.specs.Limits.{ground_mode};
ghost use Rattle.text.specs.Line.{tab};
ghost use Rattle.text.specs.Token.{upper_v, upper_g};
ghost use Rattle.text.specs.Put.{Put};
ghost use Rattle.written_lines.specs.Tokens.{symbol_token, variable_token, argument_token};
ghost use Rattle.written_lines.specs.Walked.{NameAt};

use crate::symbols::Symbols;
use program::limits::GROUND_MODE;
use terms::walk::FIRST_VARIABLE;
use text::cut::TAB;
use text::put::{put_byte, put_name, put_number};

pub fn put_symbol(out: &mut [u8], end: usize, names: &[u8], n: usize) -> usize
    requires { NameAt names.now n }
    ensures { Put (tab ∷ symbol_token names.now n) out.old out.new end result }
{
    let from = put_byte(out, end, TAB);
    put_name(out, from, names, n)
}

// "in the query `G` instead of `V` marks ground"
fn sign_of(modes: &[u16], v: u16) -> u8
    ensures { result ≡ cond (eqb (get_or modes.now v 0) ground_mode) upper_g upper_v }
{
    match modes.get(usize::from(v)) {
        Some(mode) if usize::from(*mode) == GROUND_MODE => b'G',
        _ => b'V',
    }
}

fn put_variable(out: &mut [u8], end: usize, modes: &[u16], v: u16) -> usize
    ensures { Put (tab ∷ variable_token modes.now v) out.old out.new end result }
{
    let from = put_byte(out, end, TAB);
    let behind = put_byte(out, from, sign_of(modes, v));
    put_number(out, behind, v)
}

// The cell of an argument.
pub fn put_argument(
    out: &mut [u8],
    end: usize,
    symbols: &Symbols<'_>,
    modes: &[u16],
    cell: u16,
) -> usize
    requires { cell < first_variable → cell < length symbols.now.functions.now }
    ensures { Put (tab ∷ argument_token symbols.now.names.now (length symbols.now.predicates.now) modes.now cell) out.old out.new end result }
{
    if cell < FIRST_VARIABLE {
        let n = symbols.predicates.len() + usize::from(cell);
        return put_symbol(out, end, symbols.names, n);
    }
    put_variable(out, end, modes, cell - FIRST_VARIABLE)
}
