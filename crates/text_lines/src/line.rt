// A line by its keyword.
ghost use Rattle.std.specs.Prelude.{List, ℕ, ◌+◌, ◌^◌, ◌<◌, length};
ghost use Rattle.text.specs.Line.{parts, tab};
ghost use Rattle.text_lines.specs.Lines.{fields_of};
ghost use Rattle.declarations.specs.Held.{text_so_far, Holds, LinedAs, Limited, Goes};

use crate::atoms::{clause_line, query_line};
use crate::keyword::{Kind, kind_of};
use cells::state::{Counts, Line, SymbolRoom};
use declarations::declaration::{func_line, pred_line};
use declarations::lined::Lined;
use program::reply::{Fault, Refusal};
use text::cut::{TAB, find};

// A line of the text.
pub fn read_line(
    line: &Line<'_>,
    c: Counts,
    symbols: &mut SymbolRoom,
    words: &mut [u16],
) -> Result<Lined, Fault>
    requires { Limited c × (c.words < 2 ^ 30) }
    ensures by_index { (ns ws : List ℕ) → Holds ns ws c symbols.old words.old → LinedAs symbols.new words.new result (fields_of (text_so_far c ns ws) line.now.place (parts tab line.now.bytes.now)) }
    ensures goes { Goes (c.words + 1 + length line.now.bytes.now) result }
{
    let end = find(line.bytes, 0, TAB);
    match kind_of(&line.bytes[0..end]) {
        Kind::Pred => pred_line(line, c, symbols, words),
        Kind::Func => func_line(line, c, symbols, words),
        Kind::Clause => clause_line(line, end, c, symbols, words),
        Kind::Query => query_line(line, end, c, symbols, words),
        Kind::Other => Err(Fault {
            refusal: Refusal::IllFormed,
            place: line.place,
        }),
    }
}
