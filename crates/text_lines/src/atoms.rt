// Clause and query lines.
ghost use Rattle.std.specs.Prelude.{◌≡◌, List, ◌++◌, ℕ, ◌+◌, ◌^◌, ◌≤◌, ◌<◌, length};
ghost use Rattle.terms.specs.Cells.{variables};
ghost use Rattle.text.specs.Line.{behind, tab};
ghost use Rattle.text.specs.Room.{in_room};
ghost use Rattle.text_lines.specs.Keyword.{clause, query};
ghost use Rattle.text_lines.specs.Lines.{clause_line, query_line};
ghost use Rattle.cells.specs.Room.{Stands};
ghost use Rattle.cells.specs.TextSoFar.{nothing};
ghost use Rattle.declarations.specs.Held.{lines_in, text_so_far, Holds, LinedAs, more_of, Limited, Goes};
ghost use Rattle.text_lines.specs.Goal.{last_of, GoalPut};

use cells::cells::{put, read_cells};
use cells::state::{Counts, Line, Progress, SymbolRoom};
use declarations::declaration::is_open;
use declarations::lined::{Lined, Sizes};
use program::reply::{Fault, Refusal};
use text::name::NAME_BYTES;

fn narrow(x: usize) -> u16
    ensures { x < 2 ^ 16 → result ≡ x }
{
    u16::try_from(x).unwrap_or(0)
}

// "then `clause` lines"; the body length stands before the cells, and is known behind them.
pub fn clause_line(
    line: &Line<'_>,
    from: usize,
    c: Counts,
    symbols: &SymbolRoom,
    words: &mut [u16],
) -> Result<Lined, Fault>
    requires { Limited c × (from ≤ length line.now.bytes.now) × (c.words < 2 ^ 30) }
    ensures by_index { (ns ws : List ℕ) → Holds ns ws c symbols.now words.old → from ≡ length clause → LinedAs symbols.now words.new result (more_of (clause_line (text_so_far c ns ws) line.now.place (behind tab line.now.bytes.now from))) }
    ensures goes { Goes (c.words + 1 + length line.now.bytes.now) result }
{
    if !is_open(c.predicates, c.clauses) {
        return Err(Fault {
            refusal: Refusal::OutOfRange,
            place: line.place,
        });
    }
    let at = c.words;
    put(words, at, 0);
    let mut modes = [0u16; 16];
    let p = read_cells(line, from, false, c, symbols, words, &mut modes, at + 1)?;
    put(words, at, narrow(p.atoms - 1));
    Ok(Lined::More(Counts {
        clauses: c.clauses + 1,
        words: p.words,
        ..c
    }))
}

// The modes of so many variables.
fn put_modes(words: &mut [u16], at: usize, modes: &[u16; 16], count: usize)
    requires { at < 2 ^ 33 }
    ensures { (room : ℕ) (xs ms : List ℕ) → words.old ≡ in_room room xs → at ≡ length xs → modes.now ≡ in_room variables ms → count ≡ length ms → count ≤ variables → words.new ≡ in_room room (xs ++ ms) }
{
    for i in 0..count.min(modes.len()) {
        put(words, at + i, modes[i]);
    }
}

// The counts, which are known when all lines are read.
fn put_counts(words: &mut [u16], c: Counts)
    requires { Limited c }
    ensures { (room : ℕ) (xs : List ℕ) → words.old ≡ in_room room (nothing.lines ++ xs) → words.new ≡ in_room room (lines_in c ++ xs) }
{
    put(words, 0, c.predicates as u16);
    put(words, 1, c.functions as u16);
    put(words, 2, c.clauses as u16);
}

// What stands behind the goal's cells, and the counts before all. How many words there are.
fn put_goal(words: &mut [u16], modes: &[u16; 16], p: Progress, c: Counts) -> usize
    requires { Limited c × (p.words < 2 ^ 32) × (p.variables ≤ p.words) }
    ensures { (ws ms out : List ℕ) → Stands p ms out (nothing.lines ++ ws) modes.now words.old → GoalPut c p ws ms out words.new result }
{
    let at = p.words;
    let count = p.variables;
    put(words, at, narrow(count));
    put_modes(words, at + 1, modes, count);
    put_counts(words, c);
    at + 1 + count
}

// "then one `query` line, last"
pub fn query_line(
    line: &Line<'_>,
    from: usize,
    c: Counts,
    symbols: &SymbolRoom,
    words: &mut [u16],
) -> Result<Lined, Fault>
    requires { Limited c × (from ≤ length line.now.bytes.now) × (c.words < 2 ^ 30) }
    ensures by_index { (ns ws : List ℕ) → Holds ns ws c symbols.now words.old → from ≡ length query → LinedAs symbols.now words.new result (last_of (query_line (text_so_far c ns ws) line.now.place (behind tab line.now.bytes.now from))) }
    ensures goes { Goes 0 result }
{
    if c.predicates == 0 {
        return Err(Fault {
            refusal: Refusal::OutOfRange,
            place: line.place,
        });
    }
    let mut modes = [0u16; 16];
    let p = read_cells(line, from, true, c, symbols, words, &mut modes, c.words)?;
    let count = put_goal(words, &modes, p, c);
    Ok(Lined::Last(Sizes {
        words: count,
        names: (c.predicates + c.functions) * NAME_BYTES,
    }))
}
