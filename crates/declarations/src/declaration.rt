// Declaration lines.
ghost use Rattle.std.specs.Prelude.{◌≡◌, List, ℕ, ◌+◌, ◌^◌, ◌≤◌, ◌<◌, ◌&&◌, length, ltb};
ghost use Rattle.program.specs.Lists.{between};
ghost use Rattle.text.specs.Name.{max_names};
ghost use Rattle.text.specs.Line.{behind, tab};
ghost use Rattle.program.specs.Limits.{max_declared};
ghost use Rattle.declarations.specs.Declarations.{declaring, symbol_of, declared, pred_line, func_line};
ghost use Rattle.cells.specs.Room.{Few};
ghost use Rattle.cells.specs.TextSoFar.{func_section, later, one_more};
ghost use Rattle.declarations.specs.Held.{lines_in, text_so_far, Holds, LinedAs, more_of, Limited, Goes};

use crate::declare::symbol_of;
use crate::fields::two_fields;
use crate::lined::Lined;
use crate::symbol::add_symbol;
use cells::state::{Counts, Line, SymbolRoom};
use program::limits::MAX_DECLARED;
use program::reply::{Fault, Refusal};

const DECLARING: usize = 4;

// The name before the tab at `middle` and the arity behind it, of a kind with `count` names from number `first` on; `next` counts it too.
fn add_declared(
    line: &Line<'_>,
    middle: usize,
    first: usize,
    count: usize,
    c: Counts,
    next: Counts,
    symbols: &mut SymbolRoom,
    words: &mut [u16],
) -> Result<Lined, Fault>
    requires { Few c × (declaring < middle) × (middle < length line.now.bytes.now) × (first + count < max_names) × Limited next × (next.words ≡ c.words + 1) }
    ensures by_index { (ns ws : List ℕ) (section : ℕ) → Holds ns ws c symbols.old words.old → later (lines_in c) func_section ≡ 0 → lines_in next ≡ one_more (lines_in c) section → first + count ≡ c.predicates + c.functions → next.predicates + next.functions ≡ first + count + 1 → LinedAs symbols.new words.new result (more_of (declared (text_so_far c ns ws) section (between line.now.bytes.now (declaring + 1) middle) (symbol_of ns first count (line.now.place + declaring) (between line.now.bytes.now (declaring + 1) middle) (between line.now.bytes.now (middle + 1) (length line.now.bytes.now))))) }
    ensures goes { Goes (c.words + 1) result }
{
    let start = DECLARING + 1;
    let after = middle + 1;
    let name = &line.bytes[start..middle];
    let arity = symbol_of(
        name,
        &line.bytes[after..],
        line.place + DECLARING,
        first,
        count,
        symbols,
    )?;
    add_symbol(name, arity, first + count, c.words, symbols, words);
    Ok(Lined::More(next))
}

// A line that is no `pred` may stand here: there is a predicate, and there are not yet 64 of its kind.
pub fn is_open(predicates: usize, count: usize) -> bool
    ensures { result ≡ ltb 0 predicates && ltb count max_declared }
{
    0 < predicates && count < MAX_DECLARED
}

// "First the `pred` lines"
pub fn pred_line(
    line: &Line<'_>,
    c: Counts,
    symbols: &mut SymbolRoom,
    words: &mut [u16],
) -> Result<Lined, Fault>
    requires { Limited c × (declaring ≤ length line.now.bytes.now) × (c.words < 2 ^ 31) }
    ensures by_index { (ns ws : List ℕ) → Holds ns ws c symbols.old words.old → LinedAs symbols.new words.new result (more_of (pred_line (text_so_far c ns ws) line.now.place (behind tab line.now.bytes.now declaring))) }
    ensures goes { Goes (c.words + 1) result }
{
    let middle = two_fields(line.bytes, DECLARING).ok_or(Fault {
        refusal: Refusal::IllFormed,
        place: line.place,
    })?;
    if c.functions + c.clauses != 0 {
        return Err(Fault {
            refusal: Refusal::IllFormed,
            place: line.place,
        });
    }
    if MAX_DECLARED <= c.predicates {
        return Err(Fault {
            refusal: Refusal::OutOfRange,
            place: line.place,
        });
    }
    let next = Counts {
        predicates: c.predicates + 1,
        words: c.words + 1,
        ..c
    };
    add_declared(line, middle, 0, c.predicates, c, next, symbols, words)
}

// "then `func` lines"
pub fn func_line(
    line: &Line<'_>,
    c: Counts,
    symbols: &mut SymbolRoom,
    words: &mut [u16],
) -> Result<Lined, Fault>
    requires { Limited c × (declaring ≤ length line.now.bytes.now) × (c.words < 2 ^ 31) }
    ensures by_index { (ns ws : List ℕ) → Holds ns ws c symbols.old words.old → LinedAs symbols.new words.new result (more_of (func_line (text_so_far c ns ws) line.now.place (behind tab line.now.bytes.now declaring))) }
    ensures goes { Goes (c.words + 1) result }
{
    let middle = two_fields(line.bytes, DECLARING).ok_or(Fault {
        refusal: Refusal::IllFormed,
        place: line.place,
    })?;
    if c.clauses != 0 {
        return Err(Fault {
            refusal: Refusal::IllFormed,
            place: line.place,
        });
    }
    if !is_open(c.predicates, c.functions) {
        return Err(Fault {
            refusal: Refusal::OutOfRange,
            place: line.place,
        });
    }
    let next = Counts {
        functions: c.functions + 1,
        words: c.words + 1,
        ..c
    };
    add_declared(
        line,
        middle,
        c.predicates,
        c.functions,
        c,
        next,
        symbols,
        words,
    )
}
