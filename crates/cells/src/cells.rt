// The cells of a clause or query line, one token each.
ghost use Rattle.std.specs.Prelude.{◌≡◌, cond, ◌&&◌, List, [], ℕ, ◌+◌, ◌-◌, ◌^◌, ◌≤◌, ◌<◌, length, set, ltb};
ghost use Rattle.terms.specs.Cells.{first_variable, variables};
ghost use Rattle.program.specs.Limits.{max_words, max_variable};
ghost use Rattle.text.specs.Line.{behind, tab};
ghost use Rattle.text.specs.Room.{in_room};
ghost use Rattle.cells.specs.Cells.{mode_of, look_of, taken_at, no_cells, cells_of, complete};
ghost use Rattle.cells.specs.Room.{Few, SymbolsHeld, Small, Grows, Grown, Stands, TakenAs, CellsAs, symbols_in, row_of, after_symbol, after_variable};

use crate::look::{Seen, look_at, mode_of};
use crate::state::{Counts, Line, Progress, SymbolRoom};
use program::limits::MAX_VARIABLE;
use program::reply::{Fault, Refusal};
use terms::walk::FIRST_VARIABLE;
use text::cut::{TAB, find};

// An element where there is room for it.
pub fn put<T: Copy>(items: &mut [T], at: usize, x: T)
    ensures { items.new ≡ set items.old at x }
{
    if at < items.len() {
        items[at] = x;
    }
}

fn after_symbol(p: Progress, arity: u16) -> Progress
    requires { Small p × (p.words < 2 ^ 32) }
    ensures { (result ≡ after_symbol p arity) × Small result }
{
    let more = usize::from(arity);
    let words = p.words + 1;
    if p.wanted == 0 {
        return Progress {
            wanted: more,
            cells: 1,
            atoms: p.atoms + 1,
            words,
            ..p
        };
    }
    Progress {
        wanted: p.wanted - 1 + more,
        cells: p.cells + 1,
        words,
        ..p
    }
}

fn met_after(seen: usize, v: usize) -> usize
    requires { seen < 2 ^ 32 }
    ensures { (result ≡ cond (ltb v seen) seen (seen + 1)) × (result ≤ seen + 1) }
{
    if v < seen {
        return seen;
    }
    seen + 1
}

fn after_variable(p: Progress, v: usize) -> Progress
    requires { Small p × (p.words < 2 ^ 32) }
    ensures { (result ≡ after_variable p v) × Small result }
{
    Progress {
        wanted: p.wanted.saturating_sub(1),
        cells: p.cells + 1,
        variables: met_after(p.variables, v),
        words: p.words + 1,
        ..p
    }
}

// The mode of a variable that is met first.
fn meet(modes: &mut [u16], seen: usize, v: usize, grounded: bool)
    ensures { modes.new ≡ cond (ltb v seen) modes.old (set modes.old seen (mode_of grounded)) }
{
    if v < seen {
        return;
    }
    put(modes, seen, mode_of(grounded));
}

fn variable_cell(v: usize) -> u16
    ensures { v ≤ max_variable → result ≡ first_variable + v }
{
    if MAX_VARIABLE < v {
        return FIRST_VARIABLE;
    }
    FIRST_VARIABLE + v as u16
}

// One token, and its cell behind the words.
fn take(
    s: &[u8],
    query: bool,
    p: Progress,
    c: Counts,
    symbols: &SymbolRoom,
    words: &mut [u16],
    modes: &mut [u16; 16],
) -> Result<Progress, Refusal>
    requires { Few c × Small p × (p.words < 2 ^ 32) }
    ensures taken_as { (ns ws ms out front : List ℕ) → SymbolsHeld ns ws c symbols.now → Stands p ms out front modes.old words.old → TakenAs front modes.new words.new result (taken_at (row_of p ms out) 0 (look_of (symbols_in c ns ws) query (row_of p ms out) s.now)) }
    ensures grows { Grows p result }
{
    match look_at(s, query, p, c, symbols, modes)? {
        Seen::Symbol { word, arity } => {
            put(words, p.words, word);
            Ok(after_symbol(p, arity))
        }
        Seen::Variable { number, grounded } => {
            put(words, p.words, variable_cell(number));
            meet(modes, p.variables, number, grounded);
            Ok(after_variable(p, number))
        }
    }
}

// An atom is complete, and no other has begun.
fn is_complete(p: Progress) -> bool
    ensures { result ≡ complete (row_of p [] []) }
{
    p.wanted == 0 && 0 < p.atoms
}

// "After the goal's last cell stands one LF"
fn is_over(query: bool, p: Progress) -> bool
    ensures { result ≡ query && complete (row_of p [] []) }
{
    query && is_complete(p)
}

// The tokens of a line behind the separator at `from`.
pub fn read_cells(
    line: &Line<'_>,
    from: usize,
    query: bool,
    c: Counts,
    symbols: &SymbolRoom,
    words: &mut [u16],
    modes: &mut [u16; 16],
    count: usize,
) -> Result<Progress, Fault>
    requires { Few c × (from ≤ length line.now.bytes.now) × (count < 2 ^ 31) }
    ensures by_index { (ns ws front : List ℕ) → SymbolsHeld ns ws c symbols.now → words.old ≡ in_room max_words front → count ≡ length front → modes.old ≡ in_room variables [] → CellsAs front modes.new words.new result (cells_of (symbols_in c ns ws) query no_cells (line.now.place + from) (behind tab line.now.bytes.now from)) }
    ensures grows { Grown (count + length line.now.bytes.now) result }
{
    let mut p = Progress {
        wanted: 0,
        cells: 0,
        atoms: 0,
        variables: 0,
        words: count,
    };
    let mut at = from;
    // Not an iterator over the tokens: a fault names a place of the line, and a token that `split` hands out has none.
    while at < line.bytes.len() {
        if is_over(query, p) {
            return Err(Fault {
                refusal: Refusal::Follows,
                place: line.place + at,
            });
        }
        let start = at + 1;
        let place = line.place + start;
        let end = find(line.bytes, start, TAB);
        p = take(&line.bytes[start..end], query, p, c, symbols, words, modes).map_err(
            |refusal| Fault { refusal, place },
        )?;
        at = end;
    }
    if is_complete(p) {
        return Ok(p);
    }
    Err(Fault {
        refusal: Refusal::TooSoon,
        place: line.place + at,
    })
}
