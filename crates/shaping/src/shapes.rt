// The shapes and their numbers: "each distinct shape numbered once".
ghost use Rattle.std.specs.Prelude.{◌≡◌, ◌+◌, ◌≤◌, ◌<◌, length};
ghost use Rattle.terms.specs.Cells.{variables};
ghost use Rattle.program.specs.Limits.{max_shapes};
ghost use Rattle.directory.specs.Layout.{dir_words, max_shape_cells};
ghost use Rattle.shaping.specs.Shaped.{Sought, FoundAs, added_to, Asked, Answered};

use directory::encoded::Span;
use directory::layout::{PREDICATE_SHAPE, SHAPE_CELLS, SHAPE_NEXT, SHAPE_START, SHAPE_VARS};
use directory::numbers::{numbers, renumber};
use terms::walk::narrow;

// Looks for the shape whose cells stand at a place, among those of its predicate: its number; or, where it is new, the entry for the link to it.
fn find(dir: &[u16], q: usize, cells: usize, to: usize) -> Result<usize, usize>
    requires { Sought dir.now q cells to }
    ensures { (a : Sought dir.now q cells to) → FoundAs a.ss a.S q result }
{
    // A `while`: each link is read from the entry before it, and the last entry is wanted too, so an iterator would only wrap this loop.
    let mut slot = PREDICATE_SHAPE + q;
    let mut link = usize::from(dir[slot]);
    while 0 < link {
        let s = link - 1;
        let start = usize::from(dir[SHAPE_START + s]);
        let end = usize::from(dir[SHAPE_START + link]);
        if dir[SHAPE_CELLS + start..SHAPE_CELLS + end] == dir[to..to + cells] {
            return Ok(s);
        }
        slot = SHAPE_NEXT + s;
        link = usize::from(dir[slot]);
    }
    Err(slot)
}

// Puts one more shape behind the others; its cells stand there already.
fn keep(dir: &mut [u16], slot: usize, count: usize, vars: usize, end: usize)
    requires { (length dir.old ≡ dir_words) × (slot < dir_words) × (count < max_shapes) × (vars ≤ variables) × (end ≤ max_shape_cells) }
    ensures { dir.new ≡ added_to dir.old slot count vars end }
{
    let next = count + 1;
    dir[slot] = narrow(next);
    dir[SHAPE_START + next] = narrow(end);
    dir[SHAPE_VARS + count] = narrow(vars);
    dir[SHAPE_NEXT + count] = 0;
}

// The number of the shape of an atom, where so many shapes are found; a new one is put behind them.
pub fn number(words: &[u16], atom: Span, dir: &mut [u16], count: usize) -> usize
    requires { Asked words.now dir.old atom.start atom.cells count }
    ensures { (a : Asked words.now dir.old atom.start atom.cells count) → Answered a.predicates a.functions a.ss a.atom atom.cells dir.old dir.new result }
{
    let end = atom.start + atom.cells;
    let mut table = [0u16; 16];
    let run = &words[atom.start..end];
    let vars = numbers(run, &mut table);
    let total = usize::from(dir[SHAPE_START + count]);
    let to = SHAPE_CELLS + total;
    renumber(run, &table, dir, to);
    let q = usize::from(words[atom.start]);
    match find(dir, q, atom.cells, to) {
        Ok(s) => s,
        Err(slot) => {
            keep(dir, slot, count, vars, total + atom.cells);
            count
        }
    }
}
