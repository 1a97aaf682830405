// Rule 3: "For *every* call row whose shape unifies with H, H passes its marks to that shape, which keeps the call's own marks."
ghost use Rattle.std.specs.Prelude.{◌≡◌, ◌⊎◌, ℕ, ◌+◌, ◌/◌, ◌≤◌, ◌<◌, length, IfOk};
ghost use Rattle.program.specs.Limits.{masks};
ghost use Rattle.rows.specs.Rows.{keys_of};
ghost use Rattle.rows.specs.MaskSet.{set_words, InSet};
ghost use Rattle.rows.specs.Store.{reached};
ghost use Rattle.table.specs.RoundKeys.{Keyed};
ghost use Rattle.steps.specs.Steps.{Given, Writable, Stepped};
ghost use Rattle.solving.specs.Solving.{ToShape, SolvedBy, SolvedBelow, SetKeys, ShapeSets, FoundFor, CallsAsked, ShapeAsked, SetsAsked, SolvedAt};
ghost use Rattle.solving.specs.SolvedSets.{PutFor, NoneSolved, FirstPassed};

use calling::calls::Calls;
use marks::pass::pass_on;
use marks::rows::together;
use rows::maskset::{contains, insert};
use rows::row::{before_at, mask_at};
use rows::store::{NoRoom, add};
use rows::zeros::clear;
use steps::place::Round;
use terms::walk::narrow;

// The mark of variable 15, and the word of a set from which on its masks have it.
const PASSED: u16 = 32768;

const PASSED_WORDS: usize = 2048;

// Marks in a set, all of them below a bound.
#[derive(Clone, Copy)]
pub struct MarkSet<'a> {
    pub words: &'a [u16],
    pub below: usize,
}

// What is lent to be written (the table, its buckets, the set `solved`) goes one by one: a struct with a `&mut` in it would have to say in each contract
// that it still lends the same words.

// All call rows of one shape, from row `from` on, keep their own marks beside those that the head passes. Each union of marks gives its row once, since
// those in the set `solved` have theirs.
fn solve_calls(
    table: &mut [u16],
    buckets: &mut [u16],
    n: usize,
    at: Round,
    newest: usize,
    slot: u16,
    mask: u16,
    from: usize,
    solved: &mut [u16],
) -> Result<usize, NoRoom>
    requires { CallsAsked table.old solved.old at.since at.rows newest slot mask n × Writable table.old buckets.old n at.room × (at.rows ≤ n)
        × (length solved.old ≡ set_words) }
    ensures stepped { (a : CallsAsked table.old solved.old at.since at.rows newest slot mask n)
        → Stepped (Given a.to.p (keys_of table.old at.rows)) at.number at.room n table.old buckets.old
        (λ key. Keyed a.to.p (SolvedBy a.to from a.q) key ⊎ SetKeys a.to.S slot solved.new key) (reached at.room result) table.new buckets.new }
    ensures put { (a : CallsAsked table.old solved.old at.since at.rows newest slot mask n) → PutFor a.to.S solved.old solved.new }
    ensures within { IfOk result (λ m. m ≤ at.room) }
{
    let mut rows = n;
    let mut link = newest;
    // The rows of a slot are linked in the lent table, which gains rows here: with no heap no list of them can be made to go over.
    while from < link {
        let row = link - 1;
        let own = mask_at(table, row);
        let both = together(own, mask);
        if insert(solved, both) {
            rows = add(table, buckets, rows, at.room, at.number, slot, both)?;
        }
        link = before_at(table, row);
    }
    Ok(rows)
}

// The mark after q to look at: the rest of an empty word has none.
fn next_mark(found: &[u16], q: usize) -> usize
    requires { (q / 16 < length found.now) × (q < masks) }
    ensures { (q < result) × (result ≤ q + 16) × ((m : ℕ) → q < m → m < result → InSet found.now m → ⊥) }
{
    if found[q / 16] == 0 {
        return q / 16 * 16 + 16;
    }
    q + 1
}

// Whether marks that the head passes to a shape are passed for the first time. The set `solved` has, beside unions of marks, the marks that were passed,
// each with the mark of variable 15, which a shape of fewer variables has not; a shape of sixteen has its marks looked at each time.
fn first_passed(solved: &mut [u16], here: u16, mask: u16) -> bool
    requires { length solved.old ≡ set_words }
    ensures { FirstPassed solved.old solved.new here mask result }
{
    if here < PASSED {
        return insert(solved, PASSED | mask);
    }
    true
}

// The marks on the head that the set `found` has, to one shape. Marks that pass the same go to its call rows once.
fn solve_marks(
    table: &mut [u16],
    buckets: &mut [u16],
    n: usize,
    at: Round,
    calls: &Calls,
    slot: u16,
    found: MarkSet,
    from: usize,
    solved: &mut [u16],
) -> Result<usize, NoRoom>
    requires { ShapeAsked table.old calls.now.sets.now found.words.now at.since from at.rows calls.now.newest slot calls.now.here calls.now.there found.below × Writable table.old buckets.old n at.room × (at.rows ≤ n)
        × (length solved.old ≡ set_words) × NoneSolved solved.old calls.now.here }
    ensures stepped { (w : ToShape table.old at.since at.rows calls.now.newest slot) → ShapeSets w.S w.c.head calls.now.sets.now calls.now.here calls.now.there → FoundFor w found.entry.words.now found.entry.below
        → Stepped (Given w.p (keys_of table.old at.rows)) at.number at.room n table.old buckets.old
        (Keyed w.p (SolvedBelow w from found.entry.words.now found.entry.below)) (reached at.room result) table.new buckets.new }
    ensures within { IfOk result (λ m. m ≤ at.room) }
{
    let mut rows = n;
    let mut q = 0;
    // From each mask to the next that the set can have: a `for` over all would also turn for those of an empty word, and is slower.
    while q < found.below {
        if contains(found.words, narrow(q)) {
            let r = pass_on(calls.sets, 16, narrow(q), calls.there, 0, 0, calls.here);
            if first_passed(solved, calls.here, r) {
                rows = solve_calls(
                    table,
                    buckets,
                    rows,
                    at,
                    calls.newest,
                    slot,
                    r,
                    from,
                    solved,
                )?;
            }
        }
        q = next_mark(found.words, q);
    }
    Ok(rows)
}

// The marks on the head to one shape, with the set empty at first: the words that can have a mask of the shape's variables, or one that was passed, are cleared.
fn solve_set(
    table: &mut [u16],
    buckets: &mut [u16],
    n: usize,
    at: Round,
    calls: &Calls,
    slot: u16,
    found: MarkSet,
    from: usize,
    solved: &mut [u16],
) -> Result<usize, NoRoom>
    requires { ShapeAsked table.old calls.now.sets.now found.words.now at.since from at.rows calls.now.newest slot calls.now.here calls.now.there found.below × Writable table.old buckets.old n at.room × (at.rows ≤ n)
        × (length solved.old ≡ set_words) }
    ensures stepped { (w : ToShape table.old at.since at.rows calls.now.newest slot) → ShapeSets w.S w.c.head calls.now.sets.now calls.now.here calls.now.there → FoundFor w found.entry.words.now found.entry.below
        → Stepped (Given w.p (keys_of table.old at.rows)) at.number at.room n table.old buckets.old
        (Keyed w.p (SolvedBelow w from found.entry.words.now found.entry.below)) (reached at.room result) table.new buckets.new }
    ensures within { IfOk result (λ m. m ≤ at.room) }
{
    let words = usize::from(calls.here) / 16 + 1;
    clear(solved, words);
    if calls.here < PASSED {
        clear(&mut solved[PASSED_WORDS..], words);
    }
    solve_marks(table, buckets, n, at, calls, slot, found, from, solved)
}

// Rule 3 for a shape that unifies with the head: the marks in the set `known` to its new call rows, those in the set `found` to all.
pub fn solve_shape(
    table: &mut [u16],
    buckets: &mut [u16],
    n: usize,
    at: Round,
    calls: &Calls,
    slot: u16,
    known: MarkSet,
    found: MarkSet,
    solved: &mut [u16],
) -> Result<usize, NoRoom>
    requires { SetsAsked table.old calls.now.sets.now known.words.now found.words.now at.since at.rows calls.now.newest slot calls.now.here calls.now.there known.below found.below × Writable table.old buckets.old n at.room × (at.rows ≤ n)
        × (length solved.old ≡ set_words) }
    ensures stepped { (a : SetsAsked table.old calls.now.sets.now known.entry.words.now found.entry.words.now at.since at.rows calls.now.newest slot calls.now.here calls.now.there known.entry.below found.entry.below)
        → Stepped (Given a.to.p (keys_of table.old at.rows)) at.number at.room n table.old buckets.old
        (SolvedAt a.to.p (keys_of table.old at.since) (keys_of table.old at.rows) a.to.k known.entry.words.now found.entry.words.now a.to.s) (reached at.room result) table.new buckets.new }
    ensures within { IfOk result (λ m. m ≤ at.room) }
{
    let mut rows = n;
    if at.since < calls.newest {
        rows = solve_set(
            table, buckets, rows, at, calls, slot, known, at.since, solved,
        )?;
    }
    solve_set(table, buckets, rows, at, calls, slot, found, 0, solved)
}
