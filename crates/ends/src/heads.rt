// A clause's head and the shapes of the calls to it. Each pair of shape and head is unified once: the new call rows of the shape open the body, and
// marks on the head go to its call rows. What is lent to be written goes one by one, as in `solving`.
ghost use Rattle.std.specs.Prelude.{◌≡◌, ◌+◌, ◌≤◌, ◌<◌, length, get_or, IfOk};
ghost use Rattle.directory.specs.Layout.{clause_head, clause_cells};
ghost use Rattle.rows.specs.Rows.{keys_of};
ghost use Rattle.rows.specs.MaskSet.{set_words};
ghost use Rattle.rows.specs.Store.{reached};
ghost use Rattle.steps.specs.Steps.{Given, Writable, Stepped};
ghost use Rattle.steps.specs.Unifiers.{Notes, HeadNotes};
ghost use Rattle.ends.specs.AtHead.{ClauseAsked, HeadKnown, AtShape, OfShape, ShapeGives, AtHead, HeadGives};

use calling::calls::{Calls, emit_shape};
use directory::encoded::{Encoded, Span};
use directory::layout::{
    CLAUSE_CELLS, CLAUSE_FIRST, CLAUSE_HEAD, CLAUSE_VARS, PREDICATE_SHAPE, SHAPE_NEXT, SHAPE_VARS,
};
use joining::standing::body_order;
use marks::rows::Order;
use rows::store::NoRoom;
use solving::solve::{MarkSet, solve_shape};
use steps::meet::first_variables;
use steps::place::{Round, SOLUTIONS};
use steps::unifiers::meet_noted;
use terms::walk::narrow;

// The first body atom of a clause, and its variables by first appearance.
#[derive(Clone, Copy)]
pub struct Opening {
    pub atom: usize,
    pub order: Order,
}

// Where the head of a clause stands, its variables, and the clause's first body atom, where there is one.
#[derive(Clone, Copy)]
pub struct Head {
    pub at: Span,
    pub there: u16,
    pub opening: Option<Opening>,
}

// The head of clause k.
#[tactic(auto, using(calling::proofs::ShapeVisits::clause_in_dir))]
fn head_of(program: &Encoded, k: usize) -> Head
    requires { ClauseAsked program.now.words.now program.now.dir.now k }
    ensures { ((a : ClauseAsked program.now.words.now program.now.dir.now k) → HeadKnown program.now.words.now a.p k a.c result)
        × (result.at.start ≡ get_or program.now.dir.now (clause_head + k) 0) × (result.at.cells ≡ get_or program.now.dir.now (clause_cells + k) 0) }
{
    let start = usize::from(program.dir[CLAUSE_HEAD + k]);
    let cells = usize::from(program.dir[CLAUSE_CELLS + k]);
    let at = Span { start, cells };
    let there = first_variables(usize::from(program.dir[CLAUSE_VARS + k]));
    let first = usize::from(program.dir[CLAUSE_FIRST + k]);
    let end = usize::from(program.dir[CLAUSE_FIRST + k + 1]);
    if end <= first {
        return Head {
            at,
            there,
            opening: None,
        };
    }
    Head {
        at,
        there,
        opening: Some(Opening {
            atom: first,
            order: body_order(program, first),
        }),
    }
}

// Marks for all call rows ask for call rows from the first on, else those since `since` are enough.
fn rows_from(since: usize, marks: usize) -> usize
    ensures { (result ≤ since) × (0 < marks → result ≡ 0) }
{
    if 0 < marks {
        return 0;
    }
    since
}

// Shape s, which unifies with the head: rules 1 and 3 with its call rows.
fn at_shape(
    dir: &[u16],
    head: &Head,
    table: &mut [u16],
    buckets: &mut [u16],
    solved: &mut [u16],
    n: usize,
    at: Round,
    s: usize,
    newest: usize,
    sets: &[u32; 32],
    known: MarkSet,
    found: MarkSet,
) -> Result<usize, NoRoom>
    requires { AtShape dir.now table.old sets.now known.words.now found.words.now head.now at.since at.rows s newest known.below found.below
        × Writable table.old buckets.old n at.room × (at.rows ≤ n) × (length solved.old ≡ set_words) }
    ensures stepped { (a : AtShape dir.now table.old sets.now known.entry.words.now found.entry.words.now head.now at.since at.rows s newest known.entry.below found.entry.below)
        → Stepped (Given a.p (keys_of table.old at.rows)) at.number at.room n table.old buckets.old
        (ShapeGives a.p (keys_of table.old at.since) (keys_of table.old at.rows) a.k known.entry.words.now found.entry.words.now s) (reached at.room result) table.new buckets.new }
    ensures within { IfOk result (λ m. m ≤ at.room) }
{
    let here = first_variables(usize::from(dir[SHAPE_VARS + s]));
    let calls = Calls {
        newest,
        sets,
        here,
        there: head.there,
    };
    let mut rows = n;
    if let Some(opening) = &head.opening {
        rows = emit_shape(
            dir,
            &opening.order,
            table,
            buckets,
            rows,
            at,
            &calls,
            opening.atom,
        )?;
    }
    solve_shape(
        table,
        buckets,
        rows,
        at,
        &calls,
        narrow(SOLUTIONS + s),
        known,
        found,
        solved,
    )
}

// Shape s, where it has a call row from row `from` on and unifies with the head. What is noted of the two is taken from the notes.
fn of_shape(
    program: &Encoded,
    head: &Head,
    table: &mut [u16],
    buckets: &mut [u16],
    heads: &[u16],
    solved: &mut [u16],
    n: usize,
    at: Round,
    s: usize,
    from: usize,
    known: MarkSet,
    found: MarkSet,
    unifiers: &mut [u8],
) -> Result<usize, NoRoom>
    requires { OfShape program.now.words.now program.now.dir.now table.old heads.now known.words.now found.words.now head.now at.since at.rows s «from» known.below found.below
        × Writable table.old buckets.old n at.room × (at.rows ≤ n) × (length solved.old ≡ set_words)
        × Notes program.now.words.now program.now.dir.now head.now.at.start head.now.at.cells unifiers.old }
    ensures stepped { (a : OfShape program.now.words.now program.now.dir.now table.old heads.now known.entry.words.now found.entry.words.now head.now at.since at.rows s «from» known.entry.below found.entry.below)
        → Stepped (Given a.at_head.head.situation.p (keys_of table.old at.rows)) at.number at.room n table.old buckets.old
        (ShapeGives a.at_head.head.situation.p (keys_of table.old at.since) (keys_of table.old at.rows) a.k known.entry.words.now found.entry.words.now s) (reached at.room result) table.new buckets.new }
    ensures notes { Notes program.now.words.now program.now.dir.now head.now.at.start head.now.at.cells unifiers.new }
    ensures within { IfOk result (λ m. m ≤ at.room) }
{
    let newest = usize::from(heads[s]);
    if newest <= from {
        return Ok(n);
    }
    let mut sets = [0u32; 32];
    if !meet_noted(program, s, head.at, &mut sets, unifiers) {
        return Ok(n);
    }
    at_shape(
        program.dir,
        head,
        table,
        buckets,
        solved,
        n,
        at,
        s,
        newest,
        &sets,
        known,
        found,
    )
}

// The head of clause k and every shape of its predicate that has a new call row, or, where there are marks in the set `found`, any call row.
// Marks in the set `known` go to the new call rows, those in the set `found` to all.
pub fn at_head(
    program: &Encoded,
    table: &mut [u16],
    buckets: &mut [u16],
    heads: &[u16],
    solved: &mut [u16],
    n: usize,
    at: Round,
    k: usize,
    known: MarkSet,
    found: MarkSet,
    unifiers: &mut [u8],
) -> Result<usize, NoRoom>
    requires { AtHead program.now.words.now program.now.dir.now table.old heads.now known.words.now found.words.now at.since at.rows k known.below found.below
        × Writable table.old buckets.old n at.room × (at.rows ≤ n) × (length solved.old ≡ set_words)
        × HeadNotes program.now.words.now program.now.dir.now k unifiers.old }
    ensures stepped { (a : AtHead program.now.words.now program.now.dir.now table.old heads.now known.entry.words.now found.entry.words.now at.since at.rows k known.entry.below found.entry.below)
        → Stepped (Given a.head.situation.p (keys_of table.old at.rows)) at.number at.room n table.old buckets.old
        (HeadGives a.head.situation.p (keys_of table.old at.since) (keys_of table.old at.rows) k known.entry.words.now found.entry.words.now) (reached at.room result) table.new buckets.new }
    ensures notes { HeadNotes program.now.words.now program.now.dir.now k unifiers.new }
    ensures within { IfOk result (λ m. m ≤ at.room) }
{
    let head = head_of(program, k);
    let from = rows_from(at.since, found.below);
    let start = head.at.start;
    let mut rows = n;
    let mut link = usize::from(program.dir[PREDICATE_SHAPE + usize::from(program.words[start])]);
    // The shapes of a predicate are linked in the directory: with no heap no list of them can be made to go over.
    while 0 < link {
        let s = link - 1;
        rows = of_shape(
            program, &head, table, buckets, heads, solved, rows, at, s, from, known, found,
            unifiers,
        )?;
        link = usize::from(program.dir[SHAPE_NEXT + s]);
    }
    Ok(rows)
}
