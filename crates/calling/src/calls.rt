// Rule 1: "A call row whose shape unifies with H passes its marks to H (itself with none)."
ghost use Rattle.std.specs.Prelude.{◌≡◌, ◌≤◌, length, IfOk};
ghost use Rattle.terms.specs.Mask.{Marks};
ghost use Rattle.marks.specs.Passing.{MarkedIn};
ghost use Rattle.rows.specs.Rows.{keys_of};
ghost use Rattle.rows.specs.Store.{reached};
ghost use Rattle.rows.specs.MaskSet.{set_words};
ghost use Rattle.steps.specs.Situation.{Situation, HeadAsked};
ghost use Rattle.steps.specs.Steps.{Given, Writable, Stepped};
ghost use Rattle.steps.specs.Heads.{HeadMark, Collected, Told};
ghost use Rattle.steps.specs.Unifiers.{Notes, HeadNotes};
ghost use Rattle.calling.specs.Calls.{OpenedBy, Emits, EmitAsked, MarkAsked, MarkShape};

use directory::encoded::{Encoded, Span};
use directory::layout::{
    CLAUSE_CELLS, CLAUSE_HEAD, CLAUSE_VARS, PREDICATE_SHAPE, SHAPE_NEXT, SHAPE_VARS,
};
use marks::pass::pass_on;
use marks::rows::Order;
use rows::maskset::insert;
use rows::row::{before_at, mask_at};
use rows::store::NoRoom;
use steps::meet::first_variables;
use steps::place::{Round, emit};
use steps::unifiers::meet_noting;

// The call rows of a shape that unifies with the head of a clause: the link to the newest, the sets of the unifier, and the variables of the shape and of
// the head.
#[derive(Clone, Copy)]
pub struct Calls<'a> {
    pub newest: usize,
    pub sets: &'a [u32; 32],
    pub here: u16,
    pub there: u16,
}

impl<'a> Calls<'a> {
    // The marks that a call row with such a mask passes to the head.
    fn passed(&self, mask: u16) -> u16
        ensures { Marks (MarkedIn self.now.sets.now 0 mask self.now.here 16 0 self.now.there) result }
    {
        pass_on(self.sets, 0, mask, self.here, 16, 0, self.there)
    }
}

// The new call rows of one shape, to a clause with a body: rows for its first body atom.
pub fn emit_shape<'a>(
    dir: &[u16],
    order: &Order,
    table: &mut [u16],
    buckets: &mut [u16],
    n: usize,
    at: Round,
    calls: &Calls<'a>,
    j: usize,
) -> Result<usize, NoRoom>
    requires { EmitAsked dir.now order.now.variables table.old calls.now.sets.now order.now.count calls.now.newest calls.now.here calls.now.there at.since at.rows j
        × Writable table.old buckets.old n at.room × (at.rows ≤ n) }
    ensures stepped { (a : EmitAsked dir.now order.now.variables table.old calls.now.sets.now order.now.count calls.now.newest calls.now.here calls.now.there at.since at.rows j)
        → Stepped (Given a.place.p (keys_of table.old at.rows)) at.number at.room n table.old buckets.old
        (Emits a.place.p a.place.k a.place.i (OpenedBy a.place.p table.old at.since at.rows a.place.k a.calls.s))
        (reached at.room result) table.new buckets.new }
    ensures within { IfOk result (λ m. m ≤ at.room) }
{
    let mut rows = n;
    let mut link = calls.newest;
    // The rows of a slot are linked in the lent table, to which rows are added meanwhile, so that no iterator can hold it.
    while at.since < link {
        let row = link - 1;
        let q = calls.passed(mask_at(table, row));
        rows = emit(dir, order, table, buckets, rows, at, j, q)?;
        link = before_at(table, row);
    }
    Ok(rows)
}

// The call rows of one shape from `since` on, to a clause without a body: marks on its head, into the set.
fn mark_shape<'a>(table: &[u16], calls: &Calls<'a>, since: usize, found: &mut [u16])
    requires { MarkAsked table.now calls.now.sets.now calls.now.newest calls.now.here calls.now.there since × (length found.old ≡ set_words) }
    ensures { (a : MarkAsked table.now calls.now.sets.now calls.now.newest calls.now.here calls.now.there since)
        → Collected (OpenedBy a.p table.now since a.rows a.k a.calls.s) found.old found.new }
{
    let mut link = calls.newest;
    // The same rows as in `emit_shape`, but that writes the table meanwhile: one walk that takes a closure cannot lend it the table to write.
    while since < link {
        let row = link - 1;
        insert(found, calls.passed(mask_at(table, row)));
        link = before_at(table, row);
    }
}

// The call rows of shape s from `since` on, where it unifies with the head of a clause: marks on the head, into the set. What comes of the two is noted.
// Says whether there are such call rows, also where the two are apart, so that the shape comes to the head again and its note is taken.
fn marks_of_shape<'a>(
    program: &Encoded<'a>,
    table: &[u16],
    heads: &[u16],
    since: usize,
    s: usize,
    head: Span,
    there: u16,
    found: &mut [u16],
    unifiers: &mut [u8],
) -> bool
    requires { MarkShape program.now.words.now program.now.dir.now table.now heads.now since s head.start head.cells there × (length found.old ≡ set_words)
        × Notes program.now.words.now program.now.dir.now head.start head.cells unifiers.old }
    ensures { ((a : MarkShape program.now.words.now program.now.dir.now table.now heads.now since s head.start head.cells there)
        → Collected (OpenedBy a.p table.now since a.rows a.k s) found.old found.new
        × Told (OpenedBy a.p table.now since a.rows a.k s) result)
        × Notes program.now.words.now program.now.dir.now head.start head.cells unifiers.new }
{
    let newest = usize::from(heads[s]);
    if newest <= since {
        return false;
    }
    let mut sets = [0u32; 32];
    if !meet_noting(program, s, head, &mut sets, unifiers) {
        return true;
    }
    let here = first_variables(usize::from(program.dir[SHAPE_VARS + s]));
    let calls = Calls {
        newest,
        sets: &sets,
        here,
        there,
    };
    mark_shape(table, &calls, since, found);
    true
}

// All call rows from `since` on, to clause k: marks on its head, into the set, and a note of what comes of each shape and the head. Says whether there are
// such call rows.
pub fn mark_head<'a>(
    program: &Encoded<'a>,
    table: &[u16],
    heads: &[u16],
    since: usize,
    k: usize,
    found: &mut [u16],
    rows: usize,
    unifiers: &mut [u8],
) -> bool
    requires { HeadAsked program.now.words.now program.now.dir.now table.now heads.now since rows k × (length found.old ≡ set_words)
        × HeadNotes program.now.words.now program.now.dir.now k unifiers.old }
    ensures { ((w : Situation program.now.words.now program.now.dir.now table.now heads.now since rows)
        → Collected (HeadMark w.p table.now since rows k 0) found.old found.new
        × Told (HeadMark w.p table.now since rows k 0) result)
        × HeadNotes program.now.words.now program.now.dir.now k unifiers.new }
{
    let head = Span {
        start: usize::from(program.dir[CLAUSE_HEAD + k]),
        cells: usize::from(program.dir[CLAUSE_CELLS + k]),
    };
    let there = first_variables(usize::from(program.dir[CLAUSE_VARS + k]));
    let mut any = false;
    let mut link = usize::from(
        program.dir[PREDICATE_SHAPE + usize::from(program.words[head.start])],
    );
    // The shapes of a predicate are linked in the directory: with no heap no list of them can be made to go over.
    while 0 < link {
        let s = link - 1;
        if marks_of_shape(
            program, table, heads, since, s, head, there, found, unifiers,
        ) {
            any = true;
        }
        link = usize::from(program.dir[SHAPE_NEXT + s]);
    }
    any
}
