// Rule 2: "A cont row (n, i) and any solution row whose shape unifies with Ai give the cont row's marks together with those that the solution passes".
ghost use Rattle.std.specs.Prelude.{◌≡◌, ℕ, suc, ◌+◌, ◌≤◌, ◌<◌, length, take, get_or, replicate, IfOk, IfSome, IfNone};
ghost use Rattle.marks.specs.Modes.{modes};
ghost use Rattle.program.specs.Limits.{max_rows};
ghost use Rattle.rows.specs.Rows.{keys_of};
ghost use Rattle.rows.specs.Store.{reached};
ghost use Rattle.rows.specs.MaskSet.{set_words, InSet};
ghost use Rattle.table.specs.Keys.{first_cont};
ghost use Rattle.table.specs.NewRows.{NewGoesOn};
ghost use Rattle.table.specs.RoundKeys.{Keyed};
ghost use Rattle.steps.specs.Situation.{Situation, BodyOf, MiddleAsked, LastAsked};
ghost use Rattle.steps.specs.Steps.{Given, RowsIn, Writable, Stepped};
ghost use Rattle.steps.specs.Heads.{HeadMark, Collected, Told};
ghost use Rattle.joining.specs.Joined.{JoinedWith, Had, Turn, ContMarks, RowsOf, KeptOf, JoinAsked, AnswersThere, BodyAsked, Lists, NothingNew, ContsAsked, ContsThere};
ghost use Rattle.joining.specs.KeptAnswers.{KeepsAnswers, KeepsFor};

use crate::listing::{Counts, list_answers};
use crate::standing::{Standing, body_order};
use directory::encoded::Encoded;
use marks::rows::{Order, kept, together};
use rows::maskset::insert;
use rows::row::{before_at, mask_at};
use rows::store::NoRoom;
use rows::zeros::zero;
use steps::place::{CONTS, Round, emit};

// The answers to a body atom: the fresh ones, of new solution rows, and all, among which the fresh ones are.
#[derive(Clone, Copy)]
struct Answers<'a> {
    fresh: &'a [u16],
    all: &'a [u16],
}

impl<'a> Answers<'a> {
    // Those that stand in the list.
    fn of(list: &'a [u16], counts: Counts) -> Answers<'a>
        requires { AnswersThere list.now counts.fresh counts.all }
        ensures { (result.fresh.now ≡ take counts.fresh list.now) × (result.all.now ≡ take counts.all list.now) }
    {
        Answers {
            fresh: &list[..counts.fresh],
            all: &list[..counts.all],
        }
    }

    // The answers that a cont row joins: all where it is new, and otherwise the fresh ones.
    fn due(&self, since: usize, row: usize) -> &'a [u16]
        ensures { Turn self.now.fresh.now self.now.all.now since row result.now }
    {
        if since <= row { self.all } else { self.fresh }
    }
}

// What is joined at a place: the cont rows that stand in a chain from `newest` on, and so many answers to its atom.
#[derive(Clone, Copy)]
struct Parts {
    newest: usize,
    counts: Counts,
}

// What is joined at the place of body atom j, if cont rows stand there and its atom has answers.
fn parts_of<'a>(
    standing: &Standing<'a>,
    seen: &mut [u16],
    answers: &mut [u16],
    answered: &mut [u16],
    j: usize,
) -> Option<Parts>
    requires { BodyAsked standing.now j × (seen.old ≡ replicate set_words 0) × (length answers.old ≡ max_rows) × KeepsFor standing.now answered.old }
    ensures unseen { seen.new ≡ replicate set_words 0 }
    ensures keeps { KeepsFor standing.now answered.new }
    ensures none { IfNone result (NothingNew standing.now j) }
    ensures some { IfSome result (λ parts. (parts.newest ≡ get_or standing.now.heads.now (first_cont + j) 0)
        × Lists standing.now j parts.newest answers.new parts.counts.fresh parts.counts.all) }
{
    let newest = usize::from(standing.heads[CONTS + j]);
    if newest == 0 {
        return None;
    }
    let counts = list_answers(standing, seen, answers, answered, j, newest);
    if counts.all == 0 {
        return None;
    }
    Some(Parts { newest, counts })
}

// One cont row's marks with answers: rows for body atom j, each union of marks once, since those in the set have given theirs.
// The table, its buckets and the set go one by one: a struct with a `&mut` in it would have to say in each contract that it still lends the same words.
fn emit_joined(
    dir: &[u16],
    order: &Order,
    table: &mut [u16],
    buckets: &mut [u16],
    n: usize,
    at: Round,
    mask: u16,
    answers: &[u16],
    j: usize,
    seen: &mut [u16],
) -> Result<usize, NoRoom>
    requires { JoinAsked dir.now order.now.variables table.old answers.now seen.old order.now.count at.rows j mask n
        × Writable table.old buckets.old n at.room × (at.rows ≤ n) × (length seen.old ≡ set_words) }
    ensures had { (N : ℕ) → InSet seen.new N → Had seen.old mask answers.now N }
    ensures stepped { (w : JoinAsked dir.now order.now.variables table.old answers.now seen.old order.now.count at.rows j mask n)
        → Stepped (Given w.reaching.place.p (keys_of table.old at.rows)) at.number at.room n table.old buckets.old
        (RowsOf w.reaching.place.p w.reaching.place.k w.reaching.place.i (JoinedWith mask answers.now)) (reached at.room result) table.new buckets.new }
    ensures within { IfOk result (λ m. m ≤ at.room) }
{
    let mut rows = n;
    for &answer in answers {
        let both = together(mask, answer);
        if insert(seen, both) {
            rows = emit(dir, order, table, buckets, rows, at, j, both)?;
        }
    }
    Ok(rows)
}

// All cont rows of a place: the new ones with every answer, the others with the fresh ones.
fn emit_conts<'a>(
    dir: &[u16],
    order: &Order,
    table: &mut [u16],
    buckets: &mut [u16],
    n: usize,
    at: Round,
    newest: usize,
    answers: &Answers<'a>,
    j: usize,
    seen: &mut [u16],
) -> Result<usize, NoRoom>
    requires { ContsAsked dir.now order.now.variables table.old answers.now.fresh.now answers.now.all.now order.now.count at.rows newest at.since j
        × Writable table.old buckets.old n at.room × (at.rows ≤ n) × (seen.old ≡ replicate set_words 0) }
    ensures stepped { (w : ContsAsked dir.now order.now.variables table.old answers.now.fresh.now answers.now.all.now order.now.count at.rows newest at.since j)
        → Stepped (Given w.reaching.place.p (keys_of table.old at.rows)) at.number at.room n table.old buckets.old
        (RowsOf w.reaching.place.p w.reaching.place.k w.reaching.place.i
        (ContMarks table.old answers.now.fresh.now answers.now.all.now w.slot at.rows at.since 0)) (reached at.room result) table.new buckets.new }
    ensures within { IfOk result (λ m. m ≤ at.room) }
{
    let mut rows = n;
    let mut link = newest;
    // The rows of a slot are linked in the lent table, to which rows are added meanwhile, so that no iterator can hold it.
    while 0 < link {
        let row = link - 1;
        let mask = mask_at(table, row);
        let due = answers.due(at.since, row);
        rows = emit_joined(dir, order, table, buckets, rows, at, mask, due, j, seen)?;
        link = before_at(table, row);
    }
    Ok(rows)
}

// Past body atom j, which is not its clause's last: rows for body atom j + 1.
pub fn middle_place<'a>(
    program: &Encoded<'a>,
    table: &mut [u16],
    buckets: &mut [u16],
    heads: &[u16],
    seen: &mut [u16],
    answers: &mut [u16],
    answered: &mut [u16],
    n: usize,
    at: Round,
    j: usize,
) -> Result<usize, NoRoom>
    requires { MiddleAsked program.now.words.now program.now.dir.now table.old heads.now at.since at.rows j × Writable table.old buckets.old n at.room × (at.rows ≤ n)
        × (seen.old ≡ replicate set_words 0) × (length answers.old ≡ max_rows) × KeepsAnswers program.now.words.now program.now.dir.now table.old answered.old at.rows }
    ensures unseen { seen.new ≡ replicate set_words 0 }
    ensures keeps { KeepsAnswers program.now.words.now program.now.dir.now table.old answered.new at.rows }
    ensures stepped { (w : Situation program.now.words.now program.now.dir.now table.old heads.now at.since at.rows) (b : BodyOf w.p j)
        → Stepped (Given w.p (keys_of table.old at.rows)) at.number at.room n table.old buckets.old
        (Keyed w.p (NewGoesOn modes w.p (RowsIn w.p (keys_of table.old at.since)) (RowsIn w.p (keys_of table.old at.rows)) b.k (suc b.i)))
        (reached at.room result) table.new buckets.new }
    ensures within { IfOk result (λ m. m ≤ at.room) }
{
    let standing = Standing {
        program: *program,
        table,
        heads,
        since: at.since,
        before: at.rows,
    };
    let Some(parts) = parts_of(&standing, seen, answers, answered, j) else {
        return Ok(n);
    };
    let next = j + 1;
    let order = body_order(program, next);
    let listed = Answers::of(answers, parts.counts);
    let rows = emit_conts(
        program.dir,
        &order,
        table,
        buckets,
        n,
        at,
        parts.newest,
        &listed,
        next,
        seen,
    );
    zero(seen);
    rows
}

// One cont row's marks with answers, kept to the head's variables, into the set.
fn mark_joined(mask: u16, answers: &[u16], there: u16, found: &mut [u16])
    requires { length found.old ≡ set_words }
    ensures { Collected (KeptOf there (JoinedWith mask answers.now)) found.old found.new }
{
    for &answer in answers {
        insert(found, kept(there, together(mask, answer)));
    }
}

// All cont rows of a clause's last place.
fn mark_conts<'a>(
    table: &[u16],
    newest: usize,
    since: usize,
    answers: &Answers<'a>,
    there: u16,
    found: &mut [u16],
)
    requires { ContsThere table.now answers.now.fresh.now answers.now.all.now newest × (length found.old ≡ set_words) }
    ensures { (w : ContsThere table.now answers.now.fresh.now answers.now.all.now newest)
        → Collected (KeptOf there (ContMarks table.now answers.now.fresh.now answers.now.all.now w.slot w.rows since 0)) found.old found.new }
{
    let mut link = newest;
    // The same rows as in `emit_conts`, but that writes the table meanwhile: one walk that takes a closure cannot lend it the table to write.
    while 0 < link {
        let row = link - 1;
        let due = answers.due(since, row);
        mark_joined(mask_at(table, row), due, there, found);
        link = before_at(table, row);
    }
}

// Past body atom j, its clause's last: marks on the head, which has the variables `there`, of combinations with a row from `since` on.
// Says whether marks result. The set is empty at first, and serves the listing of the answers too.
pub fn last_place<'a>(
    program: &Encoded<'a>,
    table: &[u16],
    heads: &[u16],
    answers: &mut [u16],
    answered: &mut [u16],
    since: usize,
    before: usize,
    j: usize,
    there: u16,
    found: &mut [u16],
) -> bool
    requires { LastAsked program.now.words.now program.now.dir.now table.now heads.now since before j there × (found.old ≡ replicate set_words 0)
        × (length answers.old ≡ max_rows) × KeepsAnswers program.now.words.now program.now.dir.now table.now answered.old before }
    ensures { KeepsAnswers program.now.words.now program.now.dir.now table.now answered.new before
        × ((w : Situation program.now.words.now program.now.dir.now table.now heads.now since before) (b : BodyOf w.p j)
        → Collected (HeadMark w.p table.now since before b.k (suc b.i)) found.old found.new
        × Told (HeadMark w.p table.now since before b.k (suc b.i)) result) }
{
    let standing = Standing {
        program: *program,
        table,
        heads,
        since,
        before,
    };
    let Some(parts) = parts_of(&standing, found, answers, answered, j) else {
        return false;
    };
    let listed = Answers::of(answers, parts.counts);
    mark_conts(table, parts.newest, since, &listed, there, found);
    true
}
