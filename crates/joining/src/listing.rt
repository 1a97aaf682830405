// The answers to a body atom in a round: the fresh ones, of new solution rows, and then, where a cont row is new, the others.
ghost use Rattle.std.specs.Prelude.{◌≡◌, ◌≤◌, length, take, replicate};
ghost use Rattle.program.specs.Limits.{max_rows};
ghost use Rattle.rows.specs.MaskSet.{set_words};
ghost use Rattle.steps.specs.Situation.{BodyOf};
ghost use Rattle.joining.specs.Standings.{SituationOf};
ghost use Rattle.joining.specs.Answers.{Listing, AnswersAsked};
ghost use Rattle.joining.specs.Joined.{ListedFrom, Lists, BodyAsked};
ghost use Rattle.joining.specs.KeptAnswers.{KeepsFor, KeptAsked};

use crate::answers::{answers_to, forget, settle};
use crate::kept::{ANSWER_ROWS, ANSWER_VARS, keep_answers, recall_answers};
use crate::standing::{Standing, body_order};
use marks::rows::Order;
use rows::keptset::THINGS;
use terms::walk::narrow;

// How many answers are fresh, of new solution rows, and how many there are in all: the list of them is lent words, as there is no heap.
#[derive(Clone, Copy)]
pub struct Counts {
    pub fresh: usize,
    pub all: usize,
}

// The answers of the rows from row `from` on to body atom j, each once: the fresh ones, and then the others.
fn list_since<'a>(
    standing: &Standing<'a>,
    seen: &mut [u16],
    answers: &mut [u16],
    j: usize,
    from: usize,
) -> Counts
    requires { AnswersAsked standing.now seen.old answers.old j from }
    ensures { Listing seen.new answers.new result.all × (result.fresh ≤ result.all)
        × ((w : SituationOf standing.now) (b : BodyOf w.p j)
        → ListedFrom w.p standing.now.table.now b.A from standing.now.since standing.now.before (take result.fresh answers.new) (take result.all answers.new)) }
{
    let sides = answers_to(standing, j, from, seen, answers);
    let all = settle(seen, answers, sides.fresh, sides.older);
    Counts {
        fresh: sides.fresh,
        all,
    }
}

// The answers to body atom j, which are not kept: the fresh ones, and then, where a cont row is new, the others.
fn list_anew<'a>(
    standing: &Standing<'a>,
    seen: &mut [u16],
    answers: &mut [u16],
    j: usize,
    newest: usize,
) -> Counts
    requires { BodyAsked standing.now j × (seen.old ≡ replicate set_words 0) × (length answers.old ≡ max_rows) }
    ensures { (seen.new ≡ replicate set_words 0) × Lists standing.now j newest answers.new result.fresh result.all }
{
    let from = if standing.since < newest {
        0
    } else {
        standing.since
    };
    let counts = list_since(standing, seen, answers, j, from);
    forget(seen, &answers[..counts.all]);
    counts
}

// The answers to body atom j, which are kept: only rows that are not known yet are passed, and where a cont row is new the kept answers are listed behind them.
fn list_kept<'a>(
    standing: &Standing<'a>,
    seen: &mut [u16],
    answers: &mut [u16],
    answered: &mut [u16],
    order: &Order,
    j: usize,
    newest: usize,
) -> Counts
    requires { KeptAsked standing.now order.now.variables order.now.count j × (seen.old ≡ replicate set_words 0) × (length answers.old ≡ max_rows)
        × KeepsFor standing.now answered.old }
    ensures { (seen.new ≡ replicate set_words 0) × Lists standing.now j newest answers.new result.fresh result.all
        × KeepsFor standing.now answered.new }
{
    let at = ANSWER_ROWS + j;
    let known = usize::from(answered[at]).min(standing.since);
    let mut counts = list_since(standing, seen, answers, j, known);
    keep_answers(order, &answers[..counts.all], j, answered);
    answered[at] = narrow(standing.before);
    if standing.since < newest {
        counts.all = recall_answers(order, answered, j, seen, answers, counts.all);
    }
    forget(seen, &answers[..counts.all]);
    counts
}

// The answers to body atom j: the fresh ones, and then, where a cont row is new, the others.
pub fn list_answers<'a>(
    standing: &Standing<'a>,
    seen: &mut [u16],
    answers: &mut [u16],
    answered: &mut [u16],
    j: usize,
    newest: usize,
) -> Counts
    requires { BodyAsked standing.now j × (seen.old ≡ replicate set_words 0) × (length answers.old ≡ max_rows)
        × KeepsFor standing.now answered.old }
    ensures { (seen.new ≡ replicate set_words 0) × Lists standing.now j newest answers.new result.fresh result.all
        × KeepsFor standing.now answered.new }
{
    if j < THINGS {
        let order = body_order(&standing.program, j);
        if order.count <= ANSWER_VARS {
            return list_kept(standing, seen, answers, answered, &order, j, newest);
        }
    }
    list_anew(standing, seen, answers, j, newest)
}
