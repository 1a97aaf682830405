// The marks that solutions pass to a body atom, each once: those of new solution rows first, and then those of older ones alone.
ghost use Rattle.std.specs.Prelude.{◌≡◌, replicate};
ghost use Rattle.program.specs.Limits.{max_rows};
ghost use Rattle.rows.specs.MaskSet.{set_words};
ghost use Rattle.steps.specs.Situation.{BodyOf};
ghost use Rattle.joining.specs.Standings.{SituationOf};
ghost use Rattle.joining.specs.Answers.{SetOf, Found, Stands, Parted, AnswersAsked, SettleAsked};
ghost use Rattle.joining.specs.AnswerSteps.{Sided, ShapeAsked, GivenFrom, MetAsked, GivenWith};

use crate::standing::{Standing, body_span};
use directory::encoded::Span;
use directory::layout::{PREDICATE_SHAPE, SHAPE_NEXT, SHAPE_VARS};
use marks::pass::pass_on;
use marks::variables::variables_of;
use program::limits::MAX_ROWS;
use rows::maskset::insert;
use rows::row::{before_at, mask_at};
use steps::meet::{first_variables, meet};
use steps::place::SOLUTIONS;

// The fresh answers, of new solution rows, stand before place `fresh`, those of older rows from place `older` on.
// The list and the set of those seen are lent words: with no heap there are no collections that know how many they have.
// They go beside this struct: with a `&mut` in it each contract would have to say too that it still lends the same words.
#[derive(Drop)]
pub struct Sides {
    pub fresh: usize,
    pub older: usize,
}

// How marks pass from a shape to the atom: on the sets of their unifier, from the variables of the one to those of the other.
#[derive(Clone, Copy)]
struct Passage<'a> {
    sets: &'a [u32; 32],
    here: u16,
    there: u16,
}

// Of the solution rows of one shape from row `from` on: the marks that they pass to the atom.
// Those of the new rows go to the front, each once, those of the older ones to the back, as they come.
fn of_shape<'a, 'b>(
    standing: &Standing<'a>,
    newest: usize,
    passage: &Passage<'b>,
    from: usize,
    seen: &mut [u16],
    answers: &mut [u16],
    mut sides: Sides,
) -> Sides
    requires { ShapeAsked standing.now.table.now seen.old answers.old newest from standing.now.since sides.fresh sides.older }
    ensures { (w : ShapeAsked standing.now.table.now seen.old answers.old newest from standing.now.since sides.fresh sides.older)
        → Sided (GivenFrom w.p w.A w.k w.s w.rows standing.now.table.now passage.now.sets.now passage.now.here passage.now.there from 0) standing.now.since w.rows
        seen.new answers.new result.fresh result.older }
{
    let mut link = newest;
    // The rows of a slot are linked in the lent table: with no heap no list of them can be made to go over.
    while from < link {
        let row = link - 1;
        let mask = pass_on(
            passage.sets,
            0,
            mask_at(standing.table, row),
            passage.here,
            16,
            0,
            passage.there,
        );
        if row < standing.since {
            sides.older -= 1;
            answers[sides.older] = mask;
        } else if insert(seen, mask) {
            answers[sides.fresh] = mask;
            sides.fresh += 1;
        }
        link = before_at(standing.table, row);
    }
    sides
}

// Of the solution rows of shape s, where it unifies with the atom.
fn of_met<'a>(
    standing: &Standing<'a>,
    s: usize,
    newest: usize,
    atom: Span,
    there: u16,
    from: usize,
    seen: &mut [u16],
    answers: &mut [u16],
    sides: Sides,
) -> Sides
    requires { MetAsked standing.now.program.words.now standing.now.program.dir.now standing.now.table.now seen.old answers.old s newest atom.start atom.cells there from standing.now.since sides.fresh sides.older }
    ensures { (w : MetAsked standing.now.program.words.now standing.now.program.dir.now standing.now.table.now seen.old answers.old s newest atom.start atom.cells there from standing.now.since sides.fresh sides.older)
        → Sided (GivenWith w.meeting.p w.meeting.A w.k s w.rows standing.now.table.now from) standing.now.since w.rows
        seen.new answers.new result.fresh result.older }
{
    let mut sets = [0u32; 32];
    if meet(&standing.program, s, atom, &mut sets) {
        let here = first_variables(usize::from(standing.program.dir[SHAPE_VARS + s]));
        let passage = Passage {
            sets: &sets,
            here,
            there,
        };
        return of_shape(standing, newest, &passage, from, seen, answers, sides);
    }
    sides
}

// Of all solution rows from row `from` on whose shape unifies with body atom j: each shape meets the atom once.
pub fn answers_to<'a>(
    standing: &Standing<'a>,
    j: usize,
    from: usize,
    seen: &mut [u16],
    answers: &mut [u16],
) -> Sides
    requires { AnswersAsked standing.now seen.old answers.old j from }
    ensures { (w : SituationOf standing.now) (b : BodyOf w.p j)
        → Parted w.p standing.now.table.now b.A from standing.now.since standing.now.before seen.new answers.new result.fresh result.older }
{
    let dir = standing.program.dir;
    let words = standing.program.words;
    let atom = body_span(&standing.program, j);
    let end = atom.start + atom.cells;
    let next = atom.start + 1;
    let there = variables_of(&words[next..end]);
    let mut sides = Sides {
        fresh: 0,
        older: MAX_ROWS,
    };
    let mut link = usize::from(dir[PREDICATE_SHAPE + usize::from(words[atom.start])]);
    // The shapes of a predicate are linked in the directory: with no heap no list of them can be made to go over.
    while 0 < link {
        let s = link - 1;
        let newest = usize::from(standing.heads[SOLUTIONS + s]);
        if from < newest {
            sides = of_met(standing, s, newest, atom, there, from, seen, answers, sides);
        }
        link = usize::from(dir[SHAPE_NEXT + s]);
    }
    sides
}

// The answers from place `older` on are listed behind the fresh ones, each that is not seen yet: one for each place at most, so none that is still to be read is lost.
pub fn settle(seen: &mut [u16], answers: &mut [u16], fresh: usize, older: usize) -> usize
    requires { SettleAsked seen.old answers.old fresh older }
    ensures { Found (Stands answers.old older max_rows) seen.new answers.new fresh result answers.old }
{
    let mut all = fresh;
    // By places: an iterator over the list would keep it lent while it is written.
    for i in older..MAX_ROWS {
        let mask = answers[i];
        if insert(seen, mask) {
            answers[all] = mask;
            all += 1;
        }
    }
    all
}

// Takes the answers out of the set of those seen.
pub fn forget(seen: &mut [u16], answers: &[u16])
    requires { SetOf seen.old answers.now }
    ensures { seen.new ≡ replicate set_words 0 }
{
    for &answer in answers {
        seen[usize::from(answer) / 16] = 0;
    }
}
