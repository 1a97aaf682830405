// The faults of an encoded program, from left to right.
ghost use Rattle.std.specs.Prelude.{◌≡◌};
ghost use Rattle.program.specs.Reading.{several};
ghost use Rattle.program.specs.Faults.{clause, goal, written, declared, whole, faults, reply_of};
ghost use Rattle.program.specs.Part.{Meets, Ends, Nothing, left};
ghost use Rattle.program.specs.Reply.{scanned};

use crate::atoms::Arities;
use crate::limits::{GROUND_MODE, MAX_ARITY, MAX_BODY, MAX_DECLARED, MAX_WORDS, MIN_PREDICATES};
use crate::part::Place;
use crate::reply::{Fault, Refusal, Reply};

impl Arities<'_> {
    // "a body length m (0 to 16), the head atom, m body atoms"
    #[tactic(auto, unfolding(crate::specs::Faults::clause))]
    fn clause<'a>(self, from: Place<'a>) -> Result<Place<'a>, Fault>
        ensures { Meets from.entry.words.now Ends result
            (clause self.entry.predicates.now self.entry.functions.now (left from.entry)) }
    {
        let (body, head) = from.bounded(Refusal::OutOfRange, 0, MAX_BODY)?;
        let (seen, next) = self.atom(head, 0)?;
        self.atoms(next, body, seen)
    }

    // So many clauses, one after another.
    fn clauses<'a>(self, from: Place<'a>, count: usize) -> Result<Place<'a>, Fault>
        ensures { Meets from.entry.words.now Ends result
            (several (clause self.entry.predicates.now self.entry.functions.now) count (left from.entry)) }
    {
        let mut at = from;
        for _ in 0..count {
            at = self.clause(at)?;
        }
        Ok(at)
    }

    // "one atom, its variable count k, then k modes (0 any, 1 ground)"
    #[tactic(auto, unfolding(crate::specs::Faults::goal))]
    fn goal<'a>(self, from: Place<'a>) -> Result<Place<'a>, Fault>
        ensures { Meets from.entry.words.now Ends result
            (goal self.entry.predicates.now self.entry.functions.now (left from.entry)) }
    {
        let (seen, next) = self.atom(from, 0)?;
        let (k, modes) = next.bounded(Refusal::BadGoal, seen, seen)?;
        modes.several(Refusal::BadGoal, GROUND_MODE, k)
    }

    // The clauses and the goal, behind the declarations, and nothing after them.
    #[tactic(auto, unfolding(crate::specs::Faults::written))]
    fn written(self, from: Place<'_>, count: usize) -> Result<(), Fault>
        ensures { Meets from.entry.words.now Nothing result
            (written self.entry.predicates.now self.entry.functions.now count (left from.entry)) }
    {
        let end = self.goal(self.clauses(from, count)?)?;
        if end.word().is_ok() {
            return Err(end.refused(Refusal::Follows));
        }
        Ok(())
    }
}

// The arities of so many predicates and functions, and what is written with them.
#[tactic(auto, unfolding(crate::specs::Faults::declared))]
fn declared(
    from: Place<'_>,
    predicates: usize,
    functions: usize,
    clauses: usize,
) -> Result<(), Fault>
    ensures { Meets from.entry.words.now Nothing result (declared predicates functions clauses (left from.entry)) }
{
    let middle = from.several(Refusal::OutOfRange, MAX_ARITY, predicates)?;
    let end = middle.several(Refusal::OutOfRange, MAX_ARITY, functions)?;
    let arities = Arities {
        predicates: from.until(middle),
        functions: middle.until(end),
    };
    arities.written(end, clauses)
}

// "predicate count P (1 to 64), function count F (0 to 64), clause count C (0 to 64)", and what follows them
#[tactic(auto, unfolding(crate::specs::Faults::whole))]
fn whole(words: &[u16]) -> Result<(), Fault>
    ensures { Meets words.now Nothing result (whole words.now) }
{
    let first = Place::first(words);
    let (p, second) = first.bounded(Refusal::OutOfRange, MIN_PREDICATES, MAX_DECLARED)?;
    let (f, third) = second.bounded(Refusal::OutOfRange, 0, MAX_DECLARED)?;
    let (c, next) = third.bounded(Refusal::OutOfRange, 0, MAX_DECLARED)?;
    declared(next, p, f, c)
}

// The first fault of an encoded program, if it has one: "The length comes first (8), then faults from left to right".
#[tactic(auto, unfolding(crate::specs::Faults::faults))]
pub fn check(words: &[u16]) -> Result<(), Fault>
    ensures { scanned result ≡ reply_of (faults words.now) }
{
    if MAX_WORDS < words.len() {
        return Err(Fault {
            refusal: Refusal::TooLong,
            place: MAX_WORDS,
        });
    }
    whole(words)
}

// The reply to an encoded program's faults.
pub fn scan(words: &[u16]) -> Reply
    ensures { result ≡ reply_of (faults words.now) }
{
    Reply::from(check(words).map(|()| 0))
}
