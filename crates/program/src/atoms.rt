// Atoms in the words: each read cell by cell, the variables met going from atom to atom.
ghost use Rattle.program.specs.Atoms.{terms, atom, atoms};
ghost use Rattle.program.specs.Part.{Meets, Met, Ends, left};

use crate::cells::take;
use crate::part::Place;
use crate::reply::{Fault, Refusal};

// The arities of the predicates and of the functions, by number.
#[derive(Clone, Copy)]
pub struct Arities<'a> {
    pub predicates: &'a [u16],
    pub functions: &'a [u16],
}

// So many terms, behind the first cell of an atom.
fn terms<'a>(
    from: Place<'a>,
    functions: &[u16],
    asked: u16,
    seen: usize,
) -> Result<(usize, Place<'a>), Fault>
    ensures { Meets from.entry.words.now Met result (terms functions.now (left from.entry) asked 1 seen) }
{
    let mut at = from;
    let mut left = usize::from(asked);
    let mut taken = 1;
    let mut known = seen;
    // Each cell that is taken asks for terms of its own, so how many are left is not known before.
    while 0 < left {
        let (opened, next) = take(at, functions, taken, known)?;
        at = next;
        left = usize::from(opened.arity) + (left - 1);
        taken += 1;
        known = opened.met;
    }
    Ok((known, at))
}

impl Arities<'_> {
    // "a predicate number below P, then its argument terms"
    #[tactic(auto, unfolding(crate::specs::Atoms::atom))]
    pub fn atom<'a>(self, from: Place<'a>, seen: usize) -> Result<(usize, Place<'a>), Fault>
        ensures { Meets from.entry.words.now Met result
            (atom self.entry.predicates.now self.entry.functions.now seen (left from.entry)) }
    {
        let (p, next) = from.word()?;
        let arity = self.predicates.get(usize::from(p));
        let arity = *arity.ok_or(from.refused(Refusal::Undeclared))?;
        terms(next, self.functions, arity, seen)
    }

    // So many atoms, one after another.
    pub fn atoms<'a>(self, from: Place<'a>, count: usize, seen: usize) -> Result<Place<'a>, Fault>
        ensures { Meets from.entry.words.now Ends result
            (atoms self.entry.predicates.now self.entry.functions.now count seen (left from.entry)) }
    {
        let mut at = from;
        let mut known = seen;
        for _ in 0..count {
            let (met, next) = self.atom(at, known)?;
            known = met;
            at = next;
        }
        Ok(at)
    }
}
