// The lists of the places: "the variables occurring both in the head or body atoms 1 to i-1, and in body atoms i to m or the head".
ghost use Rattle.std.specs.Prelude.{◌≡◌, ℕ, ◌+◌, ◌<◌, length};
ghost use Rattle.terms.specs.Term.{Term, Occ};
ghost use Rattle.terms.specs.Mask.{Marks};
ghost use Rattle.program.specs.Program.{Nth, Clause, bodies};
ghost use Rattle.directory.specs.Said.{said, Accepted};
ghost use Rattle.directory.specs.Directory.{StandsAt};
ghost use Rattle.directory.specs.Walked.{Placed};
ghost use Rattle.directory.specs.Lists.{VariablesAt, Later, ListedFrom, Lists};

use crate::encoded::{Encoded, Span};
use crate::layout::{
    BODY_CELLS, BODY_LIST, BODY_START, CLAUSE_CELLS, CLAUSE_COUNT, CLAUSE_FIRST, CLAUSE_HEAD,
};
use terms::walk::present;

// The variables of the atom that stands at a place, as a mask.
fn variables(words: &[u16], atom: Span) -> u16
    requires { VariablesAt words.now atom.start atom.cells }
    ensures { (a : VariablesAt words.now atom.start atom.cells) → Marks (λ v. Occ v a.atom) result }
{
    let end = atom.start + atom.cells;
    present(&words[atom.start..end]) as u16
}

// The variables of the head of clause k.
fn head_variables(program: &Encoded, k: usize) -> u16
    requires { (Accepted program.now.words.now) × (Placed program.now.words.now (said program.now.words.now) program.now.dir.now) × (k < length (said program.now.words.now).clauses) }
    ensures { (c : Clause) → Nth (said program.now.words.now).clauses k c → Marks (λ v. Occ v c.head) result }
{
    let head = Span {
        start: usize::from(program.dir[CLAUSE_HEAD + k]),
        cells: usize::from(program.dir[CLAUSE_CELLS + k]),
    };
    variables(program.words, head)
}

// The variables of body atom j.
fn body_variables(program: &Encoded, j: usize) -> u16
    requires { (Accepted program.now.words.now) × (Placed program.now.words.now (said program.now.words.now) program.now.dir.now) × (j < length (bodies (said program.now.words.now).clauses)) }
    ensures { (A : Term) → Nth (bodies (said program.now.words.now).clauses) j A → Marks (λ v. Occ v A) result }
{
    let atom = Span {
        start: usize::from(program.dir[BODY_START + j]),
        cells: usize::from(program.dir[BODY_CELLS + j]),
    };
    variables(program.words, atom)
}

// For each place of clause k the variables of "body atoms i to m or the head", from the last place to the first.
fn later(words: &[u16], dir: &mut [u16], k: usize)
    requires { (Accepted words.now) × (Placed words.now (said words.now) dir.old) × (k < length (said words.now).clauses) }
    ensures { (c : Clause) → Nth (said words.now).clauses k c → Later (said words.now) k c dir.old dir.new 0 }
{
    let first = usize::from(dir[CLAUSE_FIRST + k]);
    let next = k + 1;
    let end = usize::from(dir[CLAUSE_FIRST + next]);
    let mut mask = head_variables(&Encoded { words, dir }, k);
    for j in (first..end).rev() {
        mask |= body_variables(&Encoded { words, dir }, j);
        dir[BODY_LIST + j] = mask;
    }
}

// Of these, those in "the head or body atoms 1 to i-1": the lists of clause k.
fn earlier(words: &[u16], dir: &mut [u16], k: usize)
    requires { (Accepted words.now) × (Placed words.now (said words.now) dir.old) × (k < length (said words.now).clauses) × ((c : Clause) → Nth (said words.now).clauses k c → Later (said words.now) k c dir.old dir.old 0) }
    ensures { (c : Clause) → Nth (said words.now).clauses k c → ListedFrom (said words.now) k c dir.old dir.new (length c.body) }
{
    let first = usize::from(dir[CLAUSE_FIRST + k]);
    let next = k + 1;
    let end = usize::from(dir[CLAUSE_FIRST + next]);
    let mut mask = head_variables(&Encoded { words, dir }, k);
    for j in first..end {
        dir[BODY_LIST + j] &= mask;
        mask |= body_variables(&Encoded { words, dir }, j);
    }
}

// The lists of all places.
pub fn lists(words: &[u16], dir: &mut [u16])
    requires { (Accepted words.now) × (Placed words.now (said words.now) dir.old) }
    ensures { Lists (said words.now) dir.old dir.new (length (said words.now).clauses) }
{
    let count = usize::from(dir[CLAUSE_COUNT]);
    for k in 0..count {
        later(words, dir, k);
        earlier(words, dir, k);
    }
}
