// An index of the clauses: one set of clauses for each predicate, of those with a head of it, or with a body atom of it.
ghost use Rattle.std.specs.Prelude.{◌≡◌, ◌<◌, length};
ghost use Rattle.program.specs.Program.{Program};
ghost use Rattle.steps.specs.Situation.{Setting};
ghost use Rattle.concerns.specs.Active.{Entered, HeadsEntered, BodiesEntered, IndexAsked};

use directory::encoded::Encoded;
use directory::layout::{BODY_START, CLAUSE_COUNT, CLAUSE_FIRST, CLAUSE_HEAD};

// For each predicate the set of the clauses with a head of it, and of those with a body atom of it.
#[derive(Drop)]
pub struct Index {
    pub headed: [u64; 64],
    pub bodied: [u64; 64],
}

// Enters clause k for predicate q.
fn enter(set: &mut [u64], q: usize, k: usize)
    requires { (q < length set.old) × (k < 64) }
    ensures { Entered set.old set.new q k }
{
    set[q] |= 1u64 << k;
}

// Each clause, for its head's predicate.
pub fn enter_heads(program: &Encoded, set: &mut [u64])
    requires { IndexAsked program.now.words.now program.now.dir.now × (length set.old ≡ 64) }
    ensures { (p : Program) → Setting program.now.words.now program.now.dir.now p → HeadsEntered p set.new }
{
    let clauses = usize::from(program.dir[CLAUSE_COUNT]);
    for k in 0..clauses {
        let predicate = usize::from(program.words[usize::from(program.dir[CLAUSE_HEAD + k])]);
        enter(set, predicate, k);
    }
}

// Each clause, for the predicates of its body atoms. These stand behind those of the clause before.
pub fn enter_bodies(program: &Encoded, set: &mut [u64])
    requires { IndexAsked program.now.words.now program.now.dir.now × (length set.old ≡ 64) }
    ensures { (p : Program) → Setting program.now.words.now program.now.dir.now p → BodiesEntered p set.new }
{
    let clauses = usize::from(program.dir[CLAUSE_COUNT]);
    let mut first = 0;
    for k in 0..clauses {
        let end = usize::from(program.dir[CLAUSE_FIRST + k + 1]);
        for j in first..end {
            let predicate = usize::from(program.words[usize::from(program.dir[BODY_START + j])]);
            enter(set, predicate, k);
        }
        first = end;
    }
}
