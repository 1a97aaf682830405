// Two atoms unified, and what each of their variables stands for.
ghost use Rattle.std.specs.Prelude.{◌≤◌, ◌<◌};
ghost use Rattle.terms.specs.Cells.{Run};
ghost use Rattle.terms.specs.Store.{cells_at};
ghost use Rattle.unify_main.specs.AtomRun.{AtomRun, WholeBindings};

use crate::atom::is_atom;
use crate::letters::{put_run, put_set, put_variable};
use std::io;
use terms::unifier::{Atoms, FIRST_VARIABLES, NO_PLACE, SECOND_ATOM};
use terms::walk::{has, present};

// Predicate n has n arguments.
const PREDICATES: [u16; 9] = [0, 1, 2, 3, 4, 5, 6, 7, 8];
// The arities of `a` to `t`: `f` and `g` have two arguments, `h` to `k` three to six, `l` and `m` seven, `o` eight, `s` and `t` one.
const FUNCTIONS: [u16; 20] = [0, 0, 0, 0, 0, 2, 2, 3, 4, 5, 6, 7, 7, 0, 8, 0, 0, 0, 1, 1];

// Two atoms that were unified, and the store that is left.
#[derive(Clone, Copy)]
struct Unified<'a> {
    atoms: Atoms<'a, 'a>,
    places: &'a [u8; 32],
    sets: &'a [u32; 32],
}

impl<'a> Unified<'a> {
    // What a variable is bound to: "the run of cells itself, in the call's atom or in the clause's atom".
    fn put_binding(&self, rt: &impl Print, place: usize) -> io::Result<()>
        requires { (Run self.now.atoms.functions.now (cells_at self.now.atoms.a.now self.now.atoms.b.now place) 1) × (place < 128) }
    {
        let run = self.atoms.resolve(place);
        if place < SECOND_ATOM {
            put_run(rt, run, 0)
        } else {
            put_run(rt, run, FIRST_VARIABLES)
        }
    }

    // One line for each variable that is present in the atom whose variables begin at `base`.
    fn put_variables(&self, rt: &impl Print, variables: u32, base: usize) -> io::Result<()>
        requires { WholeBindings self.now.atoms.functions.now self.now.atoms.a.now self.now.atoms.b.now self.now.places.now × (base ≤ 16) }
    {
        for v in 0..FIRST_VARIABLES {
            if has(variables, v) {
                let x = base + v;
                rt.write_all(b"\t")?;
                put_variable(rt, x)?;
                rt.write_all(b"\t")?;
                let place = self.places[x];
                if place < NO_PLACE {
                    self.put_binding(rt, usize::from(place))?;
                } else {
                    rt.write_all(b"-")?;
                }
                rt.write_all(b"\t")?;
                put_set(rt, self.sets[x])?;
            }
        }
        Ok(())
    }
}

// Two atoms unified: `apart`, or what each variable of both stands for.
fn put_unifier(rt: &impl Print, atoms: Atoms<'_, '_>, predicates: &[u16]) -> io::Result<()>
    requires { (AtomRun predicates.now atoms.functions.now atoms.a.now) × (AtomRun predicates.now atoms.functions.now atoms.b.now) }
{
    let mut places = [0u8; 32];
    let mut sets = [0u32; 32];
    if !atoms.unify(predicates, &mut places, &mut sets) {
        return rt.write_all(b"\tapart\n");
    }
    rt.write_all(b"\tunified\n")?;
    let first = present(&atoms.a[1..]);
    let second = present(&atoms.b[1..]);
    let unified = Unified {
        atoms,
        places: &places,
        sets: &sets,
    };
    unified.put_variables(rt, first, 0)?;
    unified.put_variables(rt, second, FIRST_VARIABLES)
}

// Two runs of cells: only atoms are unified.
pub fn answer<'a>(rt: &impl Print, a: &'a [u16], b: &'a [u16]) -> io::Result<()> {
    if !is_atom(a, &PREDICATES, &FUNCTIONS) {
        return rt.write_all(b"\tfirst is no atom\n");
    }
    if !is_atom(b, &PREDICATES, &FUNCTIONS) {
        return rt.write_all(b"\tsecond is no atom\n");
    }
    let atoms = Atoms {
        a,
        b,
        functions: &FUNCTIONS,
    };
    put_unifier(rt, atoms, &PREDICATES)
}
