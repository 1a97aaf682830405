// A shape and an atom of the words: whether they unify, and the sets of their unifier. The sets are lent beside the answer: an Option of them would copy
// them for each pair that unifies.
ghost use Rattle.std.specs.Prelude.{◌≡◌, ◌+◌, ◌-◌, ◌≤◌, ◌<◌, length, get_or};
ghost use Rattle.terms.specs.Mask.{Marks};
ghost use Rattle.terms.specs.Term.{Term};
ghost use Rattle.marks.specs.Modes.{InOrder};
ghost use Rattle.program.specs.Shapes.{number};
ghost use Rattle.steps.specs.Parts.{shape_run, ShapeIn, PairOf};
ghost use Rattle.steps.specs.Situation.{Meeting, Unifying, Met, MetStore, MetBindings, AnAtom, AtomRun};

use directory::encoded::{Encoded, Span};
use directory::layout::{
    CLAUSES_START, FUNCTIONS_START, PREDICATES_START, SHAPE_CELLS, SHAPE_START,
};
use marks::rows::Order;
use terms::unifier::{Atoms, NO_PLACE};
use terms::walk::{FIRST_VARIABLE, has, only};

// The cells of a shape, in the directory.
fn shape_run<'a>(dir: &'a [u16], shape: usize) -> &'a [u16]
    requires { ShapeIn dir.now shape }
    ensures { result.now ≡ shape_run dir.now shape }
{
    let from = SHAPE_CELLS + usize::from(dir[SHAPE_START + shape]);
    let to = SHAPE_CELLS + usize::from(dir[SHAPE_START + shape + 1]);
    &dir[from..to]
}

// A shape and an atom to be unified, and the arities of the program's predicates.
#[derive(Clone, Copy)]
struct Pair<'a> {
    atoms: Atoms<'a, 'a>,
    predicates: &'a [u16],
}

// The shape is the first atom, the atom at so many words from the start on the second.
fn pair_of<'a>(program: &Encoded<'a>, shape: usize, atom: Span) -> Pair<'a>
    requires { Meeting program.now.words.now program.now.dir.now shape atom.start atom.cells }
    ensures { PairOf program.now.words.now program.now.dir.now shape atom.start atom.cells result.atoms.a.now result.atoms.b.now result.predicates.now result.atoms.functions.now }
{
    let functions = usize::from(program.dir[FUNCTIONS_START]);
    let clauses = usize::from(program.dir[CLAUSES_START]);
    Pair {
        atoms: Atoms {
            a: shape_run(program.dir, shape),
            b: &program.words[atom.start..atom.start + atom.cells],
            functions: &program.words[functions..clauses],
        },
        predicates: &program.words[PREDICATES_START..functions],
    }
}

// The whole store that is left of a shape and an atom.
pub fn meet_store<'a>(
    program: &Encoded<'a>,
    shape: usize,
    atom: Span,
    places: &mut [u8; 32],
    sets: &mut [u32; 32],
) -> bool
    requires { Meeting program.now.words.now program.now.dir.now shape atom.start atom.cells }
    ensures { (m : Meeting program.now.words.now program.now.dir.now shape atom.start atom.cells)
        → MetStore m.p.functions m.S m.A result places.new sets.new }
{
    let both = pair_of(program, shape, atom);
    both.atoms.unify(both.predicates, places, sets)
}

// The sets alone.
pub fn meet<'a>(program: &Encoded<'a>, shape: usize, atom: Span, sets: &mut [u32; 32]) -> bool
    requires { Meeting program.now.words.now program.now.dir.now shape atom.start atom.cells }
    ensures { (m : Meeting program.now.words.now program.now.dir.now shape atom.start atom.cells) → Met m.S m.A result sets.new }
{
    let mut places = [NO_PLACE; 32];
    meet_store(program, shape, atom, &mut places, sets)
}

// They have met before: the sets are made from the bindings.
pub fn meet_stored<'a>(
    program: &Encoded<'a>,
    shape: usize,
    atom: Span,
    places: &[u8; 32],
    sets: &mut [u32; 32],
)
    requires { Meeting program.now.words.now program.now.dir.now shape atom.start atom.cells
        × ((m : Meeting program.now.words.now program.now.dir.now shape atom.start atom.cells) → MetBindings m.p.functions m.S m.A places.now) }
    ensures { (m : Meeting program.now.words.now program.now.dir.now shape atom.start atom.cells) → Unifying m.S m.A sets.new }
{
    pair_of(program, shape, atom).atoms.sets_of(places, sets);
}

// The marks of the first so many variables.
pub fn first_variables(count: usize) -> u16
    requires { count ≤ 16 }
    ensures { (result < 65536) × Marks (λ v. v < count) result }
{
    ((1u32 << count) - 1) as u16
}

// The variables of an atom by first appearance.
pub fn order_of(atom: &[u16]) -> Order
    requires { AnAtom atom.now }
    ensures { (result.count ≤ 16) × ((A : Term) → AtomRun atom.now A → InOrder A (number A) result.variables result.count) }
{
    let mut met = 0u32;
    let mut variables = [0u8; 16];
    let mut count = 0;
    for cell in atom {
        if FIRST_VARIABLE <= *cell {
            let v = usize::from(*cell - FIRST_VARIABLE);
            if !has(met, v) {
                met |= only(v);
                variables[count] = v as u8;
                count += 1;
            }
        }
    }
    Order { variables, count }
}
