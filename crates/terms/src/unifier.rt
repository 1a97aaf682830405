// Unification of two atoms over the cells where they stand, with one store of bindings and the occurs check.
ghost use Rattle.std.specs.Prelude.{◌≡◌, ◌↔◌, ℕ, ◌+◌, ◌-◌, ◌≤◌, ◌<◌, length, get_or, take};
ghost use Rattle.terms.specs.Term.{var, nil, cons};
ghost use Rattle.terms.specs.Cells.{Run};
ghost use Rattle.terms.specs.Mask.{Has};
ghost use Rattle.terms.specs.Walk.{cells_of, InSets};
ghost use Rattle.terms.specs.Store.{cells_at, terms_at, variable_at, first_term};
ghost use Rattle.terms.specs.Unified.{BothAtoms, Unification};
ghost use Rattle.terms.specs.Unifying.{look_at, CellAt, base_of, Bindable, Comparable, Compared, Outcome, AllReplaced};

use crate::walk::{FIRST_VARIABLE, has, only, terms_end, union_of};

// Places below this are in the first atom, the others in the second.
pub const SECOND_ATOM: usize = 64;
// Places from here on are no place: the variable is unbound. A place is a byte and no option, since `Unified` and `Coded` speak of it as one.
pub const NO_PLACE: u8 = 128;
// How many variables two atoms have, and how many of them are the first's.
pub const VARIABLES: usize = 32;

pub const FIRST_VARIABLES: usize = 16;

// At first every variable is unbound, and stands for itself.
pub const ALONE: [u32; 32] = [
    1, 2, 4, 8, 16, 32, 64, 128, 256, 512, 1024, 2048, 4096, 8192, 16384, 32768, 65536, 131072,
    262144, 524288, 1048576, 2097152, 4194304, 8388608, 16777216, 33554432, 67108864, 134217728,
    268435456, 536870912, 1073741824, 2147483648,
];

// What is found at a place.
#[derive(Clone, Copy)]
pub enum Look {
    Unbound(usize),
    Bound(usize),
    Function(u16),
}

// The number in the store of the variable whose cell stands at a place: "the two atoms' variables kept apart".
fn variable_at(cell: u16, place: usize) -> usize
    requires { (32768 ≤ cell) × (cell < 32784) }
    ensures { (result ≡ variable_at place cell) × (result < 32) }
{
    let v = usize::from(cell - FIRST_VARIABLE);
    if place < SECOND_ATOM {
        return v;
    }
    FIRST_VARIABLES + v
}

// Where the variables of the atom at a place begin in the store.
fn base_of(place: usize) -> usize
    ensures { (result ≡ base_of place) × (result ≤ 16) }
{
    if place < SECOND_ATOM {
        return 0;
    }
    FIRST_VARIABLES
}

// Every set that has x loses it and gains the other set.
pub fn replace(sets: &mut [u32; 32], x: usize, gained: u32)
    requires { (x < 32) × (length sets.old ≡ 32) }
    ensures { AllReplaced x gained sets.old sets.new }
{
    let bit = only(x);
    // A set without x is stored too, so that the loop has no branch.
    for set in sets.iter_mut() {
        *set = if has(*set, x) {
            (*set - bit) | gained
        } else {
            *set
        };
    }
}

// The cells of two atoms, and the arities of the functions in them. The store is no part of it: its places and its sets are two arrays that the
// callers of `unify` lend, and `Unification` names both.
#[derive(Clone, Copy)]
pub struct Atoms<'a, 'f> {
    pub a: &'a [u16],
    pub b: &'a [u16],
    pub functions: &'f [u16],
}

impl<'a, 'f> Atoms<'a, 'f> {
    // The cell at a place.
    fn cell_at(&self, place: usize) -> u16
        requires { 0 < length (cells_at self.now.a.now self.now.b.now place) }
        ensures { result ≡ get_or (cells_at self.now.a.now self.now.b.now place) 0 0 }
    {
        if place < SECOND_ATOM {
            return self.a[place];
        }
        self.b[place - SECOND_ATOM]
    }

    fn look_at(&self, places: &[u8; 32], place: usize) -> Look
        requires { CellAt self.now.a.now self.now.b.now place }
        ensures { result ≡ look_at self.now.a.now self.now.b.now places.now place }
    {
        let cell = self.cell_at(place);
        if cell < FIRST_VARIABLE {
            return Look::Function(cell);
        }
        let x = variable_at(cell, place);
        let bound_to = places[x];
        if bound_to < NO_PLACE {
            Look::Bound(usize::from(bound_to))
        } else {
            Look::Unbound(x)
        }
    }

    // The cells from a place on.
    fn cells_from(&self, place: usize) -> &'a [u16]
        requires { 0 < length (cells_at self.now.a.now self.now.b.now place) }
        ensures { result.now ≡ cells_at self.now.a.now self.now.b.now place }
    {
        if place < SECOND_ATOM {
            return &self.a[place..];
        }
        &self.b[place - SECOND_ATOM..]
    }

    // What a binding stands for as written: "the run of cells itself, in the call's atom or in the clause's atom".
    pub fn resolve(&self, place: usize) -> &'a [u16]
        requires { (Run self.now.functions.now (cells_at self.now.a.now self.now.b.now place) 1) × (place < 128) }
        ensures { result.now ≡ take (cells_of self.now.functions.now (cells_at self.now.a.now self.now.b.now place) 1)
            (cells_at self.now.a.now self.now.b.now place) }
    {
        let run = self.cells_from(place);
        &run[..terms_end(run, self.functions, 1)]
    }

    // The set of what the term at a place stands for: a variable's own, or the union of those of the term's variables.
    pub fn set_at(&self, place: usize, sets: &[u32; 32]) -> u32
        requires { (Run self.now.functions.now (cells_at self.now.a.now self.now.b.now place) 1) × (place < 128) × (length self.now.a.now ≤ 32) }
        ensures { (z : ℕ) → Has result z ↔ InSets (take (cells_of self.now.functions.now (cells_at self.now.a.now self.now.b.now place) 1)
            (cells_at self.now.a.now self.now.b.now place)) (base_of place) sets.now z }
    {
        let cell = self.cell_at(place);
        if FIRST_VARIABLE <= cell {
            return sets[variable_at(cell, place)];
        }
        union_of(self.resolve(place), base_of(place), sets)
    }

    // Binds the unbound variable x to the term at a place; false where x occurs in what that stands for.
    fn bind(&self, x: usize, place: usize, places: &mut [u8; 32], sets: &mut [u32; 32]) -> bool
        requires { Bindable self.now.functions.now self.now.a.now self.now.b.now places.old sets.old x place }
        ensures { Outcome self.now.functions.now self.now.a.now self.now.b.now places.old sets.old
            (cons (var x) nil) (cons (first_term (terms_at self.now.functions.now self.now.a.now self.now.b.now place)) nil)
            result places.new sets.new }
    {
        let gained = self.set_at(place, sets);
        if has(gained, x) {
            return false;
        }
        replace(sets, x, gained);
        places[x] = place as u8;
        true
    }

    // Where the next term stands behind the one at a place: a variable is one cell.
    fn after(&self, place: usize) -> usize
        requires { (Run self.now.functions.now (cells_at self.now.a.now self.now.b.now place) 1) × (place < 128)
            × (length (cells_at self.now.a.now self.now.b.now place) ≤ 32) }
        ensures { result ≡ place + cells_of self.now.functions.now (cells_at self.now.a.now self.now.b.now place) 1 }
    {
        if FIRST_VARIABLE <= self.cell_at(place) {
            return place + 1;
        }
        place + self.resolve(place).len()
    }

    // The terms at two places, both followed to an unbound variable or a function: "Two terms are compared through their arguments".
    #[cycle(unify_term_unify_terms)]
    fn unify_term(&self, s: usize, t: usize, places: &mut [u8; 32], sets: &mut [u32; 32]) -> bool
        requires { Comparable self.now.functions.now self.now.a.now self.now.b.now places.old sets.old s t 1 }
        ensures { Compared self.now.functions.now self.now.a.now self.now.b.now places.old sets.old s t 1 result places.new sets.new }
    {
        match (self.look_at(places, s), self.look_at(places, t)) {
            (Look::Bound(p), _) => self.unify_term(p, t, places, sets),
            (Look::Unbound(_), Look::Bound(q)) => self.unify_term(s, q, places, sets),
            (Look::Function(_), Look::Bound(q)) => self.unify_term(s, q, places, sets),
            (Look::Unbound(x), Look::Unbound(y)) => x == y || self.bind(x, t, places, sets),
            (Look::Unbound(x), Look::Function(_)) => self.bind(x, t, places, sets),
            (Look::Function(_), Look::Unbound(y)) => self.bind(y, s, places, sets),
            (Look::Function(f), Look::Function(g)) => {
                if f != g {
                    return false;
                }
                let arity = usize::from(self.functions[usize::from(f)]);
                self.unify_terms(s + 1, t + 1, arity, places, sets)
            }
        }
    }

    // The first n terms at two places, pair by pair in prefix order as written: "and argument runs through their terms".
    #[cycle(unify_term_unify_terms)]
    fn unify_terms(
        &self,
        s: usize,
        t: usize,
        n: usize,
        places: &mut [u8; 32],
        sets: &mut [u32; 32],
    ) -> bool
        requires { Comparable self.now.functions.now self.now.a.now self.now.b.now places.old sets.old s t n }
        ensures { Compared self.now.functions.now self.now.a.now self.now.b.now places.old sets.old s t n result places.new sets.new }
    {
        let mut first = s;
        let mut second = t;
        for _ in 0..n {
            if !self.unify_term(first, second, places, sets) {
                return false;
            }
            first = self.after(first);
            second = self.after(second);
        }
        true
    }

    // A most general unifier of the two atoms, or false where they are apart: "with the occurs check, the two atoms' variables kept apart".
    // The answer stands beside the lent store, and is no option, as `Unification` has it.
    pub fn unify(&self, predicates: &[u16], places: &mut [u8; 32], sets: &mut [u32; 32]) -> bool
        requires { BothAtoms predicates.now self.now.functions.now self.now.a.now self.now.b.now }
        ensures { Unification predicates.now self.now.functions.now self.now.a.now self.now.b.now result places.new sets.new }
    {
        *places = [NO_PLACE; 32];
        *sets = ALONE;
        let predicate = self.a[0];
        if predicate != self.b[0] {
            return false;
        }
        let arity = usize::from(predicates[usize::from(predicate)]);
        self.unify_terms(1, SECOND_ATOM + 1, arity, places, sets)
    }
}
