// The sets of a store, of each variable the variables of what it stands for, made again once unification is over.
ghost use Rattle.terms.specs.Term.{Term};
ghost use Rattle.terms.specs.Unified.{Unified, Bindings, StoreOf};

use crate::unifier::{ALONE, Atoms, NO_PLACE, replace};

impl Atoms<'_, '_> {
    // The sets of a store that unification left, made from its bindings alone: nothing is compared. Every set that has a bound variable loses it and gains
    // the set of what it is bound to; the order of the variables does not matter.
    pub fn sets_of(&self, places: &[u8; 32], sets: &mut [u32; 32])
        requires { StoreOf self.now.functions.now self.now.a.now self.now.b.now places.now }
        ensures { (A B : Term) → Bindings self.now.functions.now self.now.a.now self.now.b.now A B places.now
            → Unified self.now.functions.now self.now.a.now self.now.b.now A B places.now sets.new }
    {
        *sets = ALONE;
        for (x, place) in places.iter().enumerate() {
            if *place < NO_PLACE {
                let gained = self.set_at(usize::from(*place), sets);
                replace(sets, x, gained);
            }
        }
    }
}
