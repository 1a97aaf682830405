// Cells, walks, substitutions and unifiers: the only crate that knows how unification works.
#![tactic(auto)]

pub mod bytes;
pub mod cursor;
pub mod noted;
pub mod sets;
pub mod unifier;
pub mod walk;
