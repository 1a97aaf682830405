// Marks on masks of variables, and marks passed through what unification leaves.
#![tactic(auto)]

pub mod bits;
pub mod pass;
pub mod rows;
pub mod variables;
