// The lines of a scenario text, written token by token.
#![tactic(auto)]

pub mod atoms;
pub mod lines;
pub mod symbols;
mod tokens;
pub mod walked;
