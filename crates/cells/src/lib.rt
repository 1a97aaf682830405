// The cells of a clause or query line, each token read against what is declared.
#![tactic(auto)]

pub mod cells;
mod look;
pub mod state;
