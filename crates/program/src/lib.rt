// The encoded program.
#![tactic(auto)]

mod atoms;
mod cells;
pub mod kind;
pub mod limits;
mod part;
pub mod reply;
pub mod scan;
