// From an encoded program with names to scenario text.
#![tactic(auto)]

pub mod names;
pub mod write;
