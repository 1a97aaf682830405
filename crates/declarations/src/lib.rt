// Declaration lines, and what the answer for a line is.
#![tactic(auto)]

pub mod declaration;
mod declare;
mod fields;
pub mod lined;
mod symbol;
