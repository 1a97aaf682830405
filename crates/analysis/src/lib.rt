// The analysis: the rows of the rounds put in order and written as the table.
#![tactic(auto)]

pub mod analyse;
pub mod unpack;
