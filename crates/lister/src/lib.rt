// The listing of a program's table.
#![tactic(auto)]

pub mod list;
mod listing;
