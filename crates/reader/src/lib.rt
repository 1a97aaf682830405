// From scenario text to an encoded program with names.
#![tactic(auto)]

mod all_lines;
pub mod read;
