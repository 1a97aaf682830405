// The lines of a scenario text, by their keywords: clauses and the query, and declarations among them.
#![tactic(auto)]

mod atoms;
mod keyword;
pub mod line;
