// Which clauses a new row concerns, by an index of the clauses by predicate: a round looks only at these.
#![tactic(auto)]

pub mod active;
pub mod bodies;
pub mod index;
pub mod slot;
