// The rounds: the mode rules on what is new since the last one, until a round adds no row.
#![tactic(auto)]

pub mod rounds;
