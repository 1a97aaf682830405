// A clause in a round: the combinations with a row of the last round, place by place, and its end.
#![tactic(auto)]

pub mod clauses;
mod emptied;
pub mod ending;
mod kept;
mod wide;
pub mod workspace;
