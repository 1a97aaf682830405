// A clause's head in a round: the marks on it, the calls to it, and the marks that are kept between rounds.
#![tactic(auto)]

pub mod ends;
pub mod heads;
pub mod keep;
