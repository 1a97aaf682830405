// The rows of an analysis in lent words: a table without repeats, chains by slot, sets of masks, and those that are kept between rounds.
#![tactic(auto)]

pub mod chain;
pub mod keptset;
pub mod maskset;
pub mod row;
pub mod store;
pub mod zeros;
