// The marks on the heads of clauses that are kept between rounds: for heads of so many variables, in so many words each.
use rows::keptset::THINGS;

pub const KEPT_VARS: usize = 9;

pub const KEPT_SET: usize = 32;

// Behind the sets, for each clause, of how many rows they are the result.
pub const KEPT_ROWS: usize = KEPT_SET * THINGS;

pub const KEPT_WORDS: usize = KEPT_ROWS + THINGS;
