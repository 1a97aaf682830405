// The lines of a listing: those of a shape and of a row.
#![tactic(auto)]

mod letters;
pub mod row_line;
pub mod shape_line;
