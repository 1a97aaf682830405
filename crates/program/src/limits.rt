// The limits of an encoded program, of a text and of a table.

pub const MAX_WORDS: usize = 2048;

pub const MAX_BYTES: usize = 40960;

pub const MIN_PREDICATES: usize = 1;

pub const MAX_DECLARED: usize = 64;

pub const MAX_ARITY: usize = 8;

pub const MAX_BODY: usize = 16;

pub const MAX_VARIABLE: usize = 15;

pub const ATOM_CELLS: usize = 32;

pub const GROUND_MODE: usize = 1;

pub const MAX_ROWS: usize = 4096;

pub const ROW_SIZE: usize = 5;

// A table of so many words has room for every row.
pub const TABLE_WORDS: usize = ROW_SIZE * MAX_ROWS;
