// Where each part of a directory begins.

pub const BODY_COUNT: usize = 0;

pub const CLAUSE_COUNT: usize = 1;

pub const FUNCTIONS_START: usize = 2;

pub const CLAUSES_START: usize = 3;

pub const GOAL_START: usize = 4;

pub const GOAL_CELLS: usize = 5;

pub const GOAL_GROUND: usize = 6;

pub const CLAUSE_HEAD: usize = 8;

pub const CLAUSE_CELLS: usize = 72;

pub const CLAUSE_FIRST: usize = 136;

pub const CLAUSE_VARS: usize = 201;

pub const BODY_START: usize = 265;

pub const BODY_CELLS: usize = 1289;

pub const BODY_LIST: usize = 2313;

pub const BODY_SHAPE: usize = 3337;

pub const SHAPE_COUNT: usize = 4361;

pub const SHAPE_START: usize = 4362;

pub const SHAPE_VARS: usize = 5388;

pub const PREDICATE_SHAPE: usize = 6413;

pub const SHAPE_NEXT: usize = 6477;

pub const SHAPE_CELLS: usize = 7502;

// The shapes have at most so many cells.
const MAX_SHAPE_CELLS: usize = 2048;

pub const DIR_WORDS: usize = SHAPE_CELLS + MAX_SHAPE_CELLS;

pub const PREDICATES_START: usize = 3;

// The goal and 64 bodies of 16 atoms have at most so many shapes.
pub const MAX_SHAPES: usize = 1025;
