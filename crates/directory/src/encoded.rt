// An encoded program, its words with the arities that they declare, and a part of them.

// An encoded program: its words, and the directory that says where everything stands in them. What fills a directory takes the words beside it, since an `Encoded` only reads both.
#[derive(Clone, Copy)]
pub struct Encoded<'a> {
    pub words: &'a [u16],
    pub dir: &'a [u16],
}

// The words of a program, and the arities that they declare for its predicates and functions, by which the atoms in them are read.
#[derive(Clone, Copy)]
pub struct Declared<'a> {
    pub words: &'a [u16],
    pub predicates: &'a [u16],
    pub functions: &'a [u16],
}

// Where an atom stands in the words: its first cell, and how many cells it has.
#[derive(Clone, Copy)]
pub struct Span {
    pub start: usize,
    pub cells: usize,
}
