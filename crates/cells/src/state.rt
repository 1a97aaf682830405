// How far a text and a line were read, in numbers; the lists stand in lent room.
ghost use Rattle.std.specs.Prelude.{◌+◌, ◌^◌, ◌<◌, length};

// A line, and the place in the text where it begins.
#[derive(Clone, Copy)]
pub struct Line<'a> {
    pub bytes: &'a [u8],
    pub place: usize,
    ghost short: { place + length bytes.now < 2 ^ 31 },
}

// The symbols and clauses so far, and the next word.
// Not in the symbols' room, nor limited by their type: `LinedAs` promises them in the answer for a line, and `read_cells` its cells after any number of clauses.
#[derive(Clone, Copy)]
pub struct Counts {
    pub predicates: usize,
    pub functions: usize,
    pub clauses: usize,
    pub words: usize,
}

// The room that the reader works in: of the symbols' names, the hashes of these, and how many arguments each symbol takes.
#[derive(Drop)]
pub struct SymbolRoom {
    pub names: [u8; 2048],
    pub hashes: [u32; 128],
    pub arities: [u16; 128],
}

// The line so far, and the next word.
// That the numbers grow with the words is said by clauses: `after_symbol` and `after_variable` of the definitions make a progress of any numbers.
#[derive(Clone, Copy)]
pub struct Progress {
    pub wanted: usize,
    pub cells: usize,
    pub atoms: usize,
    pub variables: usize,
    pub words: usize,
}
