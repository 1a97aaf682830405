// What a sound line comes to.
use cells::state::Counts;

// How many words, and how many bytes of names.
#[derive(Clone, Copy)]
pub struct Sizes {
    pub words: usize,
    pub names: usize,
}

#[derive(Clone, Copy)]
pub enum Lined {
    More(Counts),
    // The query was read.
    Last(Sizes),
}
