// A walk that writes as it goes.

// The place in the words behind what was read, and the place in the text behind what was written.
#[derive(Clone, Copy)]
pub struct Walked {
    pub at: usize,
    pub end: usize,
}
