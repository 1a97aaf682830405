// What the rounds work in beside the table.
use ends::keep::KEPT_WORDS;
use joining::kept::ANSWER_WORDS;
use program::limits::MAX_ROWS;
use rows::maskset::SET_WORDS;
use rows::row::BUCKETS;

// The buckets that the table's rows are found through, a list of answers, a set of marks, and the marks and the answers that are kept between rounds. Beside
// it are lent the heads of the rows' chains, since a round only reads them, and the notes of unifiers, since `Room` asks for no one length.
#[derive(Drop)]
pub struct Workspace {
    pub buckets: [u16; BUCKETS],
    pub answers: [u16; MAX_ROWS],
    pub found: [u16; SET_WORDS],
    pub kept: [u16; KEPT_WORDS],
    pub answered: [u16; ANSWER_WORDS],
}
