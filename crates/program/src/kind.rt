// The kinds of rows of a table.

// "kind (1 call, 2 cont, 3 solution)"
#[derive(Clone, Copy, PartialEq, Eq)]
pub enum Kind {
    Call = 1,
    Cont,
    Solution,
}
