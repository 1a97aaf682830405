// Rule 2: the marks that solution rows pass to a body atom, listed once each, and cont rows together with them.
#![tactic(auto)]

pub mod answers;
pub mod joins;
pub mod kept;
pub mod listing;
pub mod standing;
