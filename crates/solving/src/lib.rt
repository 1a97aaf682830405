// Rule 3: marks on a clause's head, passed to every call row whose shape unifies with it.
#![tactic(auto)]

pub mod solve;
