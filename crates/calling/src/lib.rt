// Rule 1: the marks that call rows pass to a clause's head, and the rows that these give.
#![tactic(auto)]

pub mod calls;
