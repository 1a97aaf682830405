// What is printed for a scenario text: the listing of its mode table, or why it is refused.
#![tactic(auto)]

pub mod print;
