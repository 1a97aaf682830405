// The mode table: rules, rounds, the least set.
#![tactic(auto)]
