// What one step of the analysis leans on: two atoms that meet, unifiers that are noted, rows put in their place, and whether a row is new.
#![tactic(auto)]

pub mod meet;
pub mod place;
pub mod since;
pub mod unifiers;
