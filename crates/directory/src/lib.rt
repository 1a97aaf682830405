// The directory of an accepted program: where everything stands. Its parts but the shapes are filled here.
#![tactic(auto)]

pub mod encoded;
mod goal;
pub mod layout;
pub mod lists;
pub mod numbers;
pub mod places;
pub mod placing;
