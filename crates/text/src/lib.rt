// Tokens, names, numbers and lines of scenario texts.
#![tactic(auto)]

pub mod bytes;
pub mod cut;
pub mod name;
pub mod put;
pub mod token;
