// Reading: bytes to a case in a table of rows, or to a refusal with its number and place. The crate finding finds each command.
#![tactic(auto)]

pub mod reading;
pub mod storing;
