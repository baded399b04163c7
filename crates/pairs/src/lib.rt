// Pairs in tables: a set of pairs is a table of words, row s the nodes of shape s; values by pair and verdicts by target are bytes. Either is made
// from the other here, and counted.
#![tactic(auto)]

pub mod answering;
pub mod places;
pub mod tallies;
pub mod thresholds;
pub mod writing;
