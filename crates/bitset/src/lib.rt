// Tables of node sets: w words of 64 bits a row. Every function says what it leaves by `member`, whether a number is in a row.
#![tactic(auto)]

pub mod rows;
pub mod taking;
pub mod words;
