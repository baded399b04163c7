// A case: the numbers and commands that it is made of, its format, its counts, the table of rows that holds it, and what reading answers.
// Definitions of document 01's section "A case, command by command" and of reading are in specs/; the crate reader reads by them.
#![tactic(auto)]

pub mod answers;
pub mod command;
pub mod counts;
pub mod few;
pub mod format;
pub mod heads;
pub mod numbers;
pub mod paths;
pub mod refusals;
pub mod rows;
pub mod ruled;
pub mod shape_operands;
