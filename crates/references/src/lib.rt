// Who refers to whom: the nots of a rule, the table of links, and the sets of shapes that refer to others. Sets of shapes are words, shape s
// bit s.
#![tactic(auto)]

pub mod denying;
pub mod links;
pub mod reaching;
pub mod referring;
