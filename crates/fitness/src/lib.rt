// Fitness: whether one command, an edge to be parked and what the input begins with are fit, and the number of what is not. The definitions of
// this are those of `cases`.
#![tactic(auto)]

pub mod faults;
pub mod heading;
pub mod parking;
pub mod shapes;
