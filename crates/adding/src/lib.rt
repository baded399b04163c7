// Links to add: up to 12 candidate edges, and the fewest of them that make a target sure. `slicing` leaves out the shapes that the target does
// not depend on, `touching` says which paths no candidate touches; both are asked once. `asked` is what is the same for every selection. Of each,
// `choosing` makes the rows of the case with the chosen edges, and `deciding` the target's verdict there.
#![tactic(auto)]

pub mod asked;
pub mod candidates;
pub mod choosing;
pub mod deciding;
pub mod fewest;
pub mod searching;
pub mod slicing;
pub mod touching;
