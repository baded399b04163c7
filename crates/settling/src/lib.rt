// Solving a case for its sets: which pairs are valid and which possible, at rest, with levels, or after one round; and one pair alone, for as many
// rounds as it takes to settle it. What solving works by is made here, in the small table or the wide one.
#![tactic(auto)]

pub mod deciding;
pub mod tasks;
