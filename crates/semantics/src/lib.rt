// What a case means: the values of a pair, what the calls answer, and the state of an unfinished solve. Definitions in specs/, laws in proofs/.
#![tactic(auto)]

pub mod answers;
pub mod ongoing;
pub mod refusals;
pub mod value;
