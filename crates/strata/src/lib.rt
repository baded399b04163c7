// Ranking the shapes of a case: whether one depends on its own denial, and else each shape's stratum.
#![tactic(auto)]

pub mod denial;
pub mod ranks;
pub mod steps;
