// Justifying: 15, the first pair whose level does not stand above a support of lower ones.
#![tactic(auto)]

pub mod digits;
pub mod justification;
pub mod low_levels;
