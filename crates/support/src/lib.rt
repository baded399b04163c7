// Refusals 13 and 14: whether the bytes of a proposal are values, and whether each pair has its rule's value.
#![tactic(auto)]

pub mod proposing;
pub mod rule_values;
