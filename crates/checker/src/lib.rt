// Checking a proposal under either code: 13 and 14 of `support`, 15 of `justifying`, in one order, and the answer.
#![tactic(auto)]

pub mod checking;
