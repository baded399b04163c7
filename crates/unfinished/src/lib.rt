// Answers before the end: a solve as a state by value, begun, advanced one round a call, and questioned while unfinished.
#![tactic(auto)]

pub mod advancing;
pub mod asking;
pub mod beginning;
pub mod working;
