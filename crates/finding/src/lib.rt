// Finding: what stands where a command should start, a command with the shapes that it names or a refusal.
#![tactic(auto)]

pub mod commands;
pub mod noting;
