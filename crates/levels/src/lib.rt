// Levels: the first steps of C(P) and C(T) that have each pair, found by taking the steps one by one.
#![tactic(auto)]

pub mod marks;
pub mod runs;
pub mod steps;
