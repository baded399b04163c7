// The demands as theorems about the definitions of the entry points, bytes in and bytes out, and the starred samples of the scope.
// This crate has no functions, and nothing of the code's is in it: by the equations of the entry points the theorems are promises of
// read, solve, check and rank.
#![tactic(auto)]
