// The judge's entry points: solving, checking, also under the old code, ranking and totals by fitting, one equation each (reading is `reader::reading::read`).
#![tactic(auto)]

pub mod checking;
pub mod ranking;
pub mod solving;
pub mod supporting;
pub mod totalling;
