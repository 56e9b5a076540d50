// The printed record of a procedure: what can come of it at each opcode.
#![tactic(auto)]

pub mod failure;
pub mod names;
pub mod record;
