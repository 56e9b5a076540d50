// The searches at one opcode: for a cycle, and for two events that clash.
#![tactic(auto)]

pub mod clash;
pub mod cycle;
