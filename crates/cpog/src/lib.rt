// Conditional partial order graphs: what a graph answers, and the order that it has at an opcode.
#![tactic(auto)]

pub mod action;
pub mod graph;
pub mod projection;
pub mod refusal;
