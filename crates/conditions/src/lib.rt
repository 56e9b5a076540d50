// The conditions of a procedure: text to nodes, and the value of a node at an opcode.
#![tactic(auto)]

pub mod conditions;
mod nodes;
mod source;
#[cfg(test)]
mod tests;
pub mod variables;

// The most bytes of a text.
pub const LONGEST: usize = 64;

// How deep a text may nest.
pub const DEEPEST: usize = 12;

// The most nodes that stay stored.
pub const MOST_NODES: usize = 2048;
