// Questions about whole graphs: what can come of a run, at one opcode and at all of them.
#![tactic(auto)]

pub mod check;
pub mod formed;
pub mod outcome;

// Every opcode is below this.
pub const OPCODES: u16 = 256;
