// The graphs that people build.
#![tactic(auto)]

pub mod table;
