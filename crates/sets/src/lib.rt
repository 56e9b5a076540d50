// Sets of events and relations between events, as words of 32 bits.
#![tactic(auto)]

pub mod events;
pub mod relation;
pub mod word;
