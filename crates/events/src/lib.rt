// The events that touch only the status words: the two starts, a change noted, and INIT.

#![tactic(auto)]

mod changes;
mod starts;

pub use changes::note_change;
pub use starts::{init, instruction_start, interrupt_start};
