// The field: opening, advancing, beginning, delivering.
#![tactic(auto)]

mod advancing;
mod beginning;
mod calls;
mod delivering;
mod field;
mod getters;
mod lending;
mod logging;
mod making;
mod message_checks;
mod open_field;
mod opening;
mod servers;
mod to_operations;
mod to_servers;

pub use field::Field;
pub use opening::Opening;

// The types of the calls and the two built-in systems, so that one `use` of this crate is enough
// to run a field.
pub use numbers::Time;
pub use operation::Operation;
pub use quorum::{Majority, QuorumSystem, ReadOneWriteAll, Refusal, Systems};
pub use rules::{Delivery, Message};
