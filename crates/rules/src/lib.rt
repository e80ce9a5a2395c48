//! The messages of a field, what its servers keep, and what it is lent; in `specs/` the rules of
//! the whole field as definitions.
#![tactic(auto)]

mod counts;
mod delivery;
mod in_range;
mod kept;
mod limits;
mod log;
mod message;
mod pairs;
mod parts;
mod renewal;
#[cfg(test)]
mod tests;

pub use counts::{Between, Counts};
pub use delivery::Delivery;
pub use in_range::{InRange, Ranged};
pub use kept::{Copied, Held, Ledger, Link, Newest};
pub use limits::{MOST_MESSAGES, MOST_OPERATIONS, MOST_PAIRS, OBJECTS, SERVERS, STEP_MESSAGES};
pub use log::{Log, has_room};
pub use message::Message;
pub use pairs::{Pair, Pairs};
pub use parts::Parts;
pub use renewal::{Renewal, Renewed};
