//! Operations: a read, and a write whose states are types.
#![tactic(auto)]

mod alone;
mod asking;
mod progress;
mod read;
mod sending;
mod table;

pub use asking::AskingWrite;
pub use progress::{AskingProgress, End, Progress};
pub use read::Read;
pub use sending::SendingWrite;
pub use table::{Operation, Reaction};
