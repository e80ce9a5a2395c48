//! Input servers: they take writes, keep the newest version of each object, and grant leases.
#![tactic(auto)]

mod acknowledging;
mod queueing;
mod renewing;
mod requests;
mod server;
mod telling;

pub use requests::{RenewalRequest, WriteRequest};
pub use server::InputServer;
