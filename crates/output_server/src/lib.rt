//! Output servers: they answer reads from copies of their own, under leases.
#![tactic(auto)]

mod link;
mod reading;
mod server;
mod taking;

pub use server::OutputServer;
