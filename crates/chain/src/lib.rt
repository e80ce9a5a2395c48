//! The invalidations that wait at one input server, in one chain for each output server. The chains
//! share 64 records.
#![tactic(auto)]

mod chains;
mod queued;
mod record;

pub use chains::Chains;
pub use queued::Queued;
