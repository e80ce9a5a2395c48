use input_server::InputServer;
use numbers::{Drift, LeaseLength};
use output_server::OutputServer;
use rules::{Counts, SERVERS};

// What an open field keeps. That its numbers are in range is an invariant of the field around it:
// a call changes one after the other, and all are in range when it ends. A step asks for those
// that it needs.
#[derive(Drop)]
pub(crate) struct OpenField {
    // what opening fixes
    pub(crate) counts: Counts,
    pub(crate) lease: LeaseLength,
    pub(crate) drift: Drift,
    pub(crate) log_len: usize,
    pub(crate) table_len: usize,
    // messages made, operations begun: the log and the table that they count lie with the caller
    pub(crate) made: usize,
    pub(crate) begun: u16,
    // both sides, each server at the place of its number; eight whatever the count, as the rules
    // have them
    pub(crate) inputs: [InputServer; SERVERS],
    pub(crate) outputs: [OutputServer; SERVERS],
}
