// What the servers keep, in plain records. The servers themselves, with their steps, are built from
// these in crates of their own.
use crate::limits::OBJECTS;
use numbers::{Epoch, Time, Version};

/// What an input server keeps of one object.
#[derive(Clone, Copy)]
pub struct Held {
    /// The newest version that it took.
    pub version: Version,
    /// The value of that version.
    pub value: u64,
    /// The highest version that it gave to any output server, or `Version::NONE` where it gave
    /// none.
    pub last_read: Version,
}

/// What an input server keeps of one output server, beside its chain of waiting invalidations.
#[derive(Clone, Copy)]
pub struct Ledger {
    /// For each object the highest version that the output server acknowledged, or `Version::NONE`.
    pub last_acknowledged: [Version; OBJECTS],
    /// The epoch of the output server.
    pub epoch: Epoch,
    /// When its lease ends, on the clock of the input server. It may lie beyond what a clock shows.
    pub lease_end: Time,
}

/// The newest version and value of one object that an output server was given.
#[derive(Clone, Copy)]
pub struct Newest {
    /// The version, or `Version::NONE` where it was given none.
    pub version: Version,
    /// The value of that version.
    pub value: u64,
}

/// What an output server keeps of one object from one input server.
#[derive(Clone, Copy)]
pub struct Copied {
    /// The version that it last accepted, or `Version::NONE`.
    pub got: Version,
    /// The highest version that it was told of, or `Version::NONE`.
    pub known: Version,
    /// The epoch that the copy belongs to, or `Epoch::NONE`.
    pub epoch: Epoch,
}

/// What an output server keeps of one input server.
#[derive(Clone, Copy)]
pub struct Link {
    /// What it keeps of each object.
    pub copies: [Copied; OBJECTS],
    /// The epoch of its lease, or `Epoch::NONE`.
    pub epoch: Epoch,
    /// When its lease ends, on its own clock. It may lie beyond what a clock shows.
    pub lease_end: Time,
}
