use crate::pairs::Pairs;
use crate::parts::Parts;
use numbers::{Epoch, Time, Version};

/// What an output server asks an input server for. The answer repeats it whole.
///
/// As a message carries it, with any numbers; `InRange<Renewal>` is one whose numbers were tested.
#[derive(Clone, Copy, Debug, PartialEq, Eq)]
pub struct Renewal {
    /// When the output server asked, on its own clock.
    pub stamp: Time,
    /// The number of the object: 0 to 15. It is carried where only the volume is asked for, too.
    pub object: u8,
    /// The object, a lease on the volume, or both.
    pub parts: Parts,
}

/// What an input server answers to a renewal request.
///
/// Version and value belong to the object part, length and list to the volume part. What belongs to
/// a part that was not asked for is 0, and the list empty.
// The widest first, so that no room is lost between two of them.
#[derive(Clone, Copy, Debug, PartialEq, Eq)]
pub struct Renewed {
    /// The value of `version`.
    pub value: u64,
    /// What was asked for.
    pub renewal: Renewal,
    /// The version of the object that the input server holds.
    pub version: Version,
    /// The epoch of the output server at the input server.
    pub epoch: Epoch,
    /// How long the lease lasts, in microseconds: 0 where none is granted.
    pub length: u32,
    /// The first of the invalidations that wait for the output server.
    pub list: Pairs,
}
