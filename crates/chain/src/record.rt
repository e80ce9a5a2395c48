ghost use Rattle.std.specs.Prelude.{◌≡◌, ◌==◌};

use numbers::Version;
use rules::Pair;

/// How many records the chains of one input server share: at most 255, since a record's number is a
/// byte.
pub const RECORDS: usize = 64;

/// Records are numbered from 1, and this number ends a chain.
pub const END: u8 = 0;

/// One waiting invalidation, and the number of the record after it.
// With the version first, a record takes eight bytes.
#[derive(Clone, Copy)]
pub struct Record {
    /// The version that is to be told.
    pub version: Version,
    /// The object.
    pub object: u8,
    /// The number of the record after it, or `END`.
    pub next: u8,
}

/// A record's number, and the pair in it.
#[derive(Clone, Copy)]
pub struct Entry {
    /// The number of the record, from 1 on.
    pub slot: u8,
    /// The pair in it.
    pub pair: Pair,
}

impl Entry {
    // Whether it waits for that object.
    pub(crate) fn names(self, object: u8) -> bool
        ensures { result ≡ (self.pair.object == object) }
    {
        self.pair.object == object
    }
}
