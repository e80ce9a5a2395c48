use numbers::Version;

/// What a delivery says: whether an operation ended with it, and how.
// No Option of an end: which kind of operation ended is part of the answer, and a caller who
// matches it has the fields by name.
#[derive(Clone, Copy, Debug, PartialEq, Eq)]
pub enum Delivery {
    /// No operation ended.
    NothingEnded,
    /// A write ended.
    WriteEnded {
        /// Its number: 1 to 1,024.
        operation: u16,
        /// The version that it got.
        version: Version,
        /// The value that it wrote.
        value: u64,
    },
    /// A read ended.
    ReadEnded {
        /// Its number: 1 to 1,024.
        operation: u16,
        /// The highest version that it was answered.
        version: Version,
        /// The value of that version.
        value: u64,
    },
}
