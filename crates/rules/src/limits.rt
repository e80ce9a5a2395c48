// How far a field goes, and what it is lent.
use numbers::{InputIndex, Kind, ObjectIndex};

/// The most servers of a side. Both sides have the same limit.
pub const SERVERS: usize = InputIndex::LIMIT as usize;

/// The most objects.
pub const OBJECTS: usize = ObjectIndex::LIMIT as usize;

/// The most messages that a step makes, and so the free places of a log that each step asks for.
pub const STEP_MESSAGES: usize = 9;

/// The most messages of a log.
pub const MOST_MESSAGES: usize = 65_535;

/// The most operations of a table.
pub const MOST_OPERATIONS: u16 = 1_024;

/// The most pairs that a list shows.
pub const MOST_PAIRS: usize = 8;
