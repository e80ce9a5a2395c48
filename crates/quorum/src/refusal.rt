ghost use Rattle.std.specs.Prelude.{◌≡◌, Some};
ghost use Rattle.quorum.specs.Refusals.{number_of, text_of};

use std::error::Error;
use std::fmt;

/// Why a call refuses. A refusal alters nothing. Outside it is known by its number, and prints its
/// text.
#[derive(Clone, Copy, Debug, PartialEq, Eq)]
pub enum Refusal {
    /// Opening a field that is open.
    AlreadyOpen = 1,
    /// A system of more than 8 members on a side of a field.
    TooManyMembers = 2,
    /// A count of objects outside 1 to 16.
    ObjectCount = 3,
    /// A lease length outside 1 to 1,000,000,000.
    LeaseLength = 4,
    /// A drift above 999.
    DriftRange = 5,
    /// Not one start clock for each server, or one above 2^40.
    StartClocks = 6,
    /// A log outside 9 to 65,535 messages, or a table outside 1 to 1,024 operations.
    Lengths = 7,
    /// A call before the field is open.
    NotOpen = 8,
    /// The length of log or table, or a member count, is not the one at opening.
    NotAsOpened = 9,
    /// A system of no members, or of more than 64.
    MemberCount = 10,
    /// Not one increment for each server.
    IncrementCount = 11,
    /// A clock would pass 2^40.
    PastLastTime = 12,
    /// Two increments break the drift.
    DriftBroken = 13,
    /// An object number at or above the count.
    NoSuchObject = 21,
    /// No place left in the table.
    TableFull = 22,
    /// Fewer than 9 messages free when an operation begins.
    NoRoomToBegin = 23,
    /// Message number 0, or one not yet made.
    NoSuchMessage = 31,
    /// Fewer than 9 messages free when a message is delivered.
    NoRoomToDeliver = 32,
    /// A number of the message, or of the operation that it names, is out of range.
    OutOfRange = 33,
}

impl Refusal {
    /// The number by which a refusal is known outside, as `docs/RULES.md` lists them.
    pub fn number(self) -> u8
        ensures { result ≡ number_of self }
    {
        self as u8
    }
}

impl fmt::Display for Refusal {
    ghost output = { λ r. Some (text_of r) };

    fn fmt<W: fmt::Write>(&self, f: &mut fmt::Formatter<W>) -> fmt::Result {
        f.write_str(match self {
            Refusal::AlreadyOpen => "the field is open already",
            Refusal::TooManyMembers => "a quorum system has more than 8 members",
            Refusal::ObjectCount => "there are 1 to 16 objects",
            Refusal::LeaseLength => "a lease lasts 1 to 1,000,000,000 microseconds",
            Refusal::DriftRange => "a drift is at most 999 thousandths",
            Refusal::StartClocks => "each server starts with a clock of at most 2^40",
            Refusal::Lengths => "a log has 9 to 65,535 places, and a table 1 to 1,024",
            Refusal::NotOpen => "the field is not open",
            Refusal::NotAsOpened => "log, table or systems are not those of the opening",
            Refusal::MemberCount => "a quorum system has 1 to 64 members",
            Refusal::IncrementCount => "an advance has one increment for each server",
            Refusal::PastLastTime => "a clock would pass 2^40",
            Refusal::DriftBroken => "two increments break the drift",
            Refusal::NoSuchObject => "there is no such object",
            Refusal::TableFull => "the table has no place left",
            Refusal::NoRoomToBegin => "fewer than 9 places of the log are free to begin",
            Refusal::NoSuchMessage => "there is no such message",
            Refusal::NoRoomToDeliver => "fewer than 9 places of the log are free to deliver",
            Refusal::OutOfRange => "a number of the message, or of its operation, is out of range",
        })
    }
}

impl Error for Refusal {}
