ghost use Rattle.std.specs.Prelude.{◌≡◌};

use crate::pairs::Pairs;
use crate::renewal::{Renewal, Renewed};
use numbers::Version;
use quorum::MemberSet;

/// A message between an operation and a server, or between two servers. It names both its ends.
///
/// A log lies with its caller, and may hold any numbers: a delivery tests those that it uses, and
/// refuses 33 where one is out of range. Where all are in range, the numbers of servers are 0 to 7,
/// those of objects 0 to 15, those of operations 1 to 1,024.
#[derive(Clone, Copy, Debug, PartialEq, Eq)]
pub enum Message {
    /// A write asks an input server for its clock.
    ClockQuestion {
        /// The write.
        operation: u16,
        /// The input server.
        input: u8,
    },
    /// An input server answers a clock question.
    ClockAnswer {
        /// The input server.
        input: u8,
        /// The write that asked.
        operation: u16,
        /// The highest clock of any version that the input server took: 1 to 65,534.
        clock: u16,
    },
    /// A write sends its version and value to an input server.
    WriteRequest {
        /// The write.
        operation: u16,
        /// The input server.
        input: u8,
        /// The object that is written.
        object: u8,
        /// The version that the write got.
        version: Version,
        /// The value that is written.
        value: u64,
    },
    /// An input server answers a write request.
    WriteAnswer {
        /// The input server.
        input: u8,
        /// The write that asked.
        operation: u16,
        /// The output servers that are shut out for the object.
        shut_out: MemberSet,
    },
    /// A read asks an output server for an object.
    ReadRequest {
        /// The read.
        operation: u16,
        /// The output server.
        output: u8,
        /// The object that is read.
        object: u8,
    },
    /// An output server answers a read request.
    ReadAnswer {
        /// The output server.
        output: u8,
        /// The read that asked.
        operation: u16,
        /// The newest version that the output server was given.
        version: Version,
        /// The value of that version.
        value: u64,
    },
    /// An output server asks an input server for a copy, for a lease, or for both.
    RenewalRequest {
        /// The output server.
        output: u8,
        /// The input server.
        input: u8,
        /// What is asked for.
        renewal: Renewal,
    },
    /// An input server answers a renewal request.
    RenewalAnswer {
        /// The input server.
        input: u8,
        /// The output server.
        output: u8,
        /// What the answer brings.
        renewed: Renewed,
    },
    /// An input server tells an output server of a version.
    Invalidation {
        /// The input server.
        input: u8,
        /// The output server.
        output: u8,
        /// The object.
        object: u8,
        /// The version of it that the input server holds.
        version: Version,
    },
    /// An output server acknowledges the versions that an input server told it of.
    InvalidationAnswer {
        /// The output server.
        output: u8,
        /// The input server.
        input: u8,
        /// The versions, with their objects.
        list: Pairs,
    },
}

impl Message {
    ghost use Rattle.rules.specs.Ranges.{named_in};

    /// What stands in a place of a log that no call has written yet: a clock question of operation
    /// 0, which there is not.
    pub const BLANK: Message = Message::ClockQuestion {
        operation: 0,
        input: 0,
    };

    /// The number of the operation that the message names. None of a message between two servers.
    pub fn operation(&self) -> Option<u16>
        ensures { result ≡ named_in self.now }
    {
        match self {
            Message::ClockQuestion { operation, .. }
            | Message::ClockAnswer { operation, .. }
            | Message::WriteRequest { operation, .. }
            | Message::WriteAnswer { operation, .. }
            | Message::ReadRequest { operation, .. }
            | Message::ReadAnswer { operation, .. } => Some(*operation),
            Message::RenewalRequest { .. }
            | Message::RenewalAnswer { .. }
            | Message::Invalidation { .. }
            | Message::InvalidationAnswer { .. } => None,
        }
    }
}

impl Default for Message {
    ghost use Rattle.rules.specs.Calls.{no_message};

    /// A blank place of a log: `Message::BLANK`.
    fn default() -> Message
        ensures { result ≡ no_message }
    {
        Message::BLANK
    }
}
