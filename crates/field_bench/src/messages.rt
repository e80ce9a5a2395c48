// Messages, and ends of operations, in short.
use numbers::{Epoch, Time, Version};
use quorum::MemberSet;
use rules::{Delivery, Message, Pair, Pairs, Parts, Renewal, Renewed};

/// An operation asks an input server for its clock.
pub fn clock_question(operation: u16, input: u8) -> Message {
    Message::ClockQuestion { operation, input }
}

/// An input server answers with its clock.
pub fn clock_answer(input: u8, operation: u16, clock: u16) -> Message {
    Message::ClockAnswer {
        input,
        operation,
        clock,
    }
}

/// A write asks an input server to take its version and value.
pub fn write_request(
    operation: u16,
    input: u8,
    object: u8,
    version: Version,
    value: u64,
) -> Message {
    Message::WriteRequest {
        operation,
        input,
        object,
        version,
        value,
    }
}

/// An input server answers with the output servers that it shuts out, member i being bit i.
pub fn write_answer(input: u8, operation: u16, shut_out: u64) -> Message {
    Message::WriteAnswer {
        input,
        operation,
        shut_out: MemberSet(shut_out),
    }
}

/// A read asks an output server for an object.
pub fn read_request(operation: u16, output: u8, object: u8) -> Message {
    Message::ReadRequest {
        operation,
        output,
        object,
    }
}

/// An output server answers with its version and value.
pub fn read_answer(output: u8, operation: u16, version: Version, value: u64) -> Message {
    Message::ReadAnswer {
        output,
        operation,
        version,
        value,
    }
}

/// An output server asks an input server for these parts, at that time in microseconds.
pub fn renewal_request(output: u8, input: u8, parts: Parts, object: u8, stamp: u64) -> Message {
    Message::RenewalRequest {
        output,
        input,
        renewal: Renewal {
            parts,
            object,
            stamp: Time(stamp),
        },
    }
}

/// What an input server grants with a renewal answer: all that it carries but its ends and its
/// object.
#[derive(Clone, Copy)]
pub struct Grant {
    pub parts: Parts,
    pub version: Version,
    pub value: u64,
    pub epoch: u32,
    pub stamp: u64,
    pub length: u32,
    pub list: Pairs,
}

impl Grant {
    /// Of both parts, asked for at 0, in the first epoch, with a lease of 1,000 and nothing
    /// waiting.
    pub fn of_both(version: Version, value: u64) -> Grant {
        Grant {
            parts: Parts::Both,
            version,
            value,
            epoch: 1,
            stamp: 0,
            length: 1_000,
            list: Pairs::empty(),
        }
    }

    /// Of the object alone.
    pub fn of_object(version: Version, value: u64) -> Grant {
        Grant {
            parts: Parts::Object,
            length: 0,
            ..Grant::of_both(version, value)
        }
    }

    /// Of the volume alone, with that list.
    pub fn of_volume(list: Pairs) -> Grant {
        Grant {
            parts: Parts::Volume,
            list,
            ..Grant::of_both(Version::NONE, 0)
        }
    }

    /// The message from an input server to an output server, about an object.
    pub fn answer(self, input: u8, output: u8, object: u8) -> Message {
        let renewal = Renewal {
            parts: self.parts,
            object,
            stamp: Time(self.stamp),
        };
        let renewed = Renewed {
            renewal,
            version: self.version,
            value: self.value,
            epoch: Epoch(self.epoch),
            length: self.length,
            list: self.list,
        };
        Message::RenewalAnswer {
            input,
            output,
            renewed,
        }
    }
}

/// An input server tells an output server that its copy is behind a version.
pub fn invalidation(input: u8, output: u8, object: u8, version: Version) -> Message {
    Message::Invalidation {
        input,
        output,
        object,
        version,
    }
}

/// An output server acknowledges a list.
pub fn invalidation_answer(output: u8, input: u8, list: Pairs) -> Message {
    Message::InvalidationAnswer {
        output,
        input,
        list,
    }
}

/// Each kind of message that names an operation, naming that one.
pub fn naming(operation: u16) -> [Message; 6] {
    [
        clock_question(operation, 0),
        clock_answer(0, operation, 1),
        write_request(operation, 0, 0, Version::STARTING, 0),
        write_answer(0, operation, 0),
        read_request(operation, 0, 0),
        read_answer(0, operation, Version::STARTING, 0),
    ]
}

/// A list of one pair.
pub fn list_of(object: u8, version: Version) -> Pairs {
    Pairs::one(Pair { object, version })
}

/// The same pair in each place of a list, of which so many count.
pub fn counted(count: u8, object: u8, version: Version) -> Pairs {
    Pairs {
        count,
        items: [Pair { object, version }; 8],
    }
}

/// A write has ended.
pub fn write_ended(operation: u16, version: Version, value: u64) -> Delivery {
    Delivery::WriteEnded {
        operation,
        version,
        value,
    }
}

/// A read has ended.
pub fn read_ended(operation: u16, version: Version, value: u64) -> Delivery {
    Delivery::ReadEnded {
        operation,
        version,
        value,
    }
}
