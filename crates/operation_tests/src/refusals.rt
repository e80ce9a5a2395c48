// What is refused, and which refusal comes first.
// Tests that read alike differ in their values, which is what each is for.
use crate::handing::{Heard, clock, last_of, named, pair, sending, write};
use numbers::Version;
use operation::{AskingWrite, Operation, Read};
use rules::Message;
use std::process::Abort;
use std::test::Fail;

const OUT_OF_RANGE: Heard = Heard::Refused(33);

// What comes of one message, by three input servers that go by majority and two output servers that
// go by read-one write-all.
fn one(rt: &impl Abort, state: Operation, message: Message, heard: Heard) -> Result<(), Fail> {
    assert_eq!(rt; last_of(state, &[message], 3, 2)?, heard);
    Ok(())
}

// The same by other numbers of servers.
fn among(
    rt: &impl Abort,
    inputs: u8,
    outputs: u8,
    state: Operation,
    message: Message,
    heard: Heard,
) -> Result<(), Fail> {
    assert_eq!(rt; last_of(state, &[message], inputs, outputs)?, heard);
    Ok(())
}

#[test]
fn eight_servers_on_a_side(rt: HostRuntime) -> Result<(), Fail> {
    among(&rt, 8, 8, write(7), clock(0, 7, 4), Heard::Nothing)?;
    among(&rt, 9, 8, write(7), clock(0, 7, 4), Heard::Refused(2))?;
    among(&rt, 8, 9, write(7), clock(0, 7, 4), Heard::Refused(2))
}

// Beside a clock, a server, an operation and a state that would be refused as well.
#[test]
fn too_many_servers_before_all_else(rt: HostRuntime) -> Result<(), Fail> {
    among(&rt, 9, 2, write(7), clock(0, 7, 0), Heard::Refused(2))?;
    among(&rt, 9, 2, write(7), clock(9, 7, 4), Heard::Refused(2))?;
    among(&rt, 3, 64, write(0), clock(0, 0, 4), Heard::Refused(2))?;
    among(&rt, 3, 9, sending()?, named(0, 8, 0b01), Heard::Refused(2))?;
    let read = Operation::Reading(Read::new(7, 16));
    among(
        &rt,
        3,
        9,
        read,
        pair(0, 7, Version::STARTING, 1),
        Heard::Refused(2),
    )
}

#[test]
fn operations_are_numbered_1_to_1024(rt: HostRuntime) -> Result<(), Fail> {
    one(&rt, write(0), clock(0, 0, 4), OUT_OF_RANGE)?;
    one(&rt, write(1), clock(0, 1, 4), Heard::Nothing)?;
    one(&rt, write(1024), clock(0, 1024, 4), Heard::Nothing)?;
    one(&rt, write(1025), clock(0, 1025, 4), OUT_OF_RANGE)
}

fn to_object(object: u8) -> Operation {
    Operation::Asking(AskingWrite::new(7, object, 500))
}

#[test]
fn objects_are_numbered_0_to_15(rt: HostRuntime) -> Result<(), Fail> {
    one(&rt, to_object(0), clock(0, 7, 4), Heard::Nothing)?;
    one(&rt, to_object(15), clock(0, 7, 4), Heard::Nothing)?;
    one(&rt, to_object(16), clock(0, 7, 4), OUT_OF_RANGE)
}

#[test]
fn clocks_are_answered_from_1_to_65534(rt: HostRuntime) -> Result<(), Fail> {
    one(&rt, write(7), clock(0, 7, 0), OUT_OF_RANGE)?;
    one(&rt, write(7), clock(0, 7, 1), Heard::Nothing)?;
    one(&rt, write(7), clock(0, 7, 65_534), Heard::Nothing)?;
    one(&rt, write(7), clock(0, 7, 65_535), OUT_OF_RANGE)
}

// Each kind of message that names an operation, naming that one.
fn naming(operation: u16) -> [Message; 6] {
    [
        Message::ClockQuestion {
            operation,
            input: 0,
        },
        clock(0, operation, 4),
        Message::WriteRequest {
            operation,
            input: 0,
            object: 3,
            version: Version::STARTING,
            value: 1,
        },
        named(0, operation, 0b01),
        Message::ReadRequest {
            operation,
            output: 0,
            object: 3,
        },
        pair(0, operation, Version::STARTING, 1),
    ]
}

fn each_is(rt: &impl Abort, messages: [Message; 6], heard: Heard) -> Result<(), Fail> {
    for message in messages {
        one(rt, write(7), message, heard)?;
    }
    Ok(())
}

#[test]
fn another_operation_is_refused(rt: HostRuntime) -> Result<(), Fail> {
    each_is(&rt, naming(7), Heard::Nothing)?;
    each_is(&rt, naming(6), OUT_OF_RANGE)?;
    each_is(&rt, naming(8), OUT_OF_RANGE)
}

#[test]
fn a_refusal_changes_nothing(rt: HostRuntime) -> Result<(), Fail> {
    let messages = [
        clock(0, 7, 4),
        clock(1, 7, 65_535),
        clock(1, 8, 50),
        clock(2, 7, 9),
    ];
    assert_eq!(rt;
        last_of(write(7), &messages, 3, 2)?,
        Heard::Sends(Version(655_367))
    );
    let messages = [
        named(0, 7, 0b01),
        named(1, 8, 0b11),
        named(1, 7, 0b100),
        named(2, 7, 0b11),
    ];
    assert_eq!(rt; last_of(sending()?, &messages, 3, 2)?, Heard::Nothing);
    Ok(())
}

fn invalidation(object: u8) -> Message {
    Message::Invalidation {
        input: 2,
        output: 1,
        object,
        version: Version::STARTING,
    }
}

// They name no operation, so it does not matter whose state they reach.
#[test]
fn messages_between_servers_are_only_held_to_their_ranges(rt: HostRuntime) -> Result<(), Fail> {
    one(&rt, write(7), invalidation(15), Heard::Nothing)?;
    one(&rt, write(0), invalidation(15), Heard::Nothing)?;
    one(&rt, sending()?, invalidation(15), Heard::Nothing)?;
    one(&rt, write(7), invalidation(16), OUT_OF_RANGE)
}
