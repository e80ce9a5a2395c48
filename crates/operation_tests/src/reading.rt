// Reads, from three output servers by majority.
use crate::handing::{Heard, clock, last, named, pair};
use numbers::Version;
use operation::{Operation, Read};
use quorum::{Majority, ReadOneWriteAll, Systems};
use rules::{Delivery, Message};
use std::process::Abort;
use std::test::Fail;

const FIRST: Version = Version(65_536);

const HIGHER: Version = Version(131_079);

// What comes of the last answer to operation 5, a read of object 3.
fn reading(rt: &impl Abort, messages: &[Message], heard: Heard) -> Result<(), Fail> {
    let read = Operation::Reading(Read::new(5, 3));
    let systems = Systems {
        inputs: ReadOneWriteAll::new(2)?,
        outputs: Majority::new(3)?,
    };
    assert_eq!(rt; last(read, messages, &systems), heard);
    Ok(())
}

fn ended(version: Version, value: u64) -> Heard {
    Heard::Ended(Delivery::ReadEnded {
        operation: 5,
        version,
        value,
    })
}

#[test]
fn ends_with_the_highest_version(rt: HostRuntime) -> Result<(), Fail> {
    reading(&rt, &[pair(0, 5, FIRST, 1)], Heard::Nothing)?;
    reading(
        &rt,
        &[pair(0, 5, FIRST, 1), pair(0, 5, HIGHER, 2)],
        Heard::Nothing,
    )?;
    reading(
        &rt,
        &[pair(0, 5, FIRST, 1), pair(2, 5, HIGHER, 2)],
        ended(HIGHER, 2),
    )?;
    reading(
        &rt,
        &[pair(2, 5, HIGHER, 2), pair(0, 5, FIRST, 1)],
        ended(HIGHER, 2),
    )
}

#[test]
fn between_equal_versions_the_first_stays(rt: HostRuntime) -> Result<(), Fail> {
    reading(
        &rt,
        &[pair(0, 5, HIGHER, 1), pair(1, 5, HIGHER, 2)],
        ended(HIGHER, 1),
    )?;
    let thrice = [
        pair(0, 5, FIRST, 0),
        pair(0, 5, FIRST, 9),
        pair(1, 5, FIRST, 8),
    ];
    reading(&rt, &thrice, ended(FIRST, 0))
}

#[test]
fn other_messages_are_no_answer(rt: HostRuntime) -> Result<(), Fail> {
    reading(
        &rt,
        &[pair(0, 5, FIRST, 1), clock(1, 5, 9), named(1, 5, 0b111)],
        Heard::Nothing,
    )
}

#[test]
fn refused_answers_are_not_gathered(rt: HostRuntime) -> Result<(), Fail> {
    let refused = Heard::Refused(33);
    reading(&rt, &[pair(3, 5, FIRST, 1)], refused)?;
    reading(&rt, &[pair(1, 5, Version(65_535), 1)], refused)?;
    reading(&rt, &[pair(1, 5, Version::NONE, 0)], refused)?;
    reading(&rt, &[pair(1, 6, FIRST, 1)], refused)?;
    let between = [
        pair(0, 5, FIRST, 1),
        pair(1, 6, HIGHER, 2),
        pair(1, 5, FIRST, 3),
    ];
    reading(&rt, &between, ended(FIRST, 1))
}

// What comes of the first answer to a read.
fn begun(rt: &impl Abort, operation: u16, object: u8, heard: Heard) -> Result<(), Fail> {
    let read = Operation::Reading(Read::new(operation, object));
    let first = [pair(0, operation, FIRST, 1)];
    let systems = Systems {
        inputs: Majority::new(1)?,
        outputs: Majority::new(3)?,
    };
    assert_eq!(rt; last(read, &first, &systems), heard);
    Ok(())
}

#[test]
fn objects_and_operations_of_a_read(rt: HostRuntime) -> Result<(), Fail> {
    begun(&rt, 0, 3, Heard::Refused(33))?;
    begun(&rt, 1, 3, Heard::Nothing)?;
    begun(&rt, 1024, 3, Heard::Nothing)?;
    begun(&rt, 1025, 3, Heard::Refused(33))?;
    begun(&rt, 5, 15, Heard::Nothing)?;
    begun(&rt, 5, 16, Heard::Refused(33))
}
