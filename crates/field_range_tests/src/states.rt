// States of operations, put into the table by the caller: which are refused as out of range, and
// that a field goes on from those that are not. There are two servers on each side, and two
// objects; the table has one operation, a write.
use field_bench::messages::{
    Grant, clock_answer, invalidation, invalidation_answer, naming, read_answer, read_ended,
    renewal_request, write_answer, write_ended, write_request,
};
use field_bench::{Place, expect_same, with_a_write};
use numbers::Version;
use operation::{AskingProgress, AskingWrite, Operation, Progress, Read, SendingWrite};
use quorum::{Majority, ReadOneWriteAll, Refusal, Systems};
use rules::{Pairs, Parts};
use std::alloc::Global;
use std::test::Fail;

const FIRST: Version = Version::STARTING;

// ---- states that were gathered in a wider field, of eight servers on each side

// A write of 7 that heard the clock of one input server. One is not enough.
fn asking(operation: u16, object: u8, input: u8) -> Result<Operation, Refusal> {
    let systems = Systems {
        inputs: Majority::new(8)?,
        outputs: Majority::new(8)?,
    };
    let write = AskingWrite::new(operation, object, 7);
    match write.answer(&clock_answer(input, operation, 1), &systems) {
        Ok(AskingProgress::Asking(write)) => Ok(Operation::Asking(write)),
        Ok(AskingProgress::Sending(write)) => Ok(Operation::Sending(write)),
        Err((refusal, _)) => Err(refusal),
    }
}

// What answers a write whose version one clock is enough for, and whose end needs every server.
fn wide() -> Result<Systems<ReadOneWriteAll, ReadOneWriteAll>, Refusal> {
    Ok(Systems {
        inputs: ReadOneWriteAll::new(8)?,
        outputs: ReadOneWriteAll::new(8)?,
    })
}

fn with_version(operation: u16, object: u8) -> Result<SendingWrite, Refusal> {
    let write = AskingWrite::new(operation, object, 7);
    match write.answer(&clock_answer(0, operation, 1), &wide()?) {
        Ok(AskingProgress::Sending(write)) => Ok(write),
        Ok(AskingProgress::Asking(_)) => Err(Refusal::OutOfRange),
        Err((refusal, _)) => Err(refusal),
    }
}

// A write of 7 that has its version, and that heard one input server name that set.
fn sending(operation: u16, object: u8, input: u8, named: u64) -> Result<Operation, Refusal> {
    let write = with_version(operation, object)?;
    match write.answer(&write_answer(input, operation, named), &wide()?) {
        Ok(Progress::On(write)) => Ok(Operation::Sending(write)),
        Ok(Progress::Ended(_)) => Ok(Operation::Ended),
        Err((refusal, _)) => Err(refusal),
    }
}

// A read that heard one output server answer with the first version and 5.
fn reading(operation: u16, object: u8, output: u8) -> Result<Operation, Refusal> {
    let systems = Systems {
        inputs: Majority::new(8)?,
        outputs: Majority::new(8)?,
    };
    let read = Read::new(operation, object);
    match read.answer(&read_answer(output, operation, FIRST, 5), &systems) {
        Ok(Progress::On(read)) => Ok(Operation::Reading(read)),
        Ok(Progress::Ended(_)) => Ok(Operation::Ended),
        Err((refusal, _)) => Err(refusal),
    }
}

// ---- what is refused

// With that state in the place of operation 1 no message that names it is delivered.
fn refused(alloc: Global, state: Operation) -> Result<(), Fail> {
    let mut bench = with_a_write(alloc)?;
    bench.put_state(1, state);
    let (looks, place) = (bench.looks(), bench.place(1));
    for message in naming(1) {
        bench.put(1, message);
        bench.expect_refused(&[1], 33)?;
        bench.expect_looks(looks)?;
        expect_same("the place", &bench.place(1), &place)?;
    }
    Ok(())
}

#[test]
fn a_state_of_another_operation(rt: HostRuntime) -> Result<(), Fail> {
    refused(rt.alloc(), asking(2, 0, 0)?)?;
    refused(rt.alloc(), sending(2, 0, 0, 0b01)?)?;
    refused(rt.alloc(), reading(2, 0, 0)?)?;
    refused(rt.alloc(), Operation::Asking(AskingWrite::new(0, 0, 7)))?;
    refused(rt.alloc(), Operation::Reading(Read::new(65_535, 0)))
}

#[test]
fn a_state_with_an_object_that_there_is_not(rt: HostRuntime) -> Result<(), Fail> {
    refused(rt.alloc(), asking(1, 2, 0)?)?;
    refused(rt.alloc(), sending(1, 2, 0, 0b01)?)?;
    refused(rt.alloc(), reading(1, 2, 0)?)?;
    refused(rt.alloc(), Operation::Asking(AskingWrite::new(1, 255, 7)))
}

#[test]
fn sets_with_servers_that_there_are_not(rt: HostRuntime) -> Result<(), Fail> {
    refused(rt.alloc(), asking(1, 0, 2)?)?;
    refused(rt.alloc(), asking(1, 0, 7)?)?;
    // an input server that named any, and an output server that was named
    refused(rt.alloc(), sending(1, 0, 2, 0b01)?)?;
    refused(rt.alloc(), sending(1, 0, 7, 0b01)?)?;
    refused(rt.alloc(), sending(1, 0, 0, 0b100)?)?;
    refused(rt.alloc(), sending(1, 0, 1, 0b1000_0000)?)?;
    refused(rt.alloc(), reading(1, 0, 2)?)?;
    refused(rt.alloc(), reading(1, 0, 7)?)
}

// Messages between servers do not ask for an operation.
#[test]
fn servers_go_on_without_it(rt: HostRuntime) -> Result<(), Fail> {
    let mut bench = with_a_write(rt.alloc())?;
    bench.put_state(1, asking(2, 0, 0)?);
    for message in [
        renewal_request(0, 0, Parts::Both, 0, 0),
        Grant::of_both(FIRST, 0).answer(0, 0, 0),
        invalidation(0, 0, 0, FIRST),
        invalidation_answer(0, 0, Pairs::empty()),
    ] {
        bench.put(1, message);
        bench.nothing_ends(&[1])?;
    }
    Ok(())
}

// ---- what is gone on from

// The field that gave operation 1 out as an asking write takes the state that it finds in its
// place.
#[test]
fn a_sending_write_in_the_place(rt: HostRuntime) -> Result<(), Fail> {
    let mut bench = with_a_write(rt.alloc())?;
    bench.put_state(1, sending(1, 1, 1, 0b11)?);
    let place = Place::Sending {
        object: 1,
        version: Version(131_073),
        value: 7,
    };
    bench.expect_place(1, place)?;
    bench.put(1, write_answer(0, 1, 0b01));
    bench.put(2, write_answer(0, 1, 0b10));
    bench.nothing_ends(&[1])?;
    bench.expect_end(2, write_ended(1, Version(131_073), 7))
}

#[test]
fn an_asking_write_in_the_place(rt: HostRuntime) -> Result<(), Fail> {
    let mut bench = with_a_write(rt.alloc())?;
    bench.put_state(1, asking(1, 1, 1)?);
    bench.put(1, clock_answer(0, 1, 9));
    bench.nothing_ends(&[1])?;
    let made = [
        write_request(1, 0, 1, Version(655_361), 7),
        write_request(1, 1, 1, Version(655_361), 7),
    ];
    bench.expect_last(3, &made)
}

// Between equal versions the pair that came first stays.
#[test]
fn a_read_in_the_place(rt: HostRuntime) -> Result<(), Fail> {
    let mut bench = with_a_write(rt.alloc())?;
    bench.put_state(1, reading(1, 1, 1)?);
    bench.put(1, read_answer(0, 1, FIRST, 6));
    bench.expect_end(1, read_ended(1, FIRST, 5))
}

// A place that is unused or ended takes every message without effect on it.
#[test]
fn no_operation_in_the_place(rt: HostRuntime) -> Result<(), Fail> {
    for (state, place) in [
        (Operation::Unused, Place::Unused),
        (Operation::Ended, Place::Ended),
    ] {
        let mut bench = with_a_write(rt.alloc())?;
        bench.put_state(1, state);
        for message in naming(1) {
            bench.put(1, message);
            bench.nothing_ends(&[1])?;
            bench.expect_place(1, place)?;
        }
    }
    Ok(())
}
