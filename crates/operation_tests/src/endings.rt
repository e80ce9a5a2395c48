// A write from its first clock answer to its end.
// Tests that read alike differ in their values, which is what each is for.
use crate::handing::{Heard, clock, last_of, named, sending, write};
use numbers::Version;
use rules::{Delivery, Message};
use std::process::Abort;
use std::test::Fail;

// What comes of the last message, by three input servers that go by majority and two output servers
// that go by read-one write-all.
fn asked(rt: &impl Abort, messages: &[Message], heard: Heard) -> Result<(), Fail> {
    assert_eq!(rt; last_of(write(7), messages, 3, 2)?, heard);
    Ok(())
}

#[test]
fn two_of_three_clocks_give_the_version(rt: HostRuntime) -> Result<(), Fail> {
    let version = Heard::Sends(Version(10 * 65_536 + 7));
    asked(&rt, &[clock(0, 7, 4)], Heard::Nothing)?;
    asked(&rt, &[clock(0, 7, 4), clock(0, 7, 9)], Heard::Nothing)?;
    asked(&rt, &[clock(0, 7, 4), clock(2, 7, 9)], version)?;
    asked(&rt, &[clock(2, 7, 9), clock(0, 7, 4)], version)
}

#[test]
fn the_highest_clock_that_can_be_answered(rt: HostRuntime) -> Result<(), Fail> {
    asked(
        &rt,
        &[clock(0, 7, 65_534), clock(1, 7, 1)],
        Heard::Sends(Version(4_294_901_767)),
    )
}

// The same for a write that has its version.
fn sent(rt: &impl Abort, messages: &[Message], heard: Heard) -> Result<(), Fail> {
    assert_eq!(rt; last_of(sending()?, messages, 3, 2)?, heard);
    Ok(())
}

const ENDED: Heard = Heard::Ended(Delivery::WriteEnded {
    operation: 7,
    version: Version(655_367),
    value: 500,
});

#[test]
fn ends_when_enough_inputs_named_each_output(rt: HostRuntime) -> Result<(), Fail> {
    // output server 0 counts, named by two; output server 1 is named by one
    sent(&rt, &[named(0, 7, 0b01)], Heard::Nothing)?;
    sent(&rt, &[named(0, 7, 0b01), named(1, 7, 0b11)], Heard::Nothing)?;
    sent(
        &rt,
        &[named(0, 7, 0b01), named(1, 7, 0b11), named(2, 7, 0b10)],
        ENDED,
    )?;
    sent(
        &rt,
        &[named(2, 7, 0b10), named(1, 7, 0b11), named(0, 7, 0b01)],
        ENDED,
    )
}

#[test]
fn each_input_counts_once_and_names_more_and_more(rt: HostRuntime) -> Result<(), Fail> {
    sent(&rt, &[named(0, 7, 0b11), named(0, 7, 0b11)], Heard::Nothing)?;
    sent(&rt, &[named(0, 7, 0b11), named(1, 7, 0)], Heard::Nothing)?;
    // what was named stays named
    sent(
        &rt,
        &[named(0, 7, 0b11), named(0, 7, 0), named(1, 7, 0b11)],
        ENDED,
    )?;
    sent(
        &rt,
        &[named(0, 7, 0b01), named(0, 7, 0b10), named(1, 7, 0b11)],
        ENDED,
    )
}

#[test]
fn messages_without_effect(rt: HostRuntime) -> Result<(), Fail> {
    asked(&rt, &[named(0, 7, 0b11), named(1, 7, 0b11)], Heard::Nothing)?;
    sent(
        &rt,
        &[clock(0, 7, 60_000), clock(1, 7, 60_000)],
        Heard::Nothing,
    )?;
    // the version stays, whatever clocks come later
    sent(
        &rt,
        &[clock(1, 7, 60_000), named(0, 7, 0b11), named(1, 7, 0b11)],
        ENDED,
    )
}
