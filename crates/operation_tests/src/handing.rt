// Hands a state one message after another. Nothing here says what it returns: the tests look at
// what the code does, and not at what it promises.
use numbers::Version;
use operation::{AskingWrite, Operation, Reaction};
use quorum::{Majority, MemberSet, QuorumSystem, ReadOneWriteAll, Refusal, Systems};
use rules::{Delivery, Message};

// What came of a message.
#[derive(Clone, Copy, Debug, PartialEq, Eq)]
pub(crate) enum Heard {
    // the operation goes on
    Nothing,
    // the write has this version now
    Sends(Version),
    Ended(Delivery),
    Refused(u8),
}

pub(crate) fn hand<I: QuorumSystem, O: QuorumSystem>(
    state: Operation,
    message: &Message,
    systems: &Systems<I, O>,
) -> (Operation, Heard) {
    match state.answer(message, systems) {
        Ok(Reaction::On(state)) => (state, Heard::Nothing),
        Ok(Reaction::Sends(write)) => {
            let version = write.version();
            (Operation::Sending(write), Heard::Sends(version))
        }
        Ok(Reaction::Ends(delivery)) => (Operation::Ended, Heard::Ended(delivery)),
        Err((refusal, state)) => (state, Heard::Refused(refusal.number())),
    }
}

// What came of the last of the messages.
pub(crate) fn last<I: QuorumSystem, O: QuorumSystem>(
    begun: Operation,
    messages: &[Message],
    systems: &Systems<I, O>,
) -> Heard {
    let mut state = begun;
    let mut heard = Heard::Nothing;
    for message in messages {
        (state, heard) = hand(state, message, systems);
    }
    heard
}

// Input servers by majority and output servers by read-one write-all.
fn systems(inputs: u8, outputs: u8) -> Result<Systems<Majority, ReadOneWriteAll>, Refusal> {
    Ok(Systems {
        inputs: Majority::new(u64::from(inputs))?,
        outputs: ReadOneWriteAll::new(u64::from(outputs))?,
    })
}

// The same as `last` by these systems.
pub(crate) fn last_of(
    begun: Operation,
    messages: &[Message],
    inputs: u8,
    outputs: u8,
) -> Result<Heard, Refusal> {
    Ok(last(begun, messages, &systems(inputs, outputs)?))
}

// A write of 500 to object 3.
pub(crate) fn write(operation: u16) -> Operation {
    Operation::Asking(AskingWrite::new(operation, 3, 500))
}

// The same, as operation 7, once two of three input servers have answered the clocks 4 and 9.
pub(crate) fn sending() -> Result<Operation, Refusal> {
    let systems = systems(3, 2)?;
    let (asking, _) = hand(write(7), &clock(0, 7, 4), &systems);
    let (sending, _) = hand(asking, &clock(2, 7, 9), &systems);
    Ok(sending)
}

pub(crate) fn clock(input: u8, operation: u16, clock: u16) -> Message {
    Message::ClockAnswer {
        input,
        operation,
        clock,
    }
}

pub(crate) fn named(input: u8, operation: u16, set: u64) -> Message {
    Message::WriteAnswer {
        input,
        operation,
        shut_out: MemberSet(set),
    }
}

pub(crate) fn pair(output: u8, operation: u16, version: Version, value: u64) -> Message {
    Message::ReadAnswer {
        output,
        operation,
        version,
        value,
    }
}
