// What a test expects of a bench, and a failure that tells what it found.
use crate::bench::{Bench, Looks, Place};
use numbers::Time;
use quorum::{QuorumSystem, Refusal};
use rules::{Delivery, Message};
use std::fmt::{Debug, Display};
use std::test::Fail;

/// That what is found there is what is wanted.
pub fn expect_same<T: PartialEq + Debug>(
    place: impl Display + Drop,
    found: &T,
    wanted: &T,
) -> Result<(), Fail> {
    if found == wanted {
        return Ok(());
    }
    Err(Fail::new(format_args!("{place}: {found:?}, and not {wanted:?}")))
}

/// The number by which a call refused, if it did.
pub fn refusal<T: Drop>(said: Result<T, Refusal>) -> Option<u8> {
    said.err().map(|refusal| refusal.number())
}

/// That a call was refused by that number.
pub fn expect_refusal<T: Drop>(said: Result<T, Refusal>, number: u8) -> Result<(), Fail> {
    expect_same("the call", &refusal(said), &Some(number))
}

impl<I: QuorumSystem + Drop, O: QuorumSystem + Drop> Bench<I, O> {
    /// Begins a write of a value to an object, which gets that number.
    pub fn expect_write(&mut self, object: u64, value: u64, operation: u16) -> Result<(), Fail> {
        let begun = self.write(object, value);
        expect_same("write", &begun, &Ok(operation))
    }

    /// Begins a read of an object, which gets that number.
    pub fn expect_read(&mut self, object: u64, operation: u16) -> Result<(), Fail> {
        let begun = self.read(object);
        expect_same("read", &begun, &Ok(operation))
    }

    /// Delivers these messages in this order, and each is refused by that number.
    pub fn expect_refused(&mut self, numbers: &[usize], by: u8) -> Result<(), Fail> {
        for number in numbers {
            let said = refusal(self.deliver(*number));
            let message = self.message(*number);
            expect_same(
                format_args!("delivery {number}, {message:?}"),
                &said,
                &Some(by),
            )?;
        }
        Ok(())
    }

    /// Delivers the message with that number, which ends an operation so.
    pub fn expect_end(&mut self, number: usize, end: Delivery) -> Result<(), Fail> {
        let said = self.deliver(number);
        let message = self.message(number);
        expect_same(
            format_args!("delivery {number}, {message:?}"),
            &said,
            &Ok(end),
        )
    }

    /// Delivers these messages in this order, and no operation ends.
    pub fn nothing_ends(&mut self, numbers: &[usize]) -> Result<(), Fail> {
        for number in numbers {
            self.expect_end(*number, Delivery::NothingEnded)?;
        }
        Ok(())
    }

    /// That the message with that number is this one.
    pub fn expect(&self, number: usize, message: Message) -> Result<(), Fail> {
        expect_same(
            format_args!("message {number}"),
            &self.message(number),
            &Some(&message),
        )
    }

    /// That the messages from that number on are these, and that no more are made.
    pub fn expect_last(&self, first: usize, messages: &[Message]) -> Result<(), Fail> {
        expect_same(
            format_args!("messages from {first} on"),
            &self.made_from(first),
            &Some(messages),
        )
    }

    /// That this is seen of that operation's place in the table.
    pub fn expect_place(&self, operation: u16, place: Place) -> Result<(), Fail> {
        expect_same(
            format_args!("operation {operation}"),
            &self.place(operation),
            &Some(place),
        )
    }

    /// That these are the clocks of the servers with that number.
    pub fn expect_clocks(&self, number: u8, clocks: [Option<Time>; 2]) -> Result<(), Fail> {
        expect_same(
            format_args!("server {number}"),
            &self.clocks(number),
            &clocks,
        )
    }

    /// That this is seen of the field.
    pub fn expect_looks(&self, looks: Looks) -> Result<(), Fail> {
        expect_same("the field", &self.looks(), &looks)
    }
}
