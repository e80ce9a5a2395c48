// A place of a table of operations, and what is done with whatever is there.
ghost use Rattle.std.specs.Prelude.{◌≡◌};
ghost use Rattle.rules.specs.Counts.{counts_of};
ghost use Rattle.rules.specs.Ranges.{state_fits, has_next_clock};
ghost use Rattle.operation.specs.Alone.{alone, number_at, is_a_write, is_a_read};

use crate::alone::State;
use crate::asking::AskingWrite;
use crate::progress::{AskingProgress, Progress};
use crate::read::Read;
use crate::sending::SendingWrite;
use quorum::{QuorumSystem, Refusal, Systems};
use rules::{Counts, Delivery, Message};

/// A place of a table of operations. A place that is unused, or whose operation ended, takes every
/// message without effect.
#[derive(Drop, Debug)]
pub enum Operation {
    /// No operation has taken the place yet.
    Unused,
    /// A write that asks for clocks.
    Asking(AskingWrite),
    /// A write that has its version, and sends it.
    Sending(SendingWrite),
    /// A read.
    Reading(Read),
    /// The operation of this place has ended.
    Ended,
}

/// What became of an operation that was handed a message.
#[derive(Drop, Debug)]
pub enum Reaction {
    /// It goes on, and sends nothing.
    On(Operation),
    /// It goes on as a write that has its version, which every input server is to be told.
    Sends(SendingWrite),
    /// It has ended.
    Ends(Delivery),
}

impl Operation {
    ghost use Rattle.operation.specs.Says.{HandsBack, place_says};
    ghost use Rattle.operation.specs.States.{operation_of};

    /// The number of the operation at the place: 1 to 1,024 where it is in range. None where the
    /// place is unused, or its operation ended.
    pub fn operation(&self) -> Option<u16>
        ensures { result ≡ number_at (operation_of self.now) }
    {
        match self {
            Operation::Asking(write) => Some(write.operation),
            Operation::Sending(write) => Some(write.operation),
            Operation::Reading(read) => Some(read.operation),
            Operation::Unused | Operation::Ended => None,
        }
    }

    /// Whether a write is at the place that has not ended.
    pub fn is_write(&self) -> bool
        ensures { result ≡ is_a_write (operation_of self.now) }
    {
        matches!(self, Operation::Asking(_) | Operation::Sending(_))
    }

    /// Whether a read is at the place that has not ended.
    pub fn is_read(&self) -> bool
        ensures { result ≡ is_a_read (operation_of self.now) }
    {
        matches!(self, Operation::Reading(_))
    }

    /// Whether whatever is at the place is in range as that of the operation with this number,
    /// where there are so many servers and objects. A place that is unused, or whose operation
    /// ended, always is.
    pub fn fits(&self, counts: Counts, operation: u16) -> bool
        ensures { result ≡ state_fits (counts_of counts) operation (operation_of self.now) }
    {
        match self {
            Operation::Unused | Operation::Ended => true,
            Operation::Asking(write) => write.fits(counts, operation),
            Operation::Sending(write) => write.fits(counts, operation),
            Operation::Reading(read) => read.fits(counts, operation),
        }
    }

    /// Whether there is a clock above the highest that the write has heard: not where an asking
    /// write has heard 65,535. Everything else has no need of one, and says so.
    pub fn has_next_clock(&self) -> bool
        ensures { result ≡ has_next_clock (operation_of self.now) }
    {
        match self {
            Operation::Asking(write) => write.has_next_clock(),
            Operation::Unused | Operation::Sending(_) | Operation::Reading(_) | Operation::Ended =>
                true,
        }
    }

    /// Hands whatever is at the place one message more. A place that is unused, or whose operation
    /// ended, takes every message and stays as it is.
    ///
    /// Otherwise it refuses 2 where a system has more than 8 members, then 33 where a number of the
    /// message or of the operation is out of range, or the message names another operation. A
    /// refusal hands the operation back as it was.
    pub fn answer<I: QuorumSystem, O: QuorumSystem>(
        self,
        message: &Message,
        systems: &Systems<I, O>,
    ) -> Result<Reaction, (Refusal, Operation)>
        ensures does { let inputs = I.meaning systems.now.inputs in
            let outputs = O.meaning systems.now.outputs in
            alone inputs outputs message.now (operation_of self) ≡ place_says inputs result }
        ensures same { HandsBack self result }
    {
        match self {
            Operation::Asking(write) => match write.answer(message, systems) {
                Ok(AskingProgress::Asking(write)) => Ok(Reaction::On(Operation::Asking(write))),
                Ok(AskingProgress::Sending(write)) => Ok(Reaction::Sends(write)),
                Err((refusal, write)) => Err((refusal, Operation::Asking(write))),
            },
            Operation::Sending(write) => match write.answer(message, systems) {
                Ok(Progress::On(write)) => Ok(Reaction::On(Operation::Sending(write))),
                Ok(Progress::Ended(end)) => Ok(Reaction::Ends(Delivery::WriteEnded {
                    operation: end.operation,
                    version: end.version,
                    value: end.value,
                })),
                Err((refusal, write)) => Err((refusal, Operation::Sending(write))),
            },
            Operation::Reading(read) => match read.answer(message, systems) {
                Ok(Progress::On(read)) => Ok(Reaction::On(Operation::Reading(read))),
                Ok(Progress::Ended(end)) => Ok(Reaction::Ends(Delivery::ReadEnded {
                    operation: end.operation,
                    version: end.version,
                    value: end.value,
                })),
                Err((refusal, read)) => Err((refusal, Operation::Reading(read))),
            },
            Operation::Unused | Operation::Ended => Ok(Reaction::On(self)),
        }
    }
}
