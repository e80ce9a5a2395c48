// Whether a message in the log, and the operation that it names, are in range. That the operations
// begun lie in the table is asked and not kept in a value: the table is lent anew with each call.
ghost use Rattle.std.specs.Prelude.{◌≡◌, ◌<◌, ◌≤◌, ◌&&◌, List, length};
ghost use Rattle.rules.specs.Counts.{counts_of};
ghost use Rattle.rules.specs.declared.message.Message.{Message as AnyMessage};
ghost use Rattle.numbers.specs.Numbers.{between, last_operation};
ghost use Rattle.rules.specs.Calls.{in_range};
ghost use Rattle.rules.specs.Ranges.{operation_fits, state_fits, has_next_clock, TestsRange};
ghost use Rattle.field.specs.MessageChecks.{place_of, known_in};
ghost use Rattle.field.specs.Views.{frame_of, state_of};

use crate::open_field::OpenField;
use numbers::OperationNumber;
use operation::Operation;
use quorum::Refusal;
use rules::{Counts, Message};

impl OpenField {
    // The operation with that number, if it is begun and its state is in range. Refuses 33
    // otherwise.
    pub(crate) fn known(
        &self,
        table: &[Operation],
        operation: u16,
    ) -> Result<OperationNumber, Refusal>
        requires few { self.now.begun ≤ last_operation }
        requires begun { self.now.begun ≤ length table.now }
        ensures { let known = known_in (frame_of self.now).counts self.now.begun table.now in
            TestsRange (λ p. p.number) (known operation) operation result }
    {
        if !self.knows(table, operation) {
            return Err(Refusal::OutOfRange);
        }
        OperationNumber::try_from(operation).map_err(|_| Refusal::OutOfRange)
    }

    pub(crate) fn is_in_range(&self, message: &Message, table: &[Operation]) -> bool
        requires { self.now.begun ≤ length table.now }
        ensures { (log : List AnyMessage) →
            result ≡ in_range message.now (state_of self.now log table.now) }
    {
        self.counts.fit(message) && self.has_operation(message, table)
    }

    // The operation that the message names, if it is of a kind that names one. It reads as
    // `State::is_named`, which asks the same of one state that is kept alone and of its own
    // number.
    fn has_operation(&self, message: &Message, table: &[Operation]) -> bool
        requires { self.now.begun ≤ length table.now }
        ensures { let known = known_in (frame_of self.now).counts self.now.begun table.now in
            result ≡ operation_fits known (λ p. has_next_clock (place_of table.now p)) message.now }
    {
        let Some(operation) = message.operation() else {
            return true;
        };
        match message {
            Message::ClockAnswer { .. } => self.knows_with_room(table, operation),
            _ => self.knows(table, operation),
        }
    }

    // The operation is begun, and its state is in range.
    fn knows(&self, table: &[Operation], operation: u16) -> bool
        requires { self.now.begun ≤ length table.now }
        ensures { result ≡ known_in (frame_of self.now).counts self.now.begun table.now operation }
    {
        self.is_begun(operation) && state_fits(table, self.counts, operation)
    }

    fn is_begun(&self, operation: u16) -> bool
        ensures { result ≡ between 1 self.now.begun operation }
    {
        1 <= operation && operation <= self.begun
    }

    // And there is a clock above the one that it gathered, if it is an asking write.
    fn knows_with_room(&self, table: &[Operation], operation: u16) -> bool
        requires { self.now.begun ≤ length table.now }
        ensures { let known = known_in (frame_of self.now).counts self.now.begun table.now in
            result ≡ (known operation && has_next_clock (place_of table.now operation)) }
    {
        self.knows(table, operation) && leaves_next_clock(table, operation)
    }
}

fn state_fits(table: &[Operation], counts: Counts, operation: u16) -> bool
    requires { (1 ≤ operation) × (operation ≤ length table.now) }
    ensures { result ≡ state_fits (counts_of counts) operation (place_of table.now operation) }
{
    table[operation as usize - 1].fits(counts, operation)
}

fn leaves_next_clock(table: &[Operation], operation: u16) -> bool
    requires { (1 ≤ operation) × (operation ≤ length table.now) }
    ensures { result ≡ has_next_clock (place_of table.now operation) }
{
    table[operation as usize - 1].has_next_clock()
}
