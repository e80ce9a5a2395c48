// Delivering a message.
ghost use Rattle.std.specs.Prelude.{Some, ◌≡◌, OnErr};
ghost use Rattle.rules.specs.Answers.{delivery_says, refusal_said};
ghost use Rattle.rules.specs.Calls.{hands_over, delivering, delivering_refusal};
ghost use Rattle.rules.specs.State.{outcome};
ghost use Rattle.field.specs.Delivered.{numbered, Deliverable};
ghost use Rattle.field.specs.Invariant.{InBounds};
ghost use Rattle.field.specs.Views.{state_of};

use crate::open_field::OpenField;
use operation::Operation;
use quorum::{QuorumSystem, Refusal, Systems};
use rules::{Delivery, Message, Pair, has_room};

impl OpenField {
    // Tests the delivery, and then hands the message on.
    #[tactic(auto, using(crate::proofs::Calling::delivery_refuses))]
    pub(crate) fn deliver<I: QuorumSystem, O: QuorumSystem>(
        &mut self,
        log: &mut [Message],
        table: &mut [Operation],
        systems: &Systems<I, O>,
        number: u64,
    ) -> Result<Delivery, Refusal>
        requires { InBounds (Some self.old) }
        ensures does { let i = I.meaning systems.now.inputs in
            let o = O.meaning systems.now.outputs in
            delivering i o number
            (state_of self.old log.old table.old)
            ≡ outcome (delivery_says result) (state_of self.new log.new table.new) }
        ensures same { OnErr result
            ((self.new ≡ self.old) × (log.new ≡ log.old) × (table.new ≡ table.old)) }
    {
        self.check_message(log, table, systems, number)?;
        self.hand_over(log, table, systems, number)
    }

    // The first refusal that a delivery meets before it looks at its message.
    fn check_message<I: QuorumSystem, O: QuorumSystem>(
        &self,
        log: &[Message],
        table: &[Operation],
        systems: &Systems<I, O>,
        number: u64,
    ) -> Result<(), Refusal>
        ensures { let i = I.meaning systems.now.inputs in
            let o = O.meaning systems.now.outputs in
            refusal_said result
            ≡ delivering_refusal i o number (state_of self.now log.now table.now) }
    {
        if !self.is_as_opened(log, table, systems) {
            return Err(Refusal::NotAsOpened);
        }
        if number == 0 || number > self.made as u64 {
            return Err(Refusal::NoSuchMessage);
        }
        if !has_room(log, self.made) {
            return Err(Refusal::NoRoomToDeliver);
        }
        Ok(())
    }

    // The message is handed to the server or the operation that it is for, kind by kind. Each
    // tests the numbers of the message, and refuses 33 where one is out of range.
    fn hand_over<I: QuorumSystem, O: QuorumSystem>(
        &mut self,
        log: &mut [Message],
        table: &mut [Operation],
        systems: &Systems<I, O>,
        number: u64,
    ) -> Result<Delivery, Refusal>
        requires { let i = I.meaning systems.now.inputs in
            let o = O.meaning systems.now.outputs in
            Deliverable i o
            self.old log.old table.old number }
        ensures does { let i = I.meaning systems.now.inputs in
            let o = O.meaning systems.now.outputs in
            hands_over i o (numbered log.old number) (state_of self.old log.old table.old)
            ≡ outcome (delivery_says result) (state_of self.new log.new table.new) }
        ensures same { OnErr result
            ((self.new ≡ self.old) × (log.new ≡ log.old) × (table.new ≡ table.old)) }
    {
        match log[number as usize - 1] {
            Message::ClockQuestion { operation, input } => {
                self.take_clock_question(log, table, operation, input)?;
            }
            Message::WriteRequest {
                operation,
                input,
                object,
                version,
                value,
            } => {
                let pair = Pair { object, version };
                self.take_write_request(log, table, operation, input, pair, value)?;
            }
            Message::ReadRequest {
                operation,
                output,
                object,
            } => self.take_read_request(log, table, &systems.inputs, operation, output, object)?,
            Message::RenewalRequest {
                output,
                input,
                renewal,
            } => self.take_renewal_request(log, output, input, renewal)?,
            Message::RenewalAnswer {
                input,
                output,
                renewed,
            } => self.take_renewal_answer(log, input, output, renewed)?,
            Message::Invalidation {
                input,
                output,
                object,
                version,
            } => self.take_invalidation(log, input, output, Pair { object, version })?,
            Message::InvalidationAnswer {
                output,
                input,
                list,
            } => self.take_invalidation_answer(output, input, list)?,
            // an arm for each answer: the check does not cover an arm of several patterns here yet
            Message::ClockAnswer { operation, .. } => {
                return self.hear(log, table, systems, number, operation);
            }
            Message::WriteAnswer { operation, .. } => {
                return self.hear(log, table, systems, number, operation);
            }
            Message::ReadAnswer { operation, .. } => {
                return self.hear(log, table, systems, number, operation);
            }
        }
        Ok(Delivery::NothingEnded)
    }
}
