// What the operations in the table do with answers.
ghost use Rattle.std.specs.Prelude.{◌≡◌, ◌+◌, ◌≤◌, false, List, length, OnErr};
ghost use Rattle.operation.specs.declared.table.Operation.{Operation as Place};
ghost use Rattle.operation.specs.Says.{place_step};
ghost use Rattle.operation.specs.States.{operation_of};
ghost use Rattle.quorum.specs.Systems.{System};
ghost use Rattle.rules.specs.Answers.{end_of, delivery_says};
ghost use Rattle.rules.specs.Calls.{handed_to, hands_over};
ghost use Rattle.rules.specs.Reaction.{reacts, goes_on};
ghost use Rattle.rules.specs.State.{outcome, post};
ghost use Rattle.field.specs.Delivered.{numbered, IsAnswerTo, Deliverable, Reached};
ghost use Rattle.field.specs.Views.{state_of};

use crate::open_field::OpenField;
use operation::{Operation, Reaction};
use quorum::{QuorumSystem, Refusal, Systems};
use rules::{Delivery, Message};

// Whether the message is the answer that the operation waits for. Any other leaves it as it is, so
// that no state has to be moved for it.
fn waits_for(operation: &Operation, message: &Message) -> bool
    ensures { result ≡ false → (i o : System) →
        let x = operation_of operation.now in reacts i o message.now x ≡ goes_on x }
{
    matches!(
        (operation, message),
        (Operation::Asking(_), Message::ClockAnswer { .. })
            | (Operation::Sending(_), Message::WriteAnswer { .. })
            | (Operation::Reading(_), Message::ReadAnswer { .. })
    )
}

impl OpenField {
    // The operation is handed the message of that number, an answer to it. Refuses 33 where a
    // number of the message or of the operation's state is out of range.
    pub(crate) fn hear<I: QuorumSystem, O: QuorumSystem>(
        &mut self,
        log: &mut [Message],
        table: &mut [Operation],
        systems: &Systems<I, O>,
        number: u64,
        operation: u16,
    ) -> Result<Delivery, Refusal>
        requires deliverable { let i = I.meaning systems.now.inputs in
            let o = O.meaning systems.now.outputs in
            Deliverable i o
            self.old log.old table.old number }
        requires answers { IsAnswerTo operation (numbered log.old number) }
        ensures does { let i = I.meaning systems.now.inputs in
            let o = O.meaning systems.now.outputs in
            hands_over i o (numbered log.old number) (state_of self.old log.old table.old)
            ≡ outcome (delivery_says result) (state_of self.new log.new table.new) }
        ensures same { OnErr result
            ((self.new ≡ self.old) × (log.new ≡ log.old) × (table.new ≡ table.old)) }
    {
        if !self.is_in_range(&log[number as usize - 1], table) {
            return Err(Refusal::OutOfRange);
        }
        Ok(self.react(log, table, systems, number, operation))
    }

    // What the operation makes of it. That it has a place is asked and not kept in a value: the
    // table is lent anew with each call.
    fn react<I: QuorumSystem, O: QuorumSystem>(
        &mut self,
        log: &mut [Message],
        table: &mut [Operation],
        systems: &Systems<I, O>,
        number: u64,
        operation: u16,
    ) -> Delivery
        requires deliverable { let i = I.meaning systems.now.inputs in
            let o = O.meaning systems.now.outputs in
            Deliverable i o
            self.old log.old table.old number }
        requires reached { let i = I.meaning systems.now.inputs in
            let o = O.meaning systems.now.outputs in
            Reached i o
            table.old operation (numbered log.old number) }
        ensures { let i = I.meaning systems.now.inputs in
            let o = O.meaning systems.now.outputs in
            handed_to i o (numbered log.old number) operation (state_of self.old log.old table.old)
            ≡ outcome (end_of result) (state_of self.new log.new table.new) }
    {
        let place = operation as usize - 1;
        if !waits_for(&table[place], &log[number as usize - 1]) {
            return Delivery::NothingEnded;
        }
        let before = std::mem::replace(&mut table[place], Operation::Unused);
        let Ok(reaction) = before.answer(&log[number as usize - 1], systems) else {
            unreachable!()
        };
        let (after, delivery) = self.follow(log, reaction);
        table[place] = after;
        delivery
    }

    // What goes back to the place, and what is said. The requests of a write that has its version
    // are logged.
    fn follow(&mut self, log: &mut [Message], reaction: Reaction) -> (Operation, Delivery)
        requires { self.old.made + 9 ≤ length log.old }
        ensures place { (i : System) → operation_of result.0 ≡ (place_step i reaction).next }
        ensures says { (i : System) → end_of result.1 ≡ (place_step i reaction).said }
        ensures sends { (i : System) (t : List Place) → i.count ≡ self.old.counts.inputs.number
            → state_of self.new log.new t
            ≡ post (place_step i reaction).sends (state_of self.old log.old t) }
    {
        match reaction {
            Reaction::On(after) => (after, Delivery::NothingEnded),
            Reaction::Sends(write) => {
                self.log_all(log, &write, self.counts.inputs);
                (Operation::Sending(write), Delivery::NothingEnded)
            }
            Reaction::Ends(delivery) => (Operation::Ended, delivery),
        }
    }
}
