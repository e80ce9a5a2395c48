// Beginning an operation.
ghost use Rattle.std.specs.Prelude.{Some, ◌≡◌, ◌<◌, List, length, OnErr};
ghost use Rattle.operation.specs.States.{operation_of};
ghost use Rattle.rules.specs.declared.message.Message.{Message as AnyMessage};
ghost use Rattle.rules.specs.Answers.{beginning_says, refusal_said};
ghost use Rattle.rules.specs.Calls.{beginning_write, beginning_read, beginning_refusal, enter as entered};
ghost use Rattle.rules.specs.State.{outcome};
ghost use Rattle.field.specs.Invariant.{InBounds};
ghost use Rattle.field.specs.Views.{state_of};

use crate::logging::{ClockQuestions, ReadRequests};
use crate::open_field::OpenField;
use operation::{AskingWrite, Operation, Read};
use quorum::{QuorumSystem, Refusal, Systems};
use rules::{Message, has_room};

impl OpenField {
    // The next operation is an asking write, and a clock question goes to every input server.
    #[tactic(auto, using(crate::proofs::Begins::beginnable, crate::proofs::Begins::write_refuses))]
    pub(crate) fn begin_write<I: QuorumSystem, O: QuorumSystem>(
        &mut self,
        log: &mut [Message],
        table: &mut [Operation],
        systems: &Systems<I, O>,
        object: u64,
        value: u64,
    ) -> Result<u16, Refusal>
        requires { InBounds (Some self.old) }
        ensures does { let i = I.meaning systems.now.inputs in
            let o = O.meaning systems.now.outputs in
            beginning_write i o object value
            (state_of self.old log.old table.old)
            ≡ outcome (beginning_says result) (state_of self.new log.new table.new) }
        ensures same { OnErr result
            ((self.new ≡ self.old) × (log.new ≡ log.old) × (table.new ≡ table.old)) }
    {
        self.check_beginning(log, table, systems, object)?;
        let operation = self.begun + 1;
        let write = AskingWrite::new(operation, object as u8, value);
        self.enter(table, Operation::Asking(write));
        self.log_all(log, &ClockQuestions { operation }, self.counts.inputs);
        Ok(operation)
    }

    // The next operation is a read, and a read request goes to every output server. It reads as
    // the other beginning: it enters another state and asks the other side.
    #[tactic(auto, using(crate::proofs::Begins::beginnable, crate::proofs::Begins::read_refuses))]
    pub(crate) fn begin_read<I: QuorumSystem, O: QuorumSystem>(
        &mut self,
        log: &mut [Message],
        table: &mut [Operation],
        systems: &Systems<I, O>,
        object: u64,
    ) -> Result<u16, Refusal>
        requires { InBounds (Some self.old) }
        ensures does { let i = I.meaning systems.now.inputs in
            let o = O.meaning systems.now.outputs in
            beginning_read i o object
            (state_of self.old log.old table.old)
            ≡ outcome (beginning_says result) (state_of self.new log.new table.new) }
        ensures same { OnErr result
            ((self.new ≡ self.old) × (log.new ≡ log.old) × (table.new ≡ table.old)) }
    {
        self.check_beginning(log, table, systems, object)?;
        let operation = self.begun + 1;
        let read = Read::new(operation, object as u8);
        let requests = ReadRequests {
            operation,
            object: object as u8,
        };
        self.enter(table, Operation::Reading(read));
        self.log_all(log, &requests, self.counts.outputs);
        Ok(operation)
    }

    // The first refusal that a beginning meets, of either kind of operation.
    fn check_beginning<I: QuorumSystem, O: QuorumSystem>(
        &self,
        log: &[Message],
        table: &[Operation],
        systems: &Systems<I, O>,
        object: u64,
    ) -> Result<(), Refusal>
        ensures { let i = I.meaning systems.now.inputs in
            let o = O.meaning systems.now.outputs in
            refusal_said result
            ≡ beginning_refusal i o object (state_of self.now log.now table.now) }
    {
        if !self.is_as_opened(log, table, systems) {
            return Err(Refusal::NotAsOpened);
        }
        if object >= self.counts.objects.get() as u64 {
            return Err(Refusal::NoSuchObject);
        }
        if self.begun as usize >= table.len() {
            return Err(Refusal::TableFull);
        }
        if !has_room(log, self.made) {
            return Err(Refusal::NoRoomToBegin);
        }
        Ok(())
    }

    // The operation takes the next place of the table.
    fn enter(&mut self, table: &mut [Operation], operation: Operation)
        requires { (self.old.begun < length table.old) × (self.old.begun < 1024) }
        ensures { (log : List AnyMessage)
            → state_of self.new log table.new
            ≡ entered (operation_of operation) (state_of self.old log table.old) }
    {
        table[self.begun as usize] = operation;
        self.begun += 1;
    }
}
