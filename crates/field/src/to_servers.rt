// What the servers do with messages, a function for each kind: each tests the numbers of its
// message, and hands what the tests gave to the step of its server. Where a number is out of
// range it refuses 33. That the field is ready for one message more is asked of each, since the
// log is lent anew with each call and no value can carry that its places are free. Each opens a
// `Log` and takes its count back: a closure that did so would hide from the proof what it
// changes.
ghost use Rattle.std.specs.Prelude.{◌≡◌, ◌≤◌, true, List, length, OnErr};
ghost use Rattle.operation.specs.declared.table.Operation.{Operation as Place};
ghost use Rattle.quorum.specs.Systems.{System};
ghost use Rattle.rules.specs.declared.message.Message.{Message as AnyMessage};
ghost use Rattle.rules.specs.Answers.{handing_says};
ghost use Rattle.rules.specs.Calls.{hands_over};
ghost use Rattle.rules.specs.State.{outcome};
ghost use Rattle.field.specs.Ready.{Ready};
ghost use Rattle.field.specs.Views.{state_of};

use crate::open_field::OpenField;
use input_server::{RenewalRequest, WriteRequest};
use operation::Operation;
use quorum::{QuorumSystem, Refusal};
use rules::{InRange, Log, Message, Pair, Pairs, Renewal, Renewed};

impl OpenField {
    pub(crate) fn take_clock_question(
        &mut self,
        log: &mut [Message],
        table: &[Operation],
        operation: u16,
        input: u8,
    ) -> Result<(), Refusal>
        requires ready { Ready self.old log.old }
        requires begun { self.old.begun ≤ length table.now }
        ensures does { (i o : System) →
            let message = Message.ClockQuestion operation input in
            hands_over i o message (state_of self.old log.old table.now)
            ≡ outcome (handing_says result) (state_of self.new log.new table.now) }
        ensures same { OnErr result ((self.new ≡ self.old) × (log.new ≡ log.old)) }
    {
        let me = self.counts.input(input)?;
        let operation = self.known(table, operation)?;
        let mut log = Log::new(log, self.made);
        self.inputs[me.index()]
            .answer_clock(me, operation, &mut log)
            .unwrap();
        self.made = log.made();
        Ok(())
    }

    pub(crate) fn take_write_request(
        &mut self,
        log: &mut [Message],
        table: &[Operation],
        operation: u16,
        input: u8,
        pair: Pair,
        value: u64,
    ) -> Result<(), Refusal>
        requires ready { Ready self.old log.old }
        requires begun { self.old.begun ≤ length table.now }
        ensures does { (i o : System) →
            hands_over i o (Message.WriteRequest operation input pair.object pair.version value)
            (state_of self.old log.old table.now)
            ≡ outcome (handing_says result) (state_of self.new log.new table.now) }
        ensures same { OnErr result ((self.new ≡ self.old) × (log.new ≡ log.old)) }
    {
        let me = self.counts.input(input)?;
        let request = WriteRequest {
            outputs: self.counts.outputs,
            pair: InRange::new(pair, self.counts.objects)?,
            operation: self.known(table, operation)?,
            value,
        };
        let mut log = Log::new(log, self.made);
        self.inputs[me.index()]
            .take_write(me, &request, &mut log)
            .unwrap();
        self.made = log.made();
        Ok(())
    }

    pub(crate) fn take_renewal_request(
        &mut self,
        log: &mut [Message],
        output: u8,
        input: u8,
        renewal: Renewal,
    ) -> Result<(), Refusal>
        requires ready { Ready self.old log.old }
        ensures does { (i o : System) (t : List Place) →
            let message = Message.RenewalRequest output input renewal in
            hands_over i o message (state_of self.old log.old t)
            ≡ outcome (handing_says result) (state_of self.new log.new t) }
        ensures same { OnErr result ((self.new ≡ self.old) × (log.new ≡ log.old)) }
    {
        let between = self.counts.between(input, output, renewal)?;
        let me = between.input;
        let request = RenewalRequest {
            output: between.output,
            renewal: between.carried,
            lease: self.lease,
        };
        let mut log = Log::new(log, self.made);
        self.inputs[me.index()]
            .answer_renewal(me, &request, &mut log)
            .unwrap();
        self.made = log.made();
        Ok(())
    }

    pub(crate) fn take_invalidation_answer(
        &mut self,
        output: u8,
        input: u8,
        list: Pairs,
    ) -> Result<(), Refusal>
        ensures does { (i o : System) (log : List AnyMessage) (t : List Place) →
            hands_over i o (Message.InvalidationAnswer output input list) (state_of self.old log t)
            ≡ outcome (handing_says result) (state_of self.new log t) }
        ensures same { OnErr result (self.new ≡ self.old) }
    {
        let between = self.counts.between(input, output, list)?;
        self.inputs[between.input.index()].take_acknowledgement(between.output, &between.carried);
        Ok(())
    }

    pub(crate) fn take_read_request<I: QuorumSystem>(
        &mut self,
        log: &mut [Message],
        table: &[Operation],
        inputs: &I,
        operation: u16,
        output: u8,
        object: u8,
    ) -> Result<(), Refusal>
        requires ready { Ready self.old log.old }
        requires begun { self.old.begun ≤ length table.now }
        requires counted { (I.meaning inputs.now).count ≡ self.old.counts.inputs.number }
        ensures does { (o : System) →
            hands_over (I.meaning inputs.now) o (Message.ReadRequest operation output object)
            (state_of self.old log.old table.now)
            ≡ outcome (handing_says result) (state_of self.new log.new table.now) }
        ensures same { OnErr result ((self.new ≡ self.old) × (log.new ≡ log.old)) }
    {
        let me = self.counts.output(output)?;
        let object = self.counts.object(object)?;
        let operation = self.known(table, operation)?;
        let mut log = Log::new(log, self.made);
        self.outputs[me.index()]
            .answer_read(me, inputs, operation, object, &mut log)
            .unwrap();
        self.made = log.made();
        Ok(())
    }

    pub(crate) fn take_invalidation(
        &mut self,
        log: &mut [Message],
        input: u8,
        output: u8,
        pair: Pair,
    ) -> Result<(), Refusal>
        requires ready { Ready self.old log.old }
        ensures does { (i o : System) (t : List Place) →
            hands_over i o (Message.Invalidation input output pair.object pair.version)
            (state_of self.old log.old t)
            ≡ outcome (handing_says result) (state_of self.new log.new t) }
        ensures same { OnErr result ((self.new ≡ self.old) × (log.new ≡ log.old)) }
    {
        let between = self.counts.between(input, output, pair)?;
        let me = between.output;
        let mut log = Log::new(log, self.made);
        self.outputs[me.index()]
            .take_invalidation(me, between.input, &between.carried, &mut log)
            .unwrap();
        self.made = log.made();
        Ok(())
    }

    pub(crate) fn take_renewal_answer(
        &mut self,
        log: &mut [Message],
        input: u8,
        output: u8,
        renewed: Renewed,
    ) -> Result<(), Refusal>
        requires ready { Ready self.old log.old }
        ensures does { (i o : System) (t : List Place) →
            let message = Message.RenewalAnswer input output renewed in
            hands_over i o message (state_of self.old log.old t)
            ≡ outcome (handing_says result) (state_of self.new log.new t) }
        ensures same { OnErr result ((self.new ≡ self.old) × (log.new ≡ log.old)) }
    {
        let between = self.counts.between(input, output, renewed)?;
        let me = between.output;
        let mut log = Log::new(log, self.made);
        self.outputs[me.index()]
            .take_renewal(me, between.input, &between.carried, self.drift, &mut log)
            .unwrap();
        self.made = log.made();
        Ok(())
    }
}
