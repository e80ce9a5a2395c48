// An input server, and what it does with each kind of message that it is sent. Each step promises
// two things: `does`, that it is the step of the rules, and `same`, that where it refuses the
// server and the log themselves are as they were, and not only what they mean. Where it logs,
// `loan` says that the log is still the same loan. `me` is the server's own number: it is that of
// its place in a field, and no server keeps it a second time.
ghost use Rattle.std.specs.Prelude.{◌≡◌, OnErr};
ghost use Rattle.rules.specs.Answers.{acceptance};
ghost use Rattle.rules.specs.Input.{first_input};
ghost use Rattle.rules.specs.Steps.{step};

use crate::requests::{RenewalRequest, WriteRequest};
use chain::Chains;
use numbers::{Epoch, InputNumber, Moment, OperationNumber, Time, Version};
use quorum::Refusal;
use rules::{Held, Ledger, Log, Message, OBJECTS, SERVERS};

/// A server that takes writes and grants leases. It keeps of each object the newest version and the
/// highest that it gave to any output server, and of each output server what that acknowledged,
/// its epoch, its lease end and what waits for it.
///
/// A step takes numbers that were tested, and asks for nine free places of the log before it
/// changes anything: where it refuses, server and log are as they were.
#[derive(Drop)]
pub struct InputServer {
    pub(crate) clock: Moment,
    // the highest clock of any version taken
    pub(crate) lc: u16,
    pub(crate) objects: [Held; OBJECTS],
    pub(crate) ledgers: [Ledger; SERVERS],
    pub(crate) chains: Chains,
}

impl InputServer {
    ghost use Rattle.input_server.specs.Steps.{ticking, clock_step, write_step, renewal_step};
    ghost use Rattle.input_server.specs.Views.{input_of};

    /// A server with that time on its clock. It holds the starting version of every object, was
    /// asked nothing yet and gave no lease.
    pub fn new(clock: Moment) -> InputServer
        ensures { input_of result ≡ first_input (record { 0 = clock.micros }) }
    {
        let held = Held {
            version: Version::STARTING,
            value: 0,
            last_read: Version::NONE,
        };
        let ledger = Ledger {
            last_acknowledged: [Version::NONE; OBJECTS],
            epoch: Epoch::FIRST,
            lease_end: Time::ZERO,
        };
        InputServer {
            clock,
            lc: 1,
            objects: [held; OBJECTS],
            ledgers: [ledger; SERVERS],
            chains: Chains::new(),
        }
    }

    /// What its clock shows, in microseconds: 0 to 2^40.
    pub fn clock(&self) -> Time
        ensures { result ≡ (input_of self.now).clock }
    {
        self.clock.into()
    }

    /// Lets so many microseconds pass. Refuses 12 where the clock would pass 2^40; it stays then.
    // Both kinds of servers share `later`; numbers know no refusals, so each names this one.
    pub fn tick(&mut self, increment: u64) -> Result<(), Refusal>
        ensures does { ticking increment (input_of self.old)
            ≡ (acceptance result, input_of self.new) }
        ensures same { OnErr result (self.new ≡ self.old) }
    {
        self.clock = self.clock.later(increment).ok_or(Refusal::PastLastTime)?;
        Ok(())
    }

    /// Takes the clock question of a write: logs the highest clock of any version that it took.
    /// Refuses 32 where the log has fewer than nine free places.
    pub fn answer_clock(
        &self,
        me: InputNumber,
        operation: OperationNumber,
        log: &mut Log,
    ) -> Result<(), Refusal>
        ensures does { let server = input_of self.now in
            clock_step me.number operation.number server log.old.made log.old.messages.now
            ≡ step result server log.new }
        ensures same { OnErr result (log.new ≡ log.old) }
        ensures loan { log.new.messages.ghost_name ≡ log.old.messages.ghost_name }
    {
        if !log.has_room() {
            return Err(Refusal::NoRoomToDeliver);
        }
        log.push(Message::ClockAnswer {
            input: me.get(),
            operation: operation.get(),
            clock: self.lc,
        });
        Ok(())
    }

    /// Takes a write request. A version above the one held is held from now on, with its value.
    /// Taken or not, where any output server was ever given the object, the version then held waits
    /// for each that acknowledged nothing above the highest version given. Then it logs an
    /// invalidation to each output server that is not shut out, rising, and an answer that names
    /// those that are.
    ///
    /// Refuses 32 where the log has fewer than nine free places, then 33 where an output server has
    /// the last epoch, which no other one can follow.
    pub fn take_write(
        &mut self,
        me: InputNumber,
        request: &WriteRequest,
        log: &mut Log,
    ) -> Result<(), Refusal>
        ensures does { let r = request.now in
            let p = r.pair.value in
            write_step me.number r.operation.number r.outputs.number p.object p.version r.value
            (input_of self.old) log.old.made log.old.messages.now
            ≡ step result (input_of self.new) log.new }
        ensures same { OnErr result ((self.new ≡ self.old) × (log.new ≡ log.old)) }
        ensures loan { log.new.messages.ghost_name ≡ log.old.messages.ghost_name }
    {
        if !log.has_room() {
            return Err(Refusal::NoRoomToDeliver);
        }
        if !self.has_epochs(request.outputs) {
            return Err(Refusal::OutOfRange);
        }
        let object = request.pair.object();
        self.take_version(request);
        self.queue_all(request.outputs, object);
        self.tell_all(me, request.outputs, object, log);
        log.push(Message::WriteAnswer {
            input: me.get(),
            operation: request.operation.get(),
            shut_out: self.shut_out(request.outputs, object),
        });
        Ok(())
    }

    /// Takes a renewal request, and logs one answer. Where the object is asked for, the answer has
    /// the version held, and that is noted as given. Where a lease is asked for, it has the first 8
    /// invalidations that wait for the output server; where no more wait, the lease runs from now
    /// on, and otherwise none is granted and its length is 0. Refuses 32 where the log has fewer
    /// than nine free places.
    pub fn answer_renewal(
        &mut self,
        me: InputNumber,
        request: &RenewalRequest,
        log: &mut Log,
    ) -> Result<(), Refusal>
        ensures does { let r = request.now in
            renewal_step me.number r.lease.micros r.output.number r.renewal.value
            (input_of self.old) log.old.made log.old.messages.now
            ≡ step result (input_of self.new) log.new }
        ensures same { OnErr result ((self.new ≡ self.old) × (log.new ≡ log.old)) }
        ensures loan { log.new.messages.ghost_name ≡ log.old.messages.ghost_name }
    {
        if !log.has_room() {
            return Err(Refusal::NoRoomToDeliver);
        }
        let granted = self.granted(request);
        log.push(Message::RenewalAnswer {
            input: me.get(),
            output: request.output.get(),
            renewed: self.renewed(request, granted),
        });
        if let Some(lease) = granted {
            self.grant(request.output, lease);
        }
        self.give(&request.renewal);
        Ok(())
    }
}
