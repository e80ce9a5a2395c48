// An output server, and what it does with each kind of message that it is sent. Each step promises
// two things: `does`, that it is the step of the rules, and `same`, that where it refuses the
// server and the log themselves are as they were, and not only what they mean. Where it logs,
// `loan` says that the log is still the same loan. `me` is the server's own number: it is that of
// its place in a field, and no server keeps it a second time.
ghost use Rattle.std.specs.Prelude.{◌≡◌, OnErr};
ghost use Rattle.rules.specs.Answers.{acceptance};
ghost use Rattle.rules.specs.Output.{first_output};
ghost use Rattle.rules.specs.Steps.{step};

use crate::taking::acknowledge;
use numbers::{
    Drift, Epoch, InputNumber, Moment, ObjectNumber, OperationNumber, OutputNumber, ServerCount,
    Time, Version,
};
use quorum::{QuorumSystem, Refusal};
use rules::{Copied, InRange, Link, Log, Message, Newest, OBJECTS, Pair, Pairs, Renewed, SERVERS};

/// A server that answers reads from copies of its own. A copy is as good as the lease and the word
/// of the input server that gave it.
///
/// A step takes numbers that were tested, and asks for nine free places of the log before it
/// changes anything: where it refuses, server and log are as they were.
#[derive(Drop)]
pub struct OutputServer {
    pub(crate) clock: Moment,
    pub(crate) newest: [Newest; OBJECTS],
    pub(crate) links: [Link; SERVERS],
}

impl OutputServer {
    ghost use Rattle.output_server.specs.Steps.{ticking, read_step, answer_step, invalidation_step};
    ghost use Rattle.output_server.specs.Views.{output_of};

    /// A server with that time on its clock, which was given nothing yet.
    pub fn new(clock: Moment) -> OutputServer
        ensures { output_of result ≡ first_output (record { 0 = clock.micros }) }
    {
        let copied = Copied {
            got: Version::NONE,
            known: Version::NONE,
            epoch: Epoch::NONE,
        };
        let link = Link {
            copies: [copied; OBJECTS],
            epoch: Epoch::NONE,
            lease_end: Time::ZERO,
        };
        let newest = Newest {
            version: Version::NONE,
            value: 0,
        };
        OutputServer {
            clock,
            newest: [newest; OBJECTS],
            links: [link; SERVERS],
        }
    }

    /// What its clock shows, in microseconds: 0 to 2^40.
    pub fn clock(&self) -> Time
        ensures { result ≡ (output_of self.now).clock }
    {
        self.clock.into()
    }

    /// Lets so many microseconds pass. Refuses 12 where the clock would pass 2^40; it stays then.
    // Both kinds of servers share `later`; numbers know no refusals, so each names this one.
    pub fn tick(&mut self, increment: u64) -> Result<(), Refusal>
        ensures does { ticking increment (output_of self.old)
            ≡ (acceptance result, output_of self.new) }
        ensures same { OnErr result (self.new ≡ self.old) }
    {
        self.clock = self.clock.later(increment).ok_or(Refusal::PastLastTime)?;
        Ok(())
    }

    /// Takes the read request of an operation. It logs an answer with the newest version and value
    /// where it knows of nothing newer and the input servers whose copy is sound and whose lease is
    /// live are a read set of their system. Otherwise it logs a renewal request to every input
    /// server that is not so, rising.
    ///
    /// Refuses 2 where the system of the input servers has more than 8 members, then 32 where the
    /// log has fewer than nine free places.
    pub fn answer_read<I: QuorumSystem>(
        &self,
        me: OutputNumber,
        inputs: &I,
        operation: OperationNumber,
        object: ObjectNumber,
        log: &mut Log,
    ) -> Result<(), Refusal>
        ensures does { let server = output_of self.now in
            read_step (I.meaning inputs.now) me.number operation.number object.number
            server log.old.made log.old.messages.now
            ≡ step result server log.new }
        ensures same { OnErr result (log.new ≡ log.old) }
        ensures loan { log.new.messages.ghost_name ≡ log.old.messages.ghost_name }
    {
        let count = ServerCount::try_from(inputs.count()).map_err(|_| Refusal::TooManyMembers)?;
        if !log.has_room() {
            return Err(Refusal::NoRoomToDeliver);
        }
        if self.is_valid(inputs, count, object) {
            let newest = self.newest[object.index()];
            log.push(Message::ReadAnswer {
                output: me.get(),
                operation: operation.get(),
                version: newest.version,
                value: newest.value,
            });
        } else {
            self.ask_renewals(me, count, object, log);
        }
        Ok(())
    }

    /// Takes an invalidation from an input server: the version that it tells of is known from now
    /// on, and the acknowledgement of it is logged. Refuses 32 where the log has fewer than nine
    /// free places.
    #[tactic(auto, unfolding(rules::specs::Output::after_invalidation))]
    pub fn take_invalidation(
        &mut self,
        me: OutputNumber,
        input: InputNumber,
        pair: &InRange<Pair>,
        log: &mut Log,
    ) -> Result<(), Refusal>
        ensures does { let p = pair.now.value in
            invalidation_step me.number input.number p.object p.version
            (output_of self.old) log.old.made log.old.messages.now
            ≡ step result (output_of self.new) log.new }
        ensures same { OnErr result ((self.new ≡ self.old) × (log.new ≡ log.old)) }
        ensures loan { log.new.messages.ghost_name ≡ log.old.messages.ghost_name }
    {
        if !log.has_room() {
            return Err(Refusal::NoRoomToDeliver);
        }
        self.hear_from(input, pair.value);
        acknowledge(me, input, Pairs::one(pair.value), log);
        Ok(())
    }

    /// Takes a renewal answer from an input server: first what its list tells of, then its copy,
    /// which is accepted where nothing newer is known, then its lease, which ends the sooner the
    /// greater the drift is. The acknowledgement of the list is logged, unless the list is empty.
    /// Refuses 32 where the log has fewer than nine free places.
    pub fn take_renewal(
        &mut self,
        me: OutputNumber,
        input: InputNumber,
        renewed: &InRange<Renewed>,
        drift: Drift,
        log: &mut Log,
    ) -> Result<(), Refusal>
        ensures does { answer_step drift.thousandths me.number input.number renewed.now.value
            (output_of self.old) log.old.made log.old.messages.now
            ≡ step result (output_of self.new) log.new }
        ensures same { OnErr result ((self.new ≡ self.old) × (log.new ≡ log.old)) }
        ensures loan { log.new.messages.ghost_name ≡ log.old.messages.ghost_name }
    {
        if !log.has_room() {
            return Err(Refusal::NoRoomToDeliver);
        }
        self.renew_from(input, renewed, drift);
        acknowledge(me, input, renewed.value.list, log);
        Ok(())
    }
}
