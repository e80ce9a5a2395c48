// Whether an output server may answer a read, and what it asks for where it may not.
ghost use Rattle.std.specs.Prelude.{◌≡◌, ◌+◌, ◌<◌, ◌≤◌, length};
ghost use Rattle.quorum.specs.Sets.{set_of};
ghost use Rattle.rules.specs.Output.{sound, leased, good, covers, valid, asked, asks, asks_all};
ghost use Rattle.rules.specs.Steps.{Logs};
ghost use Rattle.output_server.specs.Views.{output_of};

use crate::link::is_sound;
use crate::server::OutputServer;
use numbers::{ObjectNumber, OutputNumber, ServerCount};
use quorum::{MemberSet, QuorumSystem};
use rules::{Log, Message, Parts, Renewal};

impl OutputServer {
    // The validity condition: nothing newer than the newest is known, and the input servers whose
    // copy is sound and whose lease is live are a read set.
    pub(crate) fn is_valid<I: QuorumSystem>(
        &self,
        inputs: &I,
        count: ServerCount,
        object: ObjectNumber,
    ) -> bool
        ensures { result
            ≡ valid (I.meaning inputs.now) count.number object.number (output_of self.now) }
    {
        self.is_newest(count, object) && inputs.is_read_set(self.good_inputs(count, object))
    }

    // Whether the newest version is at least what every input server told of.
    fn is_newest(&self, count: ServerCount, object: ObjectNumber) -> bool
        ensures { result ≡ covers (output_of self.now) object.number count.number }
    {
        let newest = self.newest[object.index()].version;
        (0..count.index()).all(|input| self.links[input].copies[object.index()].known <= newest)
    }

    fn good_inputs(&self, count: ServerCount, object: ObjectNumber) -> MemberSet
        ensures { result.0 ≡ set_of count.number (good (output_of self.now) object.number) }
    {
        // gathered here: a function that is handed the test would be public, and have to ask its
        // callers that the test may be called; no public function asks anything
        (0..count.get())
            .filter(|input| self.is_good(*input, object))
            .fold(MemberSet::EMPTY, |set, input| set.with(input))
    }

    // Here and below the number is a plain one, as the ranges yield it, and as in an input server.
    fn is_good(&self, input: u8, object: ObjectNumber) -> bool
        requires { input < 8 }
        ensures { result ≡ good (output_of self.now) object.number input }
    {
        self.has_sound(input, object) && self.is_leased(input)
    }

    fn has_sound(&self, input: u8, object: ObjectNumber) -> bool
        requires { input < 8 }
        ensures { result ≡ sound (output_of self.now) object.number input }
    {
        let link = &self.links[input as usize];
        is_sound(link.copies[object.index()], link.epoch)
    }

    fn is_leased(&self, input: u8) -> bool
        requires { input < 8 }
        ensures { result ≡ leased (output_of self.now) input }
    {
        self.links[input as usize]
            .lease_end
            .is_live_at(self.clock())
    }

    // A renewal request to every input server that is not good, rising. It reads as the telling of
    // an input server does; only test and message differ, and a trait of messages that may be none,
    // which both crates would have to stand on, would take more lines than it saves.
    pub(crate) fn ask_renewals(
        &self,
        me: OutputNumber,
        count: ServerCount,
        object: ObjectNumber,
        log: &mut Log,
    )
        requires { log.old.made + 9 ≤ length log.old.messages.now }
        ensures { let server = output_of self.now in
            Logs log.old log.new (asks_all me.number count.number object.number server) }
    {
        // a loop: of what a closure changes for `for_each`, a proof knows nothing afterwards
        for input in 0..count.get() {
            self.ask_renewal(me, input, object, log);
        }
    }

    // One to an input server that is not good.
    fn ask_renewal(&self, me: OutputNumber, input: u8, object: ObjectNumber, log: &mut Log)
        requires { (input < 8) × (log.old.made < length log.old.messages.now) }
        ensures { Logs log.old log.new (asks me.number object.number (output_of self.now) input) }
    {
        if !self.is_good(input, object) {
            log.push(Message::RenewalRequest {
                output: me.get(),
                input,
                renewal: self.asked(input, object),
            });
        }
    }

    // What is asked of an input server that is not good: what it lacks.
    fn asked(&self, input: u8, object: ObjectNumber) -> Renewal
        requires { input < 8 }
        ensures { result ≡ asked object.number (output_of self.now) input }
    {
        Renewal {
            parts: Parts::of(!self.has_sound(input, object), !self.is_leased(input)),
            object: object.get(),
            stamp: self.clock(),
        }
    }
}
