// Who is shut out, and who is told of a write.
ghost use Rattle.std.specs.Prelude.{◌≡◌, ◌+◌, ◌<◌, ◌≤◌, length};
ghost use Rattle.quorum.specs.Sets.{set_of};
ghost use Rattle.rules.specs.Input.{is_shut_out, invalidation, invalidations};
ghost use Rattle.rules.specs.Steps.{Logs};
ghost use Rattle.input_server.specs.Views.{input_of};

use crate::server::InputServer;
use numbers::{InputNumber, ObjectNumber, ServerCount, Time, Version};
use quorum::MemberSet;
use rules::{Log, Message};

impl InputServer {
    // An output server is shut out for an object if nobody was ever given the object, if it
    // acknowledged more than was ever given or the version held, or if its lease is over. The
    // number is a plain one, as the ranges below yield it: an iterator of checked numbers would
    // be a type of its own, with laws of its own, for a comparison that the check makes alone.
    fn is_shut_out(&self, output: u8, object: ObjectNumber) -> bool
        requires { output < 8 }
        ensures { result ≡ is_shut_out (input_of self.now) object.number output }
    {
        let held = self.objects[object.index()];
        let acknowledged = self.ledgers[output as usize].last_acknowledged[object.index()];
        held.last_read == Version::NONE
            || held.last_read < acknowledged
            || held.version <= acknowledged
            || self.ledgers[output as usize].lease_end <= Time::from(self.clock)
    }

    // All that are shut out.
    pub(crate) fn shut_out(&self, outputs: ServerCount, object: ObjectNumber) -> MemberSet
        ensures { result.0 ≡ set_of outputs.number (is_shut_out (input_of self.now) object.number) }
    {
        // gathered here: a function that is handed the test would be public, and have to ask its
        // callers that the test may be called; no public function asks anything
        (0..outputs.get())
            .filter(|output| self.is_shut_out(*output, object))
            .fold(MemberSet::EMPTY, |set, output| set.with(output))
    }

    // An invalidation to every output server that is not shut out, rising.
    pub(crate) fn tell_all(
        &self,
        me: InputNumber,
        outputs: ServerCount,
        object: ObjectNumber,
        log: &mut Log,
    )
        requires { log.old.made + 9 ≤ length log.old.messages.now }
        ensures { let server = input_of self.now in
            Logs log.old log.new (invalidations me.number outputs.number object.number server) }
    {
        // a loop: of what a closure changes for `for_each`, a proof knows nothing afterwards
        for output in 0..outputs.get() {
            self.tell(me, output, object, log);
        }
    }

    // One to an output server that is not shut out.
    fn tell(&self, me: InputNumber, output: u8, object: ObjectNumber, log: &mut Log)
        requires { (output < 8) × (log.old.made < length log.old.messages.now) }
        ensures { let server = input_of self.now in
            Logs log.old log.new (invalidation me.number object.number server output) }
    {
        if !self.is_shut_out(output, object) {
            log.push(Message::Invalidation {
                input: me.get(),
                output,
                object: object.get(),
                version: self.objects[object.index()].version,
            });
        }
    }
}
