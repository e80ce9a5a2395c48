// What a write changes: the version held, and what waits for each output server.
ghost use Rattle.std.specs.Prelude.{◌≡◌, ◌<◌, true};
ghost use Rattle.rules.specs.Input.{owed, takes_write, queues_for, queues_all};
ghost use Rattle.input_server.specs.Epochs.{has_epoch, have_epochs, next_epoch};
ghost use Rattle.input_server.specs.Views.{input_of};

use crate::requests::WriteRequest;
use crate::server::InputServer;
use chain::Queued;
use numbers::{Epoch, ObjectNumber, OutputNumber, ServerCount, Version};
use rules::{Held, Pair};

impl InputServer {
    // A version above the one held is taken, with its value.
    #[tactic(auto, unfolding(rules::specs::Input::takes_write))]
    pub(crate) fn take_version(&mut self, request: &WriteRequest)
        ensures { let p = request.now.pair.value in
            input_of self.new
            ≡ takes_write p.object p.version request.now.value (input_of self.old) }
    {
        let place = request.pair.object().index();
        let version = request.pair.value.version;
        let held = self.objects[place];
        if version > held.version {
            self.lc = self.lc.max(version.clock());
            self.objects[place] = Held {
                version,
                value: request.value,
                ..held
            };
        }
    }

    // Whether each output server can be given a further epoch: not where it has the last one.
    pub(crate) fn has_epochs(&self, outputs: ServerCount) -> bool
        ensures { result ≡ have_epochs self.now.ledgers outputs.number }
    {
        (0..outputs.index()).all(|output| self.ledgers[output].epoch < Epoch::LAST)
    }

    // The version held waits for every output server that has to be told of it, in rising order.
    pub(crate) fn queue_all(&mut self, outputs: ServerCount, object: ObjectNumber)
        requires { have_epochs self.old.ledgers outputs.number ≡ true }
        ensures { input_of self.new ≡ queues_all object.number outputs.number (input_of self.old) }
    {
        // a loop: of what a closure changes for `for_each`, a proof knows nothing afterwards
        for number in 0..outputs.get() {
            self.queue_for(number, object);
        }
    }

    // The number is a plain one, as the range yields it.
    fn queue_for(&mut self, number: u8, object: ObjectNumber)
        requires inside { number < 8 }
        requires spare { has_epoch self.old.ledgers number ≡ true }
        ensures { input_of self.new ≡ queues_for object.number number (input_of self.old) }
    {
        let output = OutputNumber::try_from(number).unwrap();
        if self.is_owed(output, object) {
            self.queue(output, object);
        }
    }

    // Whether the output server has to be told of a write: some output server was given a version,
    // and this one acknowledged none above it.
    fn is_owed(&self, output: OutputNumber, object: ObjectNumber) -> bool
        ensures { result ≡ owed (input_of self.now) object.number output.number }
    {
        let given = self.objects[object.index()].last_read;
        let acknowledged = self.ledgers[output.index()].last_acknowledged[object.index()];
        given != Version::NONE && acknowledged <= given
    }

    // Where the records ran out, nothing waits any more, and a new epoch says so.
    fn queue(&mut self, output: OutputNumber, object: ObjectNumber)
        requires spare { has_epoch self.old.ledgers output.number ≡ true }
        requires owes { owed (input_of self.old) object.number output.number ≡ true }
        ensures { input_of self.new ≡ queues_for object.number output.number (input_of self.old) }
    {
        let pair = Pair {
            object: object.get(),
            version: self.objects[object.index()].version,
        };
        match self.chains.queue(output, pair) {
            Queued::Waits => {}
            Queued::Freed => self.begin_epoch(output),
        }
    }

    // There is a next epoch: that was asked before the step began.
    fn begin_epoch(&mut self, output: OutputNumber)
        requires { has_epoch self.old.ledgers output.number ≡ true }
        ensures { input_of self.new ≡ next_epoch output.number (input_of self.old) }
    {
        self.ledgers[output.index()].epoch.0 += 1;
    }
}
