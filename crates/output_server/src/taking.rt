// What becomes of the newest pair, and what is acknowledged.
ghost use Rattle.std.specs.Prelude.{◌≡◌, ◌<◌, length};
ghost use Rattle.rules.specs.Output.{link, hears, after_answer, acknowledgement};
ghost use Rattle.rules.specs.Steps.{Logs};
ghost use Rattle.output_server.specs.Views.{output_of, with_link, with_newest};

use crate::link::{hear, renew};
use crate::server::OutputServer;
use numbers::{Drift, InputNumber, OutputNumber};
use rules::{InRange, Log, Message, Newest, Pair, Pairs, Renewed};

impl OutputServer {
    // An input server told of a version.
    pub(crate) fn hear_from(&mut self, input: InputNumber, pair: Pair)
        ensures { let before = output_of self.old in
            let i = input.number in
            output_of self.new ≡ with_link i (hears pair (link before i)) before }
    {
        hear(&mut self.links[input.index()], pair);
    }

    // A renewal answer changes what is kept of its sender, and where its copy is accepted and above
    // the newest, that copy is the newest.
    #[tactic(auto, unfolding(rules::specs::Output::after_answer))]
    pub(crate) fn renew_from(
        &mut self,
        input: InputNumber,
        renewed: &InRange<Renewed>,
        drift: Drift,
    )
        ensures { output_of self.new
            ≡ after_answer drift.thousandths input.number renewed.now.value (output_of self.old) }
    {
        if renew(&mut self.links[input.index()], renewed, drift) {
            self.take_newest(renewed);
        }
    }

    // A copy that is above the newest is the newest.
    fn take_newest(&mut self, renewed: &InRange<Renewed>)
        ensures { output_of self.new ≡ with_newest renewed.now.value (output_of self.old) }
    {
        let newest = &mut self.newest[renewed.object().index()];
        if renewed.value.version > newest.version {
            *newest = Newest {
                version: renewed.value.version,
                value: renewed.value.value,
            };
        }
    }
}

// The same list goes back to the input server that it is from, unless it is empty.
pub(crate) fn acknowledge(me: OutputNumber, input: InputNumber, list: Pairs, log: &mut Log)
    requires { log.old.made < length log.old.messages.now }
    ensures { Logs log.old log.new (acknowledgement me.number input.number list) }
{
    if list.count > 0 {
        log.push(Message::InvalidationAnswer {
            output: me.get(),
            input: input.get(),
            list,
        });
    }
}
