// A write that sends its version, and what it does with an answer.
ghost use Rattle.std.specs.Prelude.{◌≡◌, ◌^◌, ◌<◌, if◌then◌else◌, ◌==◌, nat_lt};
ghost use Rattle.quorum.specs.Sets.{has};
ghost use Rattle.rules.specs.Counts.{counts_of};
ghost use Rattle.rules.specs.Operation.{sending, hears_named, named_by, counts, is_written};
ghost use Rattle.rules.specs.Ranges.{named_fit};
ghost use Rattle.rules.specs.Reaction.{sends_next};
ghost use Rattle.operation.specs.Alone.{alone};
ghost use Rattle.operation.specs.Gathered.{gathered};

use crate::alone::State;
use crate::progress::{End, Progress};
use numbers::{InputIndex, Kind, Version};
use quorum::{MemberSet, QuorumSystem, Refusal, Systems};
use rules::{Counts, Message, SERVERS};

/// A write that sends its version. It knows, for each input server, which output servers that one
/// named as shut out. Its requests are made of what it tells; an asking write, which has no version
/// yet, tells none of it.
// The rules have no word for the few fields that the three states share, so each has its own.
#[derive(Drop, Debug)]
pub struct SendingWrite {
    pub(crate) operation: u16,
    pub(crate) object: u8,
    pub(crate) version: Version,
    pub(crate) value: u64,
    pub(crate) named: [MemberSet; SERVERS],
}

impl SendingWrite {
    ghost use Rattle.operation.specs.Says.{HandsBack, sending_step, sending_says};
    ghost use Rattle.operation.specs.States.{sending_of};

    /// Its number: 1 to 1,024 where it is in range.
    pub fn operation(&self) -> u16
        ensures { result ≡ (sending_of self.now).operation }
    {
        self.operation
    }

    /// The number of the object that it writes: 0 to 15 where it is in range.
    pub fn object(&self) -> u8
        ensures { result ≡ (sending_of self.now).object }
    {
        self.object
    }

    /// The version that it got.
    pub fn version(&self) -> Version
        ensures { result ≡ (sending_of self.now).version }
    {
        self.version
    }

    /// The value that it writes.
    pub fn value(&self) -> u64
        ensures { result ≡ (sending_of self.now).value }
    {
        self.value
    }
    /// Hands the write one message more. A write answer is gathered; once enough output servers
    /// count, the write has ended and is gone. Any other message in range has no effect.
    ///
    /// Refuses 2 where a system has more than 8 members, then 33 where a number of the message or
    /// of the write is out of range, or the message names another operation. A refusal hands the
    /// write back as it was.
    // What the three states share of this is `accept`: each gathers another message.
    pub fn answer<I: QuorumSystem, O: QuorumSystem>(
        self,
        message: &Message,
        systems: &Systems<I, O>,
    ) -> Result<Progress<SendingWrite>, (Refusal, SendingWrite)>
        ensures does { let inputs = I.meaning systems.now.inputs in
            let outputs = O.meaning systems.now.outputs in
            alone inputs outputs message.now (sending (sending_of self)) ≡ sending_says result }
        ensures same { HandsBack self result }
    {
        let write = self.accept(message, systems)?;
        match message {
            Message::WriteAnswer {
                input,
                operation,
                shut_out,
            } => Ok(write.hear(*input, *operation, *shut_out, systems)),
            _ => Ok(Progress::On(write)),
        }
    }

    // The output servers that one input server named to the operation. The numbers are plain, as
    // the message has them.
    fn hear<I: QuorumSystem, O: QuorumSystem>(
        self,
        input: u8,
        operation: u16,
        set: MemberSet,
        systems: &Systems<I, O>,
    ) -> Progress<SendingWrite>
        requires { input < 8 }
        ensures { let inputs = I.meaning systems.now.inputs in
            let outputs = O.meaning systems.now.outputs in
            let heard = hears_named input set (sending_of self) in
            sending_step result ≡ sends_next inputs outputs operation heard }
    {
        let write = self.with_named(input, set);
        if write.is_written(systems) {
            Progress::Ended(End {
                operation,
                version: write.version,
                value: write.value,
            })
        } else {
            Progress::On(write)
        }
    }

    // One answer more. Answers come one at a time from outside, so that there is no list to fold.
    fn with_named(mut self, input: u8, set: MemberSet) -> SendingWrite
        requires { input < 8 }
        ensures { sending_of result ≡ hears_named input set (sending_of self) }
    {
        let place = usize::from(input);
        self.named[place] = self.named[place].union(set);
        self
    }

    // The write has ended when the output servers that count are a write set.
    fn is_written<I: QuorumSystem, O: QuorumSystem>(&self, systems: &Systems<I, O>) -> bool
        ensures { let inputs = I.meaning systems.now.inputs in
            let outputs = O.meaning systems.now.outputs in
            result ≡ is_written inputs outputs (sending_of self.now) }
    {
        systems
            .outputs
            .is_write_set(self.counted(&systems.inputs, systems.outputs.count()))
    }

    // The output servers, among that many, that count.
    fn counted<I: QuorumSystem>(&self, inputs: &I, outputs: u8) -> MemberSet
        ensures { let system = I.meaning inputs.now in
            result ≡ gathered outputs (counts system system.count self.now.named) }
    {
        // gathered here: a function that is handed the test would be public, and have to ask its
        // callers that the test may be called; no public function asks anything
        (0..outputs)
            .filter(|output| self.is_counted(*output, inputs))
            .fold(MemberSet::EMPTY, |set, output| set.with(output))
    }

    // An output server counts when the input servers that named it are a write set.
    fn is_counted<I: QuorumSystem>(&self, output: u8, inputs: &I) -> bool
        ensures { let system = I.meaning inputs.now in
            result ≡ counts system system.count self.now.named output }
    {
        inputs.is_write_set(self.namers(output, inputs.count()))
    }

    // The input servers, among that many, that named an output server.
    fn namers(&self, output: u8, inputs: u8) -> MemberSet
        ensures { result ≡ gathered inputs (λ i. has (named_by self.now.named i) output) }
    {
        // gathered here: a function that is handed the test would be public, and have to ask its
        // callers that the test may be called; no public function asks anything
        (0..inputs)
            .filter(|input| self.named_by(*input).contains(output))
            .fold(MemberSet::EMPTY, |set, input| set.with(input))
    }

    // The output servers that an input server named: none where there is no such server.
    fn named_by(&self, input: u8) -> MemberSet
        ensures { result.0 ≡ named_by self.now.named input }
    {
        self.named
            .get(usize::from(input))
            .copied()
            .unwrap_or(MemberSet::EMPTY)
    }

    // Output servers that there are, for the input servers that there are, and none for others.
    fn named_fit(&self, counts: Counts) -> bool
        ensures { result ≡ named_fit (counts_of counts) 8 self.now.named }
    {
        (0..InputIndex::LIMIT).all(|input| self.named_fits(input, counts))
    }

    fn named_fits(&self, input: u8, counts: Counts) -> bool
        ensures { let named = named_by self.now.named input in
            result
            ≡ (if nat_lt input counts.inputs.number
            then nat_lt named (2 ^ counts.outputs.number)
            else (named == 0)) }
    {
        let named = self.named_by(input);
        if input < counts.inputs.get() {
            named.is_within(counts.outputs.get())
        } else {
            named == MemberSet::EMPTY
        }
    }
}

impl State for SendingWrite {
    ghost use Rattle.operation.specs.States.{sending_of};

    ghost meaning = { λ w. sending (sending_of w) };

    fn own_number(&self) -> u16 {
        self.operation()
    }

    fn fits(&self, counts: Counts, operation: u16) -> bool {
        self.operation == operation
            && self.object < counts.objects.get()
            && self.version.is_version()
            && self.named_fit(counts)
    }

    fn has_next_clock(&self) -> bool {
        true
    }
}
