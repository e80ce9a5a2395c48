// A read, and what it does with an answer.
ghost use Rattle.std.specs.Prelude.{◌≡◌};
ghost use Rattle.rules.specs.Operation.{reading, first_reading, hears_pair};
ghost use Rattle.rules.specs.Reaction.{reads_next};
ghost use Rattle.operation.specs.Alone.{alone};

use crate::alone::State;
use crate::progress::{End, Progress};
use numbers::Version;
use quorum::{MemberSet, QuorumSystem, Refusal, Systems};
use rules::{Counts, Message};

/// A read. It knows which output servers answered, and the highest version among their answers,
/// with its value.
// It shares fields with the other states, for which the rules have no word.
#[derive(Drop, Debug)]
pub struct Read {
    pub(crate) operation: u16,
    pub(crate) object: u8,
    pub(crate) senders: MemberSet,
    pub(crate) version: Version,
    pub(crate) value: u64,
}

impl Read {
    ghost use Rattle.operation.specs.Says.{HandsBack, read_step, read_says};
    ghost use Rattle.operation.specs.States.{reading_of};

    /// A read of an object, which has heard nothing yet. Any numbers are taken: `answer` refuses
    /// those that are out of range.
    pub fn new(operation: u16, object: u8) -> Read
        ensures { reading_of result ≡ first_reading operation object }
    {
        Read {
            operation,
            object,
            senders: MemberSet::EMPTY,
            version: Version::NONE,
            value: 0,
        }
    }

    /// Hands the read one message more. A read answer is gathered; once a read set of the output
    /// servers has answered, the read has ended and is gone. Any other message in range has no
    /// effect.
    ///
    /// Refuses 2 where a system has more than 8 members, then 33 where a number of the message or
    /// of the read is out of range, or the message names another operation. A refusal hands the
    /// read back as it was.
    // What the three states share of this is `accept`: each gathers another message.
    pub fn answer<I: QuorumSystem, O: QuorumSystem>(
        self,
        message: &Message,
        systems: &Systems<I, O>,
    ) -> Result<Progress<Read>, (Refusal, Read)>
        ensures does { let inputs = I.meaning systems.now.inputs in
            let outputs = O.meaning systems.now.outputs in
            alone inputs outputs message.now (reading (reading_of self)) ≡ read_says result }
        ensures same { HandsBack self result }
    {
        let read = self.accept(message, systems)?;
        match message {
            Message::ReadAnswer {
                output,
                operation,
                version,
                value,
            } => Ok(read.hear(*output, *operation, *version, *value, &systems.outputs)),
            _ => Ok(Progress::On(read)),
        }
    }

    // The pair that one output server gives the operation.
    fn hear<O: QuorumSystem>(
        self,
        output: u8,
        operation: u16,
        version: Version,
        value: u64,
        outputs: &O,
    ) -> Progress<Read>
        ensures { let heard = hears_pair output version value (reading_of self) in
            read_step result ≡ reads_next (O.meaning outputs.now) operation heard }
    {
        let read = self.with_pair(output, version, value);
        if outputs.is_read_set(read.senders) {
            Progress::Ended(End {
                operation,
                version: read.version,
                value: read.value,
            })
        } else {
            Progress::On(read)
        }
    }

    // Between equal versions the pair that came first stays.
    fn with_pair(self, output: u8, version: Version, value: u64) -> Read
        ensures { reading_of result ≡ hears_pair output version value (reading_of self) }
    {
        let read = Read {
            senders: self.senders.with(output),
            ..self
        };
        if version > read.version {
            Read {
                version,
                value,
                ..read
            }
        } else {
            read
        }
    }
}

impl State for Read {
    ghost use Rattle.operation.specs.States.{reading_of};

    ghost meaning = { λ r. reading (reading_of r) };

    fn own_number(&self) -> u16 {
        self.operation
    }

    fn fits(&self, counts: Counts, operation: u16) -> bool {
        self.operation == operation
            && self.object < counts.objects.get()
            && self.senders.is_within(counts.outputs.get())
            && (self.version == Version::NONE || self.version.is_version())
    }

    fn has_next_clock(&self) -> bool {
        true
    }
}
