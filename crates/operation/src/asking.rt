// A write that asks for clocks, and what it does with an answer.
ghost use Rattle.std.specs.Prelude.{◌≡◌, ◌<◌};
ghost use Rattle.rules.specs.Operation.{asking, first_asking, hears_clock, gets_version};
ghost use Rattle.rules.specs.Reaction.{asks_next};
ghost use Rattle.operation.specs.Alone.{alone};

use crate::alone::State;
use crate::progress::AskingProgress;
use crate::sending::SendingWrite;
use numbers::Version;
use quorum::{MemberSet, QuorumSystem, Refusal, Systems};
use rules::{Counts, Message, SERVERS};

/// A write that asks for clocks. It knows which input servers answered, and the highest clock among
/// their answers. It cannot tell a version: it has none yet.
// It shares fields with the other states, for which the rules have no word.
#[derive(Drop, Debug)]
pub struct AskingWrite {
    pub(crate) operation: u16,
    pub(crate) object: u8,
    pub(crate) value: u64,
    pub(crate) senders: MemberSet,
    pub(crate) clock: u16,
}

impl AskingWrite {
    ghost use Rattle.operation.specs.Says.{HandsBack, asking_step, asking_says};
    ghost use Rattle.operation.specs.States.{asking_of, sending_of};

    /// A write of a value to an object, which has heard nothing yet. Any numbers are taken:
    /// `answer` refuses those that are out of range.
    pub fn new(operation: u16, object: u8, value: u64) -> AskingWrite
        ensures { asking_of result ≡ first_asking operation object value }
    {
        AskingWrite {
            operation,
            object,
            value,
            senders: MemberSet::EMPTY,
            clock: 0,
        }
    }

    /// Hands the write one message more. A clock answer is gathered; once a read set of the input
    /// servers has answered, the write has its version and sends. Any other message in range has no
    /// effect.
    ///
    /// Refuses 2 where a system has more than 8 members, then 33 where a number of the message or
    /// of the write is out of range, or the message names another operation. A refusal hands the
    /// write back as it was.
    pub fn answer<I: QuorumSystem, O: QuorumSystem>(
        self,
        message: &Message,
        systems: &Systems<I, O>,
    ) -> Result<AskingProgress, (Refusal, AskingWrite)>
        ensures does { let inputs = I.meaning systems.now.inputs in
            let outputs = O.meaning systems.now.outputs in
            alone inputs outputs message.now (asking (asking_of self)) ≡ asking_says inputs result }
        ensures same { HandsBack self result }
    {
        let write = self.accept(message, systems)?;
        match message {
            Message::ClockAnswer { input, clock, .. } => {
                Ok(write.hear(*input, *clock, &systems.inputs))
            }
            _ => Ok(AskingProgress::Asking(write)),
        }
    }

    // The clock of one input server.
    fn hear<I: QuorumSystem>(self, input: u8, clock: u16, inputs: &I) -> AskingProgress
        requires { (self.clock < 65535) × (clock < 65535) }
        ensures { let system = I.meaning inputs.now in
            asking_step system result
            ≡ asks_next system (hears_clock input clock (asking_of self)) }
    {
        let write = AskingWrite {
            senders: self.senders.with(input),
            clock: self.clock.max(clock),
            ..self
        };
        if inputs.is_read_set(write.senders) {
            AskingProgress::Sending(write.with_version())
        } else {
            AskingProgress::Asking(write)
        }
    }

    // The write with its version, which has named nobody yet.
    fn with_version(self) -> SendingWrite
        requires { self.clock < 65535 }
        ensures { sending_of result ≡ gets_version (asking_of self) }
    {
        SendingWrite {
            operation: self.operation,
            object: self.object,
            version: Version::after(self.clock, self.operation).unwrap(),
            value: self.value,
            named: [MemberSet::EMPTY; SERVERS],
        }
    }
}

impl State for AskingWrite {
    ghost use Rattle.operation.specs.States.{asking_of};

    ghost meaning = { λ w. asking (asking_of w) };

    fn own_number(&self) -> u16 {
        self.operation
    }

    fn fits(&self, counts: Counts, operation: u16) -> bool {
        // any clock of 16 bits is in range, which the check knows of a number that is read
        let _clock = self.clock;
        self.operation == operation
            && self.object < counts.objects.get()
            && self.senders.is_within(counts.inputs.get())
    }

    fn has_next_clock(&self) -> bool {
        self.clock < u16::MAX
    }
}
