// Messages that go to every server of a side.
ghost use Rattle.std.specs.Prelude.{◌≡◌, ℕ, ◌+◌, ◌≤◌, List, [], ◌∷◌, length};
ghost use Rattle.operation.specs.declared.table.Operation.{Operation as Place};
ghost use Rattle.operation.specs.States.{sending_of};
ghost use Rattle.rules.specs.declared.message.Message.{Message as AnyMessage};
ghost use Rattle.rules.specs.declared.message.Message.TheVariants.{ClockQuestion, WriteRequest, ReadRequest};
ghost use Rattle.rules.specs.Lists.{each};
ghost use Rattle.rules.specs.State.{post};
ghost use Rattle.field.specs.Views.{state_of};

use crate::open_field::OpenField;
use numbers::ServerCount;
use operation::SendingWrite;
use rules::{Log, Message};

// A message for each server of a side. It is a trait, and no closure: `log_all` names each
// message in its promise, and of a closure every caller would have to say first which function it
// computes.
pub(crate) trait Requests {
    ghost message: { Self → ℕ → AnyMessage };

    // The one to the server with that number.
    fn request(&self, number: u8) -> Message
        ensures { result ≡ message self.now number };
}

#[derive(Drop)]
pub(crate) struct ClockQuestions {
    pub(crate) operation: u16,
}

impl Requests for ClockQuestions {
    ghost message = { λ q i. ClockQuestion q.operation i };

    fn request(&self, number: u8) -> Message {
        Message::ClockQuestion {
            operation: self.operation,
            input: number,
        }
    }
}

#[derive(Drop)]
pub(crate) struct ReadRequests {
    pub(crate) operation: u16,
    pub(crate) object: u8,
}

impl Requests for ReadRequests {
    ghost message = { λ q j. ReadRequest q.operation j q.object };

    fn request(&self, number: u8) -> Message {
        Message::ReadRequest {
            operation: self.operation,
            output: number,
            object: self.object,
        }
    }
}

impl Requests for SendingWrite {
    ghost message = { λ w i. let x = sending_of w in
        WriteRequest x.operation i x.object x.version x.value };

    fn request(&self, number: u8) -> Message {
        Message::WriteRequest {
            operation: self.operation(),
            input: number,
            object: self.object(),
            version: self.version(),
            value: self.value(),
        }
    }
}

impl OpenField {
    // One to each server below the count, rising.
    pub(crate) fn log_all<R: Requests>(
        &mut self,
        log: &mut [Message],
        requests: &R,
        count: ServerCount,
    )
        requires { self.old.made + 9 ≤ length log.old }
        ensures { (t : List Place) →
            let sends = each count.number (λ i. R.message requests.now i ∷ []) in
            state_of self.new log.new t ≡ post sends (state_of self.old log.old t) }
    {
        let mut log = Log::new(log, self.made);
        // a `for`: after `for_each` a proof knows nothing of the log that its closure writes
        for number in 0..count.get() {
            log.push(requests.request(number));
        }
        self.made = log.made();
    }
}
