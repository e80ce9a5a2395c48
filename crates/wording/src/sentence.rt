// A message in words, without its number.
ghost use Rattle.std.specs.Prelude.{◌≡◌, Some};
ghost use Rattle.wording.specs.Sentences.{sender_text, verb_text, receiver_text, sentence_of};

use crate::content::Content;
use rules::Message;
use std::fmt;

// Who sends what to whom.
#[derive(Clone, Copy)]
pub(crate) struct Sentence<'a>(pub(crate) &'a Message);

impl<'a> fmt::Display for Sentence<'a> {
    ghost output = { λ s. Some (sentence_of s.0.now) };

    fn fmt<W: fmt::Write>(&self, f: &mut fmt::Formatter<W>) -> fmt::Result {
        let sender = Sender(self.0);
        let verb = verb(self.0);
        let receiver = Receiver(self.0);
        let content = Content(self.0);
        write!(f, "{sender} {verb} {receiver}{content}")
    }
}

// Whom a message comes from.
#[derive(Clone, Copy)]
struct Sender<'a>(&'a Message);

impl<'a> fmt::Display for Sender<'a> {
    ghost output = { λ s. Some (sender_text s.0.now) };

    fn fmt<W: fmt::Write>(&self, f: &mut fmt::Formatter<W>) -> fmt::Result {
        match *self.0 {
            Message::ClockQuestion { operation, .. } | Message::WriteRequest { operation, .. } => {
                write!(f, "write {operation}")
            }
            Message::ReadRequest { operation, .. } => write!(f, "read {operation}"),
            Message::ClockAnswer { input, .. }
            | Message::WriteAnswer { input, .. }
            | Message::RenewalAnswer { input, .. }
            | Message::Invalidation { input, .. } => write!(f, "input server {input}"),
            Message::ReadAnswer { output, .. }
            | Message::RenewalRequest { output, .. }
            | Message::InvalidationAnswer { output, .. } => write!(f, "output server {output}"),
        }
    }
}

// Whom a message is for.
#[derive(Clone, Copy)]
struct Receiver<'a>(&'a Message);

impl<'a> fmt::Display for Receiver<'a> {
    ghost output = { λ r. Some (receiver_text r.0.now) };

    fn fmt<W: fmt::Write>(&self, f: &mut fmt::Formatter<W>) -> fmt::Result {
        match *self.0 {
            Message::ClockAnswer { operation, .. } | Message::WriteAnswer { operation, .. } => {
                write!(f, "write {operation}")
            }
            Message::ReadAnswer { operation, .. } => write!(f, "read {operation}"),
            Message::ClockQuestion { input, .. }
            | Message::WriteRequest { input, .. }
            | Message::RenewalRequest { input, .. }
            | Message::InvalidationAnswer { input, .. } => write!(f, "input server {input}"),
            Message::ReadRequest { output, .. }
            | Message::RenewalAnswer { output, .. }
            | Message::Invalidation { output, .. } => write!(f, "output server {output}"),
        }
    }
}

fn verb(message: &Message) -> &'static str
    ensures { result.now ≡ verb_text message.now }
{
    match message {
        Message::ClockQuestion { .. }
        | Message::WriteRequest { .. }
        | Message::ReadRequest { .. }
        | Message::RenewalRequest { .. } => "asks",
        Message::ClockAnswer { .. }
        | Message::WriteAnswer { .. }
        | Message::ReadAnswer { .. }
        | Message::RenewalAnswer { .. } => "answers",
        Message::Invalidation { .. } | Message::InvalidationAnswer { .. } => "tells",
    }
}
