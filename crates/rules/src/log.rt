ghost use Rattle.std.specs.Prelude.{◌≡◌, ◌<◌, ◌≤◌, [], ◌∷◌, length};
ghost use Rattle.rules.specs.Steps.{has_room, Logs};

use crate::limits::STEP_MESSAGES;
use crate::message::Message;

/// Whether a log in which so many messages are made has nine free places, the most that a step
/// fills.
// Slice and count come apart here, of a log that is only looked at: a `Log` borrows it to write.
pub fn has_room(log: &[Message], made: usize) -> bool
    ensures { result ≡ has_room made log.now }
{
    log.len() >= STEP_MESSAGES && made <= log.len() - STEP_MESSAGES
}

/// A log that is lent: the messages that were made, in order, and behind them the places that are
/// free.
///
/// It is no more than its two fields, and may be made of any slice and any count; a count beyond
/// the end of the slice is a full log.
// Each promise about a log says that the loan is still the same one, so that a caller who gets his
// slice back knows what is in it.
#[derive(Drop)]
pub struct Log<'a> {
    /// The places of the log, written and free.
    pub messages: &'a mut [Message],
    /// How many messages are made: they lie in the first places.
    pub made: usize,
}

impl<'a> Log<'a> {
    /// A log in which so many messages are made already.
    pub fn new(messages: &'a mut [Message], made: usize) -> Log<'a>
        ensures loan { result.messages.ghost_name ≡ messages.entry.ghost_name }
        ensures messages { result.messages.now ≡ messages.old }
        ensures made { result.made ≡ made }
    {
        Log { messages, made }
    }

    /// How many messages are made.
    pub fn made(&self) -> usize
        ensures { result ≡ self.now.made }
    {
        self.made
    }

    /// Whether nine places are free, the most that a step fills.
    pub fn has_room(&self) -> bool
        ensures { result ≡ has_room self.now.made self.now.messages.now }
    {
        has_room(self.messages, self.made)
    }

    /// Puts one message more into the first free place. A log that is full stays as it is.
    pub fn push(&mut self, message: Message)
        ensures logged { self.old.made < length self.old.messages.now
            → Logs self.old self.new (message ∷ []) }
        ensures full { length self.old.messages.now ≤ self.old.made → self.new ≡ self.old }
    {
        if self.made < self.messages.len() {
            self.messages[self.made] = message;
            self.made += 1;
        }
    }
}
