ghost use Rattle.std.specs.Prelude.{◌≡◌, Some};
ghost use Rattle.wording.specs.Sentences.{line_of};

use crate::sentence::Sentence;
use rules::Message;
use std::fmt;

/// A message with its number in the log, told in one line: who sends what to whom. Whatever numbers
/// the message has, there is a line for it.
#[derive(Clone, Copy)]
pub struct Told<'a> {
    /// The number of the message in the log, which counts from 1.
    pub number: u64,
    /// The message.
    pub message: &'a Message,
}

impl<'a> Told<'a> {
    /// The message of this number, to be told.
    pub fn new(number: u64, message: &'a Message) -> Told<'a>
        ensures number { result.number ≡ number }
        ensures message { result.message.now ≡ message.now }
    {
        Told { number, message }
    }
}

/// As `message 4: input server 1 answers write 7: clock 9`, with no end of line.
impl<'a> fmt::Display for Told<'a> {
    ghost output = { λ t. Some (line_of t.number t.message.now) };

    fn fmt<W: fmt::Write>(&self, f: &mut fmt::Formatter<W>) -> fmt::Result {
        let number = self.number;
        let sentence = Sentence(self.message);
        write!(f, "message {number}: {sentence}")
    }
}
