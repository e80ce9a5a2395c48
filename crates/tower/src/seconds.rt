// Times in words.
use numbers::Time;
use std::fmt;

// A time in seconds, to the microsecond.
#[derive(Clone, Copy)]
pub(crate) struct Seconds(pub(crate) Time);

impl fmt::Display for Seconds {
    fn fmt<W: fmt::Write>(&self, f: &mut fmt::Formatter<W>) -> fmt::Result {
        let whole = self.0.0 / 1_000_000;
        let rest = self.0.0 % 1_000_000;
        write!(f, "{whole}.{rest:06} s")
    }
}
