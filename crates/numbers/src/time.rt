ghost use Rattle.std.specs.Prelude.{◌≡◌, Some, decimal, nat_le};
ghost use Rattle.numbers.specs.Numbers.{last_time, live};

use std::fmt;

/// Whole microseconds on the clock of one server. A message may carry any 64-bit number in the
/// place of a time, so the type holds any, and `is_shown` tests it; a `Moment` is a time that was
/// tested.
#[derive(Clone, Copy, Debug, PartialEq, Eq, PartialOrd, Ord)]
pub struct Time(pub u64);

impl Time {
    /// The first time.
    pub const ZERO: Time = Time(0);

    /// The last time that a clock can show, 2^40. The end of a lease may lie beyond it.
    pub const LAST: Time = Time(1 << 40);

    /// Whether a clock can show it: 0 to 2^40.
    pub fn is_shown(self) -> bool
        ensures { result ≡ nat_le self.0 last_time }
    {
        self <= Time::LAST
    }

    /// Whether a lease with this end is live at that time of the same clock. Only the order of the
    /// two counts, so any times will do, shown or not.
    pub fn is_live_at(self, clock: Time) -> bool
        ensures { result ≡ live clock self }
    {
        clock < self
    }
}

/// As its number of microseconds, whether a clock can show it or not.
impl fmt::Display for Time {
    ghost output = { λ t. Some (decimal t.0) };

    fn fmt<W: fmt::Write>(&self, f: &mut fmt::Formatter<W>) -> fmt::Result {
        fmt::Display::fmt(&self.0, f)
    }
}
