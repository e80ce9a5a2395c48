ghost use Rattle.std.specs.Prelude.{◌≡◌, Some, decimal};
ghost use Rattle.numbers.specs.Numbers.{is_epoch};

use std::fmt;

/// A count of how often an input server dropped the waiting invalidations of an output server.
/// Epochs are 1 to 65,536. A message may carry any 32-bit number in the place of one, so the type
/// holds any, and `is_epoch` tests it.
#[derive(Clone, Copy, Debug, PartialEq, Eq, PartialOrd, Ord)]
pub struct Epoch(pub u32);

impl Epoch {
    /// No epoch: 0, and no Option. Messages carry it so, and it is below every epoch.
    pub const NONE: Epoch = Epoch(0);

    /// What every output server starts with at every input server.
    pub const FIRST: Epoch = Epoch(1);

    /// The last: no epoch follows it.
    pub const LAST: Epoch = Epoch(65_536);

    /// Whether the number is an epoch: 1 to 65,536.
    pub fn is_epoch(self) -> bool
        ensures { result ≡ is_epoch self }
    {
        (Epoch::FIRST..=Epoch::LAST).contains(&self)
    }
}

/// As its number, whether it is an epoch or not.
// Versions and times have the same impl: one that a macro of ours writes is refused.
impl fmt::Display for Epoch {
    ghost output = { λ e. Some (decimal e.0) };

    fn fmt<W: fmt::Write>(&self, f: &mut fmt::Formatter<W>) -> fmt::Result {
        fmt::Display::fmt(&self.0, f)
    }
}
