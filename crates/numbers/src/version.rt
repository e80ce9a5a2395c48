ghost use Rattle.std.specs.Prelude.{◌≡◌, Some, decimal};
ghost use Rattle.numbers.specs.Numbers.{version_of, clock_of, next_version, is_version};

use std::fmt;

/// A version: clock × 65,536 + operation number, and so 65,536 to 2^32 - 1. A message may carry any
/// 32-bit number in the place of one, so the type holds any, and `is_version` tests it.
#[derive(Clone, Copy, Debug, PartialEq, Eq, PartialOrd, Ord)]
pub struct Version(pub u32);

impl Version {
    /// No version: 0, and no Option. Messages carry it so, and it is below every version.
    pub const NONE: Version = Version(0);

    /// What every object starts at: clock 1, operation 0.
    pub const STARTING: Version = Version(65_536);

    /// The version that has this clock and this operation number, each any 16-bit number. Clocks
    /// count from 1: with clock 0 the result is no version, and below every one.
    pub fn new(clock: u16, operation: u16) -> Version
        ensures { result ≡ version_of clock operation }
    {
        Version(clock as u32 * 65_536 + operation as u32)
    }

    /// The version of a write that found `highest` to be the highest clock: its own clock is one
    /// higher. None if `highest` is 65,535, which no clock follows.
    pub fn after(highest: u16, operation: u16) -> Option<Version>
        ensures { result ≡ next_version highest operation }
    {
        let clock = highest.checked_add(1)?;
        Some(Version::new(clock, operation))
    }

    /// The clock of the version; of a number that is no version, 0.
    pub fn clock(self) -> u16
        ensures { result ≡ clock_of self }
    {
        (self.0 / 65_536) as u16
    }

    /// Whether the number is a version: 65,536 to 2^32 - 1.
    pub fn is_version(self) -> bool
        ensures { result ≡ is_version self }
    {
        self >= Version::STARTING
    }
}

/// As its number, whether it is a version or not.
impl fmt::Display for Version {
    ghost output = { λ v. Some (decimal v.0) };

    fn fmt<W: fmt::Write>(&self, f: &mut fmt::Formatter<W>) -> fmt::Result {
        fmt::Display::fmt(&self.0, f)
    }
}
