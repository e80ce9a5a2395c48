ghost use Rattle.std.specs.Prelude.{◌≡◌, ◌+◌, ◌≤◌, nat_le};
ghost use Rattle.numbers.specs.Numbers.{last_time, longest, highest_drift, lease_end, keeps_pair};
ghost use Rattle.numbers.specs.Checked.{Checked, Added};

use crate::out_of_range::OutOfRange;
use crate::time::Time;

/// A time that a clock can show, in microseconds: 0 to 2^40.
// The fields of these types are public, to be named in promises: whoever makes such a value or sets
// its field owes the proof of its range.
#[derive(Clone, Copy, Debug, PartialEq, Eq)]
pub struct Moment {
    /// The time in microseconds: 0 to 2^40.
    pub micros: u64,
    pub ghost shown: { micros ≤ last_time },
}

/// How long a lease lasts, in microseconds: 0 to 1,000,000,000.
#[derive(Clone, Copy, Debug, PartialEq, Eq)]
pub struct LeaseLength {
    /// The length in microseconds: 0 to 1,000,000,000.
    pub micros: u32,
    pub ghost short: { micros ≤ longest },
}

/// The most by which two clocks may disagree about how much time has passed, in thousandths: 0 to
/// 999.
// Moment, length and drift are of three widths: a generic would want a trait of widths besides.
#[derive(Clone, Copy, Debug, PartialEq, Eq)]
pub struct Drift {
    /// The drift in thousandths: 0 to 999.
    pub thousandths: u16,
    pub ghost small: { thousandths ≤ highest_drift },
}

/// Refused is any time above 2^40.
impl TryFrom<Time> for Moment {
    type Error = OutOfRange;

    ghost try_from_gives = { λ t r. Checked (λ m. m.micros) (nat_le t.0 last_time) t.0 r };

    fn try_from(time: Time) -> Result<Moment, OutOfRange> {
        if time.is_shown() {
            Ok(Moment { micros: time.0 })
        } else {
            Err(OutOfRange)
        }
    }
}

/// The same time, with its range forgotten.
impl From<Moment> for Time {
    ghost from_gives = { λ m t. t.0 ≡ m.micros };

    fn from(moment: Moment) -> Time {
        Time(moment.micros)
    }
}

impl Moment {
    /// When clocks begin that are set to nothing else.
    pub const ZERO: Moment = Moment { micros: 0 };

    /// So many microseconds later. None if that is above 2^40, which no clock can show.
    pub fn later(self, increment: u64) -> Option<Moment>
        ensures { let after = self.micros + increment in
            Added (λ m. m.micros) (nat_le after last_time) after result }
    {
        if increment > Time::LAST.0 - self.micros {
            return None;
        }
        Some(Moment {
            micros: self.micros + increment,
        })
    }

    /// When a lease ends that is granted at this moment, on the clock of the server that grants it.
    /// It may be a time that no clock can show.
    pub fn plus(self, length: LeaseLength) -> Time
        ensures { result.0 ≡ self.micros + length.micros }
    {
        Time(self.micros + length.micros as u64)
    }

    /// When a lease ends that was asked for at this moment, on the clock of the server that asked:
    /// the slowest clock that the drift allows has then counted the whole length. It may be a time
    /// that no clock can show.
    pub fn lease_end(self, length: LeaseLength, drift: Drift) -> Time
        ensures { result ≡ lease_end self.micros length.micros drift.thousandths }
    {
        let whole = length.micros as u64 * (1000 - drift.thousandths) as u64;
        Time(self.micros + whole / 1000)
    }
}

/// In microseconds. Refused is any number above 1,000,000,000.
impl TryFrom<u64> for LeaseLength {
    type Error = OutOfRange;

    ghost try_from_gives = { λ x r. Checked (λ l. l.micros) (nat_le x longest) x r };

    fn try_from(micros: u64) -> Result<LeaseLength, OutOfRange> {
        if micros <= LeaseLength::LONGEST as u64 {
            Ok(LeaseLength {
                micros: micros as u32,
            })
        } else {
            Err(OutOfRange)
        }
    }
}

impl LeaseLength {
    /// The longest, in microseconds.
    pub const LONGEST: u32 = 1_000_000_000;

    /// The length in microseconds: 0 to 1,000,000,000.
    // Named for the unit, which `u32::from` would leave out.
    pub fn micros(self) -> u32
        ensures { result ≡ self.micros }
    {
        self.micros
    }
}

/// In thousandths. Refused is any number above 999.
impl TryFrom<u64> for Drift {
    type Error = OutOfRange;

    ghost try_from_gives = { λ x r. Checked (λ d. d.thousandths) (nat_le x highest_drift) x r };

    fn try_from(thousandths: u64) -> Result<Drift, OutOfRange> {
        if thousandths <= Drift::HIGHEST as u64 {
            Ok(Drift {
                thousandths: thousandths as u16,
            })
        } else {
            Err(OutOfRange)
        }
    }
}

impl Drift {
    /// The highest, in thousandths.
    pub const HIGHEST: u16 = 999;

    /// The drift in thousandths: 0 to 999.
    // Named for the unit, which `u16::from` would leave out.
    pub fn thousandths(self) -> u16
        ensures { result ≡ self.thousandths }
    {
        self.thousandths
    }

    /// Whether a clock that moved by `x` microseconds kept up with one that moved by `y`: whether
    /// 1,000 × x is at least (1,000 - drift) × y. Any two increments may be asked about.
    pub fn keeps(self, x: u64, y: u64) -> bool
        ensures { result ≡ keeps_pair self.thousandths x y }
    {
        1000 * x as u128 >= (1000 - self.thousandths) as u128 * y as u128
    }
}
