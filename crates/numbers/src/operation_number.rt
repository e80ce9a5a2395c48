ghost use Rattle.std.specs.Prelude.{◌≡◌, ◌≤◌};
ghost use Rattle.numbers.specs.Checked.{Checked};
ghost use Rattle.numbers.specs.Numbers.{between, last_operation};

use crate::out_of_range::OutOfRange;

/// The number of an operation, 1 to 1,024. Operations are numbered in the order in which they
/// begin.
// Public to be named in promises: whoever makes a number or sets it owes the proof of its range.
#[derive(Clone, Copy, Debug, PartialEq, Eq, PartialOrd, Ord)]
pub struct OperationNumber {
    /// The number, 1 to 1,024.
    pub number: u16,
    pub ghost inside: { (1 ≤ number) × (number ≤ 1024) },
}

/// Refused are 0 and any number above 1,024.
impl TryFrom<u16> for OperationNumber {
    type Error = OutOfRange;

    ghost try_from_gives = { λ x r. Checked (λ p. p.number) (between 1 last_operation x) x r };

    fn try_from(number: u16) -> Result<OperationNumber, OutOfRange> {
        if (1..=OperationNumber::LAST).contains(&number) {
            Ok(OperationNumber { number })
        } else {
            Err(OutOfRange)
        }
    }
}

impl OperationNumber {
    /// The last one that a field has.
    pub const LAST: u16 = 1_024;

    /// The number, 1 to 1,024.
    pub fn get(self) -> u16
        ensures is { result ≡ self.number }
        ensures inside { (1 ≤ result) × (result ≤ 1024) }
    {
        self.number
    }
}
