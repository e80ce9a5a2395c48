ghost use Rattle.std.specs.Prelude.{◌≡◌, Some};
ghost use Rattle.std.specs.Fmt.{WritesOnOk};
ghost use Rattle.wording.specs.Ends.{end_text, pair_text};

use numbers::Version;
use rules::Delivery;
use std::fmt;

/// What ended with a delivery, told in one line: which operation, with which version and value.
#[derive(Clone, Copy)]
pub struct ToldEnd {
    /// What the delivery says.
    pub delivery: Delivery,
}

impl ToldEnd {
    /// What the delivery says, to be told.
    pub fn new(delivery: Delivery) -> ToldEnd
        ensures { result.delivery ≡ delivery }
    {
        ToldEnd { delivery }
    }
}

/// As `write 7 ended with version 655367, value 500`, or `nothing ended`, with no end of line.
impl fmt::Display for ToldEnd {
    ghost output = { λ t. Some (end_text t.delivery) };

    fn fmt<W: fmt::Write>(&self, f: &mut fmt::Formatter<W>) -> fmt::Result {
        match self.delivery {
            Delivery::NothingEnded => f.write_str("nothing ended"),
            Delivery::WriteEnded {
                operation,
                version,
                value,
            } => {
                write!(f, "write {operation} ended")?;
                tell_pair(f, version, value)
            }
            Delivery::ReadEnded {
                operation,
                version,
                value,
            } => {
                write!(f, "read {operation} ended")?;
                tell_pair(f, version, value)
            }
        }
    }
}

#[tactic(auto, unfolding(crate::specs::Ends::pair_text))]
fn tell_pair<W: fmt::Write>(f: &mut fmt::Formatter<W>, version: Version, value: u64) -> fmt::Result
    ensures { WritesOnOk W.write_str_gives f.old result (pair_text version value) f.new }
{
    write!(f, " with version {version}, value {value}")
}
