ghost use Rattle.std.specs.Prelude.{◌≡◌, ◌*◌, ◌≤◌};
ghost use Rattle.quorum.specs.Making.{Made};
ghost use Rattle.field_bench.specs.Grids.{touches, fills, grid, grid_lawful};

use quorum::{MemberSet, QuorumSystem, Refusal};

/// A quorum system of two rows: column c has the members 2c and 2c + 1. A set with a member of
/// every column is a read set, and a set with a whole column is a write set. Two write sets may
/// have no member in common.
#[derive(Clone, Copy, Debug, PartialEq, Eq)]
pub struct Grid {
    columns: u8,
    ghost counted: { (1 ≤ columns) × (columns ≤ 32) },
}

impl Grid {
    /// A grid of 1 to 32 columns; other counts are refused by 10.
    pub fn new(columns: u8) -> Result<Grid, Refusal>
        ensures { Made (λ q. 2 * q.columns) (2 * columns) result }
    {
        if columns < 1 || columns > 32 {
            return Err(Refusal::MemberCount);
        }
        Ok(Grid { columns })
    }
}

fn touches(set: MemberSet, column: u8) -> bool
    requires { column ≤ 32 }
    ensures { result ≡ touches set.0 column }
{
    set.contains(2 * column) || set.contains(2 * column + 1)
}

fn fills(set: MemberSet, column: u8) -> bool
    requires { column ≤ 32 }
    ensures { result ≡ fills set.0 column }
{
    set.contains(2 * column) && set.contains(2 * column + 1)
}

impl QuorumSystem for Grid {
    ghost meaning = { λ q. grid q.columns };

    ghost lawful = { λ q. grid_lawful q.columns q.counted.0 q.counted.1 };

    fn count(&self) -> u8 {
        2 * self.columns
    }

    fn is_read_set(&self, set: MemberSet) -> bool {
        set.is_within(self.count()) && (0..self.columns).all(|column| touches(set, column))
    }

    fn is_write_set(&self, set: MemberSet) -> bool {
        set.is_within(self.count()) && (0..self.columns).any(|column| fills(set, column))
    }
}
