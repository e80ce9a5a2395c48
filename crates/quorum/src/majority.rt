ghost use Rattle.std.specs.Prelude.{◌≡◌, ◌+◌, ◌/◌};
ghost use Rattle.quorum.specs.Systems.{majority};
ghost use Rattle.quorum.specs.Making.{Made, majority_count};
ghost use Rattle.quorum.specs.Laws.{majority_lawful};

use crate::member_count::MemberCount;
use crate::member_set::MemberSet;
use crate::refusal::Refusal;
use crate::system::QuorumSystem;

/// The system of which both families are the sets of more than half of the members.
#[derive(Clone, Copy, Debug, PartialEq, Eq)]
pub struct Majority {
    members: MemberCount,
}

impl Majority {
    /// A majority of `count` members. Refuses 10 for any count outside 1 to 64.
    pub fn new(count: u64) -> Result<Majority, Refusal>
        ensures { Made majority_count count result }
    {
        Ok(Majority {
            members: MemberCount::try_from(count)?,
        })
    }

    // How many members a set of either family has at least: more than half.
    fn least(&self) -> u8
        ensures { result ≡ majority_count self.now / 2 + 1 }
    {
        let half = self.members.get() / 2;
        half + 1
    }
}

impl QuorumSystem for Majority {
    ghost meaning = { λ q. majority (majority_count q) };

    ghost lawful = { λ q.
        let counted = q.members.counted in
        majority_lawful (majority_count q) counted.0 counted.1 };

    fn count(&self) -> u8 {
        self.members.get()
    }

    fn is_read_set(&self, set: MemberSet) -> bool {
        set.has_at_least(self.least(), self.count())
    }

    fn is_write_set(&self, set: MemberSet) -> bool {
        // as many as to read
        self.is_read_set(set)
    }
}
