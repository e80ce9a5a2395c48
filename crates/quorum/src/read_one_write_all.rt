ghost use Rattle.quorum.specs.Systems.{read_one_write_all};
ghost use Rattle.quorum.specs.Making.{Made, read_one_write_all_count};
ghost use Rattle.quorum.specs.Laws.{read_one_write_all_lawful};

use crate::member_count::MemberCount;
use crate::member_set::MemberSet;
use crate::refusal::Refusal;
use crate::system::QuorumSystem;

/// The system of which any set with a member is a read set, and only the full set is a write set.
// `new` and `count` read as the majority's do: the types are two, and share `MemberCount`.
#[derive(Clone, Copy, Debug, PartialEq, Eq)]
pub struct ReadOneWriteAll {
    members: MemberCount,
}

impl ReadOneWriteAll {
    /// A read-one write-all of `count` members. Refuses 10 for any count outside 1 to 64.
    pub fn new(count: u64) -> Result<ReadOneWriteAll, Refusal>
        ensures { Made read_one_write_all_count count result }
    {
        Ok(ReadOneWriteAll {
            members: MemberCount::try_from(count)?,
        })
    }
}

impl QuorumSystem for ReadOneWriteAll {
    ghost meaning = { λ q. read_one_write_all (read_one_write_all_count q) };

    ghost lawful = { λ q.
        let counted = q.members.counted in
        read_one_write_all_lawful (read_one_write_all_count q) counted.0 counted.1 };

    fn count(&self) -> u8 {
        self.members.get()
    }

    fn is_read_set(&self, set: MemberSet) -> bool {
        set.has_at_least(1, self.count())
    }

    fn is_write_set(&self, set: MemberSet) -> bool {
        set.is_full(self.count())
    }
}
