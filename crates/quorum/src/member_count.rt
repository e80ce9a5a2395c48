ghost use Rattle.std.specs.Prelude.{◌≡◌, ◌≤◌};

use crate::refusal::Refusal;

// How many members a system has: 1 to 64, as many as a set has places.
#[derive(Clone, Copy, Debug, PartialEq, Eq)]
pub(crate) struct MemberCount {
    count: u8,
    ghost counted: { (1 ≤ count) × (count ≤ 64) },
}

impl TryFrom<u64> for MemberCount {
    ghost use Rattle.quorum.specs.Making.{Made, member_count};

    type Error = Refusal;

    ghost try_from_gives = { λ n r. Made member_count n r };

    fn try_from(count: u64) -> Result<MemberCount, Refusal> {
        if count < 1 || count > 64 {
            return Err(Refusal::MemberCount);
        }
        Ok(MemberCount { count: count as u8 })
    }
}

impl MemberCount {
    ghost use Rattle.quorum.specs.Making.{member_count};

    pub(crate) fn get(self) -> u8
        ensures is { result ≡ member_count self }
        ensures inside { (1 ≤ result) × (result ≤ 64) }
    {
        self.count
    }
}
