ghost use Rattle.std.specs.Prelude.{◌≡◌, ◌^◌, ◌==◌, bit_or, count_ones, nat_lt};
ghost use Rattle.quorum.specs.Sets.{has, full, joined};
ghost use Rattle.quorum.specs.Systems.{at_least};

/// A set of members: binary place i stands for member i. Any 64-bit number is a set; one with a
/// place beyond a system's members is no set of that system.
///
/// Members are numbered 0 to 63. A question or an answer about a number of 64 and up is total by
/// intention: no set has such a member, and it joins none.
#[derive(Clone, Copy, Debug, PartialEq, Eq)]
pub struct MemberSet(pub u64);

impl MemberSet {
    /// The set of no members.
    pub const EMPTY: MemberSet = MemberSet(0);

    /// Whether the member is in the set. One of 64 and up is in none.
    pub fn contains(self, member: u8) -> bool
        ensures { result ≡ has self.0 member }
    {
        member < 64 && (self.0 >> member) % 2 == 1
    }

    /// The set with one member more. A number of 64 and up has no place in a set, which then stays
    /// as it is.
    pub fn with(self, member: u8) -> MemberSet
        ensures { result.0 ≡ joined self.0 member }
    {
        if member < 64 {
            MemberSet(self.0 | (1u64 << member))
        } else {
            self
        }
    }

    /// The members of either set.
    pub fn union(self, other: MemberSet) -> MemberSet
        ensures { result.0 ≡ bit_or self.0 other.0 }
    {
        MemberSet(self.0 | other.0)
    }

    /// How many members the set has: 0 to 64.
    pub fn len(self) -> u32
        ensures { result ≡ count_ones self.0 }
    {
        self.0.count_ones()
    }

    /// Whether every member of the set is below the count. With a count of 64 and up that is every
    /// set.
    // The set is read as a number here, as `contains` reads it: no plainer word says it.
    pub fn is_within(self, count: u8) -> bool
        ensures { result ≡ nat_lt self.0 (2 ^ count) }
    {
        count >= 64 || self.0 < 1u64 << count
    }

    /// Whether the set has at least `least` members, and none at or above the count. No set has
    /// more than 64, and with a count of 64 and up no member is outside.
    pub fn has_at_least(self, least: u8, count: u8) -> bool
        ensures { result ≡ at_least least count self.0 }
    {
        self.is_within(count) && self.len() >= least as u32
    }

    /// Whether the set is all of that many members, which are numbered from 0. No set is all of
    /// more than 64.
    // All of 64 are the number 2^64 - 1, and 2^64 is too large for 64 bits.
    pub fn is_full(self, count: u8) -> bool
        ensures { result ≡ (self.0 == full count) }
    {
        count <= 64 && self.0 as u128 == (1u128 << count) - 1
    }
}
