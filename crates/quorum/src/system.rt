ghost use Rattle.std.specs.Prelude.{◌≡◌};
ghost use Rattle.quorum.specs.Systems.{System, Lawful};

use crate::member_set::MemberSet;

/// A quorum system. It means a count and two families of sets, it shows the laws of a quorum
/// system, and it answers any question by its meaning alone.
///
/// A caller may bring a system of its own. It gives `meaning`, shows the laws as `lawful`, and each
/// answer is then proved to be that of the meaning.
pub trait QuorumSystem {
    ghost meaning: { Self → System };

    /// How many members there are: 1 to 64, by the laws.
    fn count(&self) -> u8
        ensures { result ≡ (meaning self.now).count };

    /// Whether the set is enough to read from. One with a place beyond the members never is.
    fn is_read_set(&self, set: MemberSet) -> bool
        ensures { result ≡ (meaning self.now).reads set.0 };

    /// Whether the set is enough to write to. One with a place beyond the members never is.
    fn is_write_set(&self, set: MemberSet) -> bool
        ensures { result ≡ (meaning self.now).writes set.0 };

    ghost lawful: { (q : Self) → Lawful (meaning q) };
}

/// A system that is lent is one, too: two fields may share it.
impl<'a, Q: QuorumSystem> QuorumSystem for &'a Q {
    ghost meaning = { λ q. Q.QuorumSystem.meaning q.now };

    ghost lawful = { λ q. Q.QuorumSystem.lawful q.now };

    fn count(&self) -> u8 {
        (**self).count()
    }

    fn is_read_set(&self, set: MemberSet) -> bool {
        (**self).is_read_set(set)
    }

    fn is_write_set(&self, set: MemberSet) -> bool {
        (**self).is_write_set(set)
    }
}
