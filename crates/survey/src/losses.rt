//! What losses of members leave of a quorum system: whether reads and writes still find their
//! sets, and the smallest set that each can do with. Both go over all sets of the members.
ghost use Rattle.std.specs.Prelude.{◌≡◌, ◌≤◌};
ghost use Rattle.survey.specs.Losses.{sets_of, limit, FindsAfter, Surveyed, FirstToPass};
ghost use Rattle.survey.specs.Smallest.{Smallest};

use quorum::{MemberSet, QuorumSystem, Refusal};

/// The two families of sets of a system.
// Two cases, and no Option or Result: each is a family of its own.
#[derive(Clone, Copy)]
pub enum Family {
    /// The sets that are enough to read from.
    Read,
    /// The sets that are enough to write to.
    Write,
}

impl Family {
    /// Whether the set is in this family of the system. One with a place beyond the members never
    /// is.
    pub fn has<Q: QuorumSystem>(self, system: &Q, set: MemberSet) -> bool
        ensures { result ≡ sets_of self (Q.meaning system.now) set.0 }
    {
        match self {
            Family::Read => system.is_read_set(set),
            Family::Write => system.is_write_set(set),
        }
    }
}

/// Whether the members that are left are a set of a family.
#[derive(Clone, Copy, Debug, PartialEq)]
pub enum Finds {
    /// Whichever members were lost.
    Always,
    /// For some losses and not for others.
    Sometimes,
    /// For no losses.
    Never,
}

// The most members of a system whose sets are all gone over.
const MOST: u8 = 8;

// The count of a system, which is refused where it has too many sets to go over.
fn few_members<Q: QuorumSystem>(system: &Q) -> Result<u8, Refusal>
    ensures { Surveyed (Q.meaning system.now) (λ n. n ≡ (Q.meaning system.now).count) result }
{
    let count = system.count();
    if count > MOST {
        return Err(Refusal::TooManyMembers);
    }
    Ok(count)
}

// The lowest set of that many members that passes.
fn first_set<F: Fn(MemberSet) -> bool>(size: u8, count: u8, passes: F) -> Option<MemberSet>
    requires few { count ≤ limit }
    requires callable { F.IsAlwaysCallable passes }
    ensures { FirstToPass (F.post passes) size count result }
{
    (0..1u64 << count)
        .find(|number| {
            let set = MemberSet(*number);
            set.len() == size as u32 && passes(set)
        })
        .map(MemberSet)
}

/// Whether what is left after that many losses is a set of the family. To lose more members than
/// there are is to lose them all, so any number of losses will do. Refuses 2 for a system of more
/// than 8 members, whose sets are too many to go over.
pub fn finds_after<Q: QuorumSystem>(system: &Q, family: Family, lost: u8) -> Result<Finds, Refusal>
    ensures { let q = Q.meaning system.now in
        Surveyed q (FindsAfter (sets_of family q) q.count lost) result }
{
    let count = few_members(system)?;
    let size = count.saturating_sub(lost);
    let found = first_set(size, count, |set| family.has(system, set));
    let missed = first_set(size, count, |set| !family.has(system, set));
    let finds = match (found, missed) {
        (_, None) => Finds::Always,
        (None, Some(_)) => Finds::Never,
        (Some(_), Some(_)) => Finds::Sometimes,
    };
    Ok(finds)
}

/// The smallest set of the family and, of those of its size, the lowest as a number. Refuses 2
/// for a system of more than 8 members, whose sets are too many to go over.
pub fn smallest_set<Q: QuorumSystem>(system: &Q, family: Family) -> Result<MemberSet, Refusal>
    ensures { let q = Q.meaning system.now in
        Surveyed q (λ s. Smallest (sets_of family q) q.count s.0) result }
{
    let count = few_members(system)?;
    // no part of the members is in the family, and all of them together always are
    let smaller = (0..count).find_map(
        |size|
            requires { count ≤ limit }
        { first_set(size, count, |set| family.has(system, set)) },
    );
    Ok(smaller.unwrap_or(MemberSet((1u64 << count) - 1)))
}
