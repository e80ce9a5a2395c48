// Answers that the layouts of the program do not ask for.
ghost use Rattle.std.specs.Prelude.{◌^◌, nat_lt};
ghost use Rattle.quorum.specs.Sets.{has};
ghost use Rattle.std.proofs.Common.{arith};
ghost use Rattle.std.proofs.lemmas.Bool.{and_parts};
ghost use Rattle.survey.specs.PrimarySystemLemmas.{with_one, family};

use crate::losses::{Family, Finds, finds_after, smallest_set};
use quorum::{Majority, MemberSet, QuorumSystem, Refusal};
use std::test::Fail;

// Three members, of which number 1 is in every read set and in every write set.
struct Primary;

impl QuorumSystem for Primary {
    ghost meaning = { λ _. record { count = 3; reads = with_one; writes = with_one } };

    ghost lawful = { λ q.
        record {
          some = omega arith;
          few = omega arith;
          read_family = family;
          write_family = family;
          meet = λ s t es et.
              let reads = and_parts (nat_lt s (2 ^ 3)) (has s 1) es in
              let writes = and_parts (nat_lt t (2 ^ 3)) (has t 1) et in
              (1, omega arith, reads.1, writes.1);
        } };

    fn count(&self) -> u8 {
        3
    }

    fn is_read_set(&self, set: MemberSet) -> bool {
        set.is_within(3) && set.contains(1)
    }

    fn is_write_set(&self, set: MemberSet) -> bool {
        set.is_within(3) && set.contains(1)
    }
}

#[test]
fn it_depends_on_which_are_lost(rt: HostRuntime) -> Result<(), Fail> {
    let expected = [
        (0, Finds::Always),
        (1, Finds::Sometimes),
        (2, Finds::Sometimes),
        (3, Finds::Never),
        (4, Finds::Never),
    ];
    for (lost, finds) in expected {
        assert_eq!(rt; finds_after(&Primary, Family::Read, lost)?, finds);
        assert_eq!(rt; finds_after(&Primary, Family::Write, lost)?, finds);
    }
    assert_eq!(rt; smallest_set(&Primary, Family::Read)?, MemberSet(0b010));
    Ok(())
}

#[test]
fn more_than_eight_members(rt: HostRuntime) -> Result<(), Fail> {
    let nine = Majority::new(9)?;
    assert!(rt;
        matches!(
            finds_after(&nine, Family::Read, 0),
            Err(Refusal::TooManyMembers)
        )
    );
    assert!(rt;
        matches!(
            smallest_set(&nine, Family::Read),
            Err(Refusal::TooManyMembers)
        )
    );
    Ok(())
}
