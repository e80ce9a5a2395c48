// The systems and the member sets at their edges, by example.
use crate::majority::Majority;
use crate::member_set::MemberSet;
use crate::read_one_write_all::ReadOneWriteAll;
use crate::refusal::Refusal;
use crate::system::QuorumSystem;
use std::process::Abort;
use std::test::Fail;

// Whether the set reads and writes in the system, against what is expected of it.
fn expect<Q: QuorumSystem>(rt: &impl Abort, system: &Q, set: u64, reads: bool, writes: bool) {
    assert_eq!(rt; system.is_read_set(MemberSet(set)), reads, "as a read set");
    assert_eq!(rt;
        system.is_write_set(MemberSet(set)),
        writes,
        "as a write set"
    );
}

#[test]
fn sets_in_words(rt: HostRuntime) -> Result<(), Fail> {
    let sets = [0, 1, 0b1010, 1 << 63, 0b11 + (1 << 63)];
    for (set, expected) in sets.iter().zip(["nobody", "0", "1, 3", "63", "0, 1, 63"]) {
        let set = MemberSet(*set);
        let text = format!(in rt.alloc(); "{set}")?;
        assert_eq!(rt; text.as_str(), expected);
    }
    Ok(())
}

#[test]
fn majority_is_more_than_half(rt: HostRuntime) -> Result<(), Fail> {
    let five = Majority::new(5)?;
    for set in [0, 0b00011, 0b10001] {
        expect(&rt, &five, set, false, false);
    }
    for set in [0b00111, 0b10101, 0b11111] {
        expect(&rt, &five, set, true, true);
    }
    // a place beyond the members, beside enough of them
    for set in [0b100111, 0b111111, u64::MAX] {
        expect(&rt, &five, set, false, false);
    }
    let one = Majority::new(1)?;
    expect(&rt, &one, 0, false, false);
    expect(&rt, &one, 1, true, true);
    expect(&rt, &Majority::new(64)?, u64::MAX, true, true);
    Ok(())
}

#[test]
fn one_reads_and_all_write(rt: HostRuntime) -> Result<(), Fail> {
    let three = ReadOneWriteAll::new(3)?;
    expect(&rt, &three, 0, false, false);
    for set in [0b001, 0b010, 0b100, 0b101] {
        expect(&rt, &three, set, true, false);
    }
    expect(&rt, &three, 0b111, true, true);
    // a place beyond the members, alone and beside all of them
    for set in [0b1000, 0b1001, 0b1111, u64::MAX] {
        expect(&rt, &three, set, false, false);
    }
    expect(&rt, &ReadOneWriteAll::new(64)?, u64::MAX, true, true);
    Ok(())
}

fn refusal_of<Q: Drop>(made: Result<Q, Refusal>) -> Option<u8> {
    match made {
        Ok(_) => None,
        Err(refusal) => Some(refusal.number()),
    }
}

#[test]
fn refusals_in_words(rt: HostRuntime) -> Result<(), Fail> {
    for (refusal, number, expected) in [
        (
            Refusal::MemberCount,
            10,
            "a quorum system has 1 to 64 members",
        ),
        (
            Refusal::Lengths,
            7,
            "a log has 9 to 65,535 places, and a table 1 to 1,024",
        ),
    ] {
        let text = format!(in rt.alloc(); "{refusal}")?;
        assert_eq!(rt; text.as_str(), expected);
        assert_eq!(rt; refusal.number(), number);
    }
    Ok(())
}

#[test]
fn counts_of_members(rt: HostRuntime) {
    let outside = Some(10);
    // 2^8 and 2^64 - 1 are not taken for the numbers that their lowest eight places would be
    for (count, refusal) in [
        (0, outside),
        (1, None),
        (64, None),
        (65, outside),
        (255, outside),
        (256, outside),
        (257, outside),
        (u64::MAX, outside),
    ] {
        assert_eq!(rt; refusal_of(Majority::new(count)), refusal);
        assert_eq!(rt; refusal_of(ReadOneWriteAll::new(count)), refusal);
    }
}

#[test]
fn a_system_that_is_lent_is_the_same(rt: HostRuntime) -> Result<(), Fail> {
    let five = Majority::new(5)?;
    let lent = &five;
    expect(&rt, &lent, 0b00011, false, false);
    expect(&rt, &lent, 0b00111, true, true);
    assert_eq!(rt; QuorumSystem::count(&lent), 5);
    let three = ReadOneWriteAll::new(3)?;
    let lent = &three;
    expect(&rt, &lent, 0b001, true, false);
    Ok(())
}

#[test]
fn member_sets_at_their_ends(rt: HostRuntime) {
    let ends = MemberSet::EMPTY.with(0).with(63);
    assert_eq!(rt; ends, MemberSet((1 << 63) + 1));
    assert_eq!(rt; ends.with(64), ends);
    assert_eq!(rt; ends.union(MemberSet(0b111)).len(), 4);
    for (member, inside) in [(0, true), (1, false), (63, true), (64, false)] {
        assert_eq!(rt; ends.contains(member), inside);
    }
    for (count, inside) in [(0, false), (63, false), (64, true), (65, true)] {
        assert_eq!(rt; ends.is_within(count), inside);
    }
    assert!(rt; MemberSet::EMPTY.is_within(0));
    assert!(rt; MemberSet::EMPTY.is_full(0));
    for (count, full) in [(0, false), (63, false), (64, true), (65, false)] {
        assert_eq!(rt; MemberSet(u64::MAX).is_full(count), full);
    }
}
