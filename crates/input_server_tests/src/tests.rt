// Input servers, by example.
// Tests that read alike differ in their values, which is what each is for.
use crate::stage::{LEASE, Stage, expect_made, expect_same, named, pair};
use numbers::Version;
use rules::{Message, Pair, Pairs, Parts};
use std::test::*;

fn two(first: Pair, second: Pair) -> Pairs {
    let mut items = [Pair::NONE; 8];
    items[0] = first;
    items[1] = second;
    Pairs { count: 2, items }
}

// The objects 0 to 7, each with that version.
fn eight(version: Version) -> Pairs {
    Pairs {
        count: 8,
        items: [
            pair(0, version),
            pair(1, version),
            pair(2, version),
            pair(3, version),
            pair(4, version),
            pair(5, version),
            pair(6, version),
            pair(7, version),
        ],
    }
}

// One output server, which was given the objects 3 and 5 and has a lease until 1,000.
fn given_two() -> Result<Stage, Fail> {
    let mut stage = Stage::new(1)?;
    stage.renew(0, Parts::Both, 3)?;
    stage.renew(0, Parts::Object, 5)?;
    Ok(stage)
}

// Output server 0 was given the objects 0 to 8 and has a lease until 1,000. What is given to one
// output server counts as given to all, so that a write has to be queued for each of them.
fn given_nine(outputs: u8) -> Result<Stage, Fail> {
    let mut stage = Stage::new(outputs)?;
    stage.renew(0, Parts::Both, 0)?;
    for object in 1..9 {
        stage.renew(0, Parts::Object, object)?;
    }
    Ok(stage)
}

// The third write finds object 3 in the chain: its record takes the higher version and keeps its
// place before object 5.
#[test]
fn second_write_to_a_queued_object() -> Result<(), Fail> {
    let mut stage = given_two()?;
    stage.expect_told(3, Version::new(2, 1), Version::new(2, 1))?;
    stage.expect_told(5, Version::new(2, 2), Version::new(2, 2))?;
    stage.expect_told(3, Version::new(3, 3), Version::new(3, 3))?;
    let waiting = two(pair(3, Version::new(3, 3)), pair(5, Version::new(2, 2)));
    stage.expect_waiting(0, 1, LEASE, waiting)
}

// Eight objects for each of eight output servers are 64 records. The ninth object finds none free
// for output server 0: its eight records become free, its epoch is 2, and nothing waits for it. The
// seven after it take seven of those eight, so that nine wait for each of them; the last one shows
// its ninth once the first eight are acknowledged.
#[test]
fn sixty_fifth_record() -> Result<(), Fail> {
    let all = Version::new(2, 1);
    let ninth = Version::new(2, 2);
    let mut stage = given_nine(8)?;
    for object in 0..8 {
        expect_made(stage.write(object, all)?, 2)?;
    }
    expect_made(stage.write(8, ninth)?, 2)?;
    // output server 0 alone has a lease, and is told; the others are shut out
    stage.expect(1, named(0b1111_1110))?;
    stage.expect_waiting(0, 2, LEASE, Pairs::empty())?;
    stage.expect_waiting(1, 1, 0, eight(all))?;
    stage.expect_waiting(7, 1, 0, eight(all))?;
    stage.acknowledge(7, eight(all))?;
    stage.expect_waiting(7, 1, LEASE, Pairs::one(pair(8, ninth)))
}

// Object 5 is acknowledged with a version above the one that waits for object 3. Only the record of
// object 5 is freed.
#[test]
fn acknowledging_one_object_leaves_another() -> Result<(), Fail> {
    let mut stage = given_two()?;
    stage.write(3, Version::new(2, 1))?;
    stage.write(5, Version::new(3, 2))?;
    stage.acknowledge(0, Pairs::one(pair(5, Version::new(3, 2))))?;
    stage.expect_waiting(0, 1, LEASE, Pairs::one(pair(3, Version::new(2, 1))))
}

// The first acknowledgement frees the record. After the object was given again, the next write is
// queued anew; the old acknowledgement does not raise what was acknowledged, and the record, whose
// version is above it, stays. An empty list changes nothing.
#[test]
fn old_acknowledgement_again() -> Result<(), Fail> {
    let old = Version::new(2, 1);
    let new = Version::new(3, 2);
    let mut stage = given_two()?;
    stage.write(3, old)?;
    stage.acknowledge(0, Pairs::one(pair(3, old)))?;
    stage.expect_waiting(0, 1, LEASE, Pairs::empty())?;
    stage.renew(0, Parts::Object, 3)?;
    stage.write(3, new)?;
    stage.acknowledge(0, Pairs::one(pair(3, old)))?;
    stage.acknowledge(0, Pairs::empty())?;
    stage.expect_waiting(0, 1, LEASE, Pairs::one(pair(3, new)))
}

// With nine waiting no lease is granted: at 500 the answer shows eight pairs and the length 0, and
// the lease still ends at 1,000.
#[test]
fn nine_waiting() -> Result<(), Fail> {
    let mut stage = given_nine(1)?;
    for object in 0..9 {
        expect_made(stage.write(object, Version::new(2, 1))?, 2)?;
    }
    stage.tick(500)?;
    stage.expect_waiting(0, 1, 0, eight(Version::new(2, 1)))?;
    stage.tick(499)?;
    stage.expect_told(0, Version::new(3, 1), Version::new(3, 1))?;
    stage.tick(1)?;
    stage.expect_shut_out(0, Version::new(4, 1))
}

// With eight waiting a lease is granted: from 500 on it ends at 1,500. The output server is not
// shut out at 1,499, and is at 1,500.
#[test]
fn eight_waiting() -> Result<(), Fail> {
    let mut stage = given_nine(1)?;
    for object in 0..8 {
        expect_made(stage.write(object, Version::new(2, 1))?, 2)?;
    }
    stage.tick(500)?;
    stage.expect_waiting(0, 1, LEASE, eight(Version::new(2, 1)))?;
    stage.tick(999)?;
    stage.expect_told(0, Version::new(3, 1), Version::new(3, 1))?;
    stage.tick(1)?;
    stage.expect_shut_out(0, Version::new(4, 1))
}

// The lease is live in each of these, so that it is not what shuts out.
#[test]
fn shut_out_under_a_live_lease() -> Result<(), Fail> {
    // object 4 was given to nobody
    let mut stage = given_two()?;
    stage.expect_shut_out(4, Version::new(2, 1))?;
    // object 3 was given with its starting version, and 2·65,536 + 1 is acknowledged, which is
    // above
    stage.expect_told(3, Version::new(2, 1), Version::new(2, 1))?;
    stage.acknowledge(0, Pairs::one(pair(3, Version::new(2, 1))))?;
    stage.expect_shut_out(3, Version::new(3, 2))?;
    // it is given and acknowledged with the version that is held, and the same request comes again
    stage.renew(0, Parts::Object, 3)?;
    stage.acknowledge(0, Pairs::one(pair(3, Version::new(3, 2))))?;
    stage.expect_shut_out(3, Version::new(3, 2))?;
    // a version above the one acknowledged is told
    stage.expect_told(3, Version::new(4, 3), Version::new(4, 3))
}

// A write that comes late is not taken; those who have a copy are told of the version held all the
// same. The highest clock of any version taken starts at 1 and is that of the write that was taken.
#[test]
fn older_write() -> Result<(), Fail> {
    let mut stage = given_two()?;
    stage.expect_clock(1)?;
    stage.expect_told(3, Version::new(5, 1), Version::new(5, 1))?;
    stage.expect_told(3, Version::new(4, 2), Version::new(5, 1))?;
    stage.expect_clock(5)
}

// Without the object part version and value are 0, without the volume part the length is 0. Only
// what was given with an object part has to be told, and only under a lease.
#[test]
fn parts_of_a_renewal() -> Result<(), Fail> {
    let first = Version::new(2, 1);
    let mut volume = Stage::new(1)?;
    volume.expect_shut_out(3, first)?;
    volume.expect_given(Parts::Volume, Version::NONE, 0, LEASE)?;
    volume.expect_shut_out(3, Version::new(3, 2))?;
    let mut object = Stage::new(1)?;
    object.expect_shut_out(3, first)?;
    object.expect_given(Parts::Object, first, 5, 0)?;
    object.expect_shut_out(3, Version::new(3, 2))?;
    let mut both = Stage::new(1)?;
    both.expect_shut_out(3, first)?;
    both.expect_given(Parts::Both, first, 5, LEASE)?;
    both.expect_told(3, Version::new(3, 2), Version::new(3, 2))
}

// With eight places free a write is refused, takes nothing, queues nothing and logs nothing: what
// was logged before is still there. A clock that would pass 2^40 stays.
#[test]
fn refusals_alter_nothing() -> Result<(), Fail> {
    let mut stage = given_two()?;
    stage.expect_clock(1)?;
    expect_same(
        "the refusal",
        &stage.write_refused(3, Version::new(2, 1))?,
        &Some(32),
    )?;
    stage.expect(
        4,
        Message::ClockQuestion {
            operation: 0,
            input: 0,
        },
    )?;
    stage.expect_clock(1)?;
    stage.expect_waiting(0, 1, LEASE, Pairs::empty())?;
    stage.tick(7)?;
    expect_same("the refusal", &stage.tick_refused((1 << 40) - 6), &Some(12))?;
    expect_same("the clock", &stage.clock(), &7)?;
    Ok(())
}
