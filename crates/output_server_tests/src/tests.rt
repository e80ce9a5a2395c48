// Output servers, by example.
// Tests that read alike differ in their values, which is what each is for.
use crate::stage::{Answer, Stage, expect_made, expect_same, told};
use numbers::Version;
use rules::{Pairs, Parts};
use std::test::*;

// Object and lease together, in the first epoch: asked for at 500 and granted for 1,000. With a
// drift of 10 thousandths the lease ends at 500 + 990 = 1,490.
fn both(version: Version, value: u64) -> Answer {
    Answer {
        parts: Parts::Both,
        version,
        value,
        epoch: 1,
        stamp: 500,
        length: 1_000,
        list: Pairs::empty(),
    }
}

// The object alone.
fn object(version: Version, value: u64) -> Answer {
    Answer {
        parts: Parts::Object,
        length: 0,
        ..both(version, value)
    }
}

// The lease alone, of that epoch, asked for at that time and granted for so long.
fn volume(epoch: u32, stamp: u64, length: u32) -> Answer {
    Answer {
        parts: Parts::Volume,
        epoch,
        stamp,
        length,
        ..both(Version::NONE, 0)
    }
}

// One input server, and at 500 both parts from it.
fn renewed(version: Version, value: u64) -> Result<Stage, Fail> {
    let mut stage = Stage::new(1, 500)?;
    expect_made(stage.renewed(0, both(version, value))?, 0)?;
    Ok(stage)
}

// The lease is live at 1,489 and no more at 1,490; the copy stays sound, and only the volume is
// asked for.
#[test]
fn lease_over() -> Result<(), Fail> {
    let first = Version::new(2, 1);
    let mut stage = renewed(first, 7)?;
    stage.expect_read(first, 7)?;
    stage.tick(989)?;
    stage.expect_read(first, 7)?;
    stage.tick(1)?;
    stage.expect_asked(0, Parts::Volume, 1_490)
}

// An answer that arrives at 5,000 to what was asked at 500 brings a sound copy and a lease that
// ended at 1,490. Asked again at 5,000, the lease ends at 5,990. The old answer once more does
// not draw the end back.
#[test]
fn late_renewal_answer() -> Result<(), Fail> {
    let first = Version::new(2, 1);
    let mut stage = Stage::new(1, 5_000)?;
    stage.renewed(0, both(first, 7))?;
    stage.expect_asked(0, Parts::Volume, 5_000)?;
    stage.renewed(0, volume(1, 5_000, 1_000))?;
    stage.expect_read(first, 7)?;
    stage.renewed(0, both(first, 7))?;
    stage.tick(989)?;
    stage.expect_read(first, 7)?;
    stage.tick(1)?;
    stage.expect_asked(0, Parts::Volume, 5_990)
}

// Version 3·65,536 + 3 is known, so that 2·65,536 + 2 is not accepted, and the object is asked for
// again. What equals the known version is accepted.
#[test]
fn renewal_answer_below_known() -> Result<(), Fail> {
    let mut stage = renewed(Version::new(2, 1), 7)?;
    stage.invalidated(0, Version::new(3, 3))?;
    stage.renewed(0, object(Version::new(2, 2), 8))?;
    stage.expect_asked(0, Parts::Object, 500)?;
    stage.renewed(0, object(Version::new(3, 3), 9))?;
    stage.expect_read(Version::new(3, 3), 9)
}

// The list of an answer is heard before its copy: the copy below it is not accepted, the lease
// is, and the same list is acknowledged.
#[test]
fn list_before_copy() -> Result<(), Fail> {
    let list = told(Version::new(3, 3));
    let mut stage = Stage::new(1, 500)?;
    let answer = Answer {
        list,
        ..both(Version::new(2, 1), 7)
    };
    expect_made(stage.renewed(0, answer)?, 1)?;
    stage.expect_acknowledged(0, list)?;
    stage.expect_asked(0, Parts::Object, 500)
}

// Both parts are asked for at first. The part that came is asked for no more, and with both the
// read is answered.
#[test]
fn parts_that_came() -> Result<(), Fail> {
    let first = Version::new(2, 1);
    let mut stage = Stage::new(1, 500)?;
    stage.expect_asked(0, Parts::Both, 500)?;
    expect_made(stage.renewed(0, object(first, 7))?, 0)?;
    stage.expect_asked(0, Parts::Volume, 500)?;
    let mut other = Stage::new(1, 500)?;
    expect_made(other.renewed(0, volume(1, 500, 1_000))?, 0)?;
    // nothing was got, and all else that a good input server needs is there
    other.expect_asked(0, Parts::Object, 500)?;
    other.renewed(0, object(first, 7))?;
    other.expect_read(first, 7)
}

// The copy is of epoch 1 and the lease of epoch 2. The answer that told so granted no lease; the
// one before it runs on.
#[test]
fn copy_of_an_earlier_epoch() -> Result<(), Fail> {
    let mut stage = renewed(Version::new(2, 1), 7)?;
    stage.renewed(0, volume(2, 500, 0))?;
    stage.expect_asked(0, Parts::Object, 500)?;
    let answer = Answer {
        epoch: 2,
        ..object(Version::new(2, 1), 7)
    };
    stage.renewed(0, answer)?;
    stage.expect_read(Version::new(2, 1), 7)
}

// Two input servers, both of which it takes. Input server 0 tells of the version that came from
// input server 1: the newest version is as high as every known one, and only the copy from 0 is
// below what 0 told of.
#[test]
fn copy_below_known() -> Result<(), Fail> {
    let second = Version::new(3, 3);
    let mut stage = Stage::new(2, 500)?;
    stage.renewed(0, both(Version::new(2, 1), 7))?;
    stage.renewed(1, both(second, 8))?;
    stage.expect_read(second, 8)?;
    stage.invalidated(0, second)?;
    stage.expect_asked(0, Parts::Object, 500)
}

// Three input servers, two of which are a read set. The two are good, and the third tells of a
// version above the newest: the read is not answered until that version is there.
#[test]
fn newest_below_known() -> Result<(), Fail> {
    let first = Version::new(2, 1);
    let second = Version::new(3, 3);
    let mut stage = Stage::new(3, 500)?;
    stage.renewed(0, both(first, 7))?;
    stage.renewed(1, both(first, 7))?;
    stage.expect_read(first, 7)?;
    stage.invalidated(2, second)?;
    stage.expect_asked(2, Parts::Both, 500)?;
    stage.renewed(2, object(second, 8))?;
    stage.expect_read(second, 8)
}

// One of three is good, which is no read set. The two others are asked, rising.
#[test]
fn too_few_are_good() -> Result<(), Fail> {
    let mut stage = Stage::new(3, 500)?;
    stage.renewed(1, both(Version::new(2, 1), 7))?;
    expect_made(stage.read()?, 2)?;
    stage.expect_request(0, 0, Parts::Both, 500)?;
    stage.expect_request(1, 2, Parts::Both, 500)
}

// With eight places free an invalidation is refused and not heard: the read is still answered. A
// system of nine members is refused, since a field holds eight.
#[test]
fn refusals_alter_nothing() -> Result<(), Fail> {
    let first = Version::new(2, 1);
    let mut stage = renewed(first, 7)?;
    expect_same(
        "the refusal",
        &stage.invalidation_refused(0, Version::new(3, 3))?,
        &Some(32),
    )?;
    stage.expect_read(first, 7)?;
    let mut wide = Stage::new(9, 500)?;
    expect_same("the refusal", &wide.read_refused(), &Some(2))?;
    Ok(())
}
