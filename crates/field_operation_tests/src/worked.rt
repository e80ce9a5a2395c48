// The smallest field: one input server, one output server, one object. Every message of a write,
// of a read, and of a second write that meets the copy that the read left.
use field_bench::messages::{
    Grant, clock_answer, clock_question, invalidation, invalidation_answer, list_of, read_answer,
    read_ended, read_request, renewal_request, write_answer, write_ended, write_request,
};
use field_bench::{Bench, closed, opening};
use numbers::Version;
use quorum::Majority;
use rules::Parts;
use std::alloc::Global;
use std::test::Fail;

// The versions of operation 1, which writes 7, and of operation 3, which writes 9.
const FIRST: Version = Version(131_073);

const SECOND: Version = Version(196_611);

type Smallest = Bench<Majority, Majority>;

// A write of 7, which ends with the delivery of message 4.
fn written(alloc: Global) -> Result<Smallest, Fail> {
    let mut bench = closed(alloc, 1, 1, 64, 4)?.opened(opening(1))?;
    bench.expect_write(0, 7, 1)?;
    bench.nothing_ends(&[1, 2, 3])?;
    bench.expect_end(4, write_ended(1, FIRST, 7))?;
    Ok(bench)
}

#[test]
fn a_write_takes_four_messages(rt: HostRuntime) -> Result<(), Fail> {
    let bench = written(rt.alloc())?;
    let made = [
        clock_question(1, 0),
        clock_answer(0, 1, 1),
        write_request(1, 0, 0, FIRST, 7),
        write_answer(0, 1, 1),
    ];
    bench.expect_last(1, &made)
}

// A read, which ends with the delivery of message 8. The output server has a copy now, and a
// lease: at the input server until 1,000, and by its own clock until 990.
fn read(alloc: Global) -> Result<Smallest, Fail> {
    let mut bench = written(alloc)?;
    bench.expect_read(0, 2)?;
    bench.nothing_ends(&[5, 6, 7, 5])?;
    bench.expect_end(8, read_ended(2, FIRST, 7))?;
    Ok(bench)
}

#[test]
fn a_read_renews_first(rt: HostRuntime) -> Result<(), Fail> {
    let bench = read(rt.alloc())?;
    let made = [
        read_request(2, 0, 0),
        renewal_request(0, 0, Parts::Both, 0, 0),
        Grant::of_both(FIRST, 7).answer(0, 0, 0),
        read_answer(0, 2, FIRST, 7),
    ];
    bench.expect_last(5, &made)
}

// A write of 9, which the output server is to be told of. Its invalidation is message 12.
fn waiting(alloc: Global) -> Result<Smallest, Fail> {
    let mut bench = read(alloc)?;
    bench.expect_write(0, 9, 3)?;
    bench.nothing_ends(&[9, 10, 11, 13])?;
    Ok(bench)
}

#[test]
fn a_live_copy_is_waited_for(rt: HostRuntime) -> Result<(), Fail> {
    let bench = waiting(rt.alloc())?;
    let made = [
        clock_question(3, 0),
        clock_answer(0, 3, 2),
        write_request(3, 0, 0, SECOND, 9),
        invalidation(0, 0, 0, SECOND),
        write_answer(0, 3, 0),
    ];
    bench.expect_last(9, &made)
}

#[test]
fn a_write_ends_once_the_copy_is_given_up(rt: HostRuntime) -> Result<(), Fail> {
    let mut bench = waiting(rt.alloc())?;
    bench.nothing_ends(&[12, 14, 11])?;
    let made = [
        invalidation_answer(0, 0, list_of(0, SECOND)),
        write_answer(0, 3, 1),
    ];
    bench.expect_last(14, &made)?;
    bench.expect_end(15, write_ended(3, SECOND, 9))
}

// The output server is told nothing: messages 12 and 14 are never delivered. At 999 its lease is
// live at the input server, and at 1,000 no more.
fn run_out(alloc: Global) -> Result<Smallest, Fail> {
    let mut bench = waiting(alloc)?;
    bench.advance(&[999; 2])?;
    bench.nothing_ends(&[11, 15])?;
    bench.expect_last(14, &[invalidation(0, 0, 0, SECOND), write_answer(0, 3, 0)])?;
    bench.advance(&[1; 2])?;
    bench.nothing_ends(&[11])?;
    bench.expect_last(16, &[write_answer(0, 3, 1)])?;
    bench.expect_end(16, write_ended(3, SECOND, 9))?;
    Ok(bench)
}

#[test]
fn a_write_ends_once_the_lease_ran_out(rt: HostRuntime) -> Result<(), Fail> {
    run_out(rt.alloc())?;
    Ok(())
}

// The output server renews its lease, hears what waited for it, renews its copy, and then answers.
#[test]
fn a_read_after_that_is_not_behind(rt: HostRuntime) -> Result<(), Fail> {
    let mut bench = run_out(rt.alloc())?;
    bench.expect_read(0, 4)?;
    bench.nothing_ends(&[17, 18, 19, 17, 21, 22, 17])?;
    let volume = Grant {
        stamp: 1_000,
        ..Grant::of_volume(list_of(0, SECOND))
    };
    let object = Grant {
        stamp: 1_000,
        ..Grant::of_object(SECOND, 9)
    };
    let made = [
        read_request(4, 0, 0),
        renewal_request(0, 0, Parts::Volume, 0, 1_000),
        volume.answer(0, 0, 0),
        invalidation_answer(0, 0, list_of(0, SECOND)),
        renewal_request(0, 0, Parts::Object, 0, 1_000),
        object.answer(0, 0, 0),
        read_answer(0, 4, SECOND, 9),
    ];
    bench.expect_last(17, &made)?;
    bench.expect_end(23, read_ended(4, SECOND, 9))
}

// The second write has not ended, so the first may still be read, by the output server's clock
// until 990: the length of the lease less the drift.
#[test]
fn a_copy_is_given_until_its_lease_ends(rt: HostRuntime) -> Result<(), Fail> {
    let mut bench = waiting(rt.alloc())?;
    bench.expect_read(0, 4)?;
    bench.advance(&[989; 2])?;
    bench.nothing_ends(&[14])?;
    bench.expect_last(15, &[read_answer(0, 4, FIRST, 7)])?;
    bench.advance(&[1; 2])?;
    bench.nothing_ends(&[14])?;
    bench.expect_last(16, &[renewal_request(0, 0, Parts::Volume, 0, 990)])?;
    bench.expect_end(15, read_ended(4, FIRST, 7))
}
