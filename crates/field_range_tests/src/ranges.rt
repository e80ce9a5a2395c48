// Messages of any numbers, put into the log by the caller: which are delivered, and which are
// refused as out of range. There are two servers on each side, and two objects; operation 1, a
// write, is begun.
use field_bench::messages::{
    Grant, clock_answer, clock_question, counted, invalidation, invalidation_answer, list_of,
    naming, read_answer, read_ended, read_request, renewal_request, write_answer, write_ended,
    write_request,
};
use field_bench::{by_majority, expect_same, refusal, with_a_write};
use numbers::Version;
use rules::{Message, Pairs, Parts};
use std::alloc::Global;
use std::test::Fail;

const LAST_TIME: u64 = 1_099_511_627_776;

const FIRST: Version = Version::STARTING;

const LAST: Version = Version(4_294_967_295);

const BELOW_FIRST: Version = Version(65_535);

// None of these can be delivered in the place of message 1, and none leaves anything behind.
fn none_passes(alloc: Global, messages: &mut [Message]) -> Result<(), Fail> {
    let mut bench = with_a_write(alloc)?;
    let before = bench.looks();
    for message in messages {
        bench.swap(1, message);
        bench.expect_refused(&[1], 33)?;
        bench.expect_looks(before)?;
    }
    Ok(())
}

// Each of these is delivered in the place of message 1 of a field of its own.
fn each_passes(alloc: Global, messages: &mut [Message]) -> Result<(), Fail> {
    for message in messages {
        let mut bench = with_a_write(alloc)?;
        bench.swap(1, message);
        let said = refusal(bench.deliver(1));
        expect_same(format_args!("{:?}", bench.lent.log.first()), &said, &None)?;
    }
    Ok(())
}

#[test]
fn servers_of_operations(rt: HostRuntime) -> Result<(), Fail> {
    let mut messages = [
        clock_question(1, 2),
        clock_answer(2, 1, 1),
        write_request(1, 2, 0, FIRST, 0),
        write_answer(2, 1, 0),
        read_request(1, 2, 0),
        read_answer(2, 1, FIRST, 0),
        clock_question(1, 255),
        read_request(1, 255, 0),
    ];
    none_passes(rt.alloc(), &mut messages)
}

#[test]
fn servers_of_servers(rt: HostRuntime) -> Result<(), Fail> {
    let renewal = Grant::of_both(FIRST, 0);
    let mut messages = [
        renewal_request(2, 0, Parts::Both, 0, 0),
        renewal_request(0, 2, Parts::Both, 0, 0),
        renewal.answer(2, 0, 0),
        renewal.answer(0, 2, 0),
        invalidation(2, 0, 0, FIRST),
        invalidation(0, 2, 0, FIRST),
        invalidation_answer(2, 0, Pairs::empty()),
        invalidation_answer(0, 2, Pairs::empty()),
    ];
    none_passes(rt.alloc(), &mut messages)
}

#[test]
fn objects(rt: HostRuntime) -> Result<(), Fail> {
    let listed = Grant::of_volume(list_of(2, FIRST));
    let mut messages = [
        write_request(1, 0, 2, FIRST, 0),
        read_request(1, 0, 2),
        renewal_request(0, 0, Parts::Both, 2, 0),
        // of the volume alone too
        renewal_request(0, 0, Parts::Volume, 2, 0),
        Grant::of_both(FIRST, 0).answer(0, 0, 2),
        listed.answer(0, 0, 0),
        invalidation(0, 0, 2, FIRST),
        invalidation_answer(0, 0, list_of(2, FIRST)),
    ];
    none_passes(rt.alloc(), &mut messages)
}

#[test]
fn versions(rt: HostRuntime) -> Result<(), Fail> {
    let copy = Grant::of_object(BELOW_FIRST, 0);
    let list = Grant::of_volume(list_of(0, BELOW_FIRST));
    let mut messages = [
        write_request(1, 0, 0, BELOW_FIRST, 0),
        write_request(1, 0, 0, Version::NONE, 0),
        read_answer(0, 1, BELOW_FIRST, 0),
        read_answer(0, 1, Version::NONE, 0),
        copy.answer(0, 0, 0),
        list.answer(0, 0, 0),
        invalidation(0, 0, 0, BELOW_FIRST),
        invalidation_answer(0, 0, list_of(0, BELOW_FIRST)),
    ];
    none_passes(rt.alloc(), &mut messages)
}

#[test]
fn clocks_and_sets(rt: HostRuntime) -> Result<(), Fail> {
    let mut messages = [
        clock_answer(0, 1, 0),
        clock_answer(0, 1, 65_535),
        write_answer(0, 1, 0b100),
        write_answer(0, 1, 0b111),
        write_answer(0, 1, u64::MAX),
    ];
    none_passes(rt.alloc(), &mut messages)
}

// A renewal answer of both parts with one number changed.
fn changed(change: Grant) -> Message {
    change.answer(0, 0, 0)
}

#[test]
fn numbers_of_renewals(rt: HostRuntime) -> Result<(), Fail> {
    let good = Grant::of_both(FIRST, 0);
    let mut messages = [
        renewal_request(0, 0, Parts::Both, 0, LAST_TIME + 1),
        renewal_request(0, 0, Parts::Both, 0, u64::MAX),
        changed(Grant { epoch: 0, ..good }),
        changed(Grant {
            epoch: 65_537,
            ..good
        }),
        changed(Grant {
            stamp: LAST_TIME + 1,
            ..good
        }),
        changed(Grant {
            length: 1_000_000_001,
            ..good
        }),
    ];
    none_passes(rt.alloc(), &mut messages)
}

#[test]
fn lists(rt: HostRuntime) -> Result<(), Fail> {
    let nine = Grant::of_volume(counted(9, 0, FIRST));
    let mut messages = [
        nine.answer(0, 0, 0),
        invalidation_answer(0, 0, counted(9, 0, FIRST)),
        invalidation_answer(0, 0, counted(255, 0, FIRST)),
        invalidation_answer(0, 0, counted(8, 2, FIRST)),
    ];
    none_passes(rt.alloc(), &mut messages)
}

#[test]
fn parts_that_were_not_asked_for(rt: HostRuntime) -> Result<(), Fail> {
    let object = Grant::of_object(FIRST, 5);
    let volume = Grant::of_volume(Pairs::empty());
    let mut messages = [
        changed(Grant {
            length: 1,
            ..object
        }),
        changed(Grant {
            list: list_of(0, FIRST),
            ..object
        }),
        changed(Grant {
            version: FIRST,
            ..volume
        }),
        changed(Grant { value: 1, ..volume }),
    ];
    none_passes(rt.alloc(), &mut messages)?;
    each_passes(rt.alloc(), &mut [changed(object), changed(volume)])
}

#[test]
fn operations_that_are_begun(rt: HostRuntime) -> Result<(), Fail> {
    each_passes(rt.alloc(), &mut naming(1))?;
    none_passes(rt.alloc(), &mut naming(0))?;
    none_passes(rt.alloc(), &mut naming(2))?;
    none_passes(rt.alloc(), &mut naming(9))?;
    none_passes(rt.alloc(), &mut naming(65_535))
}

#[test]
fn highest_numbers_of_operations(rt: HostRuntime) -> Result<(), Fail> {
    let mut messages = [
        clock_question(1, 1),
        clock_answer(1, 1, 65_534),
        write_request(1, 1, 1, LAST, u64::MAX),
        write_answer(1, 1, 0b11),
        read_request(1, 1, 1),
        read_answer(1, 1, LAST, u64::MAX),
    ];
    each_passes(rt.alloc(), &mut messages)
}

#[test]
fn highest_numbers_of_servers(rt: HostRuntime) -> Result<(), Fail> {
    let highest = Grant {
        epoch: 65_536,
        stamp: LAST_TIME,
        length: 1_000_000_000,
        list: counted(8, 1, LAST),
        ..Grant::of_both(LAST, u64::MAX)
    };
    let mut messages = [
        renewal_request(1, 1, Parts::Both, 1, LAST_TIME),
        highest.answer(1, 1, 1),
        invalidation(1, 1, 1, LAST),
        invalidation_answer(1, 1, counted(8, 1, LAST)),
    ];
    each_passes(rt.alloc(), &mut messages)
}

// What lies elsewhere in the log is not looked at.
#[test]
fn other_messages_do_not_matter(rt: HostRuntime) -> Result<(), Fail> {
    let mut bench = with_a_write(rt.alloc())?;
    bench.put(2, clock_answer(9, 9, 0));
    bench.put(100, clock_answer(9, 9, 0));
    bench.nothing_ends(&[1])?;
    bench.expect_last(2, &[clock_answer(9, 9, 0), clock_answer(0, 1, 1)])?;
    bench.expect_refused(&[2], 33)
}

// ---- the highest clocks

const HIGHEST: Version = Version(4_294_901_761);

// The highest clock that can be answered gives the write the clock 65,535, and leaves none for
// another.
#[test]
fn the_last_clock(rt: HostRuntime) -> Result<(), Fail> {
    let mut bench = by_majority(rt.alloc(), 1, 1)?;
    bench.write(0, 7)?;
    bench.put(1, clock_answer(0, 1, 65_534));
    bench.nothing_ends(&[1, 2])?;
    bench.expect_end(3, write_ended(1, HIGHEST, 7))?;
    bench.expect_write(0, 8, 2)?;
    bench.nothing_ends(&[4])?;
    bench.expect_last(5, &[clock_answer(0, 2, 65_535)])?;
    bench.expect_refused(&[5], 33)
}

// A request of the highest version is taken, and nothing can be written above it. It is read.
#[test]
fn the_last_version(rt: HostRuntime) -> Result<(), Fail> {
    let mut bench = by_majority(rt.alloc(), 1, 1)?;
    bench.write(0, 7)?;
    bench.put(1, write_request(1, 0, 0, LAST, 9));
    bench.nothing_ends(&[1, 2])?;
    bench.put(2, clock_question(1, 0));
    bench.nothing_ends(&[2])?;
    bench.expect_last(3, &[clock_answer(0, 1, 65_535)])?;
    bench.expect_refused(&[3], 33)?;
    bench.read(0)?;
    bench.nothing_ends(&[4, 5, 6, 4])?;
    bench.expect_end(7, read_ended(2, LAST, 9))
}
