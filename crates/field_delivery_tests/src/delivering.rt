// What becomes of messages: delivered once, twice, late, in any order, or never.
use field_bench::messages::{
    clock_answer, clock_question, invalidation, read_answer, read_ended, renewal_request,
    write_answer, write_ended, write_request,
};
use field_bench::{Bench, Lent, Place, by_majority, closed, expect_refusal, expect_same, opening};
use numbers::Version;
use quorum::{Majority, ReadOneWriteAll};
use rules::{Delivery, Message, Parts};
use std::alloc::Global;
use std::test::Fail;

// The version of a first write that is operation 1, and of one that is operation 2.
const BY_ONE: Version = Version(131_073);

const BY_TWO: Version = Version(131_074);

#[test]
fn only_messages_that_were_made(rt: HostRuntime) -> Result<(), Fail> {
    let mut bench = by_majority(rt.alloc(), 2, 1)?;
    bench.expect_refused(&[0, 1, 128, 129, usize::MAX], 31)?;
    bench.write(0, 7)?;
    bench.expect_refused(&[0, 3, 128, 65_537, usize::MAX], 31)?;
    bench.nothing_ends(&[2])
}

// One server on each side, and a write in a log of that length.
fn in_log_of(alloc: Global, len: usize) -> Result<Bench<Majority, Majority>, Fail> {
    let mut bench = closed(alloc, 1, 1, len, 4)?.opened(opening(1))?;
    bench.write(0, 7)?;
    Ok(bench)
}

// Nine places are free before the first delivery, and eight after it.
#[test]
fn nine_places_of_the_log_are_free(rt: HostRuntime) -> Result<(), Fail> {
    let mut bench = in_log_of(rt.alloc(), 10)?;
    bench.nothing_ends(&[1])?;
    bench.expect_last(2, &[clock_answer(0, 1, 1)])?;
    bench.expect_refused(&[1, 2], 32)?;
    expect_same("messages", &bench.field.messages_made(), &2)?;
    bench.expect(3, Message::BLANK)
}

// The longest log is filled but for its last eight places.
#[test]
fn a_log_of_65535_is_filled(rt: HostRuntime) -> Result<(), Fail> {
    let mut bench = in_log_of(rt.alloc(), 65_535)?;
    for made in 1..=65_526 {
        expect_same("messages", &bench.field.messages_made(), &made)?;
        bench.expect_end(1, Delivery::NothingEnded)?;
    }
    bench.expect_refused(&[1], 32)?;
    expect_refusal(bench.write(0, 7), 23)?;
    bench.expect_last(65_527, &[clock_answer(0, 1, 1)])
}

// Eight output servers hold a copy under a live lease, so that a write request makes nine
// messages, as many as any delivery: they take the last nine places of the log.
#[test]
fn nine_messages_in_the_last_nine_places(rt: HostRuntime) -> Result<(), Fail> {
    let mut bench = closed(rt.alloc(), 1, 8, 36, 4)?.opened(opening(1))?;
    bench.read(0)?;
    for request in 1..=8 {
        bench.nothing_ends(&[request, 7 + 2 * request, 8 + 2 * request])?;
    }
    bench.write(0, 7)?;
    bench.nothing_ends(&[25, 26, 27])?;
    bench.expect(28, invalidation(0, 0, 0, BY_TWO))?;
    bench.expect(35, invalidation(0, 7, 0, BY_TWO))?;
    bench.expect_last(36, &[write_answer(0, 2, 0)])?;
    bench.expect_refused(&[28], 32)?;
    expect_refusal(bench.write(0, 7), 23)
}

// A message that was not made, and one that is out of range, where the log is full.
#[test]
fn the_first_refusal_counts(rt: HostRuntime) -> Result<(), Fail> {
    let mut bench = in_log_of(rt.alloc(), 9)?;
    bench.put(1, clock_question(1, 9));
    bench.expect_refused(&[0, 2], 31)?;
    bench.expect_refused(&[1], 32)?;
    let mut bench = in_log_of(rt.alloc(), 10)?;
    bench.put(1, clock_question(1, 9));
    bench.expect_refused(&[2], 31)?;
    bench.expect_refused(&[1], 33)
}

// The clock of an input server that is asked twice counts once. The third server is never asked.
#[test]
fn a_question_and_an_answer_delivered_twice(rt: HostRuntime) -> Result<(), Fail> {
    let mut bench = by_majority(rt.alloc(), 3, 1)?;
    bench.write(0, 7)?;
    bench.nothing_ends(&[1, 1, 4, 5, 4])?;
    bench.expect_last(4, &[clock_answer(0, 1, 1), clock_answer(0, 1, 1)])?;
    bench.expect_place(1, Place::Asking)?;
    bench.nothing_ends(&[2, 6])?;
    let made = [
        write_request(1, 0, 0, BY_ONE, 7),
        write_request(1, 1, 0, BY_ONE, 7),
        write_request(1, 2, 0, BY_ONE, 7),
    ];
    bench.expect_last(7, &made)?;
    // a clock that comes late changes nothing, and is not answered by more requests
    bench.nothing_ends(&[3, 10, 4])?;
    bench.expect_last(10, &[clock_answer(2, 1, 1)])?;
    let sending = Place::Sending {
        object: 0,
        version: BY_ONE,
        value: 7,
    };
    bench.expect_place(1, sending)
}

// Three input servers and one output server; the write of 7 has its version, and its requests are
// messages 6, 7 and 8.
fn sending(alloc: Global) -> Result<Bench<Majority, Majority>, Fail> {
    let mut bench = by_majority(alloc, 3, 1)?;
    bench.write(0, 7)?;
    bench.nothing_ends(&[1, 2, 4, 5])?;
    bench.expect_last(8, &[write_request(1, 2, 0, BY_ONE, 7)])?;
    Ok(bench)
}

#[test]
fn an_end_is_said_once(rt: HostRuntime) -> Result<(), Fail> {
    let mut bench = sending(rt.alloc())?;
    bench.nothing_ends(&[6, 7, 8, 9, 9])?;
    bench.expect_end(10, write_ended(1, BY_ONE, 7))?;
    bench.expect_place(1, Place::Ended)?;
    bench.nothing_ends(&[10, 11, 9, 10, 4, 5])?;
    bench.expect_place(1, Place::Ended)?;
    expect_same("messages", &bench.field.messages_made(), &11)
}

// The last request first, and its answer before the others are asked.
#[test]
fn messages_out_of_order(rt: HostRuntime) -> Result<(), Fail> {
    let mut bench = sending(rt.alloc())?;
    bench.nothing_ends(&[8, 9, 6])?;
    bench.expect_last(9, &[write_answer(2, 1, 1), write_answer(0, 1, 1)])?;
    bench.expect_end(10, write_ended(1, BY_ONE, 7))
}

// Input server 2 takes a write that has ended, as its next clock shows.
#[test]
fn requests_of_an_ended_write_still_count(rt: HostRuntime) -> Result<(), Fail> {
    let mut bench = sending(rt.alloc())?;
    bench.nothing_ends(&[6, 7, 9])?;
    bench.expect_end(10, write_ended(1, BY_ONE, 7))?;
    bench.nothing_ends(&[3])?;
    bench.expect_last(11, &[clock_answer(2, 1, 1)])?;
    bench.nothing_ends(&[8, 3])?;
    bench.expect_last(12, &[write_answer(2, 1, 1), clock_answer(2, 1, 2)])
}

// Two writes of one object that ask for clocks side by side get versions of one clock, and the one
// that is begun later gets the higher. A request that comes late does not take its place.
#[test]
fn two_writes_side_by_side(rt: HostRuntime) -> Result<(), Fail> {
    let mut bench = by_majority(rt.alloc(), 1, 1)?;
    bench.expect_write(0, 7, 1)?;
    bench.expect_write(0, 8, 2)?;
    bench.nothing_ends(&[2, 1, 3, 4])?;
    let made = [
        clock_answer(0, 2, 1),
        clock_answer(0, 1, 1),
        write_request(2, 0, 0, BY_TWO, 8),
        write_request(1, 0, 0, BY_ONE, 7),
    ];
    bench.expect_last(3, &made)?;
    bench.nothing_ends(&[5, 6])?;
    bench.expect_end(8, write_ended(1, BY_ONE, 7))?;
    bench.expect_end(7, write_ended(2, BY_TWO, 8))?;
    bench.expect_read(0, 3)?;
    bench.nothing_ends(&[9, 10, 11, 9])?;
    bench.expect_last(12, &[read_answer(0, 3, BY_TWO, 8)])
}

// Objects are written and read apart.
#[test]
fn two_objects(rt: HostRuntime) -> Result<(), Fail> {
    let mut bench = by_majority(rt.alloc(), 1, 1)?;
    bench.write(1, 7)?;
    bench.nothing_ends(&[1, 2, 3])?;
    bench.expect_end(4, write_ended(1, BY_ONE, 7))?;
    bench.read(0)?;
    bench.nothing_ends(&[5, 6, 7, 5])?;
    bench.expect_last(8, &[read_answer(0, 2, Version::STARTING, 0)])?;
    bench.read(1)?;
    bench.nothing_ends(&[9])?;
    bench.expect_last(10, &[renewal_request(0, 0, Parts::Object, 1, 0)])?;
    bench.nothing_ends(&[10, 11, 9])?;
    bench.expect_last(12, &[read_answer(0, 3, BY_ONE, 7)])
}

// Three output servers, of which one is enough to read from and all are needed to write.
#[test]
fn a_read_ends_once(rt: HostRuntime) -> Result<(), Fail> {
    let outputs = ReadOneWriteAll::new(3)?;
    let lent = Lent::new(rt.alloc(), Majority::new(1)?, outputs, 64, 4)?;
    let mut bench = Bench::new(lent).opened(opening(1))?;
    bench.read(0)?;
    bench.nothing_ends(&[3, 4, 5, 3, 1, 7, 8, 1])?;
    bench.expect(6, read_answer(2, 1, Version::STARTING, 0))?;
    bench.expect_last(9, &[read_answer(0, 1, Version::STARTING, 0)])?;
    bench.expect_end(9, read_ended(1, Version::STARTING, 0))?;
    bench.nothing_ends(&[6, 9])?;
    bench.expect_place(1, Place::Ended)
}
