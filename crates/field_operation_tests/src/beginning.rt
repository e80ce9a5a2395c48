// What a beginning takes, and what it makes.
use field::Opening;
use field_bench::messages::{clock_answer, clock_question, read_request};
use field_bench::{Bench, Place, by_majority, closed, expect_same, opening, refusal};
use operation::Operation;
use quorum::Majority;
use rules::Message;
use std::alloc::Global;
use std::test::Fail;

// So many servers on each side, with a log and a table of these lengths.
fn field(
    alloc: Global,
    servers: u8,
    opening: Opening,
    log: usize,
    table: usize,
) -> Result<Bench<Majority, Majority>, Fail> {
    let bench = closed(alloc, servers, servers, log, table)?;
    Ok(bench.opened(opening)?)
}

// Both beginnings are refused by that number, and nothing is made or begun.
fn refused(bench: &mut Bench<Majority, Majority>, object: u64, number: u8) -> Result<(), Fail> {
    let before = bench.looks();
    let said = [refusal(bench.write(object, 7)), refusal(bench.read(object))];
    expect_same(format_args!("object {object}"), &said, &[Some(number); 2])?;
    bench.expect_looks(before)
}

#[test]
fn operations_and_messages_are_numbered_from_1(rt: HostRuntime) -> Result<(), Fail> {
    let mut bench = by_majority(rt.alloc(), 2, 3)?;
    bench.expect_write(1, 7, 1)?;
    bench.expect_read(1, 2)?;
    bench.expect_write(0, 7, 3)?;
    let made = [
        clock_question(1, 0),
        clock_question(1, 1),
        read_request(2, 0, 1),
        read_request(2, 1, 1),
        read_request(2, 2, 1),
        clock_question(3, 0),
        clock_question(3, 1),
    ];
    bench.expect_last(1, &made)?;
    bench.expect(8, Message::BLANK)?;
    expect_same("operations", &bench.field.operations_begun(), &3)?;
    bench.expect_place(1, Place::Asking)?;
    bench.expect_place(2, Place::Reading)?;
    bench.expect_place(3, Place::Asking)?;
    bench.expect_place(4, Place::Unused)
}

#[test]
fn objects_below_the_count(rt: HostRuntime) -> Result<(), Fail> {
    let mut bench = field(rt.alloc(), 1, opening(1), 64, 4)?;
    for object in [1, 2, 256, 65_536, 4_294_967_296, u64::MAX] {
        refused(&mut bench, object, 21)?;
    }
    bench.expect_write(0, u64::MAX, 1)?;
    let mut bench = field(rt.alloc(), 1, opening(16), 64, 4)?;
    refused(&mut bench, 16, 21)?;
    bench.expect_write(15, 7, 1)?;
    bench.expect_read(15, 2)?;
    bench.expect(2, read_request(2, 0, 15))
}

#[test]
fn a_table_is_filled_to_its_last_place(rt: HostRuntime) -> Result<(), Fail> {
    let mut bench = field(rt.alloc(), 1, opening(1), 64, 2)?;
    bench.expect_read(0, 1)?;
    bench.expect_write(0, 7, 2)?;
    refused(&mut bench, 0, 22)
}

#[test]
fn a_table_of_1024_is_filled(rt: HostRuntime) -> Result<(), Fail> {
    let mut bench = field(rt.alloc(), 1, opening(1), 2_000, 1_024)?;
    for operation in 1..=1_024 {
        bench.expect_read(0, operation)?;
    }
    refused(&mut bench, 0, 22)?;
    bench.expect(1_024, read_request(1_024, 0, 0))?;
    // the last operation hears answers as the others do
    bench.nothing_ends(&[1_024])?;
    expect_same("messages", &bench.field.messages_made(), &1_025)
}

// With eight servers on a side a beginning makes eight messages: nine places are free before the
// first and nine before the second, and then one.
#[test]
fn nine_places_of_the_log_are_free(rt: HostRuntime) -> Result<(), Fail> {
    let mut bench = field(rt.alloc(), 8, opening(1), 17, 4)?;
    bench.expect_write(0, 7, 1)?;
    bench.expect_read(0, 2)?;
    bench.expect(8, clock_question(1, 7))?;
    bench.expect(16, read_request(2, 7, 0))?;
    bench.expect(17, Message::BLANK)?;
    refused(&mut bench, 0, 23)
}

#[test]
fn eight_places_of_the_log_are_too_few(rt: HostRuntime) -> Result<(), Fail> {
    let mut bench = field(rt.alloc(), 8, opening(1), 16, 4)?;
    bench.expect_write(0, 7, 1)?;
    refused(&mut bench, 0, 23)?;
    bench.expect(9, Message::BLANK)?;
    bench.expect_place(2, Place::Unused)
}

// Of the shortest log one message can be made.
#[test]
fn a_log_of_nine(rt: HostRuntime) -> Result<(), Fail> {
    let mut bench = field(rt.alloc(), 1, opening(1), 9, 4)?;
    bench.expect_read(0, 1)?;
    refused(&mut bench, 0, 23)?;
    bench.expect_refused(&[1], 32)
}

// Table and log are full, and then the log alone.
#[test]
fn the_first_refusal_counts(rt: HostRuntime) -> Result<(), Fail> {
    let mut bench = field(rt.alloc(), 1, opening(1), 9, 1)?;
    bench.read(0)?;
    refused(&mut bench, 1, 21)?;
    refused(&mut bench, 0, 22)?;
    let mut bench = field(rt.alloc(), 1, opening(1), 9, 2)?;
    bench.read(0)?;
    refused(&mut bench, 1, 21)?;
    refused(&mut bench, 0, 23)
}

// Whatever the caller left in a place of the table or of the log, an operation takes it over.
#[test]
fn places_are_taken_over(rt: HostRuntime) -> Result<(), Fail> {
    let mut bench = by_majority(rt.alloc(), 1, 1)?;
    bench.put_state(1, Operation::Ended);
    bench.put(1, clock_answer(7, 7, 7));
    bench.expect_write(0, 7, 1)?;
    bench.expect_place(1, Place::Asking)?;
    bench.expect(1, clock_question(1, 0))?;
    bench.nothing_ends(&[1, 2])?;
    bench.expect(2, clock_answer(0, 1, 1))
}
