// A refusal changes nothing. Two fields go the same way, and one of them is asked for much that it
// refuses: they stay alike, in all that is seen and in all that they do afterwards.
use field_bench::messages::{
    clock_answer, read_answer, read_ended, renewal_request, write_ended, write_request,
};
use field_bench::{Bench, Place, by_majority, closed, expect_refusal, expect_same, opening};
use numbers::{Time, Version};
use quorum::Majority;
use rules::Parts;
use std::alloc::Global;
use std::test::Fail;

const LAST_TIME: u64 = 1_099_511_627_776;

const WRITTEN: Version = Version(131_073);

type Busy = Bench<Majority, Majority>;

// Two servers on each side, all of which are needed. Operation 1 writes 7 to object 0: it has its
// version, and input server 0 has taken it. Operation 2 writes 8 to object 1, and has heard one
// clock. Operation 3 reads object 0, and has heard output server 0.
fn busy(alloc: Global) -> Result<Busy, Fail> {
    let mut bench = by_majority(alloc, 2, 2)?;
    bench.write(0, 7)?;
    bench.nothing_ends(&[1, 2, 3, 4, 5, 7])?;
    bench.write(1, 8)?;
    bench.nothing_ends(&[8, 10])?;
    bench.read(0)?;
    bench.nothing_ends(&[11, 13, 14, 15, 16, 11, 17])?;
    bench.expect_last(17, &[read_answer(0, 3, WRITTEN, 7)])?;
    Ok(bench)
}

const SENDING: Place = Place::Sending {
    object: 0,
    version: WRITTEN,
    value: 7,
};

fn alike(one: &Busy, other: &Busy) -> Result<(), Fail> {
    one.expect_looks(other.looks())?;
    for number in 0..2 {
        one.expect_clocks(number, other.clocks(number))?;
    }
    for operation in 1..=8 {
        let place = format_args!("operation {operation}");
        expect_same(place, &one.place(operation), &other.place(operation))?;
    }
    let logs = (one.lent.log.as_slice(), other.lent.log.as_slice());
    expect_same("the log", &logs.0, &logs.1)
}

// The rest of the three operations, with the ends of the write and of the read.
fn goes_on(bench: &mut Busy) -> Result<(), Fail> {
    bench.expect_place(1, SENDING)?;
    bench.nothing_ends(&[6, 19, 18, 20, 6])?;
    bench.expect_end(21, write_ended(1, WRITTEN, 7))?;
    bench.expect_place(2, Place::Asking)?;
    bench.nothing_ends(&[9, 22])?;
    bench.expect_last(24, &[write_request(2, 1, 1, Version(196_610), 8)])
}

fn ends(bench: &mut Busy) -> Result<(), Fail> {
    bench.expect_place(3, Place::Reading)?;
    bench.nothing_ends(&[12, 25, 26, 27, 28, 12])?;
    bench.expect_last(30, &[read_answer(1, 3, WRITTEN, 7)])?;
    bench.expect_end(30, read_ended(3, WRITTEN, 7))
}

fn refuses_clocks(bench: &mut Busy) -> Result<(), Fail> {
    let open = bench.open(opening(2), &[Time::ZERO; 4]);
    expect_refusal(open, 1)?;
    expect_refusal(bench.advance(&[1; 3]), 11)?;
    expect_refusal(bench.advance(&[1, 1, 1, LAST_TIME + 1]), 12)?;
    expect_refusal(bench.advance(&[1, 1, 1, 2]), 13)
}

fn refuses_operations(bench: &mut Busy) -> Result<(), Fail> {
    expect_refusal(bench.write(2, 1), 21)?;
    expect_refusal(bench.read(2), 21)?;
    bench.expect_refused(&[0, 18], 31)
}

// Its own log and table, and systems of other counts.
fn refuses_others(bench: &mut Busy) -> Result<(), Fail> {
    bench.lent.systems.outputs = Majority::new(3)?;
    expect_refusal(bench.advance(&[1; 4]), 9)?;
    expect_refusal(bench.write(0, 1), 9)?;
    expect_refusal(bench.read(0), 9)?;
    bench.expect_refused(&[6], 9)?;
    bench.lent.systems.outputs = Majority::new(2)?;
    Ok(())
}

// Messages that would move each of the three operations and both kinds of server, were they in
// range.
fn refuses_messages(bench: &mut Busy) -> Result<(), Fail> {
    let bad = [
        clock_answer(1, 2, 65_535),
        write_request(1, 1, 2, Version(u32::MAX), 1),
        read_answer(1, 3, Version(65_535), 1),
        renewal_request(1, 1, Parts::Both, 0, LAST_TIME + 1),
    ];
    for message in bad {
        bench.put(17, message);
        bench.expect_refused(&[17], 33)?;
    }
    bench.put(17, read_answer(0, 3, WRITTEN, 7));
    Ok(())
}

#[test]
fn refused_calls_leave_no_trace(rt: HostRuntime) -> Result<(), Fail> {
    let mut one = busy(rt.alloc())?;
    let mut other = busy(rt.alloc())?;
    refuses_clocks(&mut one)?;
    refuses_operations(&mut one)?;
    refuses_others(&mut one)?;
    refuses_messages(&mut one)?;
    alike(&one, &other)?;
    goes_on(&mut one)?;
    goes_on(&mut other)?;
    alike(&one, &other)?;
    ends(&mut one)?;
    ends(&mut other)?;
    alike(&one, &other)
}

// The same where the log is full: what a refused delivery would have logged is not there.
#[test]
fn a_full_log_stays_as_it_is(rt: HostRuntime) -> Result<(), Fail> {
    let mut bench = closed(rt.alloc(), 1, 1, 10, 4)?.opened(opening(1))?;
    bench.write(0, 7)?;
    bench.nothing_ends(&[1])?;
    let before = bench.looks();
    bench.expect_refused(&[1, 2], 32)?;
    expect_refusal(bench.write(0, 8), 23)?;
    bench.expect_looks(before)?;
    bench.expect_place(1, Place::Asking)?;
    bench.expect_place(2, Place::Unused)?;
    bench.expect_last(2, &[clock_answer(0, 1, 1)])
}
