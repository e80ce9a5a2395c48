// What an advance takes, and what it moves.
use field::Opening;
use field_bench::{Bench, Lent, expect_same, refusal};
use numbers::Time;
use quorum::Majority;
use std::alloc::Global;
use std::test::Fail;

const LAST_TIME: u64 = 1_099_511_627_776;

// Two input servers and one output server, with these start clocks and that drift.
fn field(alloc: Global, drift: u64, clocks: [u64; 3]) -> Result<Bench<Majority, Majority>, Fail> {
    let lent = Lent::new(alloc, Majority::new(2)?, Majority::new(1)?, 9, 1)?;
    let mut bench = Bench::new(lent);
    let opening = Opening {
        objects: 1,
        lease: 1,
        drift,
    };
    bench.open(opening, &clocks.map(Time))?;
    Ok(bench)
}

fn clocks(bench: &Bench<Majority, Majority>) -> [Option<Time>; 3] {
    let field = &bench.field;
    [
        field.input_clock(0),
        field.input_clock(1),
        field.output_clock(0),
    ]
}

// An advance is refused by that number, and no clock moves.
fn refused(
    bench: &mut Bench<Majority, Majority>,
    increments: &[u64],
    number: u8,
) -> Result<(), Fail> {
    let before = clocks(bench);
    let said = refusal(bench.advance(increments));
    expect_same(format_args!("{increments:?}"), &said, &Some(number))?;
    expect_same("the clocks", &clocks(bench), &before)
}

// An advance is accepted, and the clocks are these.
fn moved(
    bench: &mut Bench<Majority, Majority>,
    increments: [u64; 3],
    after: [u64; 3],
) -> Result<(), Fail> {
    bench.advance(&increments)?;
    let after = after.map(|clock| Some(Time(clock)));
    expect_same(format_args!("{increments:?}"), &clocks(bench), &after)
}

#[test]
fn each_clock_by_its_own_increment(rt: HostRuntime) -> Result<(), Fail> {
    let mut bench = field(rt.alloc(), 10, [100, 200, 300])?;
    moved(&mut bench, [0; 3], [100, 200, 300])?;
    moved(&mut bench, [990, 995, 1_000], [1_090, 1_195, 1_300])?;
    moved(&mut bench, [1_000, 991, 990], [2_090, 2_186, 2_290])
}

#[test]
fn one_increment_for_each_server(rt: HostRuntime) -> Result<(), Fail> {
    let mut bench = field(rt.alloc(), 10, [0; 3])?;
    refused(&mut bench, &[], 11)?;
    refused(&mut bench, &[1; 2], 11)?;
    refused(&mut bench, &[1; 4], 11)?;
    moved(&mut bench, [1; 3], [1; 3])?;
    Ok(())
}

#[test]
fn no_clock_passes_the_last_time(rt: HostRuntime) -> Result<(), Fail> {
    let mut bench = field(
        rt.alloc(),
        999,
        [LAST_TIME - 3, LAST_TIME - 3, LAST_TIME - 3],
    )?;
    refused(&mut bench, &[4, 3, 3], 12)?;
    refused(&mut bench, &[3, 4, 3], 12)?;
    refused(&mut bench, &[3, 3, 4], 12)?;
    moved(&mut bench, [3; 3], [LAST_TIME; 3])?;
    moved(&mut bench, [0; 3], [LAST_TIME; 3])?;
    refused(&mut bench, &[1; 3], 12)?;
    Ok(())
}

// A sum that 64 bits could not hold is past the last time as well.
#[test]
fn increments_of_any_size(rt: HostRuntime) -> Result<(), Fail> {
    let mut bench = field(rt.alloc(), 0, [0, 1, LAST_TIME])?;
    refused(&mut bench, &[u64::MAX; 3], 12)?;
    refused(&mut bench, &[0, u64::MAX, 0], 12)?;
    refused(&mut bench, &[0, 0, u64::MAX], 12)?;
    let mut bench = field(rt.alloc(), 0, [0; 3])?;
    refused(&mut bench, &[LAST_TIME + 1; 3], 12)?;
    moved(&mut bench, [LAST_TIME; 3], [LAST_TIME; 3])?;
    Ok(())
}

#[test]
fn every_two_increments_keep_the_drift(rt: HostRuntime) -> Result<(), Fail> {
    let mut bench = field(rt.alloc(), 10, [0; 3])?;
    for broken in [
        [989, 1_000, 1_000],
        [1_000, 989, 1_000],
        [1_000, 1_000, 989],
        [1_000, 990, 1_001],
        [0, 1, 1],
        [1, 0, 0],
    ] {
        refused(&mut bench, &broken, 13)?;
    }
    moved(&mut bench, [1_000, 1_000, 990], [1_000, 1_000, 990])
}

#[test]
fn drifts_at_their_ends(rt: HostRuntime) -> Result<(), Fail> {
    let mut exact = field(rt.alloc(), 0, [0; 3])?;
    refused(&mut exact, &[1_000, 1_000, 1_001], 13)?;
    moved(&mut exact, [1_000; 3], [1_000; 3])?;
    let mut loose = field(rt.alloc(), 999, [0; 3])?;
    refused(&mut loose, &[1, 1, 1_001], 13)?;
    refused(&mut loose, &[0, 0, 1], 13)?;
    moved(&mut loose, [1, 1, 1_000], [1, 1, 1_000])
}

// Each of these would be refused by the later numbers too.
#[test]
fn the_first_refusal_counts(rt: HostRuntime) -> Result<(), Fail> {
    let mut bench = field(rt.alloc(), 10, [LAST_TIME, 0, 0])?;
    refused(&mut bench, &[u64::MAX, 0], 11)?;
    refused(&mut bench, &[1, 0, 0], 12)?;
    refused(&mut bench, &[0, 0, 1], 13)
}
