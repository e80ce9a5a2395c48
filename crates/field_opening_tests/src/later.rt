// What every call but opening asks first: that the field is open, and that it is lent what it was
// opened with.
use field_bench::{Bench, closed, expect_same, opening, refusal};
use quorum::Majority;
use std::alloc::Global;
use std::test::Fail;

// Two input servers and one output server, a log of 20 and a table of 3.
fn own(alloc: Global) -> Result<Bench<Majority, Majority>, Fail> {
    closed(alloc, 2, 1, 20, 3)
}

// The same, open, with one write begun.
fn own_with_a_write(alloc: Global) -> Result<Bench<Majority, Majority>, Fail> {
    let mut bench = own(alloc)?.opened(opening(2))?;
    bench.write(0, 7)?;
    Ok(bench)
}

// One of each of the calls with nothing wrong in it: all are refused by that number.
fn all_refused(bench: &mut Bench<Majority, Majority>, number: u8) -> Result<(), Fail> {
    let said = [
        refusal(bench.advance(&[0; 3])),
        refusal(bench.write(0, 7)),
        refusal(bench.read(0)),
        refusal(bench.deliver(1)),
    ];
    expect_same("the calls", &said, &[Some(number); 4])
}

// The same with calls that would be refused by 11, 21, 21 and 31.
fn all_refused_first(bench: &mut Bench<Majority, Majority>, number: u8) -> Result<(), Fail> {
    let said = [
        refusal(bench.advance(&[])),
        refusal(bench.write(2, 7)),
        refusal(bench.read(u64::MAX)),
        refusal(bench.deliver(0)),
    ];
    expect_same("the calls", &said, &[Some(number); 4])
}

#[test]
fn a_field_has_to_be_open(rt: HostRuntime) -> Result<(), Fail> {
    let mut bench = own(rt.alloc())?;
    let before = bench.looks();
    all_refused(&mut bench, 8)?;
    all_refused_first(&mut bench, 8)?;
    bench.lent = closed(rt.alloc(), 9, 9, 8, 0)?.lent;
    all_refused(&mut bench, 8)?;
    bench.expect_looks(before)
}

// An open field with one write begun, which is lent something else.
fn lent_another(
    alloc: Global,
    inputs: u8,
    outputs: u8,
    log: usize,
    table: usize,
) -> Result<(), Fail> {
    let mut bench = own_with_a_write(alloc)?;
    let before = bench.looks();
    let other = closed(alloc, inputs, outputs, log, table)?.lent;
    let lent = std::mem::replace(&mut bench.lent, other);
    all_refused(&mut bench, 9)?;
    all_refused_first(&mut bench, 9)?;
    bench.expect_looks(before)?;
    bench.lent = lent;
    bench.nothing_ends(&[1])
}

#[test]
fn the_log_has_the_length_of_the_opening(rt: HostRuntime) -> Result<(), Fail> {
    lent_another(rt.alloc(), 2, 1, 19, 3)?;
    lent_another(rt.alloc(), 2, 1, 21, 3)?;
    lent_another(rt.alloc(), 2, 1, 0, 3)
}

#[test]
fn the_table_has_the_length_of_the_opening(rt: HostRuntime) -> Result<(), Fail> {
    lent_another(rt.alloc(), 2, 1, 20, 2)?;
    lent_another(rt.alloc(), 2, 1, 20, 4)?;
    lent_another(rt.alloc(), 2, 1, 20, 0)
}

#[test]
fn the_systems_have_the_counts_of_the_opening(rt: HostRuntime) -> Result<(), Fail> {
    lent_another(rt.alloc(), 1, 1, 20, 3)?;
    lent_another(rt.alloc(), 3, 1, 20, 3)?;
    lent_another(rt.alloc(), 2, 2, 20, 3)?;
    lent_another(rt.alloc(), 1, 2, 20, 3)?;
    lent_another(rt.alloc(), 64, 64, 20, 3)
}

// A system of the same count in the place of the one at the opening passes.
#[test]
fn the_families_may_be_others(rt: HostRuntime) -> Result<(), Fail> {
    let mut bench = own_with_a_write(rt.alloc())?;
    bench.lent.systems.inputs = Majority::new(2)?;
    bench.nothing_ends(&[1, 2])
}
