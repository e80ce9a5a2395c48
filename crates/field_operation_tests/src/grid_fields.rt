// A field whose input servers, or whose output servers, go by a grid: the columns are {0, 1} and
// {2, 3}. On the other side servers go by majority.
use field_bench::messages::{
    Grant, clock_answer, invalidation, read_answer, read_ended, read_request, renewal_request,
    write_answer, write_ended, write_request,
};
use field_bench::{Bench, Grid, Lent, opening};
use numbers::Version;
use quorum::{Majority, MemberSet, QuorumSystem, Refusal};
use rules::Parts;
use std::alloc::Global;
use std::test::Fail;

#[test]
fn a_grid_of_two_columns(rt: HostRuntime) -> Result<(), Fail> {
    let grid = Grid::new(2)?;
    assert_eq!(rt; grid.count(), 4);
    for (set, reads, writes) in [
        (0b0000, false, false),
        (0b0001, false, false),
        (0b0011, false, true),
        (0b1100, false, true),
        (0b0101, true, false),
        (0b0110, true, false),
        (0b1001, true, false),
        (0b0111, true, true),
        (0b1110, true, true),
        (0b1111, true, true),
        // a place beyond the members
        (0b1_1111, false, false),
        (u64::MAX, false, false),
    ] {
        assert_eq!(rt; grid.is_read_set(MemberSet(set)), reads, "{set:b} reads");
        assert_eq!(rt; grid.is_write_set(MemberSet(set)), writes, "{set:b} writes");
    }
    Ok(())
}

#[test]
fn grids_of_one_to_thirty_two_columns(rt: HostRuntime) -> Result<(), Fail> {
    for columns in [0, 33, 128, 255] {
        assert_eq!(rt; Grid::new(columns), Err(Refusal::MemberCount));
    }
    let smallest = Grid::new(1)?;
    assert!(rt; smallest.is_read_set(MemberSet(0b10)));
    assert!(rt; !smallest.is_write_set(MemberSet(0b10)));
    let largest = Grid::new(32)?;
    assert_eq!(rt; largest.count(), 64);
    assert!(rt; largest.is_write_set(MemberSet(0b11 << 62)));
    assert!(rt; largest.is_read_set(MemberSet(u64::MAX / 3)));
    assert!(rt; !largest.is_read_set(MemberSet(u64::MAX / 3 - 1)));
    Ok(())
}

// ---- four input servers by the grid, three output servers by majority

// The version of the write, which is operation 1.
const WRITTEN: Version = Version(131_073);

fn grid_of_inputs(alloc: Global) -> Result<Bench<Grid, Majority>, Fail> {
    let lent = Lent::new(alloc, Grid::new(2)?, Majority::new(3)?, 64, 4)?;
    Ok(Bench::new(lent).opened(opening(1))?)
}

// A write of 7. The clocks of input servers 0 and 1, a whole column, are not enough for a
// version; with that of input server 2 they touch both columns.
fn with_version(alloc: Global) -> Result<Bench<Grid, Majority>, Fail> {
    let mut bench = grid_of_inputs(alloc)?;
    bench.expect_write(0, 7, 1)?;
    bench.nothing_ends(&[1, 2, 5, 6, 3])?;
    bench.expect_last(7, &[clock_answer(2, 1, 1)])?;
    bench.nothing_ends(&[7])?;
    let made = [
        write_request(1, 0, 0, WRITTEN, 7),
        write_request(1, 1, 0, WRITTEN, 7),
        write_request(1, 2, 0, WRITTEN, 7),
        write_request(1, 3, 0, WRITTEN, 7),
    ];
    bench.expect_last(8, &made)?;
    Ok(bench)
}

// Input servers 0 and 2 shut every output server out, which touches both columns but fills none;
// with input server 3 a column is full. Input server 1 never hears of the write.
fn written(alloc: Global) -> Result<Bench<Grid, Majority>, Fail> {
    let mut bench = with_version(alloc)?;
    bench.nothing_ends(&[8, 10, 11, 12, 13])?;
    let made = [
        write_answer(0, 1, 0b111),
        write_answer(2, 1, 0b111),
        write_answer(3, 1, 0b111),
    ];
    bench.expect_last(12, &made)?;
    bench.expect_end(14, write_ended(1, WRITTEN, 7))?;
    Ok(bench)
}

#[test]
fn inputs_by_a_grid_take_a_write(rt: HostRuntime) -> Result<(), Fail> {
    written(rt.alloc())?;
    Ok(())
}

// Output server 0 has good copies of input servers 0 and 1, a column that is not enough to answer
// by, though it has the newest pair: the two others are asked.
fn one_answer(alloc: Global) -> Result<Bench<Grid, Majority>, Fail> {
    let mut bench = written(alloc)?;
    bench.expect_read(0, 2)?;
    bench.nothing_ends(&[15, 18, 19, 22, 23, 15])?;
    let made = [
        Grant::of_both(WRITTEN, 7).answer(0, 0, 0),
        Grant::of_both(Version::STARTING, 0).answer(1, 0, 0),
        renewal_request(0, 2, Parts::Both, 0, 0),
        renewal_request(0, 3, Parts::Both, 0, 0),
    ];
    bench.expect_last(22, &made)?;
    // with input server 2 it answers
    bench.nothing_ends(&[24, 26, 15])?;
    let made = [
        Grant::of_both(WRITTEN, 7).answer(2, 0, 0),
        read_answer(0, 2, WRITTEN, 7),
    ];
    bench.expect_last(26, &made)?;
    bench.nothing_ends(&[27])?;
    Ok(bench)
}

// Output server 1 hears input servers 1, which missed the write, and 3, which took it: one of each
// column, so that the write cannot be missed.
#[test]
fn a_read_of_inputs_by_a_grid_is_not_behind(rt: HostRuntime) -> Result<(), Fail> {
    let mut bench = one_answer(rt.alloc())?;
    bench.nothing_ends(&[16, 29, 31, 32, 33, 16])?;
    let made = [
        Grant::of_both(Version::STARTING, 0).answer(1, 1, 0),
        Grant::of_both(WRITTEN, 7).answer(3, 1, 0),
        read_answer(1, 2, WRITTEN, 7),
    ];
    bench.expect_last(32, &made)?;
    bench.expect_end(34, read_ended(2, WRITTEN, 7))
}

// ---- three input servers by majority, four output servers by the grid

// The version of the write, which is operation 2.
const LATER: Version = Version(131_074);

fn grid_of_outputs(alloc: Global) -> Result<Bench<Majority, Grid>, Fail> {
    let lent = Lent::new(alloc, Majority::new(3)?, Grid::new(2)?, 128, 4)?;
    Ok(Bench::new(lent).opened(opening(1))?)
}

// A read that hears output servers 1 and 0, a whole column, and ends only with output server 2.
// Each of the three has then a copy and a lease from input servers 0 and 1.
fn first_read(alloc: Global) -> Result<Bench<Majority, Grid>, Fail> {
    let mut bench = grid_of_outputs(alloc)?;
    bench.expect_read(0, 1)?;
    bench.nothing_ends(&[2, 5, 6, 8, 9, 2])?;
    bench.expect_last(10, &[read_answer(1, 1, Version::STARTING, 0)])?;
    bench.nothing_ends(&[10, 1, 11, 12, 14, 15, 1])?;
    bench.expect_last(16, &[read_answer(0, 1, Version::STARTING, 0)])?;
    bench.nothing_ends(&[16, 3, 17, 18, 20, 21, 3])?;
    bench.expect_last(22, &[read_answer(2, 1, Version::STARTING, 0)])?;
    bench.expect_end(22, read_ended(1, Version::STARTING, 0))?;
    Ok(bench)
}

#[test]
fn outputs_by_a_grid_answer_a_read(rt: HostRuntime) -> Result<(), Fail> {
    first_read(rt.alloc())?;
    Ok(())
}

// A write of 7. Output server 3 has no copy and is shut out by input servers 0 and 1; the three
// others are to be told. One of them is not enough to fill a column alone.
fn waited(alloc: Global) -> Result<Bench<Majority, Grid>, Fail> {
    let mut bench = first_read(alloc)?;
    bench.expect_write(0, 7, 2)?;
    bench.nothing_ends(&[23, 24, 26, 27])?;
    bench.expect(29, write_request(2, 1, 0, LATER, 7))?;
    bench.nothing_ends(&[28, 29, 34, 38])?;
    let made = [
        invalidation(0, 0, 0, LATER),
        invalidation(0, 1, 0, LATER),
        invalidation(0, 2, 0, LATER),
        write_answer(0, 2, 0b1000),
        invalidation(1, 0, 0, LATER),
        invalidation(1, 1, 0, LATER),
        invalidation(1, 2, 0, LATER),
        write_answer(1, 2, 0b1000),
    ];
    bench.expect_last(31, &made)?;
    Ok(bench)
}

// Once output server 2 has acknowledged to both input servers, the column {2, 3} counts, and the
// write ends, while output servers 0 and 1 still serve the old copy.
fn later(alloc: Global) -> Result<Bench<Majority, Grid>, Fail> {
    let mut bench = waited(alloc)?;
    bench.nothing_ends(&[33, 37, 39, 40, 28, 43, 29])?;
    bench.expect(43, write_answer(0, 2, 0b1100))?;
    bench.expect_last(46, &[write_answer(1, 2, 0b1100)])?;
    bench.expect_end(46, write_ended(2, LATER, 7))?;
    Ok(bench)
}

#[test]
fn a_write_ends_with_a_column_of_outputs(rt: HostRuntime) -> Result<(), Fail> {
    later(rt.alloc())?;
    Ok(())
}

// Output servers 0 and 1 answer with the old pair, and the read goes on; output server 2 renews its
// copy first, and the read ends with the new one.
#[test]
fn a_read_of_outputs_by_a_grid_is_not_behind(rt: HostRuntime) -> Result<(), Fail> {
    let mut bench = later(rt.alloc())?;
    bench.expect_read(0, 3)?;
    bench.expect_last(50, &[read_request(3, 3, 0)])?;
    bench.nothing_ends(&[47, 48, 51, 52, 49, 53, 54, 56, 57, 49])?;
    let made = [
        read_answer(0, 3, Version::STARTING, 0),
        read_answer(1, 3, Version::STARTING, 0),
        renewal_request(2, 0, Parts::Object, 0, 0),
        renewal_request(2, 1, Parts::Object, 0, 0),
        renewal_request(2, 2, Parts::Both, 0, 0),
        Grant::of_object(LATER, 7).answer(0, 2, 0),
        Grant::of_object(LATER, 7).answer(1, 2, 0),
        read_answer(2, 3, LATER, 7),
    ];
    bench.expect_last(51, &made)?;
    bench.expect_end(58, read_ended(3, LATER, 7))
}
