// What an opening takes: every range at its edges, and which refusal comes first.
use field::Opening;
use field_bench::messages::clock_answer;
use field_bench::{
    Bench, Lent, Looks, Place, closed, expect_refusal, expect_same, opening, refusal,
};
use numbers::Time;
use operation::Operation;
use quorum::Majority;
use std::alloc::Global;
use std::fmt::Display;
use std::test::Fail;

const LAST_TIME: Time = Time(1_099_511_627_776);

const PAST_LAST_TIME: Time = Time(1_099_511_627_777);

// An opening of a field that goes by majority on both sides.
#[derive(Clone, Copy)]
struct Trial<'a> {
    inputs: u8,
    outputs: u8,
    objects: u64,
    lease: u64,
    drift: u64,
    clocks: &'a [Time],
    log: usize,
    table: usize,
}

impl Trial<'_> {
    fn opening(&self) -> Opening {
        Opening {
            objects: self.objects,
            lease: self.lease,
            drift: self.drift,
        }
    }

    // A field that is not yet open, with what this trial lends it.
    fn bench(&self, alloc: Global) -> Result<Bench<Majority, Majority>, Fail> {
        closed(alloc, self.inputs, self.outputs, self.log, self.table)
    }

    // That the opening is refused by that number, or by none.
    fn expect(
        &self,
        place: impl Display + Drop,
        alloc: Global,
        refused: Option<u8>,
    ) -> Result<(), Fail> {
        let mut bench = self.bench(alloc)?;
        let said = bench.open(self.opening(), self.clocks);
        expect_same(place, &refusal(said), &refused)
    }
}

// An opening that is accepted.
fn fitting() -> Trial<'static> {
    Trial {
        inputs: 1,
        outputs: 1,
        objects: 1,
        lease: 1_000,
        drift: 10,
        clocks: &[Time::ZERO; 2],
        log: 9,
        table: 1,
    }
}

#[test]
fn one_to_eight_members(rt: HostRuntime) -> Result<(), Fail> {
    let clocks = [Time::ZERO; 16];
    for (inputs, outputs, refused) in [
        (8, 8, None),
        (9, 8, Some(2)),
        (8, 9, Some(2)),
        (64, 64, Some(2)),
    ] {
        let trial = Trial {
            inputs,
            outputs,
            clocks: &clocks,
            ..fitting()
        };
        trial.expect(format_args!("{inputs} and {outputs}"), rt.alloc(), refused)?;
    }
    Ok(())
}

#[test]
fn one_to_sixteen_objects(rt: HostRuntime) -> Result<(), Fail> {
    for (objects, refused) in [
        (0, Some(3)),
        (1, None),
        (16, None),
        (17, Some(3)),
        (257, Some(3)),
        (u64::MAX, Some(3)),
    ] {
        let trial = Trial {
            objects,
            ..fitting()
        };
        trial.expect(format_args!("{objects} objects"), rt.alloc(), refused)?;
    }
    Ok(())
}

#[test]
fn leases_of_up_to_a_thousand_seconds(rt: HostRuntime) -> Result<(), Fail> {
    for (lease, refused) in [
        (0, Some(4)),
        (1, None),
        (1_000_000_000, None),
        (1_000_000_001, Some(4)),
        (4_294_967_297, Some(4)),
        (u64::MAX, Some(4)),
    ] {
        let trial = Trial { lease, ..fitting() };
        trial.expect(format_args!("a lease of {lease}"), rt.alloc(), refused)?;
    }
    Ok(())
}

#[test]
fn drifts_of_up_to_999(rt: HostRuntime) -> Result<(), Fail> {
    for (drift, refused) in [
        (0, None),
        (999, None),
        (1_000, Some(5)),
        (65_536, Some(5)),
        (u64::MAX, Some(5)),
    ] {
        let trial = Trial { drift, ..fitting() };
        trial.expect(format_args!("a drift of {drift}"), rt.alloc(), refused)?;
    }
    Ok(())
}

// What comes of these start clocks where there are three servers.
fn starts(alloc: Global, clocks: &[Time], refused: Option<u8>) -> Result<(), Fail> {
    let trial = Trial {
        outputs: 2,
        clocks,
        ..fitting()
    };
    trial.expect(format_args!("{clocks:?}"), alloc, refused)?;
    Ok(())
}

#[test]
fn one_start_clock_for_each_server(rt: HostRuntime) -> Result<(), Fail> {
    let alloc = rt.alloc();
    starts(alloc, &[], Some(6))?;
    starts(alloc, &[Time::ZERO; 2], Some(6))?;
    starts(alloc, &[Time::ZERO; 3], None)?;
    starts(alloc, &[Time::ZERO; 4], Some(6))
}

#[test]
fn start_clocks_up_to_the_last_time(rt: HostRuntime) -> Result<(), Fail> {
    let alloc = rt.alloc();
    starts(alloc, &[LAST_TIME; 3], None)?;
    starts(alloc, &[PAST_LAST_TIME, Time::ZERO, Time::ZERO], Some(6))?;
    starts(alloc, &[Time::ZERO, PAST_LAST_TIME, Time::ZERO], Some(6))?;
    starts(alloc, &[Time::ZERO, Time::ZERO, PAST_LAST_TIME], Some(6))?;
    starts(alloc, &[Time::ZERO, Time::ZERO, Time(u64::MAX)], Some(6))
}

#[test]
fn logs_of_9_to_65535(rt: HostRuntime) -> Result<(), Fail> {
    for (log, refused) in [
        (0, Some(7)),
        (8, Some(7)),
        (9, None),
        (65_535, None),
        (65_536, Some(7)),
    ] {
        let trial = Trial { log, ..fitting() };
        trial.expect(format_args!("a log of {log}"), rt.alloc(), refused)?;
    }
    Ok(())
}

#[test]
fn tables_of_1_to_1024(rt: HostRuntime) -> Result<(), Fail> {
    for (table, refused) in [(0, Some(7)), (1, None), (1_024, None), (1_025, Some(7))] {
        let trial = Trial { table, ..fitting() };
        trial.expect(format_args!("a table of {table}"), rt.alloc(), refused)?;
    }
    Ok(())
}

// An opening that breaks every range, and then one fewer at a time.
#[test]
fn the_first_range_that_is_broken_counts(rt: HostRuntime) -> Result<(), Fail> {
    let all = Trial {
        inputs: 9,
        outputs: 1,
        objects: 0,
        lease: 0,
        drift: 1_000,
        clocks: &[],
        log: 8,
        table: 0,
    };
    let members = Trial { inputs: 1, ..all };
    let objects = Trial {
        objects: 1,
        ..members
    };
    let lease = Trial {
        lease: 1,
        ..objects
    };
    let drift = Trial { drift: 0, ..lease };
    let clocks = Trial {
        clocks: &[Time::ZERO; 2],
        ..drift
    };
    let log = Trial { log: 9, ..clocks };
    let table = Trial { table: 1, ..log };
    for (trial, refused) in [
        (all, Some(2)),
        (members, Some(3)),
        (objects, Some(4)),
        (lease, Some(5)),
        (drift, Some(6)),
        (clocks, Some(7)),
        (log, Some(7)),
        (table, None),
    ] {
        trial.expect("the first refusal", rt.alloc(), refused)?;
    }
    Ok(())
}

const UNOPENED: Looks = Looks {
    open: false,
    inputs: 0,
    outputs: 0,
    objects: 0,
    made: 0,
    begun: 0,
};

const OPENED: Looks = Looks {
    open: true,
    inputs: 2,
    outputs: 1,
    objects: 3,
    made: 0,
    begun: 0,
};

// Two input servers, one output server and three objects.
fn of_three() -> Trial<'static> {
    Trial {
        inputs: 2,
        objects: 3,
        clocks: &[Time(5), Time(6), LAST_TIME],
        ..fitting()
    }
}

#[test]
fn a_refused_opening_leaves_the_field_unopened(rt: HostRuntime) -> Result<(), Fail> {
    let trial = of_three();
    let mut bench = trial.bench(rt.alloc())?;
    let said = bench.open(trial.opening(), &[Time::ZERO; 2]);
    expect_refusal(said, 6)?;
    bench.expect_looks(UNOPENED)?;
    bench.open(trial.opening(), trial.clocks)?;
    bench.expect_looks(OPENED)
}

// Whatever else is wrong with the second opening.
#[test]
fn a_field_is_opened_once(rt: HostRuntime) -> Result<(), Fail> {
    let trial = of_three();
    let mut bench = trial.bench(rt.alloc())?;
    bench.open(trial.opening(), trial.clocks)?;
    expect_refusal(bench.open(trial.opening(), trial.clocks), 1)?;
    expect_refusal(bench.open(opening(0), &[]), 1)?;
    bench.lent = Lent::new(rt.alloc(), Majority::new(9)?, Majority::new(9)?, 8, 0)?;
    expect_refusal(bench.open(opening(0), &[]), 1)?;
    bench.expect_looks(OPENED)?;
    bench.expect_clocks(1, [Some(Time(6)), None])
}

#[test]
fn clocks_that_are_seen(rt: HostRuntime) -> Result<(), Fail> {
    let trial = of_three();
    let mut bench = trial.bench(rt.alloc())?;
    for number in [0, 7, 255] {
        bench.expect_clocks(number, [None; 2])?;
    }
    bench.open(trial.opening(), trial.clocks)?;
    bench.expect_clocks(0, [Some(Time(5)), Some(LAST_TIME)])?;
    bench.expect_clocks(1, [Some(Time(6)), None])?;
    bench.expect_clocks(2, [None; 2])?;
    bench.expect_clocks(255, [None; 2])?;
    Ok(())
}

#[test]
fn an_opening_writes_neither_log_nor_table(rt: HostRuntime) -> Result<(), Fail> {
    let trial = of_three();
    let mut bench = trial.bench(rt.alloc())?;
    bench.put(1, clock_answer(7, 8, 9));
    bench.put(9, clock_answer(9, 8, 7));
    bench.put_state(1, Operation::Ended);
    bench.open(trial.opening(), trial.clocks)?;
    bench.expect(1, clock_answer(7, 8, 9))?;
    bench.expect(9, clock_answer(9, 8, 7))?;
    bench.expect_place(1, Place::Ended)
}
