// The smallest field, from its opening to the end of a read: one input server, one output server,
// one object. A line for each call, and the program stops where an answer is not the one that is
// expected.
#![tactic(auto)]

mod stage;

use anyhow::Result;
use numbers::Version;
use rules::Delivery;
use stage::Stage;

const LEGEND: &str = "\
One input server, one output server, one object. Both clocks show 0. A lease lasts 1000 microseconds,
and the clocks may drift by 10 thousandths.";

// The version of the first write: the clock after the 1 that every input server starts with.
const WRITTEN: Version = Version(131_073);

// A write asks for the clock, gets its version, is held, and ends: nobody has a copy yet.
fn write(rt: &impl Print, stage: &mut Stage) -> Result<()> {
    let write = stage.begin_write(rt, 7)?;
    for number in 1..=3 {
        stage.deliver(rt, number, Delivery::NothingEnded)?;
    }
    let ended = Delivery::WriteEnded {
        operation: write,
        version: WRITTEN,
        value: 7,
    };
    stage.deliver(rt, 4, ended)
}

// A read finds no copy. Its request is delivered again once object and lease are there.
fn read(rt: &impl Print, stage: &mut Stage) -> Result<()> {
    let read = stage.begin_read(rt)?;
    for number in [5, 6, 7, 5] {
        stage.deliver(rt, number, Delivery::NothingEnded)?;
    }
    let ended = Delivery::ReadEnded {
        operation: read,
        version: WRITTEN,
        value: 7,
    };
    stage.deliver(rt, 8, ended)
}

fn main(rt: HostRuntime) -> Result<()> {
    let mut stage = Stage::open(rt.alloc())?;
    println!(rt; "{LEGEND}")?;
    write(&rt, &mut stage)?;
    read(&rt, &mut stage)
}
