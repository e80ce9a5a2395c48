// One output server that renews from one input server, is invalidated, misses an invalidation and
// renews late: each step on one line.
// The parts of the story read alike, since each is a list of its events.
#![tactic(auto)]

mod stage;
mod stop;
mod words;

use numbers::Version;
use stage::Stage;
use stop::Stop;

const LEGEND: &str = "\
One input server, one output server, one object. Times are microseconds, and both clocks show the
same. The input server grants leases of 1000; the clocks may drift by 10 thousandths, so that the
output server trusts a lease for 990 from when it asked. Each line: the clock, what happens, and the
messages that it makes, with their numbers in brackets.
";

// The first read finds nothing. Once object and lease are there, reads are answered.
fn renewing(rt: &impl Print, stage: &mut Stage) -> Result<(), Stop> {
    stage.advance(500)?;
    stage.read(rt)?;
    stage.deliver(rt, 1)?;
    stage.advance(20)?;
    stage.deliver(rt, 2)?;
    stage.read(rt)
}

// A write is told to the output server, which answers no read until it has the new version. Once
// its acknowledgement is there, the input server names it as shut out.
fn invalidated(rt: &impl Print, stage: &mut Stage) -> Result<(), Stop> {
    let version = Version::new(2, 1);
    stage.advance(180)?;
    stage.write(rt, 1, version, 40)?;
    stage.advance(10)?;
    stage.deliver(rt, 4)?;
    stage.read(rt)?;
    stage.advance(10)?;
    stage.deliver(rt, 6)?;
    stage.write(rt, 1, version, 40)?;
    stage.advance(10)?;
    stage.deliver(rt, 7)?;
    stage.advance(10)?;
    stage.deliver(rt, 9)?;
    stage.read(rt)
}

// The invalidation of the next write, message 11, is never delivered. The output server answers the
// old version until its lease is over; only then does the input server name it as shut out.
fn missing(rt: &impl Print, stage: &mut Stage) -> Result<(), Stop> {
    let version = Version::new(3, 2);
    stage.advance(160)?;
    stage.write(rt, 2, version, 60)?;
    stage.advance(589)?;
    stage.read(rt)?;
    stage.advance(1)?;
    stage.read(rt)?;
    stage.advance(10)?;
    stage.write(rt, 2, version, 60)
}

// The answer to the request of 1490 arrives when its lease is over already. Its list tells what was
// missed, and both parts are asked for anew.
fn renewing_late(rt: &impl Print, stage: &mut Stage) -> Result<(), Stop> {
    stage.advance(100)?;
    stage.deliver(rt, 14)?;
    stage.advance(1_100)?;
    stage.deliver(rt, 16)?;
    stage.read(rt)?;
    stage.advance(10)?;
    stage.deliver(rt, 17)?;
    stage.deliver(rt, 18)?;
    stage.advance(10)?;
    stage.deliver(rt, 19)?;
    stage.read(rt)
}

fn main(rt: HostRuntime) -> Result<(), Stop> {
    let mut stage = Stage::new()?;
    println!(rt; "{LEGEND}")?;
    renewing(&rt, &mut stage)?;
    invalidated(&rt, &mut stage)?;
    missing(&rt, &mut stage)?;
    renewing_late(&rt, &mut stage)
}
