// A survey of a site before its servers are placed: for each layout it says which losses of
// servers reads and writes outlast, and how few servers each of them takes.
#![tactic(auto)]

mod losses;
mod stop;
#[cfg(test)]
mod tests;
mod text;

use losses::{Family, finds_after, smallest_set};
use quorum::{Majority, QuorumSystem, ReadOneWriteAll};
use stop::Stop;

fn survey<Q: QuorumSystem>(rt: &impl Print, servers: &str, system: &Q) -> Result<(), Stop> {
    println!(rt; "  {servers}")?;
    // a loop: each turn prints a line, and ends the survey by `?` where that fails
    for lost in 0..=system.count() {
        let reads = finds_after(system, Family::Read, lost)?;
        let writes = finds_after(system, Family::Write, lost)?;
        println!(rt; "    {lost} lost: reads {reads}, writes {writes}")?;
    }
    let read = smallest_set(system, Family::Read)?;
    let write = smallest_set(system, Family::Write)?;
    println!(rt; "    smallest read set: {read}")?;
    println!(rt; "    smallest write set: {write}")?;
    Ok(())
}

fn layout(rt: &impl Print, inputs: u64, outputs: u64) -> Result<(), Stop> {
    println!(rt)?;
    println!(rt; "Inputs: {inputs}, by majority. Outputs: {outputs}, by read-one write-all.")?;
    survey(rt, "inputs", &Majority::new(inputs)?)?;
    survey(rt, "outputs", &ReadOneWriteAll::new(outputs)?)
}

const LEGEND: &str = "\
A read set is enough servers to read from, and a write set to write to.
For each number of lost servers: whether those left hold such a set,
  always: whichever servers are lost;
  sometimes: for some losses and not for others;
  never: whichever servers are lost, those left are not enough.";

fn main(rt: HostRuntime) -> Result<(), Stop> {
    println!(rt; "{LEGEND}")?;
    for (inputs, outputs) in [(5, 3), (4, 1), (8, 8)] {
        layout(&rt, inputs, outputs)?;
    }
    Ok(())
}
