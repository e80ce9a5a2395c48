// A tower drops off the backhaul while its lease runs out. A write that it was not told of ends
// without it, its late renewal brings the news, and its reads are not behind.
#![tactic(auto)]

mod group;
mod seconds;
mod site;

use anyhow::{Result, bail, ensure};
use group::{Group, Which};
use numbers::Version;
use rules::Delivery;
use site::{OBJECTS, SERVERS, Site};

const LEGEND: &str = "\
A field of sixteen servers: 8 input servers by majority, and 8 towers, which are output servers, by
read-one write-all. It has 16 objects. A lease covers them all and lasts 60 s; clocks may drift by 10
thousandths, so that a tower trusts a lease for 59.4 s from when it asked. The clock of tower 7 is
slower than all the others, by as much as the drift allows. Of messages that are delivered together and
are alike the first is told; of a read, what the tower asks for, if anything, and how it ended.";

// The tower that drops off.
const TOWER: u8 = 7;

// The objects that are written while it is away.
const FIRST: u8 = 3;

const SECOND: u8 = 9;

// What waits at the tower while it is cut off: a read, and the renewal requests that it led to.
#[derive(Clone, Copy)]
struct Waiting {
    read: u64,
    renewals: Group,
}

// The versions of the two writes that it missed.
#[derive(Clone, Copy)]
struct Missed {
    first: Version,
    second: Version,
}

// Tower 7 gets all objects, and each other tower the one that is written first.
fn fetch(rt: &impl Print, site: &mut Site) -> Result<()> {
    println!(rt)?;
    site.tell_clocks(rt, TOWER)?;
    println!(rt; "Tower {TOWER} is read for the first time, object by object:")?;
    for object in 0..OBJECTS {
        site.read(rt, TOWER, object)?;
    }
    println!(rt; "Each other tower is read for object {FIRST}:")?;
    for tower in 0..TOWER {
        site.read(rt, tower, FIRST)?;
    }
    Ok(())
}

// Begins a write, and gives its requests.
fn begin_write(rt: &impl Print, site: &mut Site, object: u8, value: u64) -> Result<Group> {
    let questions = site.begin_write(rt, object, value)?;
    let clocks = site.deliver(rt, questions, Which::All)?;
    let requests = site.deliver(rt, clocks.made, Which::All)?;
    Ok(requests.made)
}

// The requests of a write reach every input server, and the answers reach the write. What is sent
// to towers is left.
fn send(rt: &impl Print, site: &mut Site, requests: Group) -> Result<Delivery> {
    let told = site.deliver(rt, requests, Which::All)?;
    let answers = site.deliver(rt, told.made, Which::Answers)?;
    Ok(answers.ended)
}

// The version of a write that has to have ended.
fn written(ended: Delivery) -> Result<Version> {
    match ended {
        Delivery::WriteEnded { version, .. } => Ok(version),
        _ => bail!("the write did not end"),
    }
}

// All other towers acknowledge the new version. Tower 7 does not hear of it, and the write waits.
fn drop_off(rt: &impl Print, site: &mut Site) -> Result<Group> {
    println!(rt)?;
    site.advance(rt, TOWER, 50_000_000, 49_500_000)?;
    println!(rt;
        "Tower {TOWER} drops off: nothing passes between it and the input servers any more."
    )?;
    let requests = begin_write(rt, site, FIRST, 40)?;
    let told = site.deliver(rt, requests, Which::All)?;
    let known = site.deliver(rt, told.made, Which::ToOthersThan(TOWER))?;
    site.deliver(rt, known.made, Which::All)?;
    println!(rt; "The other towers know the new version. The requests are delivered again:")?;
    let ended = send(rt, site, requests)?;
    ensure!(
        ended == Delivery::NothingEnded,
        "the write did not wait for the tower"
    );
    println!(rt;
        "The write waits for tower {TOWER}, which answers who is beside it from its own copy:"
    )?;
    site.read(rt, TOWER, FIRST)?;
    Ok(requests)
}

// Until just before its lease ends the tower answers, and the write waits.
fn last_moment(rt: &impl Print, site: &mut Site, requests: Group) -> Result<()> {
    println!(rt)?;
    site.advance(rt, TOWER, 9_999_900, 9_899_901)?;
    println!(rt; "The lease is live for less than a millisecond more:")?;
    site.read(rt, TOWER, FIRST)?;
    let ended = send(rt, site, requests)?;
    ensure!(
        ended == Delivery::NothingEnded,
        "the write did not wait for the lease"
    );
    Ok(())
}

// The tower finds its lease to be over, and asks for another one, which nobody hears. The input
// servers find it to be over too, and the write ends without the tower, as the next one does.
fn lease_over(rt: &impl Print, site: &mut Site, requests: Group) -> Result<(Waiting, Missed)> {
    println!(rt)?;
    site.advance(rt, TOWER, 100, 99)?;
    println!(rt;
        "The lease is over, on the clock of tower {TOWER} and on those of the input servers."
    )?;
    println!(rt; "Tower {TOWER} is read again. It does not answer, but asks for another lease:")?;
    let read = site.begin_read(TOWER, FIRST)?;
    let renewals = site.ask(rt, read)?;
    println!(rt;
        "The requests of the write are delivered again, and it ends without tower {TOWER}:"
    )?;
    let first = written(send(rt, site, requests)?)?;
    println!(rt; "The next write need not wait for anybody:")?;
    let requests = begin_write(rt, site, SECOND, 60)?;
    let second = written(send(rt, site, requests)?)?;
    Ok((Waiting { read, renewals }, Missed { first, second }))
}

// The requests that waited arrive late. What the tower missed comes with the lease.
fn come_back(rt: &impl Print, site: &mut Site, waiting: Waiting, missed: Missed) -> Result<()> {
    println!(rt)?;
    site.advance(rt, TOWER, 20_000_000, 19_800_000)?;
    println!(rt;
        "Tower {TOWER} is back. What it asked for is delivered late, and answered with what it missed:"
    )?;
    let answers = site.deliver(rt, waiting.renewals, Which::All)?;
    let known = site.deliver(rt, answers.made, Which::All)?;
    site.deliver(rt, known.made, Which::All)?;
    println!(rt; "The read that waits there is not behind the write:")?;
    let reading = site.pursue(rt, waiting.read, FIRST)?;
    ensure!(
        reading.version >= missed.first,
        "the read was behind the write"
    );
    println!(rt; "Nor is a read of the object that was written after it:")?;
    let reading = site.read(rt, TOWER, SECOND)?;
    ensure!(
        reading.version >= missed.second,
        "the read was behind the write"
    );
    Ok(())
}

// The lease is over again. The first read renews it, and with it the copies of all objects.
fn renew_once(rt: &impl Print, site: &mut Site) -> Result<()> {
    println!(rt)?;
    site.advance(rt, TOWER, 40_000_000, 39_600_000)?;
    println!(rt;
        "The lease of tower {TOWER} is over again. One read renews it, and all objects are alive:"
    )?;
    let first = site.read(rt, TOWER, 0)?;
    ensure!(
        first.renewals == SERVERS as u64,
        "the lease was not renewed"
    );
    for object in 1..OBJECTS {
        let reading = site.read(rt, TOWER, object)?;
        ensure!(
            reading.renewals == 0,
            "object {object} was renewed by itself"
        );
    }
    println!(rt; "{OBJECTS} objects were read, and nothing but the lease was renewed, once.")?;
    Ok(())
}

fn main(rt: HostRuntime) -> Result<()> {
    println!(rt; "{LEGEND}")?;
    let mut site = Site::open(rt.alloc())?;
    fetch(&rt, &mut site)?;
    let requests = drop_off(&rt, &mut site)?;
    last_moment(&rt, &mut site, requests)?;
    let (waiting, missed) = lease_over(&rt, &mut site, requests)?;
    come_back(&rt, &mut site, waiting, missed)?;
    renew_once(&rt, &mut site)
}
