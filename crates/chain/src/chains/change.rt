ghost use Rattle.std.specs.Prelude.{◌≡◌, ◌<◌, ◌≤◌, true, false, [], length, nat_le, replicate, slice_set};
ghost use Rattle.rules.specs.Input.{queued, freed};
ghost use Rattle.chain.specs.Records.{linked_records, linked_heads};
ghost use Rattle.chain.specs.Waiting.{waiting_of, waiting_for, has_free, Found, Queues};

use crate::chains::Chains;
use crate::chains::walk::Place;
use crate::queued::Queued;
use crate::record::{END, RECORDS, Record};
use numbers::{OutputNumber, Version};
use rules::{Pair, SERVERS};
use std::array;

// No method of `Chains`: while records and heads are changed, its invariant does not hold.
// Puts `next` behind `before` or, where that is END, at the head of the output server's chain.
fn link(
    records: &mut [Record; RECORDS],
    heads: &mut [u8; SERVERS],
    output: OutputNumber,
    before: u8,
    next: u8,
)
    requires { before ≤ length records.old }
    ensures rows { records.new ≡ linked_records records.old before next }
    ensures tops { heads.new ≡ linked_heads heads.old output.number before next }
{
    if before == END {
        heads[output.index()] = next;
    } else {
        records[before as usize - 1].next = next;
    }
}

// Whether the acknowledgement of that version covers a waiting invalidation.
fn is_covered(waiting: Version, acknowledged: Version) -> bool
    ensures { result ≡ nat_le waiting.0 acknowledged.0 }
{
    waiting <= acknowledged
}

impl Chains {
    /// Chains in which nothing waits.
    // Every record is free: the last one first, and each leads to the one below it.
    pub fn new() -> Chains
        ensures { waiting_of result ≡ replicate 8 [] }
    {
        Chains {
            records: array::from_fn(|i| Record {
                version: Version::NONE,
                object: 0,
                next: i as u8,
            }),
            heads: [END; SERVERS],
            free: RECORDS as u8,
        }
    }

    /// Lets the pair wait for the output server.
    ///
    /// Where a version of its object waits already, the pair takes its place, whatever the two
    /// versions are. Otherwise it waits behind all others. Where no record is free for it, nothing
    /// waits for that output server any more, and `Queued::Freed` says so.
    pub fn queue(&mut self, output: OutputNumber, pair: Pair) -> Queued
        ensures { Queues result pair output.number (waiting_of self.old) (waiting_of self.new) }
    {
        let place = self.find(output, pair.object);
        if place.here != END {
            self.records[place.here as usize - 1].version = pair.version;
            return Queued::Waits;
        }
        if self.free == END {
            self.release(output);
            return Queued::Freed;
        }
        self.append(output, place, pair);
        Queued::Waits
    }

    // A free record takes the pair and ends the chain.
    fn append(&mut self, output: OutputNumber, place: Place, pair: Pair)
        requires found { Found self.old output.number pair.object place }
        requires behind { place.here ≡ 0 }
        requires spare { 0 < self.old.free }
        ensures room { has_free (waiting_of self.old) ≡ true }
        ensures after { let j = output.number in
            waiting_of self.new
            ≡ slice_set (waiting_of self.old) j (queued pair (waiting_for self.old j)) }
    {
        let spare = self.free;
        let record = &mut self.records[spare as usize - 1];
        self.free = record.next;
        *record = Record {
            version: pair.version,
            object: pair.object,
            next: END,
        };
        link(
            &mut self.records,
            &mut self.heads,
            output,
            place.before,
            spare,
        );
    }

    // The records of the chain become free. None was free before, so that the chain as it stands is
    // the chain of the free ones.
    #[tactic(auto, using(crate::proofs::Meanings::released))]
    fn release(&mut self, output: OutputNumber)
        requires { self.old.free ≡ 0 }
        ensures full { has_free (waiting_of self.old) ≡ false }
        ensures after { waiting_of self.new ≡ slice_set (waiting_of self.old) output.number [] }
    {
        let number = output.index();
        self.free = self.heads[number];
        self.heads[number] = END;
    }

    /// The output server knows the object up to that version, and no longer has to be told of it.
    /// What waits with a higher version stays. Any object may be asked for: one that does not wait
    /// changes nothing.
    pub fn acknowledge(&mut self, output: OutputNumber, object: u8, version: Version)
        ensures { let j = output.number in
            waiting_of self.new
            ≡ slice_set (waiting_of self.old) j (freed object version (waiting_for self.old j)) }
    {
        let place = self.find(output, object);
        if place.here == END {
            return;
        }
        let record = self.records[place.here as usize - 1];
        if !is_covered(record.version, version) {
            return;
        }
        link(
            &mut self.records,
            &mut self.heads,
            output,
            place.before,
            record.next,
        );
        self.records[place.here as usize - 1].next = self.free;
        self.free = place.here;
    }
}
