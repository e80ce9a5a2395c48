ghost use Rattle.std.specs.Prelude.{◌≡◌, ◌≤◌, length, take, slice_index};
ghost use Rattle.std.specs.Iterator.{YieldsFirst, item_count};
ghost use Rattle.numbers.specs.Numbers.{records, shown};
ghost use Rattle.rules.specs.Lists.{pairs};
ghost use Rattle.chain.specs.Records.{line, On};
ghost use Rattle.chain.specs.Waiting.{pairs_along, waiting_for, Found};

use crate::chains::Chains;
use crate::record::{END, Entry, RECORDS, Record};
use numbers::OutputNumber;
use rules::{MOST_PAIRS, Pair, Pairs};

// A place in a chain: the number of the record there, or END behind the last one, and the number of
// the record before it, or END at the first one. END, and no Option, as in the records that it
// links.
#[derive(Clone, Copy)]
pub(super) struct Place {
    pub(super) before: u8,
    pub(super) here: u8,
}

// The records of one chain, in order.
#[derive(Drop)]
struct Waiting<'a> {
    records: &'a [Record; RECORDS],
    // the number of the record that comes next
    here: u8,
    // the chain ends
    ghost ends: { ∥ On records.now here ∥₁ },
}

impl Iterator for Waiting<'_> {
    type Item = Entry;

    ghost next_gives = { YieldsFirst (λ s. line s.records.now s.here) };

    ghost remaining = { item_count (λ s. line s.records.now s.here) };

    #[tactic(auto, using(crate::proofs::Lines::on_none, crate::proofs::Lines::on_more))]
    fn next(&mut self) -> Option<Entry> {
        if self.here == END {
            return None;
        }
        let slot = self.here;
        let record = self.records[slot as usize - 1];
        self.here = record.next;
        Some(Entry {
            slot,
            pair: Pair {
                object: record.object,
                version: record.version,
            },
        })
    }
}

impl Chains {
    // What waits for the output server.
    #[tactic(auto, using(crate::proofs::Lines::on_start, crate::proofs::Lines::length_line, crate::proofs::Meanings::waiting_at))]
    fn waiting(&self, output: OutputNumber) -> Waiting<'_>
        ensures is { line result.records.now result.here
            ≡ line self.now.records (slice_index self.now.heads output.number) }
        ensures short { length (line result.records.now result.here) ≤ records }
        ensures waits { waiting_for self.now output.number
            ≡ pairs_along (line result.records.now result.here) }
    {
        Waiting {
            records: &self.records,
            here: self.heads[output.index()],
        }
    }

    // The place of the object's record in the chain, or the place behind the last record if the
    // chain does not name the object.
    // No `find`, which would lose the number of that last record.
    pub(super) fn find(&self, output: OutputNumber, object: u8) -> Place
        ensures { Found self.now output.number object result }
    {
        let mut before = END;
        for entry in self.waiting(output) {
            if entry.names(object) {
                return Place {
                    before,
                    here: entry.slot,
                };
            }
            before = entry.slot;
        }
        Place { before, here: END }
    }

    /// How many invalidations wait for the output server: 0 to 64.
    pub fn len(&self, output: OutputNumber) -> u8
        ensures { result ≡ length (waiting_for self.now output.number) }
    {
        self.waiting(output).count() as u8
    }

    /// The first invalidations that wait for the output server: all of them, or 8 where more wait.
    // No heap, so nothing to collect them in: they are put one by one into the list, which keeps
    // its own count.
    pub fn first(&self, output: OutputNumber) -> Pairs
        ensures { result ≡ pairs (take shown (waiting_for self.now output.number)) }
    {
        let mut list = Pairs::empty();
        for entry in self.waiting(output).take(MOST_PAIRS) {
            list.items[list.count as usize] = entry.pair;
            list.count += 1;
        }
        list
    }
}
