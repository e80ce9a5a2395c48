ghost use Rattle.chain.specs.Records.{WellLinked};

mod change;
mod walk;

use crate::record::{RECORDS, Record};
use rules::SERVERS;

/// The invalidations that wait for each output server: pairs of an object and a version, in the
/// order in which their objects were first queued. None names an object twice for one output
/// server.
///
/// All of them together share 64 records, one for each pair that waits.
// The free records form one more chain, so that taking one and giving one back are a step each.
//
// No heap on a mast: records are chained by number in fixed memory, and number 0 ends a chain, so
// that a record takes eight bytes, and a head one.
#[derive(Drop)]
pub struct Chains {
    records: [Record; RECORDS],
    // the number of the first record of each chain
    heads: [u8; SERVERS],
    // the number of the first free record
    free: u8,
    // every record is free or in one chain, and in no second place; every chain ends, and names no
    // object twice
    ghost well_linked: { WellLinked records heads free },
}
