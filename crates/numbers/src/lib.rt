//! The numbers of the subject, each a type of its own: versions, epochs and times, which are never
//! mixed, and numbers that were checked once and carry their range.
#![tactic(auto)]

mod epoch;
mod kinds;
mod moment;
mod numbering;
mod operation_number;
mod out_of_range;
#[cfg(test)]
mod tests;
mod time;
mod version;

pub use epoch::Epoch;
pub use kinds::{
    InputIndex, InputNumber, ObjectCount, ObjectIndex, ObjectNumber, ObjectTotal, OutputIndex,
    OutputNumber, ServerCount, ServerTotal,
};
pub use moment::{Drift, LeaseLength, Moment};
pub use numbering::{Kind, Number};
pub use operation_number::OperationNumber;
pub use out_of_range::OutOfRange;
pub use time::Time;
pub use version::Version;
