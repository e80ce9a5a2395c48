ghost use Rattle.field.specs.Invariant.{InBounds};

use crate::open_field::OpenField;

/// A field: once it is open, its servers, and how many messages were made and operations begun.
/// The log of messages and the table of operations lie with the caller, who lends them to every
/// call.
#[derive(Drop)]
pub struct Field {
    pub(crate) inside: Option<OpenField>,
    // all its numbers are in their ranges
    ghost in_bounds: { InBounds inside },
}
