use numbers::{LeaseLength, OperationNumber, OutputNumber, ServerCount};
use rules::{InRange, Pair, Renewal};

/// What a write request brings, with its numbers in range, and how many output servers there are.
#[derive(Clone, Copy)]
pub struct WriteRequest {
    /// How many output servers the field has.
    pub outputs: ServerCount,
    /// The number of the write that sends it.
    pub operation: OperationNumber,
    /// The object that is written, and the version that the write got.
    pub pair: InRange<Pair>,
    /// The value that is written.
    pub value: u64,
}

/// What a renewal request brings, with its numbers in range, and how long a lease lasts.
#[derive(Clone, Copy)]
pub struct RenewalRequest {
    /// The output server that asks.
    pub output: OutputNumber,
    /// What it asks for.
    pub renewal: InRange<Renewal>,
    /// The lease length of the field.
    pub lease: LeaseLength,
}
