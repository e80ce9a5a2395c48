use crate::asking::AskingWrite;
use crate::sending::SendingWrite;
use numbers::Version;

/// What becomes of an asking write that was handed a message.
// No ControlFlow, which would say of a write that sends that it breaks off.
#[derive(Drop, Debug)]
pub enum AskingProgress {
    /// It asks on.
    Asking(AskingWrite),
    /// It has its version, and sends it.
    Sending(SendingWrite),
}

/// What becomes of a sending write or a read that was handed a message.
// No Result: to end is what an operation is there for, and no error.
#[derive(Drop, Debug)]
pub enum Progress<S> {
    /// It goes on.
    On(S),
    /// It has ended, and is gone.
    Ended(End),
}

/// How an operation ended.
#[derive(Clone, Copy, Debug, PartialEq, Eq)]
pub struct End {
    /// Its number: 1 to 1,024.
    pub operation: u16,
    /// The version that a write got, or the highest that a read was answered.
    pub version: Version,
    /// The value of that version.
    pub value: u64,
}
