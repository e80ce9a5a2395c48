// The kinds of things that are numbered. None of them has a value: a kind only tells types apart.
// Each `impl` is written out, since one that a macro of ours writes is refused.
use crate::numbering::{Kind, Number};

/// Input servers: 0 to 7.
pub enum InputIndex {}

impl Kind for InputIndex {
    ghost LIMIT = { 8 };

    const LIMIT: u8 = 8;
}

/// Output servers: 0 to 7.
pub enum OutputIndex {}

impl Kind for OutputIndex {
    ghost LIMIT = { 8 };

    const LIMIT: u8 = 8;
}

/// Objects: 0 to 15.
pub enum ObjectIndex {}

impl Kind for ObjectIndex {
    ghost LIMIT = { 16 };

    const LIMIT: u8 = 16;
}

/// How many servers there are on one side: 0 to 8.
pub enum ServerTotal {}

impl Kind for ServerTotal {
    ghost LIMIT = { 9 };

    const LIMIT: u8 = 9;
}

/// How many objects there are: 0 to 16.
pub enum ObjectTotal {}

impl Kind for ObjectTotal {
    ghost LIMIT = { 17 };

    const LIMIT: u8 = 17;
}

/// The number of an input server.
pub type InputNumber = Number<InputIndex>;

/// The number of an output server.
pub type OutputNumber = Number<OutputIndex>;

/// The number of an object.
pub type ObjectNumber = Number<ObjectIndex>;

/// How many servers one side has.
pub type ServerCount = Number<ServerTotal>;

/// How many objects there are.
pub type ObjectCount = Number<ObjectTotal>;
