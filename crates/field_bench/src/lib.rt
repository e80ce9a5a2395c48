// A bench for tests of a field: the field with all that it is lent, messages in short, and a quorum
// system of the tests' own. Nothing here but the grid says what it returns: tests look at what the
// code does, and not at what it promises. What a test expects and does not find is a `Fail` that
// tells both.
#![tactic(auto)]

mod bench;
mod expecting;
mod grid;
pub mod messages;

pub use bench::{Bench, Lent, Looks, Place, by_majority, closed, opening, with_a_write};
pub use expecting::{expect_refusal, expect_same, refusal};
pub use grid::Grid;
