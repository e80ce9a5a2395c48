//! Messages, and ends of operations, each told in one line: who sends what to whom, and what ended
//! with which version and value.
#![tactic(auto)]

mod content;
mod end;
mod renewed;
mod sentence;
#[cfg(test)]
mod tests;
mod told;
mod versions;

pub use end::ToldEnd;
pub use told::Told;
