//! Quorum systems: a count of members and two families of member sets, such that every read set
//! shares a member with every write set. Also the one refusal type of the whole library, since
//! every layer stands on this one.
#![tactic(auto)]

mod listing;
mod majority;
mod member_count;
mod member_set;
mod read_one_write_all;
mod refusal;
mod system;
mod systems;
#[cfg(test)]
mod tests;

pub use majority::Majority;
pub use member_set::MemberSet;
pub use read_one_write_all::ReadOneWriteAll;
pub use refusal::Refusal;
pub use system::QuorumSystem;
pub use systems::Systems;
