// Stories of calls over the rules, what is guaranteed of every one of them, and the proofs. There
// is no code here that runs: each function carries a theorem in its contract, so that the check
// asks for its proof.
#![tactic(auto)]

mod alive;
mod gathering;
mod guaranteed;
mod laws;
mod requests;
mod worked;

pub use alive::stories_end;
pub use gathering::{
    order_does_not_matter, quorums_stay, repeats_change_nothing, versions_are_above,
};
pub use guaranteed::{every_story_stands, leases_run_out, operations_end_when_complete};
pub use laws::{bounds_hold, calls_keep, others_stay, writes_tell};
pub use requests::{read_requests_ask, renewal_requests_grant};
pub use worked::worked_lines_hold;
