// What becomes of messages that come late, twice, out of order or never, and that a refusal changes
// nothing, by example.
#![tactic(auto)]

#[cfg(test)]
mod delivering;
#[cfg(test)]
mod refusing;
