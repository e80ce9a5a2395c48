// Examples of an output server, run on the code. They see it only through what it logs and
// answers; each expectation is worked out from the rules, and the comment beside it says how.
#![tactic(auto)]

#[cfg(test)]
mod stage;
#[cfg(test)]
mod tests;
