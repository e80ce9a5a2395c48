// Messages and states of any numbers, put into log and table by the caller: which are in range,
// by example.
#![tactic(auto)]

#[cfg(test)]
mod ranges;
#[cfg(test)]
mod states;
