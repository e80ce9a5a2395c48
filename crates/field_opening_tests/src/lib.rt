// What an opening of a field and an advance take, every range at its edges, and what each call asks
// first, by example.
#![tactic(auto)]

#[cfg(test)]
mod advancing;
#[cfg(test)]
mod later;
#[cfg(test)]
mod opening;
