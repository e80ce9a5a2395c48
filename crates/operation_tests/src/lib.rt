// Operations by example: a write walked to its end, reads, and what is refused in which order.
#![tactic(auto)]

#[cfg(test)]
mod endings;
#[cfg(test)]
mod handing;
#[cfg(test)]
mod places;
#[cfg(test)]
mod ranges;
#[cfg(test)]
mod reading;
#[cfg(test)]
mod refusals;
