// Operations of a field from their beginning to their end, by example: in the smallest field, and
// where a quorum system of the tests' own stands on either side.
#![tactic(auto)]

#[cfg(test)]
mod beginning;
#[cfg(test)]
mod grid_fields;
#[cfg(test)]
mod worked;
