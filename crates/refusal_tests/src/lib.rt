//! Tests that hold whichever growth of memory is refused, and tests of calls that don't allocate.
//! `tools/refusals` runs them with each growth refused, or counts their growths.
#![tactic(auto)]

#[cfg(test)]
mod calls;
#[cfg(test)]
mod compiled;
#[cfg(test)]
mod ends;
#[cfg(test)]
mod no_growth;
#[cfg(test)]
mod objects;
#[cfg(test)]
mod parts;
#[cfg(test)]
mod refusals;
mod rows;
#[cfg(test)]
mod tells;
#[cfg(test)]
mod worked;

pub use rows::{last_kind, new_environment, row_of};
