//! Tests of streams that no compiler wrote: which are accepted, and that many places and many ways
//! don't take long.
#![tactic(auto)]

#[cfg(test)]
mod hostile;
#[cfg(test)]
mod rows;
#[cfg(test)]
mod words;
