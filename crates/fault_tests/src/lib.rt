//! Tests of writers that fail, fuel that runs out, values of other states, and random renders over
//! such values.
#![tactic(auto)]

#[cfg(test)]
mod foreign;
#[cfg(test)]
mod fuel;
#[cfg(test)]
mod objects;
#[cfg(test)]
mod random;
#[cfg(test)]
mod writers;
