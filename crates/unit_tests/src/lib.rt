//! Tests of separate parts: errors, writers and what wraps them, fuel, scopes, and the way from a
//! source to its tree and its streams.
#![tactic(auto)]

#[cfg(test)]
mod alone;
#[cfg(test)]
mod blocks;
#[cfg(test)]
mod caches;
#[cfg(test)]
mod code;
#[cfg(test)]
mod contexts;
#[cfg(test)]
mod errors;
#[cfg(test)]
mod flags;
mod guards;
#[cfg(test)]
mod imports;
#[cfg(test)]
mod macros;
#[cfg(test)]
mod names;
#[cfg(test)]
mod output;
#[cfg(test)]
mod parts;
#[cfg(test)]
mod rows;
#[cfg(test)]
mod sources;
#[cfg(test)]
mod syntax;
#[cfg(test)]
mod values;

pub use guards::run_text_guards;
