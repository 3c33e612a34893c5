//! Tests of renders: rows of sources with their results, and tests that need more than a row.
#![tactic(auto)]

#[cfg(test)]
mod asking;
#[cfg(test)]
mod blocks;
#[cfg(test)]
mod bounds;
#[cfg(test)]
mod caches;
#[cfg(test)]
mod callbacks;
#[cfg(test)]
mod doubling;
#[cfg(test)]
mod expressions;
#[cfg(test)]
mod guards;
#[cfg(test)]
mod includes;
#[cfg(test)]
mod limited;
#[cfg(test)]
mod loops;
#[cfg(test)]
mod macros;
#[cfg(test)]
mod party;
#[cfg(test)]
mod readme;
#[cfg(test)]
mod renders;
#[cfg(test)]
mod rows;
#[cfg(test)]
mod settings;
#[cfg(test)]
mod states;
#[cfg(test)]
mod tables;
#[cfg(test)]
mod values;
#[cfg(test)]
mod verifying;
