//! Tests of the code in docs/LIBRARY.md, and of the calls of environments and templates.
#![tactic(auto)]

#[cfg(test)]
mod calls;
#[cfg(test)]
mod changed_streams;
#[cfg(test)]
mod drawn;
#[cfg(test)]
mod host_streams;
#[cfg(test)]
mod library;
#[cfg(test)]
mod library_parts;
#[cfg(test)]
mod random_streams;
#[cfg(test)]
mod trials;
