//! Whole numbers, the places that slices take, and texts by their characters.
#![tactic(auto)]

pub mod characters;
pub mod places;
pub mod whole;
