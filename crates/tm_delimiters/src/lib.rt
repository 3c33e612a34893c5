//! Delimiters: where the tags of a source start, and how they trim the text next to them.
#![tactic(auto)]

mod builder;
mod delimiter;
pub mod front;
mod starts;
mod syntax;
mod trimming;
mod whitespace;

pub use builder::SyntaxConfigBuilder;
pub use starts::{next_start, next_tag};
pub use syntax::{Kind, SyntaxConfig};
pub use trimming::{Part, Side, trimmed};
pub use whitespace::{
    Whitespace, comment_end, ending, next_end, past_blanks_to, to_end, whitespace_at,
};
