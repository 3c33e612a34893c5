//! Writing values as text, HTML and JSON.
#![tactic(auto)]

mod check;
mod compact;
mod concatenation;
mod emission;
mod html;
mod printing;
mod rest;
mod rows;
mod spelling;
mod text;
mod walk;

pub use check::{check_json, check_print};
pub use compact::write_json;
pub use concatenation::{concatenate, concatenate_to};
pub use emission::{check_emission, emission_text, emit, emit_at_once, to_text};
pub use printing::{print, write_html};
pub use rest::{NextValue, Rest, Unwritten};
pub use rows::written_rows;
pub use spelling::{Escape, Html, HtmlQuoted, Json, Quoted, Spelling, Verbatim};
pub use text::{write_json_text, write_number, write_quoted, write_spelled};
pub use walk::Notation;
