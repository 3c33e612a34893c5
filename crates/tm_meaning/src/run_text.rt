//! The text of a run as a value.

/// How the text of a run becomes a value.
#[derive(Clone, Copy)]
pub enum RunText {
    /// A text, marked safe if an escape is in force.
    Captured,
    /// A text, not marked safe.
    Plain,
    /// The truth of that text: whether it isn't empty.
    Truth,
}
