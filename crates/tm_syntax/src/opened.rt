//! The parts of the state that a statement opens around its body.

/// What was opened since the body of the innermost loop began. A jump out of the loop closes it
/// first.
#[derive(Clone, Copy)]
pub enum Opened {
    /// A scope.
    Scope,
    /// An escape.
    Escape,
    /// A capture.
    Capture,
}
