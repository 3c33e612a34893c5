//! The scopes of loops.

/// Marks the scope of a loop.
#[derive(Clone, Copy)]
pub struct LoopMark {
    /// The number of the loop's record.
    pub number: usize,
    /// Whether the scope binds `loop`.
    pub variable: bool,
}
