//! What a run starts from.
use tm_values::AutoEscape;

/// What stays the same during a run.
#[derive(Drop)]
pub struct Base {
    /// The number of captures that were open at its start.
    pub captures: usize,
    /// The number of scopes at its start.
    pub scopes: usize,
    /// Whether its text is heard.
    pub heard: bool,
    /// The escape at its start.
    pub first: AutoEscape,
}
