//! The output format that a value is checked for.

/// The output format that a value is checked for.
#[derive(Clone, Copy, PartialEq, Eq, Debug)]
pub enum OutputFormat {
    /// Printed text.
    Printed,
    /// JSON.
    Json,
}
