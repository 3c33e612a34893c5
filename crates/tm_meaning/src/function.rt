//! The built-in functions.

/// A function that every new environment has and that the machine runs itself.
#[derive(Clone, Copy, PartialEq, Eq)]
pub enum GlobalFunction {
    /// `range`: a list of numbers from a start to a stop by a step.
    Range,
    /// `dict`: a map, with the keyword arguments added.
    Dict,
    /// `namespace`: a new namespace with the pairs that `dict` would return.
    Namespace,
}
