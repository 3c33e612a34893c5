//! The parts of a macro that are directly before a place.

/// The parts of a macro that are directly before a place.
#[derive(Clone, Copy, PartialEq, Eq)]
pub enum Before {
    /// None.
    Nothing,
    /// `GetClosure`.
    Closure,
    /// `GetClosure`, and the names of parameters.
    Names,
}
