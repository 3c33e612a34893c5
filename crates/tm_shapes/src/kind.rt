//! What is known about an operand, and about a scope.

/// What is known about an operand.
#[derive(Clone, Copy, PartialEq, Eq, PartialOrd, Ord)]
pub enum Kind {
    /// It is a value.
    Value,
    /// The 0 that the `LoadConst` at this place pushed. It may be an empty group; that isn't
    /// decided yet.
    Zero(usize),
    /// A count above that many values; with the place of the `LoadConst 0` that began it, if any.
    Group(Option<usize>),
    /// A closure, for the macro that is built next.
    Closure,
    /// A list of that many parameter names, for the macro that is built next.
    Names(usize),
    /// Between `Swap` and `Add`: a count above one value more than it counts.
    Opened(Option<usize>),
    /// Between `Swap` and `Add`: the 1 above that count.
    One,
}

/// The kind of a scope.
#[derive(Clone, Copy, PartialEq, Eq, PartialOrd, Ord)]
pub enum Frame {
    /// The scope of a `PushWith`.
    Scope,
    /// The scope of a loop that can't be called, with the numbers of the part's operands, captures
    /// and escapes at its `PushLoop`.
    Loop(usize, usize, usize),
}

/// How a `LoadConst 0` is read.
#[derive(Clone, Copy, PartialEq, Eq, PartialOrd, Ord)]
pub enum Reading {
    /// As a value.
    Value,
    /// As an empty group.
    Group,
    /// As either, depending on how it is used.
    Open,
}

/// What a stream is for.
#[derive(Clone, Copy, PartialEq, Eq, Debug)]
pub enum Form {
    /// It writes text, and leaves no operand.
    Template,
    /// It leaves one operand, its value.
    Expression,
}
