//! How a run continues after a step.
use tm_state::NestedRun;

/// How a run continues after a step.
#[derive(Drop)]
pub enum Flow {
    /// At its place.
    GoOn,
    /// At its place, after this instruction and some of those that come next.
    Ahead,
    /// After a run that had to come first and is finished.
    Called,
    /// After a run that must come first. Boxed because this result is passed on at every step.
    Enter(Box<NestedRun>),
    /// In the root of a parent, which has begun.
    Restart,
    /// Not at all: its stream is at the end.
    Done,
}
