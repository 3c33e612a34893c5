//! The attributes of a loop.
/// An attribute of a loop.
#[derive(Clone, Copy, PartialEq, Eq, Debug)]
pub enum LoopAttribute {
    /// The index of the item, from 0.
    Index0,
    /// The index of the item, from 1.
    Index,
    /// The number of items.
    Length,
    /// The number of items left, including this one.
    RevIndex,
    /// The number of items left after this one.
    RevIndex0,
    /// Whether this is the first item.
    First,
    /// Whether this is the last item.
    Last,
    /// The number of recursive loops around this one, plus 1.
    Depth,
    /// The number of recursive loops around this one.
    Depth0,
    /// The item before this one.
    PrevItem,
    /// The item after this one.
    NextItem,
}
