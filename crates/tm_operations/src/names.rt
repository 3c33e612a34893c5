//! The names of the attributes of loops and macros.

/// The attributes of a loop.
pub const LOOP_NAMES: [&str; 11] = [
    "index0",
    "index",
    "length",
    "revindex",
    "revindex0",
    "first",
    "last",
    "depth",
    "depth0",
    "previtem",
    "nextitem",
];

/// The attributes of a macro.
pub const MACRO_NAMES: [&str; 3] = ["name", "arguments", "caller"];
