//! How emitted values are escaped.

/// The format that emitted values are escaped for.
#[derive(Clone, Copy, PartialEq, Eq, Debug)]
pub enum AutoEscape {
    /// Values are written as they are printed.
    None,
    /// Values are printed and then escaped for HTML and XML.
    Html,
    /// Values are written as JSON.
    Json,
    /// The caller's own format, by name. Only the caller's formatter knows it.
    Custom(&'static str),
}

impl Default for AutoEscape {
    ghost use Rattle.std.specs.Prelude.{◌≡◌};
    ghost use Rattle.tm_values.specs.declared.escape.AutoEscape.TheVariants.{None};

    ghost is_default = { λ escape. escape ≡ None };

    /// `None`: nothing is escaped.
    fn default() -> AutoEscape {
        AutoEscape::None
    }
}
