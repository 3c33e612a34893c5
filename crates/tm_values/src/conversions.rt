//! Conversions from Rust's own types, and tests of what a value is.
ghost use Rattle.std.specs.Prelude.{◌≡◌};
ghost use Rattle.tm_values.specs.Truth.{is_none, is_safe, is_true, is_undefined};

use crate::shared_text::SharedText;
use crate::value::{Node, Value};

impl Default for Value {
    ghost use Rattle.std.specs.Prelude.{◌≡◌, false};
    ghost use Rattle.tm_values.specs.Val.{undefined};

    ghost is_default = { λ v. v ≡ undefined false };

    /// The undefined value.
    fn default() -> Value {
        Value::undefined()
    }
}

impl From<()> for Value {
    ghost use Rattle.std.specs.Prelude.{◌≡◌};
    ghost use Rattle.tm_values.specs.Val.{none};

    ghost from_gives = { λ _ v. v ≡ none };

    /// The value `none`.
    fn from(_unit: ()) -> Value {
        Value::none()
    }
}

impl From<bool> for Value {
    ghost use Rattle.std.specs.Prelude.{◌≡◌};
    ghost use Rattle.tm_values.specs.Val.{boolean};

    ghost from_gives = { λ truth v. v ≡ boolean truth };

    /// The truth value.
    fn from(truth: bool) -> Value {
        Value::boolean(truth)
    }
}

impl From<i32> for Value {
    ghost use Rattle.std.specs.Prelude.{◌≡◌};
    ghost use Rattle.tm_values.specs.Val.{number};

    ghost from_gives = { λ whole v. v ≡ number whole };

    /// The whole number.
    fn from(whole: i32) -> Value {
        Value::number(whole as i128)
    }
}

impl From<i64> for Value {
    ghost use Rattle.std.specs.Prelude.{◌≡◌};
    ghost use Rattle.tm_values.specs.Val.{number};

    ghost from_gives = { λ whole v. v ≡ number whole };

    /// The whole number.
    fn from(whole: i64) -> Value {
        Value::number(whole as i128)
    }
}

impl From<i128> for Value {
    ghost use Rattle.std.specs.Prelude.{◌≡◌};
    ghost use Rattle.tm_values.specs.Val.{number};

    ghost from_gives = { λ whole v. v ≡ number whole };

    /// The whole number.
    fn from(whole: i128) -> Value {
        Value::number(whole)
    }
}

impl From<u32> for Value {
    ghost use Rattle.std.specs.Prelude.{◌≡◌, pos};
    ghost use Rattle.tm_values.specs.Val.{number};

    ghost from_gives = { λ whole v. v ≡ number (pos whole) };

    /// The whole number.
    fn from(whole: u32) -> Value {
        Value::number(whole as i128)
    }
}

impl From<u64> for Value {
    ghost use Rattle.std.specs.Prelude.{◌≡◌, pos};
    ghost use Rattle.tm_values.specs.Val.{number};

    ghost from_gives = { λ whole v. v ≡ number (pos whole) };

    /// The whole number.
    fn from(whole: u64) -> Value {
        Value::number(whole as i128)
    }
}

impl From<SharedText> for Value {
    ghost use Rattle.std.specs.Prelude.{◌≡◌, false};
    ghost use Rattle.tm_values.specs.Val.{text};

    ghost from_gives = { λ content v. v ≡ text content false };

    /// The text, not marked safe.
    fn from(content: SharedText) -> Value {
        Value::shared_text(content, false)
    }
}

impl Value {
    /// Whether the value counts as true. Undefined, none, false, 0, and empty texts, lists, maps,
    /// keyword maps and modules are false.
    pub fn is_true(&self) -> bool
        ensures { result ≡ is_true self.now }
    {
        match &self.node {
            Node::Undefined(_) | Node::None => false,
            Node::Boolean(truth) => *truth,
            Node::Number(whole) => *whole != 0,
            Node::Text(content, _) => !content.as_str().is_empty(),
            Node::List(items, _) => !items.as_slice().is_empty(),
            Node::Map(pairs, _) | Node::Keywords(pairs, _) | Node::Exports(pairs, _, _) => {
                !pairs.as_slice().is_empty()
            }
            _ => true,
        }
    }

    /// Whether the value is undefined, silent or not.
    #[inline(always)]
    pub fn is_undefined(&self) -> bool
        ensures { result ≡ is_undefined self.now }
    {
        matches!(self.node, Node::Undefined(_))
    }

    /// Whether the value is `none`.
    pub fn is_none(&self) -> bool
        ensures { result ≡ is_none self.now }
    {
        matches!(self.node, Node::None)
    }

    /// Whether the value is a text marked safe, which is never escaped.
    pub fn is_safe(&self) -> bool
        ensures { result ≡ is_safe self.now }
    {
        match &self.node {
            Node::Text(_, safe) => *safe,
            _ => false,
        }
    }
}
