//! Delimiters.
ghost use Rattle.std.specs.Prelude.{◌≡◌, string_bytes};

use std::marker::Model;

/// The representation of a delimiter.
#[derive(Drop)]
enum Text {
    Literal(&'static str),
    Owned(String),
}

/// A delimiter. A contract sees its bytes.
pub(crate) struct Delimiter {
    text: Text,
}

// By hand: one call for each owner, instead of a drop of each part.
impl Drop for Delimiter {
    fn drop(self) {
        let Delimiter { text: _text } = self;
    }
}

impl Model for Delimiter {
    ghost use Rattle.std.specs.Prelude.{List, ℕ};

    ghost Value = { List ℕ };

    ghost use Rattle.tm_delimiters.specs.Delimiters.{bytes_of};

    ghost view = { λ a. bytes_of a.text };
}

impl Delimiter {
    /// A delimiter that is a literal of this program.
    pub(crate) fn literal(text: &'static str) -> Delimiter
        ensures { result ≡ text.now }
    {
        Delimiter {
            text: Text::Literal(text),
        }
    }

    /// A delimiter that the caller set.
    pub(crate) fn owned(text: String) -> Delimiter
        ensures { result ≡ string_bytes text }
    {
        Delimiter {
            text: Text::Owned(text),
        }
    }

    /// Its text.
    #[inline(always)]
    pub(crate) fn as_str(&self) -> &str
        ensures { result.now ≡ self.now }
    {
        match &self.text {
            Text::Literal(text) => text,
            Text::Owned(text) => text.as_str(),
        }
    }
}
