//! The rule that chooses how templates are escaped.
ghost use Rattle.std.specs.Prelude.{◌≡◌, ℕ, List};
ghost use Rattle.tm_values.specs.declared.escape.AutoEscape.{AutoEscape as Escape};

use tm_values::AutoEscape;

/// An object of the caller that chooses how a template is escaped. Its meaning is a function of the
/// template's name.
pub trait EscapeRule: Drop {
    ghost escapes: { Self → List ℕ → Escape };

    /// The escape of the template `name`.
    fn escape(&self, name: &str) -> AutoEscape
        ensures { result ≡ escapes self.now name.now };
}

impl EscapeRule for Box<dyn EscapeRule> {
    ghost escapes = { λ b. (EscapeRule-box b).escapes b.value };

    fn escape(&self, name: &str) -> AutoEscape {
        (**self).escape(name)
    }
}
