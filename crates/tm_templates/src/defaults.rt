//! The defaults of an environment.
ghost use Rattle.std.specs.Prelude.{◌≡◌};
ghost use Rattle.tm_delimiters.specs.Views.{place_of};
ghost use Rattle.tm_templates.specs.Defaults as spec;

use tm_tables::EscapeRule;
use tm_values::AutoEscape;

/// How the escape of a template is chosen if the template itself doesn't set it.
#[derive(Drop)]
pub enum EscapeSetting<R: Drop> {
    /// By the template's name, as `default_auto_escape_callback` does.
    ByName,
    /// Nothing is escaped.
    Never,
    /// By the caller's rule.
    Own(R),
}

impl<R: EscapeRule> EscapeRule for EscapeSetting<R> {
    ghost use Rattle.tm_templates.specs.Defaults.{escape_of};

    ghost escapes = { escape_of R.escapes };

    fn escape(&self, name: &str) -> AutoEscape {
        match self {
            EscapeSetting::ByName => default_auto_escape_callback(name),
            EscapeSetting::Never => AutoEscape::None,
            EscapeSetting::Own(rule) => rule.escape(name),
        }
    }
}

/// Chooses the escape by a template's name: an ending `.j2`, `.jinja2` or `.jinja` is removed once,
/// and then what follows the last dot decides, or the whole name if it has no dot. `html`, `htm`
/// and `xml` mean HTML, `json`, `json5`, `js`, `yaml` and `yml` mean JSON, and anything else means
/// no escape.
pub fn default_auto_escape_callback(name: &str) -> AutoEscape
    ensures { result ≡ spec.escape_by_name name.now }
{
    let stem = stem(name);
    if is_markup(stem) {
        return AutoEscape::Html;
    }
    if is_data(stem) {
        return AutoEscape::Json;
    }
    AutoEscape::None
}

/// The text before `word` if `text` ends with it.
fn before<'t>(text: &'t str, word: &str) -> Option<&'t str>
    ensures { place_of result ≡ spec.before word.now text.now }
{
    text.strip_suffix(word)
}

/// The name without one ending that only marks a template.
fn stem(name: &str) -> &str
    ensures { result.now ≡ spec.stem_of name.now }
{
    if let Some(stem) = before(name, ".j2") {
        return stem;
    }
    if let Some(stem) = before(name, ".jinja2") {
        return stem;
    }
    match before(name, ".jinja") {
        Some(stem) => stem,
        None => name,
    }
}

/// Whether `word` is what follows the last dot, or all of `stem` if it has no dot.
fn has_ending(stem: &str, word: &str) -> bool
    ensures { result ≡ spec.has_ending stem.now word.now }
{
    match before(stem, word) {
        Some(front) => front.is_empty() || before(front, ".").is_some(),
        None => false,
    }
}

fn is_markup(stem: &str) -> bool
    ensures { result ≡ spec.is_markup stem.now }
{
    has_ending(stem, "html") || has_ending(stem, "htm") || has_ending(stem, "xml")
}

fn is_data(stem: &str) -> bool
    ensures { result ≡ spec.is_data stem.now }
{
    has_ending(stem, "json")
        || has_ending(stem, "json5")
        || has_ending(stem, "js")
        || has_ending(stem, "yaml")
        || has_ending(stem, "yml")
}
