//! What the machine asks of a render's environment.
ghost use Rattle.std.specs.Prelude.{◌≡◌, ℕ};
ghost use Rattle.tm_meaning.specs.Machine.{Program};
ghost use Rattle.tm_meaning.specs.World.{template_at, card_at};
ghost use Rattle.tm_meaning.specs.Calls.{is_required};
ghost use Rattle.tm_syntax.specs.Named.{find};
ghost use Rattle.tm_blocks.specs.Lists.{IsEntry};

use crate::objects::Parties;
use tm_blocks::TemplateEntry;
use tm_meaning::{StreamId, TemplateId};
use tm_shapes::Verified;
use tm_syntax::NameMap;
use tm_values::{AutoEscape, UndefinedBehavior, Value};

/// What a render runs under: the environment, the template that is rendered, and the caller's
/// objects.
pub trait Host {
    /// The caller's objects.
    type Objects: Parties;

    /// The host of the definitions, and the instructions of each stream.
    ghost program: { Self → Program };

    /// The size of the largest value that a run may make.
    ghost largest: { Self → ℕ };

    /// The caller's objects, which are those of the definitions.
    fn objects(&self) -> &Self::Objects
        ensures functions { (program self.now).host.functions
            ≡ (Self.Objects.stated result.now).functions }
        ensures filters { (program self.now).host.filters
            ≡ (Self.Objects.stated result.now).filters }
        ensures tests { (program self.now).host.tests ≡ (Self.Objects.stated result.now).tests }
        ensures methods { (program self.now).host.unknown_method
            ≡ (Self.Objects.stated result.now).unknown_method }
        ensures formatter { (program self.now).host.formatter
            ≡ (Self.Objects.stated result.now).formatter }
        ensures join { (program self.now).host.join ≡ (Self.Objects.stated result.now).join };

    /// The globals.
    fn globals(&self) -> &NameMap<Value>
        ensures { result.now ≡ (program self.now).host.globals };

    /// How many scopes may be nested.
    fn recursion_limit(&self) -> usize
        ensures { result ≡ (program self.now).host.limit };

    /// The size of the largest value that a run may make: what would be larger finds no memory.
    fn value_limit(&self) -> usize
        ensures { result ≡ largest self.now };

    /// How undefined values behave.
    fn undefined_behavior(&self) -> UndefinedBehavior
        ensures { result ≡ (program self.now).host.undefined };

    /// The name of `template`. `place` is a hint where it is found.
    fn template_name(&self, template: &TemplateId, place: usize) -> &str
        ensures { result.now ≡ (template_at (program self.now).host template.now).name };

    /// How `template` escapes what it emits.
    fn template_escape(&self, template: &TemplateId) -> AutoEscape
        ensures { result ≡ (template_at (program self.now).host template.now).escape };

    /// Whether `stream` is a required block.
    fn is_required(&self, stream: &StreamId) -> bool
        ensures { result ≡ is_required (card_at (program self.now).host stream.now) };

    /// The template named `name`, if there is one. `place` is a hint where it is found.
    fn entry(&self, name: &str, place: usize) -> Option<TemplateEntry<'_>>
        ensures { IsEntry result name.now (find name.now (program self.now).host.templates) };

    /// The instructions of `stream`. `place` is a hint where its template is found.
    fn instructions(&self, stream: &StreamId, place: usize) -> &Verified
        ensures { result.now ≡ (program self.now).code stream.now };
}
