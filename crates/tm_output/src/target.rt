//! Targets that take a text piece by piece.
ghost use Rattle.std.specs.Prelude.{ℕ, List, string_bytes};
ghost use Rattle.tm_output.specs.Targets.{Takes, Laws, Grows, GrowsInPart, IsToldWhole, IsToldInPart};
ghost use Rattle.tm_output.specs.Laws.{string_laws, writer_laws};

use crate::sink::{Sink, put_text};
use tm_values::SharedText;

/// A target failed. The owner of the target knows the reason: memory ran out for a `String`, or a
/// writer failed or accepted no bytes.
#[derive(Clone, Copy, Debug, PartialEq, Eq)]
pub struct TargetFailed;

/// A target that takes a text piece by piece: a `String`, a shared text, or a writer.
pub trait Target {
    // The target before and after it took the whole text.
    ghost took: { Self → List ℕ → Self → Type 0 };

    // The target before and after it took a beginning of the text and failed.
    ghost stopped: { Self → List ℕ → Self → Type 0 };

    /// Appends the text. If that fails, a beginning of the text was appended.
    fn take_text(&mut self, text: &str) -> Result<(), TargetFailed>
        ensures { Takes took stopped result self.old text.now self.new };

    ghost laws: { Laws took stopped };
}

impl Target for String {
    ghost took = { λ old text new. Grows (string_bytes old) text (string_bytes new) };

    ghost stopped = { λ old text new. GrowsInPart (string_bytes old) text (string_bytes new) };

    /// TargetFailed if memory runs out.
    fn take_text(&mut self, text: &str) -> Result<(), TargetFailed> {
        self.push_str(text).map_err(|_| TargetFailed)
    }

    ghost laws = { string_laws string_bytes };
}

impl Target for SharedText {
    ghost took = { λ old text new. Grows old text new };

    ghost stopped = { λ old text new. GrowsInPart old text new };

    /// TargetFailed if memory runs out.
    fn take_text(&mut self, text: &str) -> Result<(), TargetFailed> {
        self.append(text).map_err(|_| TargetFailed)
    }

    ghost laws = { string_laws (λ bytes. bytes) };
}

impl<S: Sink> Target for S {
    ghost took = { λ old text new.
        IsToldWhole (S.told old) text (S.told new) };

    ghost stopped = { λ old text new.
        IsToldInPart (S.told old) text (S.told new) };

    /// TargetFailed if the writer fails or accepts no bytes. An empty text makes no call.
    #[inline(always)]
    fn take_text(&mut self, text: &str) -> Result<(), TargetFailed> {
        put_text(self, text.as_bytes())
    }

    ghost laws = { writer_laws S.told };
}
