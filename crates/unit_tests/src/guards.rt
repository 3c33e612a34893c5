//! How the text of a run becomes a value: no template of a row needs this yet, so a law takes the
//! place of rows.
ghost use Rattle.std.specs.Prelude.{◌≡◌, [], codes, true, false};
ghost use Rattle.tm_values.specs.Val.{boolean, text};
ghost use Rattle.tm_values.specs.declared.escape.AutoEscape.TheVariants as escapes;
ghost use Rattle.tm_meaning.specs.Calls.{NestedCall, as_truth, run_value, runs};
ghost use Rattle.tm_meaning.specs.World.{World, with_escape};
ghost use Rattle.tm_meaning.specs.declared.run_text.RunText.TheVariants as texts;

/// A captured text is marked safe if an escape is active, and a plain one never is; as a truth it
/// tells whether there is any text. For a test that needs a run only the truth counts.
pub fn run_text_guards()
    ensures captured { (w : World) →
        run_value texts.Captured (codes "a") (with_escape escapes.Html w) ≡ text (codes "a") true }
    ensures captured_plainly { (w : World) →
        run_value texts.Captured (codes "a") (with_escape escapes.None w) ≡ text (codes "a") false }
    ensures plain { (w : World) →
        run_value texts.Plain (codes "a") (with_escape escapes.Html w) ≡ text (codes "a") false }
    ensures truth { (w : World) → run_value texts.Truth (codes "a") w ≡ boolean true }
    ensures no_truth { (w : World) → run_value texts.Truth [] w ≡ boolean false }
    ensures tested { (c : NestedCall) (w : World) →
        as_truth (runs c w) ≡ runs (record c { text = texts.Truth }) w }
{}
