//! How the bytes of a text are spelled when it is written.
ghost use Rattle.std.specs.Prelude.{◌≡◌, ◌<◌, ℕ, List, [], ◌∷◌, IfSome, MatchOption, flat_map, refl};
ghost use Rattle.json.specs.Print.{escape_byte};
ghost use Rattle.tm_definitions.specs.Texts.{as_is, as_is_quoted, in_html, within_quotes};
ghost use Rattle.tm_printing.specs.Decimals.{KeepsDecimals, as_is_keeps_decimals, html_keeps_decimals};

/// The spelling of each byte of a text.
pub trait Spelling {
    // The spelling of a byte.
    ghost spelled: { ℕ → List ℕ };

    /// The spelling of the byte, or None if it is the byte itself.
    fn spelling(byte: u8) -> Option<&'static str>
        ensures spelled { MatchOption result (spelled byte ≡ byte ∷ [])
            (λ s. s.now ≡ spelled byte) }
        ensures ascii { IfSome result (λ _. byte < 128) };
}

/// How a printed value is escaped, byte by byte.
pub trait Escape: Spelling {
    /// The spelling of the bytes of a quoted text.
    type Within: Spelling;

    // Within quotes a byte is quoted first, and the result is escaped.
    ghost quoted_first: { (b : ℕ) →
        Self.Within.spelled b ≡ flat_map Self.spelled (within_quotes b) };

    // A decimal number is never escaped, so it is written without a look at its bytes.
    ghost decimals_kept: { KeepsDecimals Self.spelled };
}

/// Each byte unchanged.
#[derive(Clone, Copy, Debug)]
pub struct Verbatim;

/// The HTML entities for `<`, `>`, `&`, `"`, `'` and `/`.
#[derive(Clone, Copy, Debug)]
pub struct Html;

/// A text in double quotes: `\"`, `\\`, `\n`, `\r` and `\t`.
#[derive(Clone, Copy, Debug)]
pub struct Quoted;

impl Spelling for Verbatim {
    ghost spelled = { as_is };

    #[inline(always)]
    fn spelling(_byte: u8) -> Option<&'static str> {
        None
    }
}

impl Spelling for Html {
    ghost spelled = { in_html };

    #[inline(always)]
    fn spelling(byte: u8) -> Option<&'static str> {
        match byte {
            b'<' => Some("&lt;"),
            b'>' => Some("&gt;"),
            b'&' => Some("&amp;"),
            b'"' => Some("&quot;"),
            b'\'' => Some("&#x27;"),
            b'/' => Some("&#x2f;"),
            _ => None,
        }
    }
}

impl Spelling for Quoted {
    ghost spelled = { within_quotes };

    #[inline(always)]
    fn spelling(byte: u8) -> Option<&'static str> {
        match byte {
            b'"' => Some("\\\""),
            b'\\' => Some("\\\\"),
            b'\n' => Some("\\n"),
            b'\r' => Some("\\r"),
            b'\t' => Some("\\t"),
            _ => None,
        }
    }
}

/// `Quoted`, and then the HTML entities.
#[derive(Clone, Copy, Debug)]
pub struct HtmlQuoted;

impl Spelling for HtmlQuoted {
    ghost spelled = { λ b. flat_map in_html (within_quotes b) };

    #[inline(always)]
    fn spelling(byte: u8) -> Option<&'static str> {
        match byte {
            b'"' => Some("\\&quot;"),
            b'\\' | b'\n' | b'\r' | b'\t' => Quoted::spelling(byte),
            _ => Html::spelling(byte),
        }
    }
}

impl Escape for Verbatim {
    type Within = Quoted;

    ghost quoted_first = { as_is_quoted };

    ghost decimals_kept = { as_is_keeps_decimals };
}

impl Escape for Html {
    type Within = HtmlQuoted;

    ghost quoted_first = { λ b. refl };

    ghost decimals_kept = { html_keeps_decimals };
}

/// A JSON string, as `serde_json` writes it.
#[derive(Clone, Copy, Debug)]
pub struct Json;

impl Spelling for Json {
    ghost spelled = { escape_byte };

    #[inline(always)]
    #[tactic(auto, unfolding(json::specs::Print::escape_byte))]
    fn spelling(byte: u8) -> Option<&'static str> {
        match byte {
            b'"' => Some("\\\""),
            b'\\' => Some("\\\\"),
            0..=31 => Some(control(byte)),
            _ => None,
        }
    }
}

// The spelling of a control character.
#[tactic(auto, unfolding(json::specs::Print::escape_byte))]
fn control(byte: u8) -> &'static str
    requires { byte < 32 }
    ensures { result.now ≡ escape_byte byte }
{
    match byte {
        0 => "\\u0000",
        1 => "\\u0001",
        2 => "\\u0002",
        3 => "\\u0003",
        4 => "\\u0004",
        5 => "\\u0005",
        6 => "\\u0006",
        7 => "\\u0007",
        8 => "\\b",
        9 => "\\t",
        10 => "\\n",
        11 => "\\u000b",
        12 => "\\f",
        13 => "\\r",
        14 => "\\u000e",
        15 => "\\u000f",
        16 => "\\u0010",
        17 => "\\u0011",
        18 => "\\u0012",
        19 => "\\u0013",
        20 => "\\u0014",
        21 => "\\u0015",
        22 => "\\u0016",
        23 => "\\u0017",
        24 => "\\u0018",
        25 => "\\u0019",
        26 => "\\u001a",
        27 => "\\u001b",
        28 => "\\u001c",
        29 => "\\u001d",
        30 => "\\u001e",
        _ => "\\u001f",
    }
}
