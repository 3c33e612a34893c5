//! Tokens.
use crate::name::Name;
use crate::raw_text::RawText;
use tm_values::Value;

/// A delimiter, a punctuation mark or a reserved word.
#[derive(Clone, Copy, PartialEq, Eq)]
pub enum Sign {
    /// The start of an emission: `{{`.
    VariableStart,
    /// The end of an emission: `}}`.
    VariableEnd,
    /// The end of a block tag: `%}`.
    BlockEnd,
    /// `(`
    OpenRound,
    /// `)`
    CloseRound,
    /// `[`
    OpenSquare,
    /// `]`
    CloseSquare,
    /// `{`
    OpenCurly,
    /// `}`
    CloseCurly,
    /// `,`
    Comma,
    /// `.`
    Dot,
    /// `:`
    Colon,
    /// `=`
    Assign,
    /// `==`
    Equal,
    /// `!=`
    NotEqual,
    /// `<`
    Less,
    /// `<=`
    LessOrEqual,
    /// `>`
    Greater,
    /// `>=`
    GreaterOrEqual,
    /// `+`
    Plus,
    /// `-`
    Minus,
    /// `~`
    Tilde,
    /// `|`
    Bar,
    /// `*`
    Star,
    /// `/`
    Slash,
    /// `//`
    DoubleSlash,
    /// `%`
    Percent,
    /// `**`
    DoubleStar,
    /// `and`
    And,
    /// `or`
    Or,
    /// `not`
    Not,
    /// `if`
    If,
    /// `else`
    Else,
    /// `in`
    In,
    /// `is`
    Is,
    /// `true` or `True`
    True,
    /// `false` or `False`
    False,
    /// `none` or `None`
    None,
}

/// The start of a block tag and the word after it.
#[derive(Clone, Copy, PartialEq, Eq)]
pub enum Tag {
    /// `{% if`
    If,
    /// `{% elif`
    Elif,
    /// `{% else`
    Else,
    /// `{% endif`
    Endif,
    /// `{% for`
    For,
    /// `{% endfor`
    Endfor,
    /// `{% break`
    Break,
    /// `{% continue`
    Continue,
    /// `{% block`
    Block,
    /// `{% endblock`
    Endblock,
    /// `{% extends`
    Extends,
    /// `{% set`
    Set,
    /// `{% endset`
    Endset,
    /// `{% filter`
    Filter,
    /// `{% endfilter`
    Endfilter,
    /// `{% with`
    With,
    /// `{% endwith`
    Endwith,
    /// `{% do`
    Do,
    /// `{% autoescape`
    Autoescape,
    /// `{% endautoescape`
    Endautoescape,
    /// `{% macro`
    Macro,
    /// `{% endmacro`
    Endmacro,
    /// `{% call`
    Call,
    /// `{% endcall`
    Endcall,
    /// `{% include`
    Include,
    /// `{% import`
    Import,
    /// `{% from`
    From,
}

/// A token of a source.
pub enum Token {
    /// Raw text, never empty.
    Raw(RawText),
    /// The start and the word of a block tag.
    Tag(Tag),
    /// A name.
    Name(Name),
    /// A string literal with its escapes resolved, or a number.
    Literal(Value),
    /// A delimiter, a punctuation mark or a reserved word.
    Sign(Sign),
}

// By hand: one call for each owner, instead of a drop of each part.
impl Drop for Token {
    fn drop(self) {
        match self {
            Token::Raw(_) | Token::Tag(_) | Token::Name(_) | Token::Literal(_) | Token::Sign(_) =>
                {}
        }
    }
}
