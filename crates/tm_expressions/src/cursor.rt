//! A cursor over tokens.
ghost use Rattle.std.specs.Prelude.{◌≡◌, ◌∷◌, [], ◌↔◌, IsTrue, IfSome, MatchResult, None, is_some, nat_lt};
ghost use Rattle.tm_expressions.specs.Parses.{Parses, TakesFirst, TakesSign};
ghost use Rattle.tm_expressions.specs.Constants.{TakesConstant};
ghost use Rattle.tm_expressions.specs.Tokens.{is, a_name, a_constant, a_test_word, bare, is_comma, is_kept, link};
ghost use Rattle.tm_expressions.specs.Tokens.{ends_part};
ghost use Rattle.tm_expressions.specs.Grammar.{bare_call, comma, inside, keyword_start};
ghost use Rattle.tm_expressions.specs.Levels.{GoesOnAt, prefix_up_to};
ghost use Rattle.tm_expressions.specs.Looks.{starts};
ghost use Rattle.tm_expressions.specs.Waiting.{role_of};
ghost use Rattle.tm_grammar.specs.Combinators.{token};
ghost use Rattle.tm_grammar.specs.Meanings.{first_sees};
ghost use Rattle.tm_syntax.specs.declared.token.Sign.TheVariants as sign;

use crate::lists::boxed;
use crate::tables::{
    Link, POSTFIX_LEVEL, constant_of, link_of, negated_link_of, prefix_of, test_word,
};
use std::alloc::Global;
use std::marker::Model;
use tm_items::Boxed;
use tm_syntax::{Expr, Name, Sign, Token, UnaryOperator};
use tm_values::{Error, ErrorKind, Value};

/// The tokens that are left. A contract sees a list.
#[derive(Drop)]
pub struct Cursor<'t> {
    rest: &'t [Token],
}

impl<'t> Model for Cursor<'t> {
    ghost use Rattle.std.specs.Prelude.{List};
    ghost use Rattle.tm_syntax.specs.declared.token.Token.{Token};
    ghost use Rattle.std.specs.Coded.{codes};
    ghost use Rattle.tm_values.specs.Code.{coded_Val};

    ghost Value = { List Token };

    ghost coded = { Prim.hlevel (codes, coded_Val) };

    ghost view = { λ a. a.rest.now };
}

/// The error for tokens that are refused.
pub fn refusal() -> Error
    ensures { result ≡ ErrorKind.SyntaxError ∷ [] }
{
    Error::from(ErrorKind::SyntaxError)
}

/// Whether a name is a word that may follow a value in a tag.
fn is_kept(name: &Name) -> bool
    ensures { result ≡ is_kept name.now }
{
    name.is("recursive") || name.is("ignore") || name.is("as") || name.is("import")
}

// Each `take` method returns what it took, or whether it took something.
impl<'t> Cursor<'t> {
    /// A cursor at the first of `tokens`.
    pub fn new(tokens: &'t [Token]) -> Cursor<'t>
        ensures { result ≡ tokens.now }
    {
        Cursor { rest: tokens }
    }

    /// The tokens that are left.
    pub fn rest(&self) -> &'t [Token]
        ensures { result.now ≡ self.now }
    {
        self.rest
    }

    /// Whether no token is left.
    pub fn is_done(&self) -> bool
        ensures { IsTrue result ↔ (self.now ≡ []) }
    {
        self.rest.is_empty()
    }

    /// Whether a part of a slice ends here.
    pub(crate) fn ends_part(&self) -> bool
        ensures { result ≡ starts ends_part self.now }
    {
        match self.rest {
            [Token::Sign(Sign::Colon | Sign::CloseSquare), ..] => true,
            _ => false,
        }
    }

    /// Whether the next token is a comma.
    pub fn is_at_comma(&self) -> bool
        ensures { result ≡ starts is_comma self.now }
    {
        match self.rest {
            [Token::Sign(Sign::Comma), ..] => true,
            _ => false,
        }
    }

    /// Whether the next token is `if`.
    pub(crate) fn is_at_if(&self) -> bool
        ensures { result ≡ is_some (first_sees (is sign.If) self.now) }
    {
        match self.rest {
            [Token::Sign(Sign::If), ..] => true,
            _ => false,
        }
    }

    /// Takes `sign` if it comes next. Returns whether it did.
    pub fn take(&mut self, sign: Sign) -> bool
        ensures { TakesSign result self.old self.new (first_sees (is sign) self.old) }
    {
        match self.rest {
            [Token::Sign(found), rest @ ..] if *found == sign => {
                self.rest = rest;
                true
            }
            _ => false,
        }
    }

    /// Takes a comma if it comes next and isn't followed by `close`, the end of the list. Returns
    /// whether it did.
    pub fn take_comma(&mut self, close: Sign) -> bool
        ensures { TakesSign result self.old self.new ((comma close).sees self.old) }
    {
        match self.rest {
            [Token::Sign(Sign::Comma), rest @ ..] => {
                if Cursor::new(rest).take(close) {
                    return false;
                }
                self.rest = rest;
                true
            }
            _ => false,
        }
    }

    /// Takes a name, and returns a second owner of it. OutOfMemory if there can't be one.
    pub(crate) fn take_name(&mut self) -> Result<Option<Name>, Error>
        ensures { MatchResult result
            (λ name. TakesFirst name self.old self.new (first_sees a_name self.old))
            (λ e. e ≡ ErrorKind.OutOfMemory ∷ []) }
    {
        match self.rest {
            [Token::Name(name), rest @ ..] => {
                let name = name.share()?;
                self.rest = rest;
                Ok(Some(name))
            }
            _ => Ok(None),
        }
    }

    /// Takes a name followed by `=`, and returns a second owner of the name. OutOfMemory if there
    /// can't be one.
    pub(crate) fn take_keyword(&mut self) -> Result<Option<Name>, Error>
        ensures { MatchResult result
            (λ name. TakesFirst name self.old self.new (keyword_start.sees self.old))
            (λ e. e ≡ ErrorKind.OutOfMemory ∷ []) }
    {
        match self.rest {
            [Token::Name(name), Token::Sign(Sign::Assign), rest @ ..] => {
                let name = name.share()?;
                self.rest = rest;
                Ok(Some(name))
            }
            _ => Ok(None),
        }
    }

    /// Takes a dot and a call of a name without arguments, and returns a second owner of the name.
    /// OutOfMemory if there can't be one.
    pub(crate) fn take_bare_call(&mut self) -> Result<Option<Name>, Error>
        ensures { MatchResult result
            (λ name. TakesFirst name self.old self.new (bare_call.sees self.old))
            (λ e. e ≡ ErrorKind.OutOfMemory ∷ []) }
    {
        match self.rest {
            [
                Token::Sign(Sign::Dot),
                Token::Name(name),
                Token::Sign(Sign::OpenRound),
                Token::Sign(Sign::CloseRound),
                rest @ ..,
            ] => {
                let name = name.share()?;
                self.rest = rest;
                Ok(Some(name))
            }
            _ => Ok(None),
        }
    }

    /// Takes a literal or the word of a value, as an expression. OutOfMemory if memory runs out.
    #[inline(always)]
    pub(crate) fn take_constant(&mut self, alloc: Global) -> Result<Option<Boxed<Expr>>, Error>
        ensures { MatchResult result
            (λ expr. TakesConstant expr self.old self.new (first_sees a_constant self.old))
            (λ e. e ≡ ErrorKind.OutOfMemory ∷ []) }
    {
        match self.rest {
            [Token::Name(_), ..] => Ok(None),
            _ => self.read_constant(alloc),
        }
    }

    /// The same, not inlined, since most values are names.
    #[inline(never)]
    fn read_constant(&mut self, alloc: Global) -> Result<Option<Boxed<Expr>>, Error>
        ensures { MatchResult result
            (λ expr. TakesConstant expr self.old self.new (first_sees a_constant self.old))
            (λ e. e ≡ ErrorKind.OutOfMemory ∷ []) }
    {
        let value = match self.rest {
            [Token::Literal(value), ..] => value.share()?,
            [Token::Sign(sign), ..] => match constant_of(*sign) {
                Some(value) => value,
                None => return Ok(None),
            },
            _ => return Ok(None),
        };
        let expr = boxed(alloc, Expr::Const(value))?;
        self.rest = &self.rest[1..];
        Ok(Some(expr))
    }

    /// Takes a reserved word that names a test, and returns it as a name. OutOfMemory if memory
    /// runs out.
    pub(crate) fn take_test_word(&mut self, alloc: Global) -> Result<Option<Name>, Error>
        ensures { MatchResult result
            (λ name. TakesFirst name self.old self.new (first_sees a_test_word self.old))
            (λ e. e ≡ ErrorKind.OutOfMemory ∷ []) }
    {
        let name = match self.rest {
            [Token::Sign(sign), ..] => match test_word(*sign) {
                Some(word) => Name::new(alloc, word)?,
                None => return Ok(None),
            },
            _ => return Ok(None),
        };
        self.rest = &self.rest[1..];
        Ok(Some(name))
    }

    /// Takes an argument that a test may have without brackets, as an expression. OutOfMemory if
    /// memory runs out.
    #[inline(never)]
    pub(crate) fn take_bare(&mut self, alloc: Global) -> Result<Option<Boxed<Expr>>, Error>
        ensures { MatchResult result
            (λ expr. TakesFirst expr self.old self.new (first_sees bare self.old))
            (λ e. e ≡ ErrorKind.OutOfMemory ∷ []) }
    {
        let expr = match self.rest {
            [Token::Name(name), ..] => {
                if is_kept(name) {
                    return Ok(None);
                }
                Expr::Var(name.share()?)
            }
            [Token::Literal(value), ..] => Expr::Const(value.share()?),
            [Token::Sign(sign), ..] => match constant_of(*sign) {
                Some(value) => Expr::Const(value),
                None => return Ok(None),
            },
            _ => return Ok(None),
        };
        let expr = boxed(alloc, expr)?;
        self.rest = &self.rest[1..];
        Ok(Some(expr))
    }

    /// Takes the sign, or `not` and a sign, that continues a value at this level.
    pub(crate) fn take_link(&mut self, level: u8) -> Option<Link>
        ensures first { TakesFirst result self.old self.new ((link level).sees self.old) }
        ensures operator { IfSome result (λ link. is_some (role_of link) ≡ nat_lt 0 level) }
    {
        let (found, rest) = match self.rest {
            [Token::Sign(Sign::Not), Token::Sign(sign), rest @ ..] => (
                negated_link_of(*sign),
                rest,
            ),
            [Token::Sign(sign), rest @ ..] => (link_of(*sign), rest),
            _ => return None,
        };
        match found {
            Some((found, link)) if found == level => {
                self.rest = rest;
                Some(link)
            }
            _ => None,
        }
    }

    /// The first level, from `from` on and before `end`, at which the next tokens continue a value.
    #[inline(always)]
    pub(crate) fn link_level(&self, from: u8, end: u8) -> Option<u8>
        ensures { GoesOnAt result from end self.now }
    {
        let (level, _) = match self.rest {
            [Token::Sign(Sign::Not), Token::Sign(sign), ..] => negated_link_of(*sign)?,
            [Token::Sign(sign), ..] => link_of(*sign)?,
            _ => return None,
        };
        if from <= level && level < end {
            Some(level)
        } else {
            None
        }
    }

    /// Takes a prefix whose operand is of at most this level. Returns the level of the operand and
    /// the operator.
    pub(crate) fn take_prefix(&mut self, level: u8) -> Option<(u8, UnaryOperator)>
        ensures { TakesFirst result self.old self.new
            (first_sees (prefix_up_to level) self.old) }
    {
        match self.rest {
            [Token::Sign(sign), rest @ ..] => match prefix_of(*sign) {
                Some((found, operator)) if POSTFIX_LEVEL < found && found <= level => {
                    self.rest = rest;
                    Some((found, operator))
                }
                _ => None,
            },
            _ => None,
        }
    }

    /// Checks that a bracket may open. SyntaxError if `depth`, the number of nesting levels left,
    /// is 0.
    #[tactic(auto, using(crate::proofs::Nesting::expressions))]
    pub fn room(&self, depth: u8) -> Result<(), Error>
        ensures { Parses result self.now ((inside depth).room.reads self.now) }
    {
        if depth == 0 {
            return Err(refusal());
        }
        Ok(())
    }

    /// Takes `sign`. SyntaxError if it doesn't come next.
    pub fn expect(&mut self, sign: Sign) -> Result<(), Error>
        ensures { Parses result self.new ((token (is sign)).reads self.old) }
    {
        if self.take(sign) {
            Ok(())
        } else {
            Err(refusal())
        }
    }

    /// Takes a name, and returns a second owner of it. SyntaxError if no name comes next.
    /// OutOfMemory if there can't be a second owner.
    #[inline(never)]
    pub fn expect_name(&mut self) -> Result<Name, Error>
        ensures { Parses result self.new ((token a_name).reads self.old) }
    {
        match self.take_name()? {
            Some(name) => Ok(name),
            None => Err(refusal()),
        }
    }
}
