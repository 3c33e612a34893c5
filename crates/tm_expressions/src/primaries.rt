//! Primary expressions: literals, names, calls and brackets.
ghost use Rattle.std.specs.Prelude.{◌≡◌, ◌++◌, ◌∷◌, [], MatchResult};
ghost use Rattle.tm_expressions.specs.Parses.{Adds, Parses};
ghost use Rattle.tm_expressions.specs.Grammar.{inside, all_passed, argument, bracketed, called, closed, in_brackets, items};
ghost use Rattle.tm_expressions.specs.Grammar.{keyword, list_literal, map_literal, more_items, more_passed};
ghost use Rattle.tm_expressions.specs.Grammar.{named, of_self, one_passed, pair, passed, primary, spread_list, spread_map, tuple};
ghost use Rattle.tm_grammar.specs.Combinators.{one_more};
ghost use Rattle.tm_syntax.specs.declared.token.Sign.TheVariants as sign;
ghost use Rattle.tm_syntax.specs.declared.tree.Expr.TheVariants as exprs;
ghost use Rattle.tm_values.specs.declared.error.ErrorKind.TheVariants.{OutOfMemory};

use crate::cursor::{Cursor, refusal};
use crate::lists::{add_one, boxed, with_one};
use std::alloc::Global;
use tm_items::{Boxed, Items};
use tm_syntax::{Argument, Expr, Keyword, Name, Pair, Sign};
use tm_values::Error;

/// The arguments of a call.
pub struct Passed {
    /// The positional arguments.
    pub by_place: Items<Argument>,
    /// The keyword arguments, after all positional ones.
    pub by_name: Items<Keyword>,
}

impl Drop for Passed {
    // Not inlined, so that methods that drop it on an error have small frames.
    #[inline(never)]
    fn drop(self) {
        let Passed {
            by_place: _by_place,
            by_name: _by_name,
        } = self;
    }
}

impl Passed {
    /// The positional and the keyword arguments.
    pub fn into_parts(self) -> (Items<Argument>, Items<Keyword>)
        ensures { result ≡ (self.by_place, self.by_name) }
    {
        let Passed { by_place, by_name } = self;
        (by_place, by_name)
    }
}

// Each method parses one rule, with `depth` levels of nesting left. SyntaxError if the tokens don't
// match the rule.
impl Cursor<'_> {
    /// A literal, a name, a call, or an expression in brackets.
    #[cycle(expressions)]
    #[tactic(auto, unfolding(crate::specs::Grammar::primary))]
    #[inline(always)]
    pub(crate) fn primary(&mut self, alloc: Global, depth: u8) -> Result<Boxed<Expr>, Error>
        ensures { Parses result self.new ((primary (inside depth)).reads self.old) }
    {
        if let Some(value) = self.take_constant(alloc)? {
            return Ok(value);
        }
        if let Some(name) = self.take_name()? {
            return self.named(alloc, depth, name);
        }
        if self.take(Sign::OpenRound) {
            return self.bracketed(alloc, depth);
        }
        if self.take(Sign::OpenSquare) {
            return self.list_literal(alloc, depth);
        }
        if self.take(Sign::OpenCurly) {
            return self.map_literal(alloc, depth);
        }
        Err(refusal())
    }

    /// A name, a call of it, or a call of a block of `self`.
    #[cycle(expressions)]
    #[tactic(auto, unfolding(crate::specs::Grammar::named))]
    #[inline(always)]
    fn named(&mut self, alloc: Global, depth: u8, name: Name) -> Result<Boxed<Expr>, Error>
        ensures { Parses result self.new ((named (inside depth) name).reads self.old) }
    {
        if self.take(Sign::OpenRound) {
            return self.called(alloc, depth, name);
        }
        if name.is("self") {
            return self.of_self(alloc, depth, name);
        }
        boxed(alloc, Expr::Var(name))
    }

    /// The call of a name after its opening bracket.
    #[cycle(expressions)]
    #[tactic(auto, unfolding(crate::specs::Grammar::called))]
    #[inline(never)]
    fn called(&mut self, alloc: Global, depth: u8, name: Name) -> Result<Boxed<Expr>, Error>
        ensures { Parses result self.new ((called (inside depth) name).reads self.old) }
    {
        let mut given = nothing_passed(alloc);
        self.in_brackets(alloc, depth, &mut given)?;
        call_of(alloc, name, given)
    }

    /// The name `self`, or a call of a block of `self`.
    #[tactic(auto, unfolding(crate::specs::Grammar::of_self))]
    #[inline(never)]
    fn of_self(&mut self, alloc: Global, depth: u8, name: Name) -> Result<Boxed<Expr>, Error>
        ensures { Parses result self.new ((of_self (inside depth) name).reads self.old) }
    {
        if let Some(block) = self.take_bare_call()? {
            self.room(depth)?;
            return boxed(alloc, Expr::SelfBlock(block));
        }
        boxed(alloc, Expr::Var(name))
    }

    /// The expression or tuple in round brackets, and the closing bracket.
    #[cycle(expressions)]
    #[tactic(auto, unfolding(crate::specs::Grammar::bracketed))]
    #[inline(never)]
    fn bracketed(&mut self, alloc: Global, depth: u8) -> Result<Boxed<Expr>, Error>
        ensures { Parses result self.new ((bracketed (inside depth)).reads self.old) }
    {
        self.room(depth)?;
        if self.take(Sign::CloseRound) {
            return boxed(alloc, Expr::Tuple(Items::new(alloc)));
        }
        let first = self.inner_expr(alloc, depth)?;
        if self.take(Sign::CloseRound) {
            return self.closed(alloc, depth, first);
        }
        self.tuple(alloc, depth, first)
    }

    /// An expression after its closing bracket. A name in brackets can be called like one without.
    #[cycle(expressions)]
    #[inline(never)]
    fn closed(&mut self, alloc: Global, depth: u8, value: Boxed<Expr>) -> Result<Boxed<Expr>, Error>
        ensures { Parses result self.new ((closed (inside depth) value).reads self.old) }
    {
        if let Expr::Var(name) = value.get() {
            let name = name.share()?;
            return self.named(alloc, depth, name);
        }
        Ok(value)
    }

    /// A tuple after its first item, and the closing bracket.
    #[cycle(expressions)]
    #[tactic(auto, unfolding(crate::specs::Grammar::tuple))]
    #[inline(never)]
    fn tuple(&mut self, alloc: Global, depth: u8, first: Boxed<Expr>) -> Result<Boxed<Expr>, Error>
        ensures { Parses result self.new ((tuple (inside depth) first).reads self.old) }
    {
        self.expect(Sign::Comma)?;
        let mut items = lone_item(alloc, first)?;
        self.exprs(alloc, depth, Sign::CloseRound, &mut items)?;
        tuple_of(alloc, items)
    }

    /// The items of a list, and the closing bracket.
    #[cycle(expressions)]
    #[tactic(auto, unfolding(crate::specs::Grammar::list_literal))]
    #[inline(never)]
    fn list_literal(&mut self, alloc: Global, depth: u8) -> Result<Boxed<Expr>, Error>
        ensures { Parses result self.new ((list_literal (inside depth)).reads self.old) }
    {
        self.room(depth)?;
        let mut items = Items::new(alloc);
        self.exprs(alloc, depth, Sign::CloseSquare, &mut items)?;
        list_of(alloc, items)
    }

    /// The pairs of a map, and the closing bracket.
    #[cycle(expressions)]
    #[tactic(auto, unfolding(crate::specs::Grammar::map_literal))]
    #[inline(never)]
    fn map_literal(&mut self, alloc: Global, depth: u8) -> Result<Boxed<Expr>, Error>
        ensures { Parses result self.new ((map_literal (inside depth)).reads self.old) }
    {
        self.room(depth)?;
        let pairs = self.pairs(alloc, depth)?;
        boxed(alloc, Expr::Map(pairs))
    }

    /// Expressions up to and including the closing sign, pushed on the others.
    #[cycle(expressions)]
    #[tactic(auto, unfolding(crate::specs::Grammar::items))]
    fn exprs(
        &mut self,
        alloc: Global,
        depth: u8,
        close: Sign,
        exprs: &mut Items<Expr>,
    ) -> Result<(), Error>
        ensures { Adds result exprs.new self.new
            ((items close (inside depth).expr exprs.old).reads self.old) }
    {
        if self.take(close) {
            return Ok(());
        }
        self.one_expr(alloc, depth, exprs)?;
        self.more_exprs(alloc, depth, close, exprs)?;
        self.take(Sign::Comma);
        self.expect(close)
    }

    /// The other expressions, each after a comma.
    #[cycle(expressions)]
    #[tactic(auto, using(crate::proofs::Loops::commas))]
    fn more_exprs(
        &mut self,
        alloc: Global,
        depth: u8,
        close: Sign,
        exprs: &mut Items<Expr>,
    ) -> Result<(), Error>
        ensures { Adds result exprs.new self.new
            ((more_items close (inside depth).expr exprs.old).reads self.old) }
    {
        while self.take_comma(close) {
            self.one_expr(alloc, depth, exprs)?;
        }
        Ok(())
    }

    /// An expression, pushed on the others.
    #[cycle(expressions)]
    #[inline(never)]
    fn one_expr(&mut self, alloc: Global, depth: u8, exprs: &mut Items<Expr>) -> Result<(), Error>
        ensures { Adds result exprs.new self.new
            ((one_more (inside depth).expr exprs.old).reads self.old) }
    {
        let value = self.inner_expr(alloc, depth)?;
        add_expr(exprs, value)
    }

    /// The pairs of a map, and the closing bracket.
    #[cycle(expressions)]
    #[tactic(auto, unfolding(crate::specs::Grammar::items))]
    fn pairs(&mut self, alloc: Global, depth: u8) -> Result<Items<Pair>, Error>
        ensures { Parses result self.new
            ((items sign.CloseCurly (pair (inside depth)) []).reads self.old) }
    {
        let pairs = Items::new(alloc);
        if self.take(Sign::CloseCurly) {
            return Ok(pairs);
        }
        let pairs = self.one_pair(alloc, depth, pairs)?;
        let pairs = self.more_pairs(alloc, depth, pairs)?;
        self.take(Sign::Comma);
        self.expect(Sign::CloseCurly)?;
        Ok(pairs)
    }

    /// The other pairs, each after a comma.
    #[cycle(expressions)]
    #[tactic(auto, using(crate::proofs::Loops::commas))]
    fn more_pairs(
        &mut self,
        alloc: Global,
        depth: u8,
        first: Items<Pair>,
    ) -> Result<Items<Pair>, Error>
        ensures { Parses result self.new
            ((more_items sign.CloseCurly (pair (inside depth)) first).reads self.old) }
    {
        let mut pairs = first;
        while self.take_comma(Sign::CloseCurly) {
            pairs = self.one_pair(alloc, depth, pairs)?;
        }
        Ok(pairs)
    }

    /// A pair, pushed on the others.
    #[cycle(expressions)]
    #[tactic(auto, unfolding(crate::specs::Grammar::pair))]
    fn one_pair(
        &mut self,
        alloc: Global,
        depth: u8,
        pairs: Items<Pair>,
    ) -> Result<Items<Pair>, Error>
        ensures { Parses result self.new
            ((one_more (pair (inside depth)) pairs).reads self.old) }
    {
        let key = self.inner_expr(alloc, depth)?;
        self.expect(Sign::Colon)?;
        let value = self.inner_expr(alloc, depth)?;
        with_one(pairs, Pair { key, value })
    }

    /// The arguments of a call one nesting level deeper, and the closing bracket.
    #[cycle(expressions)]
    #[tactic(auto, unfolding(crate::specs::Grammar::in_brackets))]
    pub(crate) fn in_brackets(
        &mut self,
        alloc: Global,
        depth: u8,
        given: &mut Passed,
    ) -> Result<(), Error>
        requires { given.old ≡ passed [] [] }
        ensures { Adds result given.new self.new ((in_brackets (inside depth)).reads self.old) }
    {
        self.room(depth)?;
        self.all_passed(alloc, depth, given)
    }

    /// The arguments of a call, and the closing bracket.
    #[cycle(expressions)]
    #[tactic(auto, unfolding(crate::specs::Grammar::all_passed))]
    #[inline(never)]
    fn all_passed(&mut self, alloc: Global, depth: u8, given: &mut Passed) -> Result<(), Error>
        requires { given.old ≡ passed [] [] }
        ensures { Adds result given.new self.new ((all_passed (inside depth)).reads self.old) }
    {
        if self.take(Sign::CloseRound) {
            return Ok(());
        }
        self.one_passed(alloc, depth, given)?;
        self.more_passed(alloc, depth, given)?;
        self.take(Sign::Comma);
        self.expect(Sign::CloseRound)
    }

    /// The other arguments, each after a comma.
    #[cycle(expressions)]
    #[tactic(auto, using(crate::proofs::Loops::arguments))]
    fn more_passed(&mut self, alloc: Global, depth: u8, given: &mut Passed) -> Result<(), Error>
        ensures { Adds result given.new self.new
            ((more_passed (inside depth) given.old).reads self.old) }
    {
        while self.take_comma(Sign::CloseRound) {
            self.one_passed(alloc, depth, given)?;
        }
        Ok(())
    }

    /// An argument, pushed on the others.
    #[cycle(expressions)]
    #[tactic(auto, unfolding(crate::specs::Grammar::one_passed))]
    #[inline(never)]
    fn one_passed(&mut self, alloc: Global, depth: u8, given: &mut Passed) -> Result<(), Error>
        ensures { Adds result given.new self.new
            ((one_passed (inside depth) given.old).reads self.old) }
    {
        if let Some(name) = self.take_keyword()? {
            return self.keyword(alloc, depth, given, name);
        }
        if self.take(Sign::DoubleStar) {
            return self.spread_map(alloc, depth, given);
        }
        if self.take(Sign::Star) {
            return self.spread_list(alloc, depth, given);
        }
        self.argument(alloc, depth, given)
    }

    /// A keyword argument after its `=`.
    #[cycle(expressions)]
    #[tactic(auto, unfolding(crate::specs::Grammar::keyword))]
    fn keyword(
        &mut self,
        alloc: Global,
        depth: u8,
        given: &mut Passed,
        name: Name,
    ) -> Result<(), Error>
        ensures { Adds result given.new self.new
            ((keyword (inside depth) given.old name).reads self.old) }
    {
        let value = self.inner_expr(alloc, depth)?;
        add_keyword(given, Keyword::Named(name, value))
    }

    /// A map of keyword arguments after its `**`.
    #[cycle(expressions)]
    #[tactic(auto, unfolding(crate::specs::Grammar::spread_map))]
    fn spread_map(&mut self, alloc: Global, depth: u8, given: &mut Passed) -> Result<(), Error>
        ensures { Adds result given.new self.new
            ((spread_map (inside depth) given.old).reads self.old) }
    {
        let value = self.inner_expr(alloc, depth)?;
        add_keyword(given, Keyword::Spread(value))
    }

    /// A list of positional arguments after its `*`; no keyword argument may precede it.
    #[cycle(expressions)]
    #[tactic(auto, unfolding(crate::specs::Grammar::spread_list), using(crate::proofs::Nesting::names))]
    fn spread_list(&mut self, alloc: Global, depth: u8, given: &mut Passed) -> Result<(), Error>
        ensures { Adds result given.new self.new
            ((spread_list (inside depth) given.old).reads self.old) }
    {
        if !given.by_name.is_empty() {
            return Err(refusal());
        }
        let value = self.inner_expr(alloc, depth)?;
        add_argument(given, Argument::Spread(value))
    }

    /// A positional argument; no keyword argument may precede it.
    #[cycle(expressions)]
    #[tactic(auto, unfolding(crate::specs::Grammar::argument), using(crate::proofs::Nesting::names))]
    fn argument(&mut self, alloc: Global, depth: u8, given: &mut Passed) -> Result<(), Error>
        ensures { Adds result given.new self.new
            ((argument (inside depth) given.old).reads self.old) }
    {
        if !given.by_name.is_empty() {
            return Err(refusal());
        }
        let value = self.inner_expr(alloc, depth)?;
        add_argument(given, Argument::Plain(value))
    }
}

/// The call of a name with its arguments. OutOfMemory if memory runs out.
#[inline(never)]
fn call_of(alloc: Global, name: Name, given: Passed) -> Result<Boxed<Expr>, Error>
    ensures { MatchResult result
        (λ call. call ≡ exprs.Call name given.by_place given.by_name)
        (λ e. e ≡ OutOfMemory ∷ []) }
{
    let (by_place, by_name) = given.into_parts();
    boxed(alloc, Expr::Call(name, by_place, by_name))
}

/// A list of one item. OutOfMemory if memory runs out.
#[inline(never)]
fn lone_item(alloc: Global, item: Boxed<Expr>) -> Result<Items<Expr>, Error>
    ensures { MatchResult result
        (λ items. items ≡ item ∷ [])
        (λ e. e ≡ OutOfMemory ∷ []) }
{
    with_one(Items::new(alloc), item.into_inner())
}

/// Pushes an expression. OutOfMemory if memory runs out.
#[inline(never)]
fn add_expr(exprs: &mut Items<Expr>, value: Boxed<Expr>) -> Result<(), Error>
    ensures { MatchResult result
        (λ done. exprs.new ≡ exprs.old ++ value ∷ [])
        (λ e. e ≡ OutOfMemory ∷ []) }
{
    add_one(exprs, value.into_inner())
}

/// A tuple of the items. OutOfMemory if memory runs out.
#[inline(never)]
fn tuple_of(alloc: Global, items: Items<Expr>) -> Result<Boxed<Expr>, Error>
    ensures { MatchResult result
        (λ tuple. tuple ≡ exprs.Tuple items)
        (λ e. e ≡ OutOfMemory ∷ []) }
{
    boxed(alloc, Expr::Tuple(items))
}

/// A list of the items. OutOfMemory if memory runs out.
#[inline(never)]
fn list_of(alloc: Global, items: Items<Expr>) -> Result<Boxed<Expr>, Error>
    ensures { MatchResult result
        (λ list. list ≡ exprs.List items)
        (λ e. e ≡ OutOfMemory ∷ []) }
{
    boxed(alloc, Expr::List(items))
}

/// No arguments.
pub fn nothing_passed(alloc: Global) -> Passed
    ensures { result ≡ passed [] [] }
{
    Passed {
        by_place: Items::new(alloc),
        by_name: Items::new(alloc),
    }
}

/// Pushes a positional argument. OutOfMemory if memory runs out.
#[inline(never)]
pub fn add_argument(given: &mut Passed, argument: Argument) -> Result<(), Error>
    ensures { MatchResult result
        (λ done. given.new ≡ passed (given.old.by_place ++ argument ∷ []) given.old.by_name)
        (λ e. e ≡ OutOfMemory ∷ []) }
{
    given.by_place.push(argument)?;
    Ok(())
}

/// Pushes a keyword argument. OutOfMemory if memory runs out.
#[inline(never)]
fn add_keyword(given: &mut Passed, keyword: Keyword) -> Result<(), Error>
    ensures { MatchResult result
        (λ done. given.new ≡ passed given.old.by_place (given.old.by_name ++ keyword ∷ []))
        (λ e. e ≡ OutOfMemory ∷ []) }
{
    given.by_name.push(keyword)?;
    Ok(())
}
