//! Calls, filters and tests after a value: their names and arguments.
ghost use Rattle.std.specs.Prelude.{◌≡◌, ◌++◌, ◌∷◌, [], codes, MatchResult};
ghost use Rattle.tm_expressions.specs.Parses.{Adds, Parses};
ghost use Rattle.tm_expressions.specs.Grammar as grammar;
ghost use Rattle.tm_expressions.specs.Grammar.{inside, passed, call_step, dotted, filter_step, more_parts, one_part};
ghost use Rattle.tm_expressions.specs.Grammar.{passed_to_test, test_name, test_step, tested};
ghost use Rattle.tm_grammar.specs.Combinators.{one_more};
ghost use Rattle.tm_trees.specs.Trees.step_forms.{Apply, Call};
ghost use Rattle.tm_values.specs.declared.error.ErrorKind.TheVariants.{OutOfMemory};

use crate::cursor::{Cursor, refusal};
use crate::lists::add_one;
use crate::primaries::{Passed, add_argument, nothing_passed};
use std::alloc::Global;
use tm_items::Items;
use tm_syntax::{Application, Argument, Name, Sign, Step};
use tm_values::{Error, SharedText};

// Each method parses one rule, with `depth` levels of nesting left. SyntaxError if the tokens don't
// match the rule.
impl Cursor<'_> {
    /// The call of a value after its opening bracket, pushed on `steps`.
    #[cycle(expressions)]
    #[tactic(auto, unfolding(crate::specs::Grammar::call_step))]
    #[inline(never)]
    pub(crate) fn call_step(
        &mut self,
        alloc: Global,
        depth: u8,
        steps: &mut Items<Step>,
    ) -> Result<(), Error>
        ensures { Adds result steps.new self.new
            ((one_more (call_step (inside depth)) steps.old).reads self.old) }
    {
        let mut given = nothing_passed(alloc);
        self.in_brackets(alloc, depth, &mut given)?;
        add_call(given, steps)
    }

    /// Parses a filter and its arguments, and pushes the step on `steps`. SyntaxError; OutOfMemory.
    #[cycle(expressions)]
    #[tactic(auto, unfolding(crate::specs::Grammar::filter_step))]
    #[inline(never)]
    pub fn filter_step(
        &mut self,
        alloc: Global,
        depth: u8,
        steps: &mut Items<Step>,
    ) -> Result<(), Error>
        ensures { Adds result steps.new self.new
            ((one_more (filter_step (inside depth)) steps.old).reads self.old) }
    {
        let name = self.dotted(alloc)?;
        let mut given = nothing_passed(alloc);
        self.given(alloc, depth, &mut given)?;
        add_application(Application::Filter, name, given, steps)
    }

    /// A test, or `not` and a test, and its arguments, pushed on `steps`.
    #[cycle(expressions)]
    #[tactic(auto, unfolding(crate::specs::Grammar::test_step))]
    #[inline(always)]
    pub(crate) fn test_step(
        &mut self,
        alloc: Global,
        depth: u8,
        steps: &mut Items<Step>,
    ) -> Result<(), Error>
        ensures { Adds result steps.new self.new
            ((one_more (test_step (inside depth)) steps.old).reads self.old) }
    {
        if self.take(Sign::Not) {
            return self.tested(alloc, depth, Application::NegatedTest, steps);
        }
        self.tested(alloc, depth, Application::Test, steps)
    }

    /// The name of a test and its arguments, pushed on `steps`.
    #[cycle(expressions)]
    #[tactic(auto, unfolding(crate::specs::Grammar::tested))]
    #[inline(never)]
    fn tested(
        &mut self,
        alloc: Global,
        depth: u8,
        application: Application,
        steps: &mut Items<Step>,
    ) -> Result<(), Error>
        ensures { Adds result steps.new self.new
            ((one_more (tested (inside depth) application) steps.old).reads self.old) }
    {
        let name = self.test_name(alloc)?;
        let mut given = nothing_passed(alloc);
        self.passed_to_test(alloc, depth, &mut given)?;
        add_application(application, name, given, steps)
    }

    /// The arguments of a test: a name or a literal without brackets, or arguments in brackets.
    #[cycle(expressions)]
    #[tactic(auto, unfolding(crate::specs::Grammar::passed_to_test))]
    #[inline(always)]
    fn passed_to_test(&mut self, alloc: Global, depth: u8, given: &mut Passed) -> Result<(), Error>
        requires { given.old ≡ passed [] [] }
        ensures { Adds result given.new self.new ((passed_to_test (inside depth)).reads self.old) }
    {
        if let Some(argument) = self.take_bare(alloc)? {
            return add_argument(given, Argument::Plain(argument));
        }
        self.given(alloc, depth, given)
    }

    /// The arguments in brackets, if there are any.
    #[cycle(expressions)]
    #[tactic(auto, unfolding(crate::specs::Grammar::given))]
    #[inline(always)]
    fn given(&mut self, alloc: Global, depth: u8, given: &mut Passed) -> Result<(), Error>
        requires { given.old ≡ passed [] [] }
        ensures { Adds result given.new self.new ((grammar.given (inside depth)).reads self.old) }
    {
        if !self.take(Sign::OpenRound) {
            return Ok(());
        }
        self.in_brackets(alloc, depth, given)
    }

    /// The name of a test: a reserved word, or names separated by dots.
    #[tactic(auto, unfolding(crate::specs::Grammar::test_name))]
    #[inline(never)]
    fn test_name(&mut self, alloc: Global) -> Result<Name, Error>
        ensures { Parses result self.new (test_name.reads self.old) }
    {
        match self.take_test_word(alloc)? {
            Some(word) => Ok(word),
            None => self.dotted(alloc),
        }
    }

    /// Names separated by dots, as one name.
    #[tactic(auto, unfolding(crate::specs::Grammar::dotted))]
    #[inline(never)]
    fn dotted(&mut self, alloc: Global) -> Result<Name, Error>
        ensures { Parses result self.new (dotted.reads self.old) }
    {
        let name = self.expect_name()?;
        self.more_parts(alloc, name)
    }

    /// The other names, each after a dot.
    #[tactic(auto, using(crate::proofs::Loops::parts))]
    fn more_parts(&mut self, alloc: Global, first: Name) -> Result<Name, Error>
        ensures { Parses result self.new ((more_parts first).reads self.old) }
    {
        let mut name = SharedText::from_str(alloc, first.as_str())?;
        while self.take(Sign::Dot) {
            name = self.one_part(name)?;
        }
        Ok(Name::new(alloc, name.as_str())?)
    }

    /// A name after a dot, appended to the names before it.
    #[tactic(auto, unfolding(crate::specs::Grammar::one_part))]
    fn one_part(&mut self, before: SharedText) -> Result<SharedText, Error>
        ensures { Parses result self.new ((one_part before).reads self.old) }
    {
        let name = self.expect_name()?;
        joined(before, &name)
    }
}

/// Two names with a dot between them; the first is extended. OutOfMemory if memory runs out.
fn joined(before: SharedText, name: &Name) -> Result<SharedText, Error>
    ensures { MatchResult result
        (λ whole. whole ≡ before ++ codes "." ++ name.now)
        (λ e. e ≡ OutOfMemory ∷ []) }
{
    let mut whole = before;
    whole.append(".")?;
    whole.append(name.as_str())?;
    Ok(whole)
}

/// Pushes the application of a name to its arguments. OutOfMemory if memory runs out.
#[inline(never)]
pub fn add_application(
    application: Application,
    name: Name,
    given: Passed,
    steps: &mut Items<Step>,
) -> Result<(), Error>
    ensures { MatchResult result
        (λ done. steps.new ≡
        steps.old ++ Apply application name given.by_place given.by_name ∷ [])
        (λ e. e ≡ OutOfMemory ∷ []) }
{
    let (by_place, by_name) = given.into_parts();
    add_one(steps, Step::Apply(application, name, by_place, by_name))
}

/// Pushes the call of a value with its arguments. OutOfMemory if memory runs out.
#[inline(never)]
fn add_call(given: Passed, steps: &mut Items<Step>) -> Result<(), Error>
    ensures { MatchResult result
        (λ done. steps.new ≡ steps.old ++ Call given.by_place given.by_name ∷ [])
        (λ e. e ≡ OutOfMemory ∷ []) }
{
    let (by_place, by_name) = given.into_parts();
    add_one(steps, Step::Call(by_place, by_name))
}
