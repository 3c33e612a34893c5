//! The functions, filters and tests that templates call, the method object and the formatter.
ghost use Rattle.std.specs.Prelude.{◌≡◌, ◌<◌, ◌≤◌, ◌^◌, [], ◌∷◌, List, None, OnOk, OnErr, IfErr, IfNone, IfSome};
ghost use Rattle.std.specs.Prelude.{IsSomeAnd, MatchOption, Ok, Some, false, is_some, length, map, slice_get};
ghost use Rattle.tm_syntax.specs.Named.{find};
ghost use Rattle.tm_values.specs.Answer.{IsAnswer, IsLent};
ghost use Rattle.tm_objects.specs.Stated.{IsCalled, IsNamedAnswer, no_functions, no_objects, language_functions, with_object};
ghost use Rattle.tm_objects.specs.Stated.{next_number, callables, named_objects, StatedObjects};
ghost use Rattle.tm_objects.specs.Stated.{with_filter, without_filter, with_test, without_test, with_fallback};
ghost use Rattle.tm_objects.specs.Stated.{IsFormatterAnswer, with_escaping, with_formatter, with_joining};
ghost use Rattle.tm_meaning.specs.Calls.{method_object};

use crate::callable::{Callable, CallableAnswer, Called};
use crate::escape_rule::EscapeRule;
use crate::fallback::MethodFallback;
use crate::formatter::Formatter;
use crate::language::{LANGUAGE, language_function};
use crate::path_join::PathJoin;
use crate::view::View;
use std::alloc::Global;
use std::marker::Model;
use tm_scopes::{NO_PLACE, NameTable};
use tm_syntax::Name;
use tm_values::{AutoEscape, Error, ErrorKind, Value};

/// All the caller's objects of an environment.
pub trait Parties: Drop {
    ghost stated: { Self → StatedObjects };

    /// The answer of the function `number`, or which function of the language it is; None if there
    /// is no such function.
    fn call_function(
        &self,
        alloc: Global,
        number: usize,
        args: &[Value],
        view: &View<'_>,
    ) -> Option<Called>
        ensures { MatchOption (slice_get (stated self.now).functions number) (result ≡ None)
            (λ f. IsSomeAnd result (λ called. IsCalled called f args.now view.now)) };

    /// The place of the filter `name`, as a hint for `apply_filter`; NO_PLACE if there is no such
    /// filter.
    fn filter_place(&self, name: &str) -> usize;

    /// The answer of the filter `name`; None if there is no such filter. `place` is only a hint.
    fn apply_filter(
        &self,
        alloc: Global,
        name: &str,
        place: usize,
        args: &[Value],
        view: &View<'_>,
    ) -> Option<CallableAnswer>
        ensures { IsNamedAnswer result (find name.now (stated self.now).filters)
            args.now view.now };

    /// The place of the test `name`, as a hint for `perform_test`; NO_PLACE if there is no such
    /// test.
    fn test_place(&self, name: &str) -> usize;

    /// The answer of the test `name`; None if there is no such test. `place` is only a hint.
    fn perform_test(
        &self,
        alloc: Global,
        name: &str,
        place: usize,
        args: &[Value],
        view: &View<'_>,
    ) -> Option<CallableAnswer>
        ensures { IsNamedAnswer result (find name.now (stated self.now).tests)
            args.now view.now };

    /// The method object's answer for the method `name` of `value`; None if there is no method
    /// object.
    fn call_unknown_method(
        &self,
        alloc: Global,
        value: &Value,
        name: &str,
        args: &[Value],
        view: &View<'_>,
    ) -> Option<CallableAnswer>
        ensures { IsNamedAnswer result
            (method_object (stated self.now).unknown_method value.now name.now) args.now view.now };

    /// Whether there is a formatter.
    fn has_formatter(&self) -> bool
        ensures { result ≡ is_some (stated self.now).formatter };

    /// The formatter's answer for `value`; None if there is no formatter.
    fn format(&self, alloc: Global, value: &Value, view: &View<'_>) -> Option<Result<String, Error>>
        ensures { IsFormatterAnswer result (stated self.now).formatter value.now view.now };

    /// The escape of the template `name`.
    fn escape(&self, name: &str) -> AutoEscape
        ensures { result ≡ (stated self.now).escapes name.now };

    /// Whether an object joins template names. Without one, each name means the template of that
    /// name.
    fn joins_names(&self) -> bool
        ensures { result ≡ false → (name : _) → (parent : _) →
            (stated self.now).join name parent ≡ Ok name };

    /// The name of the template that `name` means in the template named `parent`. Fails with the
    /// fault of the object that joins names, or with OutOfMemory.
    fn join(&self, alloc: Global, name: &str, parent: &str) -> Result<Name, Error>
        ensures { IsAnswer result ((stated self.now).join name.now parent.now) };
}

/// The objects of an environment: the functions by number, from 0, first the language's, if it has
/// them, and then the caller's; the caller's filters and tests by name; the method object, the
/// formatter and the object that joins names, if set; and the rule that chooses escapes.
pub struct Objects<C: Drop, M: Drop, F: Drop, R: Drop, J: Drop> {
    language: bool,
    functions: Vec<C>,
    filters: NameTable<C>,
    tests: NameTable<C>,
    fallback: Option<M>,
    formatter: Option<F>,
    escaping: R,
    joining: Option<J>,
}

// Written by hand: one drop call per owner instead of dropping each part.
impl<C: Drop, M: Drop, F: Drop, R: Drop, J: Drop> Drop for Objects<C, M, F, R, J> {
    fn drop(self) {
        let Objects {
            language: _language,
            functions: _functions,
            filters: _filters,
            tests: _tests,
            fallback: _fallback,
            formatter: _formatter,
            escaping: _escaping,
            joining: _joining,
        } = self;
    }
}

impl<C: Drop, M: Drop, F: Drop, R: Drop, J: Drop> Model for Objects<C, M, F, R, J> {
    ghost use Rattle.std.specs.Coded.{codes};
    ghost use Rattle.tm_objects.specs.Stated.{Table};

    ghost Value = { Table C M F R J };

    ghost coded = { Prim.hlevel (codes, C.code, M.code, F.code, R.code, J.code) };

    ghost view = { λ o. record {
      language = o.language;
      objects = o.functions.items;
      filters = o.filters;
      tests = o.tests;
      fallback = o.fallback;
      formatter = o.formatter;
      escaping = o.escaping;
      joining = o.joining;
    } };
}

impl<C: Drop, M: Drop, F: Drop, R: Drop, J: Drop> Objects<C, M, F, R, J> {
    /// No objects but the rule that chooses escapes.
    pub fn new(alloc: Global, escaping: R) -> Objects<C, M, F, R, J>
        ensures { result ≡ no_functions escaping }
    {
        Objects::with(alloc, false, escaping)
    }

    /// The language's functions, by their numbers, and the rule that chooses escapes.
    pub fn of_language(alloc: Global, escaping: R) -> Objects<C, M, F, R, J>
        ensures { result ≡ language_functions escaping }
    {
        Objects::with(alloc, true, escaping)
    }

    /// No objects of the caller; the language's functions if `language` is true.
    fn with(alloc: Global, language: bool, escaping: R) -> Objects<C, M, F, R, J>
        ensures { result ≡ no_objects language escaping }
    {
        Objects {
            language,
            functions: Vec::new(alloc),
            filters: NameTable::new(alloc),
            tests: NameTable::new(alloc),
            fallback: None,
            formatter: None,
            escaping,
            joining: None,
        }
    }

    /// The number of the next object that is added; None if it overflows.
    pub fn next_number(&self) -> Option<usize>
        ensures some { IfSome result (λ number. number ≡ next_number self.now) }
        ensures none { IfNone result (2 ^ 64 ≤ next_number self.now) }
    {
        let before = if self.language { LANGUAGE.len() } else { 0 };
        self.functions.len().checked_add(before)
    }

    /// Adds a function under the next number. OutOfMemory if memory runs out; then nothing changes.
    pub fn add(&mut self, object: C) -> Result<(), Error>
        ensures ok { OnOk result (self.new ≡ with_object object self.old) }
        ensures kind { IfErr result (λ e. e ≡ ErrorKind.OutOfMemory ∷ []) }
        ensures err { OnErr result (self.new ≡ self.old) }
    {
        self.functions.push(object)?;
        Ok(())
    }

    /// Removes and returns the function that was added last.
    pub fn pop(&mut self) -> Option<C>
        ensures { MatchOption result ((self.old.objects ≡ []) × (self.new ≡ self.old))
            (λ object. self.old ≡ with_object object self.new) }
    {
        self.functions.pop()
    }

    /// Sets the filter `name` and replaces an older one. OutOfMemory if memory runs out; then
    /// nothing changes.
    pub fn add_filter(&mut self, name: Name, filter: C) -> Result<(), Error>
        ensures ok { OnOk result (self.new ≡ with_filter name filter self.old) }
        ensures kind { IfErr result (λ e. e ≡ ErrorKind.OutOfMemory ∷ []) }
        ensures err { OnErr result (self.new ≡ self.old) }
    {
        self.filters.insert(name, filter)?;
        Ok(())
    }

    /// Removes the filter `name`, if there is one.
    pub fn remove_filter(&mut self, name: &str)
        ensures { self.new ≡ without_filter name.now self.old }
    {
        let _removed = self.filters.remove(name);
    }

    /// Sets the test `name` and replaces an older one. OutOfMemory if memory runs out; then nothing
    /// changes.
    pub fn add_test(&mut self, name: Name, test: C) -> Result<(), Error>
        ensures ok { OnOk result (self.new ≡ with_test name test self.old) }
        ensures kind { IfErr result (λ e. e ≡ ErrorKind.OutOfMemory ∷ []) }
        ensures err { OnErr result (self.new ≡ self.old) }
    {
        self.tests.insert(name, test)?;
        Ok(())
    }

    /// Removes the test `name`, if there is one.
    pub fn remove_test(&mut self, name: &str)
        ensures { self.new ≡ without_test name.now self.old }
    {
        let _removed = self.tests.remove(name);
    }

    /// Sets the method object.
    pub fn set_fallback(&mut self, fallback: M)
        ensures { self.new ≡ with_fallback fallback self.old }
    {
        self.fallback = Some(fallback);
    }

    /// Sets the formatter.
    pub fn set_formatter(&mut self, formatter: F)
        ensures { self.new ≡ with_formatter formatter self.old }
    {
        self.formatter = Some(formatter);
    }

    /// Sets the rule that chooses escapes.
    pub fn set_escaping(&mut self, escaping: R)
        ensures { self.new ≡ with_escaping escaping self.old }
    {
        self.escaping = escaping;
    }

    /// Sets the object that joins template names.
    pub fn set_joining(&mut self, joining: J)
        ensures { self.new ≡ with_joining joining self.old }
    {
        self.joining = Some(joining);
    }

    /// The caller's function at index `number`, if there is one; the language's functions don't
    /// count.
    fn object(&self, number: usize) -> Option<&C>
        ensures { IsLent result (slice_get self.now.objects number) }
    {
        self.functions.get(number)
    }
}

impl<C: Callable, M: Drop, F: Drop, R: Drop, J: Drop> Objects<C, M, F, R, J> {
    /// The answer of the caller's function at index `place`; None if there is none.
    fn answer(&self, alloc: Global, place: usize, args: &[Value], view: &View<'_>) -> Option<Called>
        ensures { MatchOption (slice_get (callables C.answers self.now.objects) place)
            (result ≡ None)
            (λ f. IsSomeAnd result (λ called. IsCalled called f args.now view.now)) }
    {
        match self.object(place) {
            Some(object) => Some(Called::Answered(object.call(alloc, args, view))),
            None => None,
        }
    }
}

/// The answer of the object named `name`; None if there is no such object. `place` is only a hint.
#[inline(always)]
#[tactic(auto, using(crate::proofs::NamedObjects::stated))]
fn named_answer<C: Callable>(
    objects: &NameTable<C>,
    alloc: Global,
    name: &str,
    place: usize,
    args: &[Value],
    view: &View<'_>,
) -> Option<CallableAnswer>
    ensures { IsNamedAnswer result (find name.now (named_objects C.answers objects.now))
        args.now view.now }
{
    match objects.get_at(place, name) {
        Some(object) => Some(object.call(alloc, args, view)),
        None => None,
    }
}

impl<C: Callable, M: MethodFallback, F: Formatter, R: EscapeRule, J: PathJoin> Parties
    for Objects<C, M, F, R, J> {
    ghost use Rattle.tm_objects.specs.Stated.{stated_of};

    ghost stated = { stated_of C.answers M.answers F.formats R.escapes J.joins };

    #[tactic(auto, using(crate::proofs::Numbers::after, crate::proofs::Numbers::before))]
    fn call_function(
        &self,
        alloc: Global,
        number: usize,
        args: &[Value],
        view: &View<'_>,
    ) -> Option<Called> {
        if !self.language {
            return self.answer(alloc, number, args, view);
        }
        match number.checked_sub(LANGUAGE.len()) {
            Some(place) => self.answer(alloc, place, args, view),
            None => Some(Called::Language(language_function(number))),
        }
    }

    fn filter_place(&self, name: &str) -> usize {
        self.filters.place(name).unwrap_or(NO_PLACE)
    }

    fn test_place(&self, name: &str) -> usize {
        self.tests.place(name).unwrap_or(NO_PLACE)
    }

    fn apply_filter(
        &self,
        alloc: Global,
        name: &str,
        place: usize,
        args: &[Value],
        view: &View<'_>,
    ) -> Option<CallableAnswer> {
        named_answer(&self.filters, alloc, name, place, args, view)
    }

    fn perform_test(
        &self,
        alloc: Global,
        name: &str,
        place: usize,
        args: &[Value],
        view: &View<'_>,
    ) -> Option<CallableAnswer> {
        named_answer(&self.tests, alloc, name, place, args, view)
    }

    fn call_unknown_method(
        &self,
        alloc: Global,
        value: &Value,
        name: &str,
        args: &[Value],
        view: &View<'_>,
    ) -> Option<CallableAnswer> {
        match &self.fallback {
            Some(fallback) => Some(fallback.call(alloc, value, name, args, view)),
            None => None,
        }
    }

    #[inline(always)]
    fn has_formatter(&self) -> bool {
        self.formatter.is_some()
    }

    fn format(
        &self,
        alloc: Global,
        value: &Value,
        view: &View<'_>,
    ) -> Option<Result<String, Error>> {
        match &self.formatter {
            Some(formatter) => Some(formatter.format(alloc, value, view)),
            None => None,
        }
    }

    fn escape(&self, name: &str) -> AutoEscape {
        self.escaping.escape(name)
    }

    fn joins_names(&self) -> bool {
        self.joining.is_some()
    }

    fn join(&self, alloc: Global, name: &str, parent: &str) -> Result<Name, Error> {
        match &self.joining {
            Some(joining) => joining.join(alloc, name, parent),
            None => Ok(Name::new(alloc, name)?),
        }
    }
}
