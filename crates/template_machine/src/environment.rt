//! The environment.
ghost use Rattle.std.specs.Prelude.{◌≡◌, ◌≢◌, ◌<◌, [], ◌∷◌, Some, None, codes, max, min, OnOk, OnErr, IfOk, IfErr};
ghost use Rattle.std.specs.Prelude.{MatchOption, MatchResult};
ghost use Rattle.tm_syntax.specs.Named.{find, put, without};
ghost use Rattle.tm_scopes.specs.Places.{AreOrdered};
ghost use Rattle.tm_objects.specs.Stated.{no_functions, with_filter, without_filter, with_test, without_test};
ghost use Rattle.tm_objects.specs.Stated.{with_escaping, with_fallback, with_formatter, with_joining};
ghost use Rattle.tm_templates.specs.Templates.{empty_template, Compiled, EachAccepted, IsRefused};
ghost use Rattle.tm_values.specs.Answer.{IsLent, OkOrOutOfMemory};
ghost use Rattle.tm_values.specs.Val.{function};
ghost use Rattle.std.specs.Prelude.{string_bytes};
ghost use Rattle.tm_templates.specs.Sources.{source_bytes};
ghost use Rattle.template_machine.specs.Environment.{IsTemplateOf, IsEntryOf, empty_environment};
ghost use Rattle.template_machine.specs.Environment.{new_environment, with_function, with_global, with_objects};
ghost use Rattle.template_machine.specs.Environment.{entries_of, greatest_limit};

use crate::entries::{Globals, TemplatesOf};
use crate::template::{TemplateOf, TemplateRef};
use std::alloc::Global;
use std::marker::Model;
use tm_compiler::SyntaxConfig;
use tm_syntax::{Name, NameMap};
use tm_tables::{
    Callable, EscapeRule, Formatter, MethodFallback, NO_PLACE, Objects, Parties, PathJoin,
    language_globals,
};
use tm_templates::{CompiledTemplate, EscapeSetting, GlobalMap, Source, Templates};
use tm_values::{Error, ErrorKind, UndefinedBehavior, Value, longest_text};

/// The greatest depth of scopes that can be set.
const GREATEST_LIMIT: usize = 500;

// The value limit of a new environment.
const FIRST_VALUE_LIMIT: usize = 1 << 26;

/// The name for states without a template.
const UNKNOWN: &str = "<unknown>";

/// Templates by name, the caller's objects, and the settings of renders.
pub struct EnvironmentOf<'source, O: Drop> {
    alloc: Global,
    templates: Templates<'source>,
    syntax: SyntaxConfig,
    objects: O,
    globals: GlobalMap,
    undefined: UndefinedBehavior,
    fuel: Option<u64>,
    limit: usize,
    value_limit: usize,
}

// Written by hand, so that the crates above need no proof of their own that all of it can be
// dropped.
impl<O: Drop> Drop for EnvironmentOf<'_, O> {
    fn drop(self) {
        let EnvironmentOf {
            alloc: _alloc,
            templates: _templates,
            syntax: _syntax,
            objects: _objects,
            globals: _globals,
            undefined: _undefined,
            fuel: _fuel,
            limit: _limit,
            value_limit: _value_limit,
        } = self;
    }
}

/// The objects of a program, each boxed.
pub type BoxedObjects = Objects<
    Box<dyn Callable>,
    Box<dyn MethodFallback>,
    Box<dyn Formatter>,
    EscapeSetting<Box<dyn EscapeRule>>,
    Box<dyn PathJoin>,
>;

/// The environment of a program, with boxed objects.
pub type Environment<'source> = EnvironmentOf<'source, BoxedObjects>;

impl<'source, O: Drop> Model for EnvironmentOf<'source, O> {
    ghost use Rattle.std.specs.Coded.{codes as coding};
    ghost use Rattle.tm_syntax.specs.contracts.tree.Expr as expression;
    ghost use Rattle.tm_syntax.specs.contracts.tree.Stmt as statement;
    ghost use Rattle.tm_values.specs.Code.{coded_Val};
    ghost use Rattle.template_machine.specs.Environment.{EnvironmentValue};

    ghost Value = { EnvironmentValue O };

    ghost coded = { Prim.hlevel (coding, coded_Val, expression.the_row.coded, statement.the_row.coded, O.code) };

    ghost view = { λ e. record {
      templates = e.templates;
      syntax = e.syntax;
      objects = e.objects;
      globals = e.globals;
      undefined = e.undefined;
      fuel = e.fuel;
      limit = e.limit;
      value_limit = e.value_limit;
    } };
}

impl<'source, O: Drop> EnvironmentOf<'source, O> {
    /// The template named `name`; TemplateNotFound if there is none.
    pub fn get_template(&self, name: &str) -> Result<TemplateOf<'_, 'source, O>, Error>
        ensures { MatchResult result (IsEntryOf self.now name.now)
            (λ e. (e ≡ ErrorKind.TemplateNotFound ∷ [])
            × (find name.now self.now.templates ≡ None)) }
    {
        match self.find_entry(NO_PLACE, name) {
            Some((_place, name, compiled)) => Ok(TemplateOf::new(
                self,
                TemplateRef::Lent(name, compiled),
            )),
            None => Err(Error::from(ErrorKind::TemplateNotFound)),
        }
    }

    /// Removes the template named `name`, if there is one.
    pub fn remove_template(&mut self, name: &str)
        ensures rest { self.new
            ≡ record self.old { templates = without name.now self.old.templates } }
        ensures absent { find name.now self.old.templates ≡ None → self.new ≡ self.old }
        ensures gone { find name.now self.new.templates ≡ None }
        ensures others { (x : _) → x ≢ name.now →
            find x self.new.templates ≡ find x self.old.templates }
    {
        self.templates.remove(name);
    }

    /// Removes all templates.
    pub fn clear_templates(&mut self)
        ensures { self.new ≡ record self.old { templates = [] } }
    {
        self.templates.clear();
    }

    /// The templates with their names, each once, in the order of the names. Allocates nothing.
    pub fn templates(&self) -> TemplatesOf<'_, 'source, O>
        ensures entries { result ≡ entries_of self.now }
        ensures order { AreOrdered self.now.templates }
    {
        self.templates.ascend();
        TemplatesOf::new(self)
    }

    /// Sets the fuel of each later render; None means `u64::MAX`.
    pub fn set_fuel(&mut self, fuel: Option<u64>)
        ensures { self.new ≡ record self.old { fuel = fuel } }
    {
        self.fuel = fuel;
    }

    /// The fuel that is set, if any.
    pub fn fuel(&self) -> Option<u64>
        ensures { result ≡ self.now.fuel }
    {
        self.fuel
    }

    /// Sets the greatest depth of scopes in each later render, at most 500.
    pub fn set_recursion_limit(&mut self, limit: usize)
        ensures { self.new ≡ record self.old { limit = min limit greatest_limit } }
    {
        self.limit = limit.min(GREATEST_LIMIT);
    }

    /// The greatest depth of scopes.
    pub fn recursion_limit(&self) -> usize
        ensures { result ≡ self.now.limit }
    {
        self.limit
    }

    /// Sets the size of the largest value that each later render may make; 0 counts as 1. A value
    /// has the size 1, the size of each part and 1, and for each 16 bytes of a text 1. What would be
    /// larger finds no memory: lists, maps and keyword arguments, modules, texts, captured texts,
    /// and what functions, filters, tests and methods answer. It bounds the time that an instruction
    /// takes, and the memory of each value that it makes. Values of the context and globals may be
    /// larger.
    pub fn set_value_limit(&mut self, limit: usize)
        ensures { self.new ≡ record self.old { value_limit = limit } }
    {
        self.value_limit = limit;
    }

    /// The size of the largest value that a render may make, as it was set; at first 2^26.
    pub fn value_limit(&self) -> usize
        ensures { result ≡ self.now.value_limit }
    {
        self.value_limit
    }

    /// The size of the largest value that a render may make, at least 1.
    #[inline(always)]
    pub(crate) fn largest_value(&self) -> usize
        ensures { result ≡ max self.now.value_limit 1 }
    {
        self.value_limit.max(1)
    }

    /// The length in bytes of the longest text that a render may capture.
    pub(crate) fn longest_text(&self) -> usize {
        longest_text(self.largest_value())
    }

    /// Sets how undefined values behave in each later render.
    pub fn set_undefined_behavior(&mut self, behavior: UndefinedBehavior)
        ensures { self.new ≡ record self.old { undefined = behavior } }
    {
        self.undefined = behavior;
    }

    /// How undefined values behave.
    pub fn undefined_behavior(&self) -> UndefinedBehavior
        ensures { result ≡ self.now.undefined }
    {
        self.undefined
    }

    /// Sets the delimiters for templates that are compiled from now on; compiled templates stay as
    /// they are.
    pub fn set_syntax(&mut self, syntax: SyntaxConfig)
        ensures { self.new ≡ record self.old { syntax = syntax } }
    {
        self.syntax = syntax;
    }

    /// The delimiters for templates that are compiled from now on.
    pub fn syntax(&self) -> &SyntaxConfig
        ensures { result.now ≡ self.now.syntax }
    {
        &self.syntax
    }

    /// Binds the global `name` to `value` and replaces an older binding, even that of a function.
    /// OutOfMemory if memory runs out; then nothing changes.
    pub fn add_global(&mut self, name: &str, value: Value) -> Result<(), Error>
        ensures ok { OnOk result (self.new ≡ with_global name.now value self.old) }
        ensures kind { IfErr result (λ e. e ≡ ErrorKind.OutOfMemory ∷ []) }
        ensures err { OnErr result (self.new ≡ self.old) }
    {
        let name = Name::new(self.alloc, name)?;
        self.globals.insert(name, value)
    }

    /// Removes the global `name`, if there is one, even that of a function; functions keep their
    /// numbers.
    pub fn remove_global(&mut self, name: &str)
        ensures rest { self.new ≡ record self.old { globals = without name.now self.old.globals } }
        ensures absent { find name.now self.old.globals ≡ None → self.new ≡ self.old }
        ensures gone { find name.now self.new.globals ≡ None }
        ensures others { (x : _) → x ≢ name.now →
            find x self.new.globals ≡ find x self.old.globals }
    {
        self.globals.remove(name);
    }

    /// The globals with their values, including functions, each once, in the order of the names.
    /// Allocates nothing.
    pub fn globals(&self) -> Globals<'_>
        ensures pairs { result ≡ self.now.globals }
        ensures order { AreOrdered self.now.globals }
    {
        self.globals.ascend();
        Globals::new(&self.globals)
    }

    /// The environment's allocator.
    pub(crate) fn allocator(&self) -> Global {
        self.alloc
    }

    /// The caller's objects.
    pub(crate) fn objects(&self) -> &O
        ensures { result.now ≡ self.now.objects }
    {
        &self.objects
    }

    /// The globals by name.
    pub(crate) fn global_values(&self) -> &NameMap<Value>
        ensures { result.now ≡ self.now.globals }
    {
        self.globals.values()
    }

    /// The template for states without one. Fails only with OutOfMemory.
    pub(crate) fn unknown(&self) -> Result<CompiledTemplate<'source>, Error>
        ensures { OkOrOutOfMemory result (λ t. t ≡ empty_template (codes "<unknown>")) }
    {
        CompiledTemplate::empty(self.alloc, UNKNOWN)
    }

    /// Proves that all streams of the templates are accepted; does nothing.
    pub(crate) fn accepted(&self)
        ensures { EachAccepted self.now.templates }
    {
        self.templates.accepted();
    }

    /// The templates by name.
    pub(crate) fn compiled_templates(&self) -> &Templates<'source>
        ensures { result.now ≡ self.now.templates }
    {
        &self.templates
    }

    /// The template named `name`, if there is one, with its place and the shared name; `place` is
    /// only a hint.
    #[inline(always)]
    pub(crate) fn find_entry(
        &self,
        place: usize,
        name: &str,
    ) -> Option<(usize, &Name, &CompiledTemplate<'source>)>
        ensures { MatchOption result (find name.now self.now.templates ≡ None)
            (λ found. (found.1.now ≡ name.now)
            × (find name.now self.now.templates ≡ Some found.2.now)) }
    {
        self.templates.entry(place, name)
    }

    /// The template named `name`, if there is one; `place` is only a hint.
    #[inline(always)]
    pub(crate) fn find_template(
        &self,
        place: usize,
        name: &str,
    ) -> Option<&CompiledTemplate<'source>>
        ensures { IsLent result (find name.now self.now.templates) }
    {
        self.templates.get(place, name)
    }
}

impl<'source, O: Parties> EnvironmentOf<'source, O> {
    /// Compiles `source` and adds it as the template `name`, which replaces an older one.
    /// SyntaxError if the source spells no template, OutOfMemory if memory runs out; then nothing
    /// changes.
    pub fn add_template(&mut self, name: &str, source: &'source str) -> Result<(), Error>
        ensures ok { OnOk result ((t : Compiled)
            × IsTemplateOf O.stated self.old name.now source.entry.now t
            × (self.new ≡ record self.old { templates = put name.now t self.old.templates })) }
        ensures refused { IfErr result (IsRefused self.old.syntax source.entry.now) }
        ensures err { OnErr result (self.new ≡ self.old) }
    {
        self.put_template(name, Source::Lent(source))
    }

    /// `add_template` for an owned source.
    pub fn add_template_owned(&mut self, name: &str, source: String) -> Result<(), Error>
        ensures ok { OnOk result ((t : Compiled)
            × IsTemplateOf O.stated self.old name.now (string_bytes source) t
            × (self.new ≡ record self.old { templates = put name.now t self.old.templates })) }
        ensures refused { IfErr result (IsRefused self.old.syntax (string_bytes source)) }
        ensures err { OnErr result (self.new ≡ self.old) }
    {
        let source = Source::owned(source)?;
        self.put_template(name, source)
    }

    /// Compiles `source` under `name`, with the escape that the environment chooses for it.
    pub(crate) fn compile(
        &self,
        name: &str,
        source: Source<'source>,
    ) -> Result<CompiledTemplate<'source>, Error>
        ensures compiled { IfOk result
            (IsTemplateOf O.stated self.now name.now (source_bytes source.entry)) }
        ensures refused { IfErr result (IsRefused self.now.syntax (source_bytes source.entry)) }
    {
        let escape = self.objects.escape(name);
        CompiledTemplate::with_escape(self.alloc, name, source, &self.syntax, escape)
    }

    /// Compiles `source` and adds it as the template `name`.
    fn put_template(&mut self, name: &str, source: Source<'source>) -> Result<(), Error>
        ensures ok { OnOk result ((t : Compiled)
            × IsTemplateOf O.stated self.old name.now (source_bytes source.entry) t
            × (self.new ≡ record self.old { templates = put name.now t self.old.templates })) }
        ensures refused { IfErr result (IsRefused self.old.syntax (source_bytes source.entry)) }
        ensures err { OnErr result (self.new ≡ self.old) }
    {
        let compiled = self.compile(name, source)?;
        let name = Name::new(self.alloc, name)?;
        self.templates.insert(name, compiled)
    }
}

impl<'source, C: Drop, M: Drop, F: Drop, R: Drop, J: Drop> EnvironmentOf<
    'source,
    Objects<C, M, F, EscapeSetting<R>, J>,
> {
    /// An environment with the usual settings: the escape depends on the template's name
    /// (`default_auto_escape_callback`), and the functions of the language are globals. Otherwise
    /// the same as `empty`. Fails only with OutOfMemory.
    pub fn new(
        alloc: Global,
    ) -> Result<EnvironmentOf<'source, Objects<C, M, F, EscapeSetting<R>, J>>, Error>
        ensures { OkOrOutOfMemory result (λ e. e ≡ new_environment) }
    {
        let globals = GlobalMap::of(alloc, language_globals(alloc)?)?;
        Ok(EnvironmentOf::with(
            alloc,
            Objects::of_language(alloc, EscapeSetting::ByName),
            globals,
        ))
    }

    /// An environment without templates, with the default delimiters, no escape, no functions,
    /// lenient undefined values, no fuel set, and scopes at most 500 deep.
    pub fn empty(alloc: Global) -> EnvironmentOf<'source, Objects<C, M, F, EscapeSetting<R>, J>>
        ensures { result ≡ empty_environment (no_functions EscapeSetting.Never) }
    {
        EnvironmentOf::with(
            alloc,
            Objects::new(alloc, EscapeSetting::Never),
            GlobalMap::new(alloc),
        )
    }

    /// The same with these objects and globals.
    fn with(
        alloc: Global,
        objects: Objects<C, M, F, EscapeSetting<R>, J>,
        globals: GlobalMap,
    ) -> EnvironmentOf<'source, Objects<C, M, F, EscapeSetting<R>, J>>
        ensures { result ≡ record (empty_environment objects) { globals = globals } }
    {
        EnvironmentOf {
            alloc,
            templates: Templates::new(alloc),
            syntax: SyntaxConfig::default(),
            objects,
            globals,
            undefined: UndefinedBehavior::Lenient,
            fuel: None,
            limit: GREATEST_LIMIT,
            value_limit: FIRST_VALUE_LIMIT,
        }
    }

    /// Adds a function: `object` gets the next number, and the global `name` is bound to the
    /// function of this number. OutOfMemory if memory runs out; then nothing changes.
    pub fn add_function(&mut self, name: &str, object: C) -> Result<(), Error>
        ensures ok { OnOk result (self.new ≡ with_function name.now object self.old) }
        ensures kind { IfErr result (λ e. e ≡ ErrorKind.OutOfMemory ∷ []) }
        ensures err { OnErr result (self.new ≡ self.old) }
    {
        let name = Name::new(self.alloc, name)?;
        let Some(number) = self.objects.next_number() else {
            return Err(Error::from(ErrorKind::OutOfMemory));
        };
        self.objects.add(object)?;
        if self.globals.insert(name, Value::function(number)).is_err() {
            let _refused = self.objects.pop();
            return Err(Error::from(ErrorKind::OutOfMemory));
        }
        Ok(())
    }

    /// Sets the filter `name` and replaces an older one. Templates call it as `a|name(b)`, with `a`
    /// as its first argument. OutOfMemory if memory runs out; then nothing changes.
    pub fn add_filter(&mut self, name: &str, object: C) -> Result<(), Error>
        ensures ok { OnOk result
            (self.new ≡ with_objects (with_filter name.now object self.old.objects) self.old) }
        ensures kind { IfErr result (λ e. e ≡ ErrorKind.OutOfMemory ∷ []) }
        ensures err { OnErr result (self.new ≡ self.old) }
    {
        let name = Name::new(self.alloc, name)?;
        self.objects.add_filter(name, object)
    }

    /// Removes the filter `name`, if there is one.
    pub fn remove_filter(&mut self, name: &str)
        ensures { self.new ≡ with_objects (without_filter name.now self.old.objects) self.old }
    {
        self.objects.remove_filter(name);
    }

    /// Sets the test `name` and replaces an older one. Templates call it as `a is name(b)`, with
    /// `a` as its first argument, and use the truth of its answer. OutOfMemory if memory runs out;
    /// then nothing changes.
    pub fn add_test(&mut self, name: &str, object: C) -> Result<(), Error>
        ensures ok { OnOk result
            (self.new ≡ with_objects (with_test name.now object self.old.objects) self.old) }
        ensures kind { IfErr result (λ e. e ≡ ErrorKind.OutOfMemory ∷ []) }
        ensures err { OnErr result (self.new ≡ self.old) }
    {
        let name = Name::new(self.alloc, name)?;
        self.objects.add_test(name, object)
    }

    /// Removes the test `name`, if there is one.
    pub fn remove_test(&mut self, name: &str)
        ensures { self.new ≡ with_objects (without_test name.now self.old.objects) self.old }
    {
        self.objects.remove_test(name);
    }

    /// Sets the object that answers for methods that a value lacks, and replaces an older one.
    /// Without one, calling such a method fails with UnknownMethod.
    pub fn set_unknown_method_callback(&mut self, object: M)
        ensures { self.new ≡ with_objects (with_fallback object self.old.objects) self.old }
    {
        self.objects.set_fallback(object);
    }

    /// Sets the formatter, which turns emitted values into text, and replaces an older one. Without
    /// one, the escape decides (`escape_formatter`).
    pub fn set_formatter(&mut self, formatter: F)
        ensures { self.new ≡ with_objects (with_formatter formatter self.old.objects) self.old }
    {
        self.objects.set_formatter(formatter);
    }

    /// Sets the rule that chooses the escape by a template's name. It applies to templates that are
    /// compiled from now on; compiled templates stay as they are.
    pub fn set_auto_escape_callback(&mut self, rule: R)
        ensures { self.new ≡ with_objects
            (with_escaping (EscapeSetting.Own rule) self.old.objects) self.old }
    {
        self.objects.set_escaping(EscapeSetting::Own(rule));
    }

    /// Sets the object that joins template names, and replaces an older one: it tells which
    /// template a name means in the running template. Without one, a name means the template of
    /// that name.
    pub fn set_path_join_callback(&mut self, object: J)
        ensures { self.new ≡ with_objects (with_joining object self.old.objects) self.old }
    {
        self.objects.set_joining(object);
    }
}
