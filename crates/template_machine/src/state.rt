//! States, and the results of renders.
ghost use Rattle.std.specs.Fn.{FnOnceReturnsAtMut};
ghost use Rattle.std.specs.List.Sorted.{IsStrictlySortedBy};
ghost use Rattle.std.specs.Prelude.{◌≡◌, ◌+◌, [], ◌∷◌, Some, IfErr, IfOk, IfSome, Ok, OnErr, OnOk, false, length, string_bytes, true};
ghost use Rattle.tm_syntax.specs.Named.{find, name_cmp, texts_of};
ghost use Rattle.tm_values.specs.Answer.{IsAnswer, IsLent, OkOrOutOfMemory};
ghost use Rattle.tm_meaning.specs.World.{emitted, find_name, fuel_levels, name_of, records_of, view_of};
ghost use Rattle.tm_scopes.specs.Known.{AreFound, NamingFails};
ghost use Rattle.tm_meaning.specs.Calls.{refused};
ghost use Rattle.tm_meaning.specs.Memory.{is_want_of_memory};
ghost use Rattle.tm_state.specs.Answers.{Becomes, CallDeeper, CallLies, IsEmitted, KeepsFixed, NeedsRun, StaysInPlace};
ghost use Rattle.tm_state.specs.State.{callee_of, exported};
ghost use Rattle.template_machine.specs.Environment.{IsOfTrees, host_of, named_template};
ghost use Rattle.template_machine.specs.Renders.{as_text, block_meaning, called_value, callee_run, with_temp, with_world};
ghost use Rattle.template_machine.specs.Renders.{block_asked, filter_asked, name_asked, test_asked};
ghost use Rattle.template_machine.specs.Renders.{BlockRan, BlockStreamed, BlockText, CalleeRan, IsStarted, RunCaptured};
ghost use Rattle.template_machine.specs.Renders.{SoundRecords, StreamCalled};
ghost use Rattle.tm_safety.specs.Runs.{stream_of};
ghost use Rattle.template_machine.specs.Renders.{KeepsLists, SameLists, runs_a_block};
ghost use Rattle.tm_values.specs.Val.{macro};
ghost use Rattle.tm_state.specs.State.{saved_scopes};
ghost use Rattle.tm_records.specs.declared.saved.Saved.TheVariants as saved;
ghost use Rattle.template_machine.specs.Renders.{BlockWritten, IsMacroCall, IsCapturedRun, IsEntered, IsFresh, IsTested, Ran, RanApart};
ghost use Rattle.tm_meaning.specs.Machine.{new_capture};
ghost use Rattle.tm_vm.specs.Answers.{NoFewer};

use crate::cuts::{faulted, halted};
use crate::environment::{BoxedObjects, EnvironmentOf};
use crate::rendering::Rendering;
use crate::template::TemplateOf;
use std::marker::Model;
use tm_parts::{Captures, Halt, NullWriter, Sink};
use tm_printing::to_text;
use tm_state::{CallResult, NestedRun, RunOf, Saved, SavedBlock, StateData};
use tm_syntax::{CaptureMode, Name};
use tm_tables::{Host, NO_PLACE, Parties};
use tm_values::{AutoEscape, Error, ErrorKind, UndefinedBehavior, Value};
use tm_vm::{Machine, run_value};

/// The state of a render. A contract sees the rendered template and a world of the definitions. The
/// loops with a record belong to the state's streams, so that each of its runs can call them.
pub struct StateOf<'env, O: Drop> {
    rendering: Rendering<'env, O>,
    kept: StateData,
}

// Written by hand, like the environment's.
impl<O: Drop> Drop for StateOf<'_, O> {
    fn drop(self) {
        let StateOf {
            rendering: _rendering,
            kept: _kept,
        } = self;
    }
}

/// The state of a program's render.
pub type State<'env> = StateOf<'env, BoxedObjects>;

impl<'env, O: Drop> Model for StateOf<'env, O> {
    ghost use Rattle.std.specs.Coded.{codes};
    ghost use Rattle.tm_syntax.specs.contracts.tree.Expr as expression;
    ghost use Rattle.tm_syntax.specs.contracts.tree.Stmt as statement;
    ghost use Rattle.tm_values.specs.Code.{coded_Val};
    ghost use Rattle.template_machine.specs.Renders.{StateValue};

    ghost Value = { StateValue O };

    ghost coded = { Prim.hlevel (codes, coded_Val, expression.the_row.coded, statement.the_row.coded, O.code) };

    ghost view = { λ s. record { template = s.rendering; world = s.kept } };

    ghost use Rattle.template_machine.specs.Renders.{SoundRecords};

    ghost invariant = { λ s. SoundRecords s.rendering s.kept };
}

impl<'env, O: Drop> StateOf<'env, O> {
    /// A state of a rendering.
    pub(crate) fn new(rendering: Rendering<'env, O>, kept: StateData) -> StateOf<'env, O>
        requires { SoundRecords rendering kept }
        ensures { result ≡ record { template = rendering.entry; world = kept } }
    {
        StateOf { rendering, kept }
    }

    /// The state's environment.
    pub fn env(&self) -> &'env EnvironmentOf<'env, O>
        ensures { result.now ≡ self.now.template.environment }
    {
        self.rendering.environment()
    }

    /// How undefined values behave.
    pub fn undefined_behavior(&self) -> UndefinedBehavior
        ensures { result ≡ self.now.template.environment.undefined }
    {
        self.env().undefined_behavior()
    }

    /// The fuel consumed and the fuel left, whose sum is the fuel that was set; None if no fuel was
    /// set.
    pub fn fuel_levels(&self) -> Option<(u64, u64)>
        ensures levels { result ≡ fuel_levels self.now.world }
        ensures sum { IfSome result (λ p. Some (p.0 + p.1) ≡ self.now.world.fuel_set) }
    {
        self.kept.fuel_levels()
    }

    /// The value that is kept under `name`, if any.
    pub fn get_temp(&self, name: &str) -> Option<&Value>
        ensures { IsLent result (find name.now self.now.world.temps) }
    {
        self.kept.get_temp(name)
    }

    /// Keeps `value` under `name` and returns the value that was kept there. OutOfMemory if memory
    /// runs out; then nothing changes.
    pub fn set_temp(&mut self, name: &str, value: Value) -> Result<Option<Value>, Error>
        ensures before { IfOk result (λ before. before ≡ find name.now self.old.world.temps) }
        ensures ok { OnOk result (self.new ≡ with_temp name.now value self.old) }
        ensures kind { IfErr result (λ e. e ≡ ErrorKind.OutOfMemory ∷ []) }
        ensures err { OnErr result (self.new ≡ self.old) }
    {
        let name = Name::new(self.rendering.allocator(), name)?;
        self.kept.set_temp(name, value)
    }

    /// How output is escaped.
    pub fn auto_escape(&self) -> AutoEscape
        ensures { result ≡ self.now.world.escape }
    {
        self.kept.escape()
    }

    /// The names that the outermost scope exports, in order: its own names that don't begin with
    /// `_`. Fails only with OutOfMemory.
    pub fn exports(&self) -> Result<Vec<&str>, Error>
        ensures { OkOrOutOfMemory result
            (λ names. texts_of names.items ≡ exported self.now.world) }
    {
        self.kept.exports(self.rendering.allocator())
    }
}

impl<'env, O: Parties> StateOf<'env, O> {
    /// The name of the running template.
    pub fn name(&self) -> &str
        ensures { result.now ≡ name_of (host_of O.stated self.now.template) self.now.world }
    {
        self.rendering
            .template_name(&self.kept.stream().template, self.kept.template_place())
    }

    /// The environment's template that `name`, joined with the running template's name, means. The
    /// fault of the object that joins names; TemplateNotFound if there is no such template;
    /// OutOfMemory.
    pub fn get_template(&self, name: &str) -> Result<TemplateOf<'env, 'env, O>, Error>
        ensures { IsAnswer result
            (named_template O.stated self.now.template name.now self.now.world) }
    {
        let alloc = self.rendering.allocator();
        let joined = self.rendering.objects().join(alloc, name, self.name())?;
        self.rendering.environment().get_template(joined.as_str())
    }

    /// The value that `name` is bound to: in the scopes, innermost first, else among the globals.
    /// InvalidOperation if the search meets a scope over a namespace without a record; OutOfMemory.
    pub fn lookup(&self, name: &str) -> Result<Option<Value>, Error>
        ensures { IsAnswer result (find_name
            (view_of (host_of O.stated self.now.template) self.now.world) name.now) }
    {
        let hashed = Name::new(self.rendering.allocator(), name)?;
        self.kept.lookup(&self.rendering, &hashed)
    }

    /// Calls the filter `name`, looked up as written, with `args`; the first of these is the
    /// filtered value. The values that it keeps are kept even if it answers a fault. UnknownFilter
    /// if there is no such filter, InvalidOperation for a further call beyond the recursion limit,
    /// and the fault of the call; OutOfMemory. However it ends, the state's scopes, stream, block
    /// and escape are as before.
    pub fn apply_filter(&mut self, name: &str, args: &[Value]) -> Result<Value, Error>
        ensures called { IsOfTrees self.old.template → IsMacroCall result
            (called_value O.stated self.old.template
            (filter_asked O.stated self.old name.now args.now)) self.new.world }
        ensures streams { StreamCalled O.stated self.old.template
            (filter_asked O.stated self.old name.now args.now) result
            (λ m. IsMacroCall result m self.new.world) }
        ensures template { self.new.template ≡ self.old.template }
        ensures stays { StaysInPlace self.old.world self.new.world }
        ensures kept { KeepsFixed self.old.world self.new.world }
        ensures lists { runs_a_block (filter_asked O.stated self.old name.now args.now) ≡ false →
            SameLists self.old.world self.new.world }
    {
        let alloc = self.rendering.allocator();
        let called = match self
            .kept
            .apply_filter(alloc, &self.rendering, name, NO_PLACE, args)
        {
            Ok(called) => called,
            Err(error) => return Err(faulted(&mut self.kept, error)),
        };
        self.value_of(called)
    }

    /// Calls the test `name`, looked up as written, with `args`, and returns whether its answer is
    /// true; the first argument is the tested value. The values that it keeps are kept even if it
    /// answers a fault. UnknownTest if there is no such test, InvalidOperation for a further call
    /// beyond the recursion limit, and the fault of the call; OutOfMemory. However it ends, the
    /// state's scopes, stream, block and escape are as before.
    pub fn perform_test(&mut self, name: &str, args: &[Value]) -> Result<bool, Error>
        ensures called { IsOfTrees self.old.template → IsTested result
            (called_value O.stated self.old.template
            (test_asked O.stated self.old name.now args.now)) self.new.world }
        ensures streams { StreamCalled O.stated self.old.template
            (test_asked O.stated self.old name.now args.now) result
            (λ m. IsTested result m self.new.world) }
        ensures template { self.new.template ≡ self.old.template }
        ensures stays { StaysInPlace self.old.world self.new.world }
        ensures kept { KeepsFixed self.old.world self.new.world }
        ensures lists { runs_a_block (test_asked O.stated self.old name.now args.now) ≡ false →
            SameLists self.old.world self.new.world }
    {
        let alloc = self.rendering.allocator();
        let called = match self
            .kept
            .perform_test(alloc, &self.rendering, name, NO_PLACE, args)
        {
            Ok(called) => called,
            Err(error) => return Err(faulted(&mut self.kept, error)),
        };
        let value = self.value_of(called)?;
        Ok(value.is_true())
    }

    /// Calls the macro or function that `name`, looked up as written, is bound to, and returns the
    /// text of the result. For example, `m` is bound to a macro after `{% macro m() %}`.
    /// UnknownFunction if the name isn't bound; InvalidOperation if its value can't be called, if a
    /// macro belongs to another state or would run too deep, or if the result can't be printed; and
    /// the fault of the call; OutOfMemory. However it ends, the state's scopes, stream, block and
    /// escape are as before, and values that the call kept stay kept.
    #[tactic(auto, using(crate::proofs::CallLists::macro_runs_none))]
    pub fn call_macro(&mut self, name: &str, args: &[Value]) -> Result<String, Error>
        ensures called { IsOfTrees self.old.template → IsEmitted result
            (as_text (called_value O.stated self.old.template
            (name_asked O.stated self.old name.now args.now))) self.new.world }
        ensures streams { StreamCalled O.stated self.old.template
            (name_asked O.stated self.old name.now args.now) result
            (λ m. IsEmitted result (as_text m) self.new.world) }
        ensures template { self.new.template ≡ self.old.template }
        ensures stays { StaysInPlace self.old.world self.new.world }
        ensures kept { KeepsFixed self.old.world self.new.world }
        ensures lists { runs_a_block (name_asked O.stated self.old name.now args.now) ≡ false →
            SameLists self.old.world self.new.world }
        ensures of_macro { (m : _) → find_name (view_of (host_of O.stated self.old.template)
            self.old.world) name.now ≡ Ok (Some (macro m)) →
            SameLists self.old.world self.new.world }
    {
        let alloc = self.rendering.allocator();
        let hashed = Name::new(alloc, name)?;
        let called = match self.kept.call_named(alloc, &self.rendering, &hashed, args) {
            Ok(called) => called,
            Err(error) => return Err(faulted(&mut self.kept, error)),
        };
        let value = self.value_of(called)?;
        to_text(alloc, &value, &self.kept)
    }

    /// Renders the block `name` from the present state, in a scope of its own. UnknownBlock if
    /// there is no such block, InvalidOperation if it is required and not overridden, or if its
    /// scope would exceed the depth limit, and the fault of its run; OutOfMemory. However it ends,
    /// the state's scopes, stream, block and escape are as before, and values that the run kept
    /// stay kept.
    pub fn render_block(&mut self, name: &str) -> Result<String, Error>
        ensures called { IsOfTrees self.old.template → IsCapturedRun result
            (block_meaning O.stated self.old.template name.now self.old.world) self.new.world }
        ensures streams { BlockText O.stated self.old name.now result self.new.world }
        ensures template { self.new.template ≡ self.old.template }
        ensures stays { StaysInPlace self.old.world self.new.world }
        ensures kept { KeepsFixed self.old.world self.new.world }
    {
        let alloc = self.rendering.allocator();
        let mut captures = Captures::new(alloc);
        captures.begin(alloc, CaptureMode::Capture)?;
        captures.limit_texts(self.rendering.environment().longest_text());
        let mut captures = self.run_block(name, captures, &mut NullWriter)?;
        match captures.end() {
            Some((_mode, text)) => Ok(text),
            None => unreachable!(),
        }
    }

    /// Renders the block `name` into `writer`, as `render_block` does. Also WriteFailure if the
    /// writer fails or accepts no bytes. After an error the writer has a prefix of the text.
    pub fn render_block_to_write<W: Sink>(
        &mut self,
        name: &str,
        writer: &mut W,
    ) -> Result<(), Error>
        ensures rendered { IsOfTrees self.old.template → BlockWritten
            (block_meaning O.stated self.old.template name.now self.old.world) result self.new.world
            (W.told writer.old) (W.told writer.new) }
        ensures streams { BlockStreamed O.stated self.old name.now result self.new.world
            (W.told writer.old) (W.told writer.new) }
        ensures template { self.new.template ≡ self.old.template }
        ensures stays { StaysInPlace self.old.world self.new.world }
        ensures kept { KeepsFixed self.old.world self.new.world }
    {
        let most = self.rendering.environment().longest_text();
        let captures = Captures::within(self.rendering.allocator(), most);
        let _captures = self.run_block(name, captures, writer)?;
        Ok(())
    }

    /// Runs the block `name` with these captures and this writer, restores what the run replaced,
    /// and returns the remaining captures.
    fn run_block<W: Sink>(
        &mut self,
        name: &str,
        captures: Captures,
        writer: &mut W,
    ) -> Result<Captures, Halt>
        requires { IsFresh captures }
        ensures ran { IsOfTrees self.old.template →
            Ran (block_meaning O.stated self.old.template name.now self.old.world)
            result self.new.world captures
            (W.told writer.old) (W.told writer.new) }
        ensures streams { BlockRan O.stated self.old name.now result self.new.world captures
            (W.told writer.old) (W.told writer.new) }
        ensures closed { IfOk result (λ new. length new ≡ length captures) }
        ensures template { self.new.template ≡ self.old.template }
        ensures stays { StaysInPlace self.old.world self.new.world }
        ensures kept { KeepsFixed self.old.world self.new.world }
    {
        let saved = self.enter_block(name)?;
        let result = self.rendering.run(&mut self.kept, captures, writer);
        self.kept.put_back(&mut Saved::Block(saved));
        result
    }

    /// Enters the block `name` and returns what is restored after it. Errors as in `render_block`
    /// before the block runs.
    fn enter_block(&mut self, name: &str) -> Result<SavedBlock, Error>
        ensures ok { IfOk result (λ saved. IsEntered (block_asked O.stated self.old name.now)
            saved self.old.world self.new.world) }
        ensures err { IfErr result (λ e. is_want_of_memory e ≡ false →
            block_asked O.stated self.old name.now ≡ refused e self.old.world) }
        ensures unchanged { OnErr result (self.new ≡ self.old) }
        ensures template { self.new.template ≡ self.old.template }
        ensures kept { KeepsFixed self.old.world self.new.world }
    {
        let alloc = self.rendering.allocator();
        let name = Name::new(alloc, name)?;
        let (_stream, saved) = self.kept.enter_block(alloc, &self.rendering, &name)?;
        Ok(saved)
    }

    /// The name of the running block, if any.
    pub fn current_block(&self) -> Option<&str>
        ensures { IsLent result self.now.world.block }
    {
        self.kept.current_block()
    }

    /// The value of a call: if the call needs a run, it is run, and what it replaced is restored.
    /// The run's fault; InvalidOperation for the call of a loop, since no loop is open;
    /// OutOfMemory.
    fn value_of(&mut self, called: CallResult) -> Result<Value, Error>
        requires { IsStarted called self.old.world }
        ensures called { IsOfTrees self.old.template →
            (asked : _) → Becomes (Ok called) asked self.old.world →
            IsMacroCall result (called_value O.stated self.old.template asked) self.new.world }
        ensures streams { (asked : _) → Becomes (Ok called) asked self.old.world →
            StreamCalled O.stated self.old.template asked result
            (λ m. IsMacroCall result m self.new.world) }
        ensures template { self.new.template ≡ self.old.template }
        ensures stays { (limit : _) (before : _) →
            CallLies limit (Ok called) before self.old.world →
            StaysInPlace before self.new.world }
        ensures lists { (before : _) → KeepsLists called before self.old.world →
            SameLists before self.new.world }
        ensures kept { KeepsFixed self.old.world self.new.world }
    {
        match called {
            CallResult::Value(value) => Ok(value),
            CallResult::Recursion(_recursion) => Err(Error::from(ErrorKind::InvalidOperation)),
            CallResult::Run(run) => self.value_of_run(Box::into_inner(run)),
        }
    }

    /// The text of a run as a value; what the run replaced is restored. The run's fault;
    /// OutOfMemory.
    fn value_of_run(&mut self, run: NestedRun) -> Result<Value, Error>
        requires { self.old.world.stream ≡ stream_of (callee_of run.run) }
        ensures called { IsOfTrees self.old.template →
            (asked : _) → NeedsRun run asked self.old.world →
            IsMacroCall result (called_value O.stated self.old.template asked) self.new.world }
        ensures streams { (asked : _) → NeedsRun run asked self.old.world →
            StreamCalled O.stated self.old.template asked result
            (λ m. IsMacroCall result m self.new.world) }
        ensures template { self.new.template ≡ self.old.template }
        ensures stays { (limit : _) (before : _) →
            CallDeeper limit run.saved before self.old.world →
            StaysInPlace before self.new.world }
        ensures lists { (before : _) → run.saved ≡ saved.Macro (saved_scopes before) →
            SameLists before self.new.world }
        ensures kept { KeepsFixed self.old.world self.new.world }
    {
        let alloc = self.rendering.allocator();
        let NestedRun {
            run,
            text,
            mut saved,
            ..
        } = run;
        let result = self.run_in_capture(run);
        self.kept.put_back(&mut saved);
        let captured = result?;
        run_value(alloc, text, captured.as_str(), self.kept.escape())
    }

    /// Runs `run` in the present state and returns its text. The run's fault, InvalidOperation if
    /// there is no such run; OutOfMemory.
    fn run_in_capture(&mut self, run: RunOf) -> Result<String, Error>
        requires { self.old.world.stream ≡ stream_of (callee_of run) }
        ensures captured { IsOfTrees self.old.template → IsCapturedRun result
            (callee_run O.stated self.old.template (callee_of run) self.old.world) self.new.world }
        ensures streams { RunCaptured O.stated self.old.template (callee_of run) self.old.world
            result self.new.world }
        ensures template { self.new.template ≡ self.old.template }
        ensures no_fewer { NoFewer self.old.world self.new.world }
        ensures kept { KeepsFixed self.old.world self.new.world }
    {
        let alloc = self.rendering.allocator();
        let mut captures = Captures::new(alloc);
        captures.begin(alloc, CaptureMode::Capture)?;
        captures.limit_texts(self.rendering.environment().longest_text());
        let mut captures = self.run_over(run, captures)?;
        match captures.end() {
            Some((_mode, text)) => Ok(text),
            None => unreachable!(),
        }
    }

    /// Runs `run` in the present state, with a capture, and returns the remaining captures.
    /// InvalidOperation if there is no such run.
    fn run_over(&mut self, run: RunOf, captures: Captures) -> Result<Captures, Halt>
        requires fresh { captures ≡ new_capture true ∷ [] }
        requires named { self.old.world.stream ≡ stream_of (callee_of run) }
        ensures ran { IsOfTrees self.old.template → RanApart result
            (callee_run O.stated self.old.template (callee_of run) self.old.world) self.new.world }
        ensures streams { CalleeRan O.stated self.old.template (callee_of run) self.old.world
            result self.new.world }
        ensures closed { IfOk result (λ new. length new ≡ 1) }
        ensures template { self.new.template ≡ self.old.template }
        ensures no_fewer { NoFewer self.old.world self.new.world }
        ensures kept { KeepsFixed self.old.world self.new.world }
    {
        let alloc = self.rendering.allocator();
        self.rendering.accepted();
        let state = self.kept.take(alloc);
        let mut machine = match Machine::of_run(alloc, &self.rendering, run, captures, state) {
            Ok(machine) => machine,
            Err(state) => {
                self.put(state);
                return Err(Halt::Fault(Error::from(ErrorKind::InvalidOperation)));
            }
        };
        let result = machine.run(alloc, &self.rendering, true, &mut NullWriter);
        let (captures, mut state) = machine.into_parts();
        match result {
            Ok(()) => {
                self.put(state);
                Ok(captures)
            }
            Err(halt) => {
                let halt = halted(&mut state, halt);
                self.put(state);
                Err(halt)
            }
        }
    }

    /// Replaces the state's data.
    fn put(&mut self, kept: StateData)
        requires { SoundRecords self.old.template kept }
        ensures { self.new ≡ with_world kept self.old }
    {
        self.kept = kept;
    }

    /// The text of an emitted value. UndefinedError if it is undefined and may not be emitted; then
    /// the formatter's fault, if there is a formatter, or else the error of the escape;
    /// OutOfMemory.
    pub fn format(&self, value: &Value) -> Result<String, Error>
        ensures { IsEmitted result
            (emitted (host_of O.stated self.now.template) value.now self.now.world)
            self.now.world }
    {
        let alloc = self.rendering.allocator();
        self.kept.format(alloc, &self.rendering, value)
    }

    /// The names that a lookup finds, in the scopes and among the globals, each once, in order.
    /// InvalidOperation if a scope is over a namespace without a record; OutOfMemory.
    pub fn known_variables(&self) -> Result<Vec<&str>, Error>
        ensures order { IfOk result
            (λ names. IsStrictlySortedBy name_cmp (texts_of names.items)) }
        ensures found { IfOk result (λ names. AreFound
            (find_name (view_of (host_of O.stated self.now.template) self.now.world))
            (texts_of names.items)) }
        ensures err { IfErr result
            (NamingFails (records_of self.now.world) self.now.world.scopes.frames) }
    {
        self.kept
            .known_variables(self.rendering.allocator(), &self.rendering)
    }
}

/// The result of a render: the text that went to no writer, and the state.
#[derive(Drop)]
pub struct CapturedOf<S: Drop> {
    output: String,
    state: S,
}

/// The result of a program's render.
pub type Captured<'env> = CapturedOf<State<'env>>;

impl<S: Drop> Model for CapturedOf<S> {
    ghost use Rattle.std.specs.Prelude.{string_bytes};
    ghost use Rattle.std.specs.Coded.{codes};
    ghost use Rattle.template_machine.specs.Renders.{CapturedValue};

    ghost Value = { CapturedValue S };

    ghost coded = { Prim.hlevel (codes, S.code) };

    ghost view = { λ c. record { output = string_bytes c.output; state = c.state } };
}

impl<S: Drop> CapturedOf<S> {
    /// A result with this text and state.
    pub(crate) fn new(output: String, state: S) -> CapturedOf<S>
        ensures { result ≡ record { output = string_bytes output; state = state } }
    {
        CapturedOf { output, state }
    }

    /// The text that went to no writer.
    pub fn output(&self) -> &str
        ensures { result.now ≡ self.now.output }
    {
        self.output.as_str()
    }

    /// The state after the render.
    pub fn state(&self) -> &S
        ensures { result.now ≡ self.now.state }
    {
        &self.state
    }

    /// Calls `function` with the state and returns its result.
    pub fn with_state_mut<R, F: FnOnce(&mut S) -> R>(&mut self, function: F) -> R
        requires { F.IsAlwaysCallable function }
        ensures ran { FnOnceReturnsAtMut F.FnOnce function self.old.state result self.new.state }
        ensures text { self.new.output ≡ self.old.output }
    {
        function(&mut self.state)
    }

    /// The text that went to no writer.
    pub fn into_output(self) -> String
        ensures { string_bytes result ≡ self.output }
    {
        let CapturedOf { output, .. } = self;
        output
    }

    /// The text that went to no writer, and the state after the render.
    pub fn into_parts(self) -> (String, S)
        ensures output { string_bytes result.0 ≡ self.output }
        ensures state { result.1 ≡ self.state }
    {
        let CapturedOf { output, state } = self;
        (output, state)
    }
}
