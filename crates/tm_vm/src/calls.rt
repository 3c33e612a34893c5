//! The calls.
ghost use Rattle.std.specs.Prelude.{◌≡◌, ◌∷◌, Some, drop};
ghost use Rattle.tm_meaning.specs.Calls.{recurs};
ghost use Rattle.tm_meaning.specs.Machine.{asked, goes};
ghost use Rattle.tm_meaning.specs.Instructions.{call_function_of, call_object_of, apply_of};
ghost use Rattle.tm_meaning.specs.Instructions.{apply_filter_of, perform_test_of};
ghost use Rattle.tm_meaning.specs.Instructions.{call_block_of, fast_recurse_of};
ghost use Rattle.tm_runs.specs.Runs.{CanGoOn};
ghost use Rattle.tm_vm.specs.Answers.{recurses, Silently, Opens, Needs, EntersAsValue, GoesOnWith};

use crate::flow::Flow;
use crate::machine::Machine;
use std::alloc::Global;
use tm_meaning::{Base, RunText};
use tm_parts::Halt;
use tm_shapes::Verified;
use tm_state::{CallResult, NestedRun, Recursion, RunOf, Saved};
use tm_syntax::{Application, CaptureMode, Name};
use tm_tables::Host;
use tm_values::{Error, ErrorKind, Value};

impl Machine {
    /// Calls `name` with the top `count` values and replaces these by the result, or by the text of
    /// the loop or macro that is called.
    pub(crate) fn do_call_function<H: Host>(
        &mut self,
        alloc: Global,
        host: &H,
        code: &Verified,
        name: &Name,
        count: Option<usize>,
    ) -> Result<Flow, Halt>
        requires in_place { CanGoOn self.old.run }
        requires its_code { code.now ≡ (H.program host.now).code self.old.run.stream }
        ensures { Needs (H.program host.now)
            (call_function_of
            (H.program host.now) name.now count self.old)
            self.old self.new result }
    {
        if let Some(count) = count {
            if self.call_leaf(alloc, host, name, count)? {
                return Ok(Flow::Called);
            }
        }
        self.call_counted(alloc, host, code, name, count)
    }

    /// `do_call_function` without the shortcut for leaves.
    #[inline(never)]
    fn call_counted<H: Host>(
        &mut self,
        alloc: Global,
        host: &H,
        code: &Verified,
        name: &Name,
        count: Option<usize>,
    ) -> Result<Flow, Halt>
        requires in_place { CanGoOn self.old.run }
        requires its_code { code.now ≡ (H.program host.now).code self.old.run.stream }
        ensures { Needs (H.program host.now)
            (call_function_of
            (H.program host.now) name.now count self.old)
            self.old self.new result }
    {
        match self.run.take_count(count) {
            Some(count) => self.call_function(alloc, host, code, name, count),
            None => Err(Halt::Stuck),
        }
    }

    /// `call_counted` with a known `count`.
    #[inline(always)]
    fn call_function<H: Host>(
        &mut self,
        alloc: Global,
        host: &H,
        code: &Verified,
        name: &Name,
        count: usize,
    ) -> Result<Flow, Halt>
        requires in_place { CanGoOn self.old.run }
        requires its_code { code.now ≡ (H.program host.now).code self.old.run.stream }
        ensures { Needs (H.program host.now)
            (call_function_of
            (H.program host.now) name.now (Some count) self.old)
            self.old self.new result }
    {
        let Some(args) = self.run.args(count) else {
            return Err(Halt::Stuck);
        };
        let called = self.state.call(alloc, host, name, args)?;
        self.go_on_with(alloc, host, code, count, called)
    }

    /// Continues after a call with `count` values: its value replaces them, or the text of the
    /// called loop or of the needed run will.
    #[inline(always)]
    fn go_on_with<H: Host>(
        &mut self,
        alloc: Global,
        host: &H,
        code: &Verified,
        count: usize,
        called: CallResult,
    ) -> Result<Flow, Halt>
        requires in_place { CanGoOn self.old.run }
        requires its_code { code.now ≡ (H.program host.now).code self.old.run.stream }
        ensures { GoesOnWith (H.program host.now)
            called count self.old self.new result }
    {
        match called {
            CallResult::Value(value) => self.replace(count, value),
            CallResult::Recursion(recursion) => {
                self.begin_recursion(alloc, host, code, count, recursion)
            }
            CallResult::Run(run) => self.enter_as_value(alloc, count, run),
        }
    }

    /// Begins a called loop whose text becomes a value in place of `count` operands. Errors as in
    /// `recurse`; OutOfMemory.
    fn begin_recursion<H: Host>(
        &mut self,
        alloc: Global,
        host: &H,
        code: &Verified,
        count: usize,
        called: Recursion,
    ) -> Result<Flow, Halt>
        requires in_place { CanGoOn self.old.run }
        requires its_code { code.now ≡ (H.program host.now).code self.old.run.stream }
        ensures { Opens (asked (H.program host.now) self.old
            (drop count self.old.run.operands)
            (recurs called.number called.items.value.items self.old.world))
            self.old self.new result }
    {
        self.run.drop_operands(count);
        self.captures.begin(alloc, CaptureMode::Capture)?;
        self.recurse(alloc, host, code, called, true)
    }

    /// Enters a run whose text becomes a value in place of `count` operands. OutOfMemory if there
    /// is no memory for its capture; then what the run replaced is restored.
    #[inline(always)]
    fn enter_as_value(
        &mut self,
        alloc: Global,
        count: usize,
        mut run: Box<NestedRun>,
    ) -> Result<Flow, Halt>
        requires { CanGoOn self.old.run }
        ensures { EntersAsValue run.value count result self.old self.new }
    {
        if let Err(error) = self.captures.begin(alloc, CaptureMode::Capture) {
            self.state.put_back(&mut run.saved);
            return Err(Halt::Fault(error));
        }
        self.run.drop_operands(count);
        self.run.advance();
        Ok(Flow::Enter(run))
    }

    /// Pops a value and calls the innermost loop with it; the loop writes in place.
    pub(crate) fn do_fast_recurse<H: Host>(
        &mut self,
        alloc: Global,
        host: &H,
        base: &Base,
        code: &Verified,
    ) -> Result<Flow, Halt>
        requires in_place { CanGoOn self.old.run }
        requires its_code { code.now ≡ (H.program host.now).code self.old.run.stream }
        ensures { Opens (fast_recurse_of
            (H.program host.now) base.now self.old)
            self.old self.new result }
    {
        let value = self.run.popped()?;
        let recursion = self.state.call_innermost(alloc, host, &value)?;
        self.recurse(alloc, host, code, recursion, false)
    }

    /// Begins a called loop of the run's code; `value` tells whether its text becomes a value.
    /// InvalidOperation if there is no callable loop with this number, or if its scope would exceed
    /// the depth limit.
    fn recurse<H: Host>(
        &mut self,
        alloc: Global,
        host: &H,
        code: &Verified,
        called: Recursion,
        value: bool,
    ) -> Result<Flow, Halt>
        requires in_place { CanGoOn self.old.run }
        requires its_code { code.now ≡ (H.program host.now).code self.old.run.stream }
        ensures { Opens (recurses
            (H.program host.now) called value self.old)
            self.old self.new result }
    {
        let Recursion { number, items } = called;
        let Some(found) = code.loop_place(number) else {
            return Err(Halt::Fault(Error::from(ErrorKind::InvalidOperation)));
        };
        if !found.flags.recursive {
            return Err(Halt::Fault(Error::from(ErrorKind::InvalidOperation)));
        }
        let limit = host.recursion_limit();
        self.state
            .open_loop(alloc, items, found.flags, number, limit)?;
        let floor = self.captures.depth();
        self.run.call_loop(alloc, found.place, floor, value)?;
        Ok(Flow::GoOn)
    }

    /// Replaces the top `count` values by the result of applying the first one's method, a filter
    /// or a test named `name` to them. `place` is a hint for finding the filter or test.
    pub(crate) fn do_apply<H: Host>(
        &mut self,
        alloc: Global,
        host: &H,
        code: &Verified,
        application: Application,
        name: &Name,
        place: usize,
        count: Option<usize>,
    ) -> Result<Flow, Halt>
        requires in_place { CanGoOn self.old.run }
        requires its_code { code.now ≡ (H.program host.now).code self.old.run.stream }
        ensures { Needs (H.program host.now)
            (apply_of
            (H.program host.now) application name.now count self.old)
            self.old self.new result }
    {
        match self.run.take_count(count) {
            Some(count) => self.apply(alloc, host, code, application, name, place, count),
            None => Err(Halt::Stuck),
        }
    }

    /// `do_apply` with a known `count`.
    fn apply<H: Host>(
        &mut self,
        alloc: Global,
        host: &H,
        code: &Verified,
        application: Application,
        name: &Name,
        place: usize,
        count: usize,
    ) -> Result<Flow, Halt>
        requires in_place { CanGoOn self.old.run }
        requires its_code { code.now ≡ (H.program host.now).code self.old.run.stream }
        ensures { Needs (H.program host.now)
            (apply_of
            (H.program host.now)
            application name.now (Some count) self.old)
            self.old self.new result }
    {
        let Some(values) = self.run.args(count) else {
            return Err(Halt::Stuck);
        };
        let name = name.as_str();
        let called = self
            .state
            .apply(alloc, host, application, name, place, values)?;
        self.go_on_with(alloc, host, code, count, called)
    }

    /// Replaces the top `count` values by the result of calling the first one with the others.
    pub(crate) fn do_call_object<H: Host>(
        &mut self,
        alloc: Global,
        host: &H,
        code: &Verified,
        count: Option<usize>,
    ) -> Result<Flow, Halt>
        requires in_place { CanGoOn self.old.run }
        requires its_code { code.now ≡ (H.program host.now).code self.old.run.stream }
        ensures { Needs (H.program host.now)
            (call_object_of
            (H.program host.now) count self.old)
            self.old self.new result }
    {
        match self.run.take_count(count) {
            Some(count) => self.call_object(alloc, host, code, count),
            None => Err(Halt::Stuck),
        }
    }

    /// `do_call_object` with a known `count`.
    fn call_object<H: Host>(
        &mut self,
        alloc: Global,
        host: &H,
        code: &Verified,
        count: usize,
    ) -> Result<Flow, Halt>
        requires in_place { CanGoOn self.old.run }
        requires its_code { code.now ≡ (H.program host.now).code self.old.run.stream }
        ensures { Needs (H.program host.now)
            (call_object_of
            (H.program host.now) (Some count) self.old)
            self.old self.new result }
    {
        let Some(values) = self.run.args(count) else {
            return Err(Halt::Stuck);
        };
        let called = self.state.call_callee(alloc, host, values)?;
        self.go_on_with(alloc, host, code, count, called)
    }

    /// Replaces the top `count` values by the result of the filter `name`. Stuck if the cache
    /// number can't be used for it.
    #[tactic(auto, using(crate::proofs::Used::filter_used))]
    pub(crate) fn do_apply_filter<H: Host>(
        &mut self,
        alloc: Global,
        host: &H,
        code: &Verified,
        name: &Name,
        count: Option<usize>,
        cache: u8,
    ) -> Result<Flow, Halt>
        requires in_place { CanGoOn self.old.run }
        requires its_code { code.now ≡ (H.program host.now).code self.old.run.stream }
        ensures { Needs (H.program host.now)
            (apply_filter_of
            (H.program host.now) name.now count cache self.old)
            self.old self.new result }
    {
        let place = self.run.use_filter(host, cache, name)?;
        self.do_apply(alloc, host, code, Application::Filter, name, place, count)
    }

    /// Replaces the top `count` values by whether the result of the test `name` is true. Stuck if
    /// the cache number can't be used for it.
    #[tactic(auto, using(crate::proofs::Used::test_used))]
    pub(crate) fn do_perform_test<H: Host>(
        &mut self,
        alloc: Global,
        host: &H,
        code: &Verified,
        name: &Name,
        count: Option<usize>,
        cache: u8,
    ) -> Result<Flow, Halt>
        requires in_place { CanGoOn self.old.run }
        requires its_code { code.now ≡ (H.program host.now).code self.old.run.stream }
        ensures { Needs (H.program host.now)
            (perform_test_of
            (H.program host.now) name.now count cache self.old)
            self.old self.new result }
    {
        let place = self.run.use_test(host, cache, name)?;
        self.do_apply(alloc, host, code, Application::Test, name, place, count)
    }

    /// Replaces the top `count` values by `value`.
    pub(crate) fn replace(&mut self, count: usize, value: Value) -> Result<Flow, Halt>
        requires { CanGoOn self.old.run }
        ensures { Silently (goes (value ∷ drop count self.old.run.operands) self.old.world self.old)
            self.old self.new result }
    {
        self.run.replace_topmost(count, value)?;
        self.run.advance();
        Ok(Flow::GoOn)
    }

    /// Runs the block `name` in place, if it is heard and no parent is waiting.
    #[inline(never)]
    pub(crate) fn do_call_block<H: Host>(
        &mut self,
        alloc: Global,
        host: &H,
        base: &Base,
        name: &Name,
    ) -> Result<Flow, Halt>
        requires { CanGoOn self.old.run }
        ensures { Needs (H.program host.now)
            (call_block_of
            (H.program host.now) base.now name.now self.old)
            self.old self.new result }
    {
        let heard = self.is_audible(base);
        if !(self.run.none_waits() && heard) {
            self.run.advance();
            return Ok(Flow::GoOn);
        }
        let (stream, saved) = match self.state.enter_block(alloc, host, name) {
            Ok(entered) => entered,
            Err(error) => return Err(Halt::Fault(error)),
        };
        let entry = NestedRun {
            run: RunOf::Stream(stream),
            heard,
            value: false,
            text: RunText::Captured,
            wrap: None,
            saved: Saved::Block(saved),
        };
        let entry = entry.boxed(alloc)?;
        self.run.advance();
        Ok(Flow::Enter(entry))
    }
}
