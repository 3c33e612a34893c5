//! The machine: a run with its operands, the captures, the state, and the main loop.
ghost use Rattle.std.specs.Prelude.{◌≡◌, ◌≤◌, [], ◌∷◌, length, MatchOption, OnOk};
ghost use Rattle.tm_meaning.specs.Inheritance.{names_left};
ghost use Rattle.tm_meaning.specs.Machine.{audible, base_of, first_run, run_from, running};
ghost use Rattle.tm_meaning.specs.Steps.{step};
ghost use Rattle.tm_parts.specs.Halts.{failures_after};
ghost use Rattle.tm_runs.specs.Making.{size_on_top};
ghost use Rattle.tm_vm.specs.Answers.{BeginsRun, EndsAs, IsAtFirst, ReachesEnd, NoFewer, SameStanding, StaysRun};
ghost use Rattle.tm_state.specs.Answers.{KeepsFixed};
ghost use Rattle.tm_state.specs.State.{callee_of, put_back};
ghost use Rattle.tm_vm.specs.Nested.{RanNested, StandsOn, WroteBeginning, IsBack, IsWrapped, IsCaptured, base_in, begins_in};

use crate::flow::Flow;
use std::alloc::Global;
use std::marker::Model;
use std::mem;
use tm_meaning::{Base, RunText, StreamId, TemplateId, Wrapping};
use tm_operations::within;
use tm_parts::{Captures, Halt, Sink};
use tm_runs::{Activation, Leaf, run_value};
use tm_shapes::Verified;
use tm_state::{NestedRun, RunOf, Saved, StateData};
use tm_tables::Host;
use tm_values::{Error, ErrorKind, Value};

/// The halt of a nested run as it is reported: a fault is wrapped in a kind, if there is one.
#[cold]
#[inline(never)]
fn wrapped(alloc: Global, wrap: Option<Wrapping>, halt: Halt) -> Halt
    ensures { IsWrapped wrap halt result }
{
    let Some(wrap) = wrap else {
        return halt;
    };
    match halt {
        Halt::Fault(cause) => match Error::from(wrap.kind()).with_source(alloc, cause) {
            Ok(error) => Halt::Fault(error),
            Err(error) => Halt::Fault(error),
        },
        Halt::Writer => Halt::Writer,
        Halt::Stuck => Halt::Stuck,
    }
}

/// The machine. A contract sees it as a configuration of the definitions.
pub struct Machine {
    pub(crate) run: Activation,
    pub(crate) captures: Captures,
    pub(crate) state: StateData,
    pub(crate) leaf: Leaf,
}

// Written by hand: one drop call per owner instead of dropping each part.
impl Drop for Machine {
    fn drop(self) {
        let Machine {
            run: _run,
            captures: _captures,
            state: _state,
            leaf: _leaf,
        } = self;
    }
}

impl Model for Machine {
    ghost use Rattle.std.specs.Coded.{codes};
    ghost use Rattle.tm_values.specs.Code.{coded_Val};
    ghost use Rattle.tm_meaning.specs.Machine.{Config};

    ghost Value = { Config };

    ghost coded = { Prim.hlevel (codes, coded_Val) };

    ghost view = { λ machine. record { run = machine.run; captures = machine.captures; world = machine.state } };
}

impl Machine {
    /// A machine at the first instruction of `stream`, with these captures and this state.
    pub fn new(alloc: Global, stream: StreamId, captures: Captures, state: StateData) -> Machine
        ensures { result ≡ running (run_from stream (length captures)) captures state }
    {
        Machine {
            run: Activation::new(alloc, stream, captures.depth()),
            captures,
            state,
            leaf: Leaf::new(alloc),
        }
    }

    /// A machine at the first instruction of `run`, with these captures and this state. Returns the
    /// state if there is no such run: if the stream has no such macro, or one with other arguments.
    pub fn of_run<H: Host>(
        alloc: Global,
        host: &H,
        run: RunOf,
        captures: Captures,
        state: StateData,
    ) -> Result<Machine, StateData>
        ensures { IsAtFirst (first_run (H.program host.now)
            (callee_of run) (length captures)) captures state result }
    {
        let own = StreamId::root(TemplateId::Own);
        let mut machine = Machine::new(alloc, own, captures, state);
        match machine.begin(alloc, host, run) {
            Some(_idle) => Ok(machine),
            None => {
                let (_captures, state) = machine.into_parts();
                Err(state)
            }
        }
    }

    /// The remaining captures and state.
    pub fn into_parts(self) -> (Captures, StateData)
        ensures captures { result.0 ≡ self.captures }
        ensures state { result.1 ≡ self.world }
    {
        let Machine {
            run: _run,
            captures,
            state,
            leaf: _leaf,
        } = self;
        (captures, state)
    }

    /// The operand that the run left, if it left exactly one, and the state.
    pub fn into_value(self) -> (Option<Value>, StateData)
        ensures value { MatchOption result.0 (length self.run.operands ≡ 1 → ⊥)
            (λ v. self.run.operands ≡ v ∷ []) }
        ensures state { result.1 ≡ self.world }
    {
        let Machine {
            run,
            captures: _captures,
            state,
            leaf: _leaf,
        } = self;
        (run.into_value(), state)
    }

    // ------------------------------------------------------------ parts
    /// Whether output is heard: by the innermost capture of this run, or else as the run's own text
    /// is.
    pub(crate) fn is_audible(&self, base: &Base) -> bool
        ensures { result ≡ audible base.now self.now }
    {
        if base.captures < self.captures.depth() {
            return self.captures.is_heard();
        }
        base.heard && self.run.none_waits()
    }

    /// The base of a run that starts here.
    pub fn base(&self, heard: bool) -> Base
        ensures { result ≡ base_of heard self.now.captures self.now.world }
    {
        Base {
            captures: self.captures.depth(),
            scopes: self.state.height(),
            heard,
            first: self.state.escape(),
        }
    }

    // ------------------------------------------------------------ runs
    /// Runs a nested run on the same captures and state, after which the waiting run continues.
    /// InvalidOperation if there is no such run. However it ends, what it replaced is restored.
    #[cycle(machine)]
    fn run_nested<H: Host, W: Sink>(
        &mut self,
        alloc: Global,
        host: &H,
        mut entry: Box<NestedRun>,
        writer: &mut W,
    ) -> Result<(), Halt>
        requires { StandsOn entry.value.saved self.old.world }
        ensures ran { RanNested (H.program host.now) entry.value
            self.old self.new (W.told writer.old).bytes (W.told writer.new).bytes result }
        ensures beginning { WroteBeginning (H.program host.now)
            (base_in entry.value self.old)
            (begins_in (H.program host.now) entry.value self.old)
            (W.told writer.old).bytes (W.told writer.new).bytes }
        ensures failures { (W.told writer.new).failures
            ≡ failures_after result (W.told writer.old).failures }
        ensures kept { KeepsFixed self.old.world self.new.world }
        ensures names { names_left (H.program host.now).host self.new.world
            ≤ names_left (H.program host.now).host self.old.world }
        ensures back { IsBack entry.value.saved self.old.world self.new.world }
        ensures same_run { StaysRun self.old.run self.new.run }
    {
        let nested = &mut *entry;
        let run = nested.take_run();
        let wrap = nested.wrap;
        let value = nested.value;
        let text = nested.text;
        let Some(waiting) = self.begin(alloc, host, run) else {
            self.put_back(&mut nested.saved);
            let refusal = Halt::Fault(Error::from(ErrorKind::InvalidOperation));
            return Err(wrapped(alloc, wrap, refusal));
        };
        let result = self.run(alloc, host, nested.heard, writer);
        self.resume(alloc, waiting);
        self.put_back_of(entry);
        if let Err(halt) = result {
            return Err(wrapped(alloc, wrap, halt));
        }
        if value {
            return self.push_captured(alloc, host, text);
        }
        Ok(())
    }

    /// Pushes the innermost capture's text as a value of the form `kind`. Stuck if no capture is
    /// open; OutOfMemory also if the value is larger than `host` allows.
    #[inline(always)]
    pub(crate) fn push_captured<H: Host>(
        &mut self,
        alloc: Global,
        host: &H,
        kind: RunText,
    ) -> Result<(), Halt>
        ensures captured { IsCaptured kind result self.old self.new }
        ensures same_world { self.new.world ≡ self.old.world }
        ensures same_run { StaysRun self.old.run self.new.run }
        ensures within { OnOk result (size_on_top self.new.run.operands ≤ H.largest host.now) }
    {
        let Some((_mode, text)) = self.captures.end() else {
            return Err(Halt::Stuck);
        };
        let value = run_value(alloc, kind, text.as_str(), self.state.escape());
        self.captures.keep_room(text);
        let value = within(value?, host.value_limit() as u64)?;
        self.run.push(value)?;
        Ok(())
    }

    /// Begins a run on the same captures and state and returns the waiting run; None if there is no
    /// such run.
    fn begin<H: Host>(&mut self, alloc: Global, host: &H, run: RunOf) -> Option<Activation>
        ensures { BeginsRun (first_run (H.program host.now)
            (callee_of run) (length self.old.captures)) result self.old self.new }
    {
        let floor = self.captures.depth();
        match run {
            RunOf::Stream(stream) => {
                let room = self.state.take_operands(alloc);
                Some(self.enter(Activation::over(alloc, stream, floor, 0, room)))
            }
            RunOf::Macro(stream, number, args) => {
                let code = host.instructions(&stream, self.state.template_place());
                let (place, count) = code.entry(number)?;
                if count != args.len() {
                    return None;
                }
                Some(self.enter(Activation::over(alloc, stream, floor, place, args)))
            }
        }
    }

    /// Begins `run` and returns the waiting run.
    #[inline(always)]
    fn enter(&mut self, run: Activation) -> Activation
        ensures waiting { result ≡ self.old.run }
        ensures begun { self.new ≡ record self.old { run = run } }
    {
        mem::replace(&mut self.run, run)
    }

    /// Continues the waiting run and keeps the memory of the finished one.
    fn resume(&mut self, alloc: Global, waiting: Activation)
        ensures { self.new ≡ record self.old { run = waiting } }
    {
        self.state.keep_operands(self.run.take_room(alloc));
        self.run = waiting;
    }

    /// Restores what a run replaced in the state and leaves the scopes that it opened.
    fn put_back(&mut self, saved: &mut Saved)
        ensures { self.new ≡ record self.old { world = put_back saved.old self.old.world } }
    {
        self.state.put_back(saved);
    }

    /// `put_back` for a run in a box.
    #[inline(always)]
    fn put_back_of(&mut self, entry: Box<NestedRun>)
        ensures { self.new ≡ record self.old { world = put_back entry.value.saved self.old.world } }
    {
        self.state.put_back_of(entry);
    }

    /// The instructions of the run's stream.
    fn code<'host, H: Host>(&self, host: &'host H) -> &'host Verified
        ensures { result.now ≡ (H.program host.now).code self.now.run.stream }
    {
        host.instructions(self.run.stream(), self.state.template_place())
    }

    /// Runs to the end of the stream, or of the last of its parents; `heard` tells whether its text
    /// is output.
    #[cycle(machine)]
    pub fn run<H: Host, W: Sink>(
        &mut self,
        alloc: Global,
        host: &H,
        heard: bool,
        writer: &mut W,
    ) -> Result<(), Halt>
        ensures ended { EndsAs result self.new
            (ReachesEnd (H.program host.now)
            (base_of heard self.old.captures self.old.world) self.old
            (W.told writer.old).bytes (W.told writer.new).bytes) }
        ensures beginning { WroteBeginning (H.program host.now)
            (base_of heard self.old.captures self.old.world)
            (step (H.program host.now)
            (base_of heard self.old.captures self.old.world) self.old)
            (W.told writer.old).bytes (W.told writer.new).bytes }
        ensures failures { (W.told writer.new).failures
            ≡ failures_after result (W.told writer.old).failures }
        ensures kept { KeepsFixed self.old.world self.new.world }
        ensures names { names_left (H.program host.now).host self.new.world
            ≤ names_left (H.program host.now).host self.old.world }
        ensures no_fewer { NoFewer self.old.world self.new.world }
        ensures closed { OnOk result (SameStanding self.old.world self.new.world) }
    {
        let base = self.base(heard);
        'streams: loop {
            let code = self.code(host);
            'steps: loop {
                match self.step(alloc, host, &base, code, writer) {
                    Ok(Flow::GoOn) => {}
                    Ok(Flow::Ahead) => {}
                    Ok(Flow::Called) => {}
                    Ok(Flow::Enter(entry)) => {
                        if let Err(halt) = self.run_nested(alloc, host, entry, writer) {
                            return Err(halt);
                        }
                    }
                    Ok(Flow::Restart) => break 'steps,
                    Ok(Flow::Done) => return Ok(()),
                    Err(halt) => return Err(halt),
                }
            }
        }
    }
}
