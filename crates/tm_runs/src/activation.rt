//! The data of a run.
ghost use Rattle.std.specs.Prelude.{◌≡◌, ◌+◌, ◌++◌, ◌-◌, ◌^◌, ◌<◌, length, List, [], ◌∷◌, Ok, Some, None, OnOk, IfOk, IfErr, IfSome, MatchOption, not, MatchResult, drop};
ghost use Rattle.std.specs.Prelude.{option_map};
ghost use Rattle.tm_meaning.specs.World.{root_of};
ghost use Rattle.tm_values.specs.Answer.{OrStays};
ghost use Rattle.tm_values.specs.Val.{Val, boolean};
ghost use Rattle.tm_values.specs.declared.undefined.UndefinedBehavior.{UndefinedBehavior};
ghost use Rattle.tm_parts.specs.declared.halt.Halt.TheVariants.{Stuck};
ghost use Rattle.tm_parts.specs.Operate.{Doubles, Negates, Operates, TakesMember, TestsUndefined};
ghost use Rattle.tm_meaning.specs.Meaning.{none_waits};
ghost use Rattle.tm_meaning.specs.Steps.{is_empty};
ghost use Rattle.tm_meaning.specs.Instructions.{used};
ghost use Rattle.tm_meaning.specs.Machine.{onto, run_from, taken};
ghost use Rattle.tm_definitions.specs.Truth.{truth_of};
ghost use Rattle.tm_runs.specs.Runs.{CanGoOn, IsUncounted, IsUsed, TakesCounted, called, resumed};

use crate::caches::Caches;
use crate::operands::counted;
use std::alloc::Global;
use std::marker::Model;
use std::mem;
use tm_meaning::{StreamId, TemplateId};
use tm_objects::Host;
use tm_operations::truth;
use tm_parts::{Halt, Stack};
use tm_syntax::{Application, BinaryOperator, Name};
use tm_values::{AutoEscape, Error, ErrorKind, UndefinedBehavior, Value};

/// Where the machine returns to after a called loop: the run's state at the call, the waiting
/// parent, and whether the loop's text becomes a value.
#[derive(Drop)]
pub struct Return {
    place: usize,
    operands: Stack,
    escapes: Vec<AutoEscape>,
    floor: usize,
    parent: Option<TemplateId>,
    value: bool,
}

impl Model for Return {
    ghost use Rattle.std.specs.Prelude.{reverse};
    ghost use Rattle.std.specs.Coded.{codes};
    ghost use Rattle.tm_values.specs.Code.{coded_Val};
    ghost use Rattle.tm_meaning.specs.Machine.{Return as Pending};

    ghost Value = { Pending };

    ghost coded = { Prim.hlevel (codes, coded_Val) };

    ghost view = { λ r. record {
      place = r.place;
      operands = r.operands;
      escapes = reverse r.escapes.items;
      floor = r.floor;
      parent = r.parent;
      value = r.value;
    } };
}

impl Return {
    /// Whether the loop's text becomes a value.
    pub fn is_value(&self) -> bool
        ensures { result ≡ self.now.value }
    {
        self.value
    }
}

/// The data of a run: its stream and the place in it; its operands; the escapes that its open
/// `autoescape`s replaced; for each of its open loops the return, if the loop was called; the
/// number of open captures when the run or the innermost called loop began; the waiting parent; and
/// the caches.
#[derive(Drop)]
pub struct Activation {
    stream: StreamId,
    place: usize,
    operands: Stack,
    escapes: Vec<AutoEscape>,
    loops: Vec<Option<Return>>,
    floor: usize,
    parent: Option<TemplateId>,
    filters: Caches,
    tests: Caches,
}

impl Model for Activation {
    ghost use Rattle.std.specs.Prelude.{reverse};
    ghost use Rattle.std.specs.Coded.{codes};
    ghost use Rattle.tm_values.specs.Code.{coded_Val};
    ghost use Rattle.tm_meaning.specs.Machine.{Activation};

    ghost Value = { Activation };

    ghost coded = { Prim.hlevel (codes, coded_Val) };

    ghost view = { λ run. record {
      stream = run.stream;
      place = run.place;
      operands = run.operands;
      escapes = reverse run.escapes.items;
      loops = reverse run.loops.items;
      floor = run.floor;
      parent = run.parent;
      filters = run.filters;
      tests = run.tests;
    } };
}

impl Activation {
    /// A run of `stream` from its first instruction, with `floor` captures open at its start.
    pub fn new(alloc: Global, stream: StreamId, floor: usize) -> Activation
        ensures { result ≡ run_from stream floor }
    {
        Activation::over(alloc, stream, floor, 0, Vec::new(alloc))
    }

    /// A run of `stream` from `place`, with `floor` captures open at its start and with `values` as
    /// operands, the last of them on top.
    pub fn over(
        alloc: Global,
        stream: StreamId,
        floor: usize,
        place: usize,
        values: Vec<Value>,
    ) -> Activation
        ensures { result ≡ record (run_from stream floor) {
          place = place;
          operands = onto values.items [];
        } }
    {
        Activation {
            stream,
            place,
            operands: Stack::of(values),
            escapes: Vec::new(alloc),
            loops: Vec::new(alloc),
            floor,
            parent: None,
            filters: Caches::new(alloc),
            tests: Caches::new(alloc),
        }
    }

    /// The stream of the run.
    #[inline(always)]
    pub fn stream(&self) -> &StreamId
        ensures { result.now ≡ self.now.stream }
    {
        &self.stream
    }

    /// The place in the stream.
    #[inline(always)]
    pub fn place(&self) -> usize
        ensures { result ≡ self.now.place }
    {
        self.place
    }

    /// Takes the remaining operands out, so that their memory can be reused.
    #[inline(always)]
    pub fn take_room(&mut self, alloc: Global) -> Vec<Value> {
        mem::replace(&mut self.operands, Stack::new(alloc)).into_values()
    }

    /// Looks up the filter `name` through the cache number `cache` and returns its place in `host`.
    /// Stuck if this number can't be used for it; OutOfMemory.
    #[inline(always)]
    pub fn use_filter<H: Host>(&mut self, host: &H, cache: u8, name: &Name) -> Result<usize, Halt>
        ensures used { IsUsed (used cache name.now self.old.filters) self.new.filters result }
        ensures rest { self.new ≡ record self.old { filters = self.new.filters } }
    {
        self.filters
            .use_name(host, Application::Filter, cache, name)
    }

    /// Looks up the test `name` through the cache number `cache` and returns its place in `host`.
    /// Stuck if this number can't be used for it; OutOfMemory.
    #[inline(always)]
    pub fn use_test<H: Host>(&mut self, host: &H, cache: u8, name: &Name) -> Result<usize, Halt>
        ensures used { IsUsed (used cache name.now self.old.tests) self.new.tests result }
        ensures rest { self.new ≡ record self.old { tests = self.new.tests } }
    {
        self.tests.use_name(host, Application::Test, cache, name)
    }

    /// Whether no parent is waiting.
    #[inline(always)]
    pub fn none_waits(&self) -> bool
        ensures { result ≡ none_waits self.now.parent }
    {
        self.parent.is_none()
    }

    /// The waiting parent, if any.
    pub fn parent(&self) -> &Option<TemplateId>
        ensures { result.now ≡ self.now.parent }
    {
        &self.parent
    }

    /// A shared copy of the waiting parent, if any. Fails only with OutOfMemory, if a reference
    /// count overflows.
    fn shared_parent(&self) -> Result<Option<TemplateId>, Error>
        ensures ok { IfOk result (λ parent. parent ≡ self.now.parent) }
        ensures kind { IfErr result (λ e. e ≡ ErrorKind.OutOfMemory ∷ []) }
    {
        match &self.parent {
            Some(parent) => Ok(Some(parent.share()?)),
            None => Ok(None),
        }
    }

    /// The root stream of the waiting parent, if any. Fails only with OutOfMemory.
    pub fn parent_root(&self) -> Result<Option<StreamId>, Error>
        ensures ok { IfOk result (λ root. root ≡ option_map root_of self.now.parent) }
        ensures kind { IfErr result (λ e. e ≡ ErrorKind.OutOfMemory ∷ []) }
    {
        match &self.parent {
            Some(parent) => Ok(Some(StreamId::root(parent.share()?))),
            None => Ok(None),
        }
    }

    /// Sets the waiting parent, or clears it.
    pub fn wait_for(&mut self, parent: Option<TemplateId>)
        ensures { self.new ≡ record self.old { parent = parent } }
    {
        self.parent = parent;
    }

    /// The number of open captures when the run or the innermost called loop began.
    pub fn floor(&self) -> usize
        ensures { result ≡ self.now.floor }
    {
        self.floor
    }

    /// Whether none of the run's `autoescape`s is open.
    pub fn escapes_are_closed(&self) -> bool
        ensures { result ≡ is_empty self.now.escapes }
    {
        self.escapes.is_empty()
    }

    /// Whether the run has an open loop.
    pub fn has_loop(&self) -> bool
        ensures { result ≡ not (is_empty self.now.loops) }
    {
        !self.loops.is_empty()
    }

    /// Opens a loop that wasn't called. Fails only with OutOfMemory.
    pub fn begin_loop(&mut self) -> Result<(), Error>
        ensures ok { OnOk result (self.new ≡ record self.old { loops = None ∷ self.old.loops }) }
        ensures kind { IfErr result (λ e. e ≡ ErrorKind.OutOfMemory ∷ []) }
        ensures rest { self.new ≡ record self.old { loops = self.new.loops } }
    {
        self.loops.push(None)?;
        Ok(())
    }

    /// Closes the innermost loop, if there is one, and returns its `Return`, if it was called.
    pub fn end_loop(&mut self) -> Option<Option<Return>>
        ensures { MatchOption result ((self.old.loops ≡ []) × (self.new ≡ self.old))
            (λ pending. self.old ≡ record self.new { loops = pending ∷ self.new.loops }) }
    {
        self.loops.pop()
    }

    /// Calls the loop at `place`: continues after that place, without operands and with `floor`
    /// captures open; `value` tells whether the loop's text becomes a value. Fails only with
    /// OutOfMemory.
    pub fn call_loop(
        &mut self,
        alloc: Global,
        place: usize,
        floor: usize,
        value: bool,
    ) -> Result<(), Error>
        requires in_place { CanGoOn self.old }
        requires within { place < 2 ^ 64 - 1 }
        ensures ok { OnOk result (self.new ≡ called place floor value self.old) }
        ensures kind { IfErr result (λ e. e ≡ ErrorKind.OutOfMemory ∷ []) }
        ensures same_stream { self.new.stream ≡ self.old.stream }
    {
        let parent = self.shared_parent()?;
        let pending = Return {
            place: self.place + 1,
            operands: mem::replace(&mut self.operands, Stack::new(alloc)),
            escapes: mem::replace(&mut self.escapes, Vec::new(alloc)),
            floor: self.floor,
            parent,
            value,
        };
        self.loops.push(Some(pending))?;
        self.place = place + 1;
        self.floor = floor;
        Ok(())
    }

    /// Returns to where a loop was called and restores the run's state there. The result is the
    /// parent that was waiting then.
    pub fn return_to(&mut self, pending: Return) -> Option<TemplateId>
        ensures returned { self.new ≡ resumed pending self.old }
        ensures parent { result ≡ pending.parent }
    {
        let Return {
            place,
            operands,
            escapes,
            floor,
            parent,
            ..
        } = pending;
        self.place = place;
        self.operands = operands;
        self.escapes = escapes;
        self.floor = floor;
        parent
    }

    /// Stores the escape that an `autoescape` replaces. Fails only with OutOfMemory.
    pub fn push_escape(&mut self, escape: AutoEscape) -> Result<(), Error>
        ensures ok { OnOk result
            (self.new ≡ record self.old { escapes = escape ∷ self.old.escapes }) }
        ensures kind { IfErr result (λ e. e ≡ ErrorKind.OutOfMemory ∷ []) }
        ensures rest { self.new ≡ record self.old { escapes = self.new.escapes } }
    {
        self.escapes.push(escape)?;
        Ok(())
    }

    /// Removes and returns the escape that the innermost open `autoescape` replaced; None if none
    /// is open.
    pub fn pop_escape(&mut self) -> Option<AutoEscape>
        ensures { MatchOption result ((self.old.escapes ≡ []) × (self.new ≡ self.old))
            (λ escape. self.old ≡ record self.new { escapes = escape ∷ self.new.escapes }) }
    {
        self.escapes.pop()
    }

    /// Moves to the next place.
    pub fn advance(&mut self)
        requires { CanGoOn self.old }
        ensures { self.new ≡ record self.old { place = self.old.place + 1 } }
    {
        self.place += 1;
    }

    /// Moves to `place`.
    pub fn jump(&mut self, place: usize)
        ensures { self.new ≡ record self.old { place = place } }
    {
        self.place = place;
    }

    /// Pushes an operand. Fails only with OutOfMemory.
    pub fn push(&mut self, value: Value) -> Result<(), Error>
        ensures ok { OnOk result
            (self.new ≡ record self.old { operands = value ∷ self.old.operands }) }
        ensures kind { IfErr result (λ e. e ≡ ErrorKind.OutOfMemory ∷ []) }
        ensures rest { self.new ≡ record self.old { operands = self.new.operands } }
    {
        self.operands.push(value)
    }

    /// Pushes a shared copy of `value` and returns true. If there is no spare room, nothing changes
    /// and the result is false.
    #[inline(always)]
    pub fn push_shared(&mut self, value: &Value) -> bool
        ensures { OrStays result self.old self.new
            (self.new ≡ record self.old { operands = value.now ∷ self.old.operands }) }
    {
        self.operands.push_shared(value)
    }

    /// Replaces the top two operands by the result of `operator`, if both are numbers and the
    /// operation needs nothing else. Otherwise nothing changes and the result is false.
    #[inline(always)]
    pub fn operate(&mut self, operator: BinaryOperator) -> bool
        ensures operands { OrStays result self.old.operands self.new.operands
            (Operates operator self.old.operands self.new.operands) }
        ensures rest { self.new ≡ record self.old { operands = self.new.operands } }
    {
        self.operands.operate(operator)
    }

    /// Replaces the top two operands by the result of a comparison, if both are texts. Otherwise
    /// nothing changes and the result is false.
    pub fn compare_texts(&mut self, operator: BinaryOperator) -> bool
        ensures operands { OrStays result self.old.operands self.new.operands
            (Operates operator self.old.operands self.new.operands) }
        ensures rest { self.new ≡ record self.old { operands = self.new.operands } }
    {
        self.operands.compare_texts(operator)
    }

    /// Replaces the top operand, if there is one that isn't undefined, by the negation of its truth.
    /// Otherwise nothing changes and the result is false.
    pub fn negate(&mut self) -> bool
        ensures operands { OrStays result self.old.operands self.new.operands
            (Negates self.old.operands self.new.operands) }
        ensures rest { self.new ≡ record self.old { operands = self.new.operands } }
    {
        self.operands.negate()
    }

    /// Replaces the map on top by its member `name`, if it has one. Otherwise nothing changes and
    /// the result is false.
    #[inline(always)]
    pub fn replace_by_member(&mut self, name: &str) -> bool
        ensures operands { OrStays result self.old.operands self.new.operands
            (TakesMember name.now self.old.operands self.new.operands) }
        ensures rest { self.new ≡ record self.old { operands = self.new.operands } }
    {
        self.operands.replace_by_member(name)
    }

    /// Replaces the top operand, if there is one, by whether it is undefined. Otherwise nothing
    /// changes and the result is false.
    #[inline(always)]
    pub fn test_undefined(&mut self) -> bool
        ensures operands { OrStays result self.old.operands self.new.operands
            (TestsUndefined self.old.operands self.new.operands) }
        ensures rest { self.new ≡ record self.old { operands = self.new.operands } }
    {
        self.operands.test_undefined()
    }

    /// Pushes a shared copy of the top operand, if there is one and there is spare room. Otherwise
    /// nothing changes and the result is false.
    #[inline(always)]
    pub fn double_top(&mut self) -> bool
        ensures operands { OrStays result self.old.operands self.new.operands
            (Doubles self.old.operands self.new.operands) }
        ensures rest { self.new ≡ record self.old { operands = self.new.operands } }
    {
        self.operands.double_top()
    }

    /// Pops the top operand if it is a boolean. Otherwise nothing changes.
    #[inline(always)]
    pub fn take_boolean(&mut self) -> Option<bool>
        ensures { MatchOption result (self.new ≡ self.old)
            (λ truth. self.old ≡ record self.new { operands = boolean truth ∷ self.new.operands }) }
    {
        self.operands.take_boolean()
    }

    /// The top operand, if there is one.
    #[inline(always)]
    pub fn top(&self) -> Option<&Value>
        ensures { MatchOption result (self.now.operands ≡ [])
            (λ v. (rest : List Val) × (self.now.operands ≡ v.now ∷ rest)) }
    {
        self.operands.peek()
    }

    /// The truth of the top operand, if there is one and it isn't undefined.
    pub fn defined_truth(&self) -> Option<bool>
        ensures { IfSome result (λ truth. (v : Val) × (rest : List Val)
            × (self.now.operands ≡ v ∷ rest)
            × ((u : UndefinedBehavior) → truth_of u v ≡ Ok truth)) }
    {
        let value = self.operands.peek()?;
        if value.is_undefined() {
            return None;
        }
        Some(value.is_true())
    }

    /// The truth of the top operand, if there is one, or the error if it is undefined and has no
    /// truth under `undefined`.
    pub fn top_truth(&self, undefined: UndefinedBehavior) -> Option<Result<bool, Error>>
        ensures { MatchOption result (self.now.operands ≡ [])
            (λ answer. (v : Val) × (rest : List Val) × (self.now.operands ≡ v ∷ rest)
            × (answer ≡ truth_of undefined v)) }
    {
        let value = self.operands.peek()?;
        Some(truth(value, undefined))
    }

    /// Drops the top operand, if there is one.
    pub fn drop_top(&mut self)
        ensures { self.new ≡ record self.old { operands = drop 1 self.old.operands } }
    {
        self.operands.drop_top();
    }

    /// Drops the top `count` operands, or all if there are fewer.
    pub fn drop_operands(&mut self, count: usize)
        ensures { self.new ≡ record self.old { operands = drop count self.old.operands } }
    {
        self.operands.remove(count);
    }

    /// The top `count` operands, the lowest first, if there are that many.
    #[inline(always)]
    pub fn args(&self, count: usize) -> Option<&[Value]>
        ensures { MatchOption result (taken count [] self.now.operands ≡ None)
            (λ args. taken count [] self.now.operands
            ≡ Some (args.now, drop count self.now.operands)) }
    {
        self.operands.args(count)
    }

    /// Pops the top `count` operands, the lowest first, if there are that many. Fails only with
    /// OutOfMemory.
    pub fn take(&mut self, count: usize) -> Result<Option<Vec<Value>>, Error>
        ensures taken { MatchResult result
            (λ values. MatchOption values (taken count [] self.old.operands ≡ None)
            (λ vs. taken count [] self.old.operands ≡ Some (vs.items, self.new.operands)))
            (λ e. e ≡ ErrorKind.OutOfMemory ∷ []) }
        ensures rest { self.new ≡ record self.old { operands = self.new.operands } }
    {
        self.operands.take(count)
    }

    /// The number of operands that an instruction takes: `count`, or if that is None, the number on
    /// top, which is popped. None if the top isn't a number or counts more operands than there are.
    #[tactic(auto, using(crate::proofs::Counted::no_count))]
    pub fn take_count(&mut self, count: Option<usize>) -> Option<usize>
        ensures counted { MatchOption result (IsUncounted count self.old.operands)
            (λ n. TakesCounted count self.old.operands n self.new.operands) }
        ensures rest { self.new ≡ record self.old { operands = self.new.operands } }
    {
        if let Some(count) = count {
            return Some(count);
        }
        let counter = self.operands.pop()?;
        counted(&counter, self.operands.len())
    }

    /// Replaces the top `count` operands, or all if there are fewer, by `value`. Fails only with
    /// OutOfMemory.
    #[inline(always)]
    pub fn replace_topmost(&mut self, count: usize, value: Value) -> Result<(), Error>
        ensures ok { OnOk result
            (self.new ≡ record self.old { operands = value ∷ drop count self.old.operands }) }
        ensures kind { IfErr result (λ e. e ≡ ErrorKind.OutOfMemory ∷ []) }
        ensures rest { self.new ≡ record self.old { operands = self.new.operands } }
    {
        self.operands.replace_topmost(count, value)
    }

    /// Pushes shared copies of `values`, so that the first is on top. Fails only with OutOfMemory.
    pub fn push_each(&mut self, values: &[Value]) -> Result<(), Error>
        ensures ok { OnOk result
            (self.new ≡ record self.old { operands = values.now ++ self.old.operands }) }
        ensures kind { IfErr result (λ e. e ≡ ErrorKind.OutOfMemory ∷ []) }
        ensures rest { self.new ≡ record self.old { operands = self.new.operands } }
    {
        self.operands.push_each(values)
    }

    /// Pushes `values`, so that the last is on top. Fails only with OutOfMemory.
    pub fn append(&mut self, values: Vec<Value>) -> Result<(), Error>
        ensures ok { OnOk result
            (self.new ≡ record self.old { operands = onto values.items self.old.operands }) }
        ensures kind { IfErr result (λ e. e ≡ ErrorKind.OutOfMemory ∷ []) }
        ensures rest { self.new ≡ record self.old { operands = self.new.operands } }
    {
        self.operands.append(values)
    }

    /// Pops the top `count` pairs of operands, the lowest first, if there are that many. Fails only
    /// with OutOfMemory.
    pub fn take_pairs(&mut self, count: usize) -> Result<Option<Vec<Value>>, Error>
        ensures taken { MatchResult result
            (λ values. MatchOption values (taken (count + count) [] self.old.operands ≡ None)
            (λ vs. taken (count + count) [] self.old.operands ≡ Some (vs.items, self.new.operands)))
            (λ e. e ≡ ErrorKind.OutOfMemory ∷ []) }
        ensures rest { self.new ≡ record self.old { operands = self.new.operands } }
    {
        let held = self.operands.len();
        if held < count || held - count < count {
            return Ok(None);
        }
        self.take(count + count)
    }

    /// Pops the top operand, if there is one.
    pub fn pop(&mut self) -> Option<Value>
        ensures { MatchOption result ((self.old.operands ≡ []) × (self.new ≡ self.old))
            (λ v. self.old ≡ record self.new { operands = v ∷ self.new.operands }) }
    {
        self.operands.pop()
    }

    /// The operand that the run left, if it left exactly one.
    pub fn into_value(self) -> Option<Value>
        ensures { MatchOption result (length self.operands ≡ 1 → ⊥)
            (λ v. self.operands ≡ v ∷ []) }
    {
        let Activation { mut operands, .. } = self;
        if operands.len() != 1 {
            return None;
        }
        operands.pop()
    }

    /// Pops the top operand. Stuck if there is none.
    #[inline(always)]
    pub fn popped(&mut self) -> Result<Value, Halt>
        ensures { MatchResult result
            (λ v. self.old ≡ record self.new { operands = v ∷ self.new.operands })
            (λ halt. (halt ≡ Stuck) × (self.old.operands ≡ []) × (self.new ≡ self.old)) }
    {
        match self.operands.pop() {
            Some(value) => Ok(value),
            None => Err(Halt::Stuck),
        }
    }
}
