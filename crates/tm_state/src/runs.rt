//! Runs: entering blocks, and restoring the state after a run.
ghost use Rattle.std.specs.Prelude.{◌≡◌, ◌+◌, ◌-◌, ◌≤◌, ◌∷◌, [], IfErr, IfOk, None, OnErr, OnOk, Some, false};
ghost use Rattle.tm_meaning.specs.Calls.{deeper, enter_block, refused};
ghost use Rattle.tm_meaning.specs.Memory.{is_want_of_memory};
ghost use Rattle.tm_meaning.specs.World.{depth};
ghost use Rattle.tm_state.specs.Answers.{Becomes, HasOneMore, KeepsFixedAndNames, LeavesState};
ghost use Rattle.tm_state.specs.State.{IsBlockOf, after_block, after_include, after_macro, after_super, lists_of, put_back, runs_block};
ghost use Rattle.tm_state.specs.State.{saved_of, saved_scopes, template_of_block};
ghost use Rattle.tm_values.specs.Answer.{IsLent};

use crate::state::StateData;
use std::alloc::Global;
use std::mem;
use tm_meaning::{RunText, StreamId};
use tm_records::{
    CallResult, NestedRun, RunOf, Saved, SavedBlock, SavedInclude, SavedMacro, SavedSuper,
};
use tm_syntax::Name;
use tm_tables::{Context, Host, Lists, NameTable};
use tm_values::{Error, ErrorKind, Value};

impl StateData {
    /// Moves the scopes `levels` deeper, within the limit, and returns the former depth of the
    /// outermost one.
    pub(crate) fn go_deeper<H: Host>(&mut self, host: &H, levels: usize) -> usize
        requires { depth self.old.scopes + levels ≤ (H.program host.now).host.limit }
        ensures outer { result ≡ self.old.scopes.outer }
        ensures deeper { self.new ≡ deeper levels self.old }
    {
        // The limit bounds the sum.
        let _limit = host.recursion_limit();
        let outer = self.context.outer();
        self.context.set_outer(levels + outer);
        outer
    }

    /// Sets the depth of the outermost scope.
    pub(crate) fn stand_at(&mut self, outer: usize)
        ensures { self.new ≡ record self.old { scopes = record self.old.scopes { outer = outer } } }
    {
        self.context.set_outer(outer);
    }

    /// Enters the block `name` in a scope of its own, and returns its stream and what is restored
    /// after it. UnknownBlock if there is no such block, InvalidOperation if it is required and not
    /// overridden, or if its scope would exceed the depth limit; OutOfMemory if memory runs out. If
    /// it fails, nothing changes.
    pub fn enter_block<H: Host>(
        &mut self,
        alloc: Global,
        host: &H,
        name: &Name,
    ) -> Result<(StreamId, SavedBlock), Error>
        ensures ok { IfOk result (λ r. (r.1 ≡ saved_of self.old)
            × (enter_block (H.program host.now).host name.now self.old ≡
            runs_block r.0 self.old self.new)) }
        ensures more { OnOk result (HasOneMore self.old self.new) }
        ensures deeper { OnOk result ((self.new.scopes.outer ≡ self.old.scopes.outer)
            × (depth self.new.scopes ≤ (H.program host.now).host.limit)) }
        ensures places { self.new.places ≡ self.old.places }
        ensures err { IfErr result (λ e. is_want_of_memory e ≡ false →
            enter_block (H.program host.now).host name.now self.old ≡ refused e self.old) }
        ensures unchanged { OnErr result (self.new ≡ self.old) }
        ensures kept { KeepsFixedAndNames self.old self.new }
        ensures blocks { self.new.blocks ≡ self.old.blocks }
    {
        let (stream, is_alone) = self.block_stream(name)?;
        if is_alone && host.is_required(&stream) {
            return Err(Error::from(ErrorKind::InvalidOperation));
        }
        let running = stream.share()?;
        let block = name.share()?;
        let scopes = self.height();
        self.push_scope(alloc, host.recursion_limit())?;
        let saved = self.run_block(running, block, scopes);
        Ok((stream, saved))
    }

    /// Calls the block `name`; its text becomes the value of the call. Errors as in `enter_block`.
    pub fn call_block<H: Host>(
        &mut self,
        alloc: Global,
        host: &H,
        name: &Name,
    ) -> Result<CallResult, Error>
        ensures called { Becomes result
            (enter_block (H.program host.now).host name.now self.old) self.new }
        ensures leaves { LeavesState (H.program host.now).host.limit result self.old self.new }
    {
        let (stream, saved) = self.enter_block(alloc, host, name)?;
        let run = NestedRun {
            run: RunOf::Stream(stream),
            heard: true,
            value: true,
            text: RunText::Captured,
            wrap: None,
            saved: Saved::Block(saved),
        };
        Ok(CallResult::Run(self.boxed(alloc, run)?))
    }

    /// The name of the running block, if any.
    pub fn current_block(&self) -> Option<&str>
        ensures { IsLent result self.now.block }
    {
        match &self.block {
            Some(name) => Some(name.as_str()),
            None => None,
        }
    }

    /// The stream of the current block named `name`, and whether no other template has such a
    /// block. UnknownBlock if there is no such block, OutOfMemory if a reference count overflows.
    fn block_stream(&self, name: &Name) -> Result<(StreamId, bool), Error>
        ensures ok { IfOk result (λ r. IsBlockOf r.0 r.1 name.now self.now) }
        ensures err { IfErr result (λ e. is_want_of_memory e ≡ false →
            (e ≡ ErrorKind.UnknownBlock ∷ []) × (template_of_block name.now self.now ≡ None)) }
    {
        let place = self.lists.place(name.as_str());
        let Some((template, alone)) = self.lists.at(name, place) else {
            return Err(Error::from(ErrorKind::UnknownBlock));
        };
        let stream = StreamId::block(template.share()?, name.share()?);
        Ok((stream, alone))
    }

    /// Starts a block and returns what this replaces, with the number of scopes before its own.
    fn run_block(&mut self, stream: StreamId, block: Name, scopes: usize) -> SavedBlock
        ensures saved { result ≡ record (saved_of self.old) { scopes = scopes } }
        ensures runs { self.new ≡ record self.old { stream = stream; block = Some block } }
    {
        SavedBlock {
            stream: mem::replace(&mut self.stream, stream),
            block: mem::replace(&mut self.block, Some(block)),
            escape: self.escape,
            scopes,
            outer: self.context.outer(),
        }
    }

    /// Starts the next block of `super()` with these places in the lists of blocks, and returns
    /// what this replaces.
    pub(crate) fn run_super(
        &mut self,
        stream: StreamId,
        replaced: SavedBlock,
        places: NameTable<usize>,
    ) -> SavedSuper
        ensures saved { result ≡ record { replaced = replaced; places = self.old.places } }
        ensures runs { self.new ≡ record self.old { stream = stream; places = places } }
    {
        self.stream = stream;
        SavedSuper {
            replaced,
            places: self.lists.replace_places(places),
        }
    }

    /// Starts a macro in scopes of its own and returns what this replaces, with the shared lists.
    #[inline(always)]
    pub(crate) fn run_macro(
        &mut self,
        stream: StreamId,
        context: Context,
        lists: Lists,
    ) -> SavedMacro
        requires { lists ≡ lists_of self.old }
        ensures saved { result ≡ saved_scopes self.old }
        ensures runs { self.new ≡ record self.old {
          scopes = context;
          stream = stream;
          block = None;
        } }
    {
        SavedMacro {
            context: mem::replace(&mut self.context, context),
            stream: mem::replace(&mut self.stream, stream),
            block: mem::replace(&mut self.block, None),
            escape: self.escape,
            lists,
        }
    }

    /// Moves a run into a box. OutOfMemory if memory runs out; then what the run replaced is
    /// restored.
    #[inline(always)]
    pub(crate) fn boxed(&mut self, alloc: Global, run: NestedRun) -> Result<Box<NestedRun>, Error>
        ensures ok { IfOk result (λ boxed. boxed.value ≡ run) }
        ensures stays { OnOk result (self.new ≡ self.old) }
        ensures kind { IfErr result (λ e. e ≡ ErrorKind.OutOfMemory ∷ []) }
        ensures back { OnErr result (self.new ≡ put_back run.saved self.old) }
    {
        match Box::new(alloc, run) {
            Ok(run) => Ok(run),
            Err(failed) => {
                let mut run = failed.value;
                self.put_back(&mut run.saved);
                Err(Error::from(ErrorKind::OutOfMemory))
            }
        }
    }

    /// Restores what a run replaced and leaves the scopes that it opened. `saved` is of no use
    /// afterwards.
    pub fn put_back(&mut self, saved: &mut Saved)
        ensures { self.new ≡ put_back saved.old self.old }
    {
        match saved {
            Saved::Block(saved) => self.leave_block(saved),
            Saved::Super(saved) => self.leave_super(saved),
            Saved::Macro(saved) => self.leave_macro(saved),
            Saved::Include(saved) => self.leave_include(saved),
        }
    }

    /// `put_back` for a run in a box. The box of a macro's run is kept for reuse.
    pub fn put_back_of(&mut self, mut run: Box<NestedRun>)
        ensures { self.new ≡ put_back run.value.saved self.old }
    {
        let saved = match &mut run.saved {
            Saved::Macro(saved) => saved,
            saved => return self.put_back(saved),
        };
        self.leave_macro(saved);
        self.rooms.keep_run(run);
    }

    /// Leaves the scopes that a block opened and restores what it replaced.
    #[inline(always)]
    fn leave_block(&mut self, saved: &mut SavedBlock)
        ensures { self.new ≡ after_block saved.old self.old }
    {
        self.context.cut_to(saved.scopes, saved.outer);
        mem::swap(&mut self.stream, &mut saved.stream);
        mem::swap(&mut self.block, &mut saved.block);
        self.escape = saved.escape;
    }

    /// Leaves the scopes that a `super()` opened and restores what it replaced.
    fn leave_super(&mut self, saved: &mut SavedSuper)
        ensures { self.new ≡ after_super saved.old self.old }
    {
        self.leave_block(&mut saved.replaced);
        self.lists.swap_places(&mut saved.places);
    }

    /// Leaves a macro's scopes and restores what it replaced.
    fn leave_macro(&mut self, saved: &mut SavedMacro)
        ensures { self.new ≡ after_macro saved.old self.old }
    {
        let SavedMacro {
            context,
            stream,
            block,
            escape,
            lists,
        } = saved;
        self.rooms.contexts.swap_back(&mut self.context, context);
        mem::swap(&mut self.stream, stream);
        mem::swap(&mut self.block, block);
        self.escape = *escape;
        // A kept box owns no lists.
        let none = Lists::new(self.rooms.allocator());
        self.lists = mem::replace(lists, none);
    }

    /// Leaves the scopes that an include opened and restores what it replaced. Names that it bound
    /// in the remaining scopes stay.
    fn leave_include(&mut self, saved: &mut SavedInclude)
        ensures { self.new ≡ after_include saved.old self.old }
    {
        self.leave_block(&mut saved.replaced);
        self.context.set_own_closure(saved.closure);
        mem::swap(&mut self.lists, &mut saved.lists);
    }

    /// An empty vector for a run's operands.
    pub fn take_operands(&mut self, alloc: Global) -> Vec<Value>
        ensures empty { result.items ≡ [] }
        ensures unchanged { self.new ≡ self.old }
    {
        self.rooms.take_operands(alloc)
    }

    /// Keeps the memory of a run's operands for another run.
    pub fn keep_operands(&mut self, operands: Vec<Value>)
        ensures { self.new ≡ self.old }
    {
        self.rooms.keep_operands(operands);
    }
}
