//! `super()`, and the parents that templates load.
ghost use Rattle.std.specs.Prelude.{◌≡◌, ◌+◌, ◌≤◌, ◌∷◌, [], IfErr, IfOk, None, OnErr, OnOk, Some, false};
ghost use Rattle.tm_meaning.specs.Calls.{call_super, enter_super, refused};
ghost use Rattle.tm_meaning.specs.Inheritance.{load, load_named, names_left};
ghost use Rattle.tm_meaning.specs.Memory.{is_want_of_memory};
ghost use Rattle.tm_meaning.specs.World.{Bad, Good};
ghost use Rattle.tm_state.specs.Answers.{IsCall, KeepsFixedAndNames, LeavesState, NamedBecomes, NeedsSuper, OneDeeper};
ghost use Rattle.tm_state.specs.State.{IsNextOf, saved_of, template_after};

use crate::state::StateData;
use std::alloc::Global;
use tm_meaning::{RunText, StreamId, TemplateId, Wrapping};
use tm_records::{CallResult, NestedRun, RunOf, Saved, SavedBlock, shared_name};
use tm_syntax::Name;
use tm_tables::{Host, NO_PLACE, Parties};
use tm_values::{Error, ErrorKind, Value};

impl StateData {
    /// Calls `super()`, which takes no arguments. InvalidOperation if `args` isn't empty, and the
    /// errors of `super_run`.
    pub(crate) fn call_super<H: Host>(
        &mut self,
        alloc: Global,
        host: &H,
        args: &[Value],
    ) -> Result<CallResult, Error>
        ensures called { NamedBecomes result
            (call_super (H.program host.now).host args.now self.old) self.new }
        ensures leaves { LeavesState (H.program host.now).host.limit result self.old self.new }
    {
        if !args.is_empty() {
            return Err(Error::from(ErrorKind::InvalidOperation));
        }
        let run = self.super_run(alloc, host, true, true)?;
        Ok(CallResult::Run(run))
    }

    /// The run of the next block of the running block's name, toward the root, in a scope of its
    /// own; `heard` and `value` tell what becomes of its text. InvalidOperation if no block runs,
    /// if it has no next one, or if the scope would exceed the depth limit; OutOfMemory. If it
    /// fails, nothing changes.
    pub fn super_run<H: Host>(
        &mut self,
        alloc: Global,
        host: &H,
        heard: bool,
        value: bool,
    ) -> Result<Box<NestedRun>, Error>
        ensures ok { IfOk result (λ run. NeedsSuper heard value run.value
            (enter_super (H.program host.now).host self.old) self.old self.new) }
        ensures deeper { IfOk result (λ run.
            OneDeeper (H.program host.now).host.limit run.value.saved self.old self.new) }
        ensures call { IfOk result (λ run. IsCall run.value.saved) }
        ensures err { IfErr result (λ e. is_want_of_memory e ≡ false →
            enter_super (H.program host.now).host self.old ≡ refused e self.old) }
        ensures unchanged { OnErr result (self.new ≡ self.old) }
        ensures kept { KeepsFixedAndNames self.old self.new }
        ensures blocks { self.new.blocks ≡ self.old.blocks }
    {
        let (stream, name, next) = self.next_block()?;
        let running = stream.share()?;
        let places = self.lists.places_with(alloc, name, next)?;
        let replaced = self.saved_block()?;
        self.push_scope(alloc, host.recursion_limit())?;
        let saved = self.run_super(running, replaced, places);
        let run = NestedRun {
            run: RunOf::Stream(stream),
            heard,
            value,
            text: RunText::Captured,
            wrap: Some(Wrapping::EvalBlock),
            saved: Saved::Super(saved),
        };
        self.boxed(alloc, run)
    }

    /// The stream of the next block toward the root, the name of the running block, and the next
    /// block's place in the list of that name. InvalidOperation if no block runs or it has no next
    /// one; OutOfMemory if a reference count overflows.
    fn next_block(&self) -> Result<(StreamId, Name, usize), Error>
        ensures ok { IfOk result (λ r. IsNextOf r.0 r.1 r.2 self.now) }
        ensures err { IfErr result (λ e. is_want_of_memory e ≡ false →
            (e ≡ ErrorKind.InvalidOperation ∷ []) × (template_after self.now ≡ None)) }
    {
        let Some(name) = &self.block else {
            return Err(Error::from(ErrorKind::InvalidOperation));
        };
        let place = self.lists.place(name.as_str());
        let Some((next, template)) = self.lists.after(name, place) else {
            return Err(Error::from(ErrorKind::InvalidOperation));
        };
        let stream = StreamId::block(template.share()?, name.share()?);
        Ok((stream, name.share()?, next))
    }

    /// What is restored after a block. Fails only with OutOfMemory, if a reference count overflows.
    pub(crate) fn saved_block(&self) -> Result<SavedBlock, Error>
        ensures ok { IfOk result (λ saved. saved ≡ saved_of self.now) }
        ensures kind { IfErr result (λ e. e ≡ ErrorKind.OutOfMemory ∷ []) }
    {
        Ok(SavedBlock {
            stream: self.stream.share()?,
            block: shared_name(&self.block)?,
            escape: self.escape,
            scopes: self.height(),
            outer: self.context.outer(),
        })
    }

    /// Makes `stream` the running stream. Fails only with OutOfMemory, if a reference count
    /// overflows; then nothing changes.
    pub fn set_stream(&mut self, stream: &StreamId) -> Result<(), Error>
        ensures ok { OnOk result (self.new ≡ record self.old { stream = stream.now }) }
        ensures kind { IfErr result (λ e. e ≡ ErrorKind.OutOfMemory ∷ []) }
        ensures err { OnErr result (self.new ≡ self.old) }
    {
        self.stream = stream.share()?;
        Ok(())
    }

    /// Loads the parent template that `value` names and appends its blocks to the lists.
    /// InvalidOperation if the value isn't text, if a parent is already waiting, inside a capture
    /// of the run, and if the template was loaded before; TemplateNotFound if there is no such
    /// template; the fault of the object that joins names; OutOfMemory, and then its blocks may
    /// have been appended already.
    pub fn load<H: Host>(
        &mut self,
        alloc: Global,
        host: &H,
        value: &Value,
        waiting: &Option<TemplateId>,
        inside: bool,
    ) -> Result<TemplateId, Error>
        ensures ok { IfOk result (λ t.
            load (H.program host.now).host value.now waiting.now inside self.old
            ≡ Good t self.new) }
        ensures err { IfErr result (λ e. is_want_of_memory e ≡ false →
            load (H.program host.now).host value.now waiting.now inside self.old ≡ Bad e self.new) }
        ensures rest { self.new ≡ record self.old {
          blocks = self.new.blocks;
          loaded = self.new.loaded;
        } }
        ensures fewer { OnOk result
            (names_left (H.program host.now).host self.new + 1
            ≤ names_left (H.program host.now).host self.old) }
        ensures names { OnErr result (self.new.loaded ≡ self.old.loaded) }
    {
        let name = self.parent_name(alloc, host, value, waiting, inside)?;
        self.load_named(alloc, host, name)
    }

    /// The name of the template that `value` names. InvalidOperation if the value isn't text, if a
    /// parent is already waiting, and inside a capture of the run; the fault of the object that
    /// joins names; OutOfMemory.
    fn parent_name<H: Host>(
        &self,
        alloc: Global,
        host: &H,
        value: &Value,
        waiting: &Option<TemplateId>,
        inside: bool,
    ) -> Result<Name, Error>
        ensures ok { IfOk result (λ name.
            load (H.program host.now).host value.now waiting.now inside self.now
            ≡ load_named (H.program host.now).host name self.now) }
        ensures err { IfErr result (λ e. is_want_of_memory e ≡ false →
            load (H.program host.now).host value.now waiting.now inside self.now ≡ Bad e self.now) }
    {
        let Some(name) = value.as_str() else {
            return Err(Error::from(ErrorKind::InvalidOperation));
        };
        if waiting.is_some() || inside {
            return Err(Error::from(ErrorKind::InvalidOperation));
        }
        host.objects().join(
            alloc,
            name,
            host.template_name(&self.stream.template, self.template_place),
        )
    }

    /// Loads the template `name`. InvalidOperation if it was loaded before, TemplateNotFound if
    /// there is none; OutOfMemory.
    fn load_named<H: Host>(
        &mut self,
        alloc: Global,
        host: &H,
        name: Name,
    ) -> Result<TemplateId, Error>
        ensures ok { IfOk result (λ t.
            load_named (H.program host.now).host name self.old ≡ Good t self.new) }
        ensures err { IfErr result (λ e. is_want_of_memory e ≡ false →
            load_named (H.program host.now).host name self.old ≡ Bad e self.new) }
        ensures rest { self.new ≡ record self.old {
          blocks = self.new.blocks;
          loaded = self.new.loaded;
        } }
        ensures fewer { OnOk result
            (names_left (H.program host.now).host self.new + 1
            ≤ names_left (H.program host.now).host self.old) }
        ensures names { OnErr result (self.new.loaded ≡ self.old.loaded) }
    {
        if self.lists.is_loaded(name.as_str()) {
            return Err(Error::from(ErrorKind::InvalidOperation));
        }
        let Some(entry) = host.entry(name.as_str(), NO_PLACE) else {
            return Err(Error::from(ErrorKind::TemplateNotFound));
        };
        let template = TemplateId::Entry(name.share()?);
        self.lists.append(alloc, &template, entry.blocks)?;
        self.lists.add_loaded(alloc, name)?;
        Ok(template)
    }
}
