//! Included templates, and the modules of imports.
ghost use Rattle.std.specs.Prelude.{◌≡◌, ◌+◌, ◌≤◌, ◌∷◌, [], IfErr, IfOk, None, OnErr, OnOk, Some, false};
ghost use Rattle.tm_meaning.specs.Calls.{enter_include, first_found, include_depth, include_found, include_frames, refused};
ghost use Rattle.tm_meaning.specs.Inheritance.{joined};
ghost use Rattle.tm_meaning.specs.Memory.{is_want_of_memory};
ghost use Rattle.tm_meaning.specs.World.{Bad, Good, depth, module_with, records_of};
ghost use Rattle.tm_state.specs.Answers.{IncludeLies, IsChosen, IsFirstEntry, IsNamed, IsEntryThere, KeepsFixedAndNames, NeedsInclude};
ghost use Rattle.tm_state.specs.Answers.{NeedsSuper, OneDeeper};
ghost use Rattle.tm_state.specs.State.{lists_of, saved_of};
ghost use Rattle.tm_definitions.specs.Emitted.{text_answer};
ghost use Rattle.tm_values.specs.Answer.{IsAnswer};

use crate::state::StateData;
use std::alloc::Global;
use std::mem;
use tm_meaning::{RunText, StreamId, TemplateId, Wrapping};
use tm_operations::collection;
use tm_printing::to_text;
use tm_records::{
    INCLUDE_DEPTH, NestedRun, RunOf, Saved, SavedBlock, SavedInclude, include_cost, shared_name,
};
use tm_syntax::Name;
use tm_tables::{Host, Lists, Parties, TemplateEntry};
use tm_values::{Error, ErrorKind, SharedText, Value};

impl StateData {
    /// The run of the first existing template that `value` names, in a scope of its own if `apart`,
    /// and otherwise in the present scopes; `heard` tells whether its text is output. None if there
    /// is nothing to run: no named template exists and `missing` allows this, or the value names
    /// none. InvalidOperation if the value can't name templates, if a name that is reached isn't
    /// text, and if the run would exceed the depth limit; TemplateNotFound if no named template
    /// exists; the fault of the object that joins names; OutOfMemory. If it fails, nothing changes.
    pub fn include_run<H: Host>(
        &mut self,
        alloc: Global,
        host: &H,
        value: &Value,
        apart: bool,
        missing: bool,
        heard: bool,
    ) -> Result<Option<Box<NestedRun>>, Error>
        ensures ok { IfOk result (λ found. NeedsInclude heard found
            (enter_include (H.program host.now).host apart value.now missing self.old)
            self.old self.new) }
        ensures lies { IfOk result (λ found.
            IncludeLies (H.program host.now).host.limit found self.old self.new) }
        ensures err { IfErr result (λ e. is_want_of_memory e ≡ false →
            enter_include (H.program host.now).host apart value.now missing self.old
            ≡ refused e self.old) }
        ensures unchanged { OnErr result (self.new ≡ self.old) }
        ensures kept { KeepsFixedAndNames self.old self.new }
    {
        let (found, names_none) = self.chosen(alloc, host, value)?;
        match found {
            Some(entry) => {
                let run = self.template_run(alloc, host, entry, apart, heard)?;
                Ok(Some(run))
            }
            None if missing || names_none => Ok(None),
            None => Err(Error::from(ErrorKind::TemplateNotFound)),
        }
    }

    /// The first existing template that `value` names, as a text or as items that are texts, and
    /// whether the value names none. InvalidOperation for other values, for a namespace without a
    /// record, and if an item that is reached isn't text; the fault of the object that joins names;
    /// OutOfMemory.
    fn chosen<'a, H: Host>(
        &self,
        alloc: Global,
        host: &'a H,
        value: &Value,
    ) -> Result<(Option<TemplateEntry<'a>>, bool), Error>
        ensures ok { IfOk result (λ r.
            IsChosen r.0 r.1 (H.program host.now).host value.now self.now) }
        ensures err { IfErr result (λ e. is_want_of_memory e ≡ false → (apart missing : _) →
            enter_include (H.program host.now).host apart value.now missing self.now
            ≡ refused e self.now) }
    {
        if let Some(name) = value.as_str() {
            return Ok((self.named(alloc, host, name)?, false));
        }
        let choices = collection(alloc, value, self)?;
        let found = self.first_found(alloc, host, choices.as_slice())?;
        Ok((found, choices.as_slice().is_empty()))
    }

    /// The first existing template of `choices`, each joined with the running template's name.
    /// InvalidOperation if a choice that is reached isn't text; the fault of the object that joins
    /// names; OutOfMemory.
    fn first_found<'a, H: Host>(
        &self,
        alloc: Global,
        host: &'a H,
        choices: &[Value],
    ) -> Result<Option<TemplateEntry<'a>>, Error>
        ensures ok { IfOk result (λ found.
            IsFirstEntry found (H.program host.now).host choices.now self.now) }
        ensures err { IfErr result (λ e. is_want_of_memory e ≡ false →
            first_found (H.program host.now).host choices.now self.now ≡ Bad e self.now) }
    {
        for choice in choices {
            let Some(text) = choice.as_str() else {
                return Err(Error::from(ErrorKind::InvalidOperation));
            };
            if let Some(entry) = self.named(alloc, host, text)? {
                return Ok(Some(entry));
            }
        }
        Ok(None)
    }

    /// The template that `name` means in the running template, if it exists. The fault of the
    /// object that joins names; OutOfMemory.
    #[inline(always)]
    fn named<'a, H: Host>(
        &self,
        alloc: Global,
        host: &'a H,
        name: &str,
    ) -> Result<Option<TemplateEntry<'a>>, Error>
        ensures ok { IfOk result (λ found.
            IsNamed found (H.program host.now).host name.now self.now) }
        ensures err { IfErr result (λ e. is_want_of_memory e ≡ false →
            joined (H.program host.now).host name.now self.now ≡ Bad e self.now) }
    {
        if !host.objects().joins_names() {
            return Ok(host.entry(name, self.template_place));
        }
        let joined = host.objects().join(
            alloc,
            name,
            host.template_name(&self.stream.template, self.template_place),
        )?;
        Ok(host.entry(joined.as_str(), self.template_place))
    }

    /// The run of a template, in a scope of its own if `apart`, and otherwise in the present
    /// scopes. InvalidOperation if it would exceed the depth limit; OutOfMemory. If it fails,
    /// nothing changes.
    fn template_run<H: Host>(
        &mut self,
        alloc: Global,
        host: &H,
        entry: TemplateEntry<'_>,
        apart: bool,
        heard: bool,
    ) -> Result<Box<NestedRun>, Error>
        requires { IsEntryThere entry (H.program host.now).host }
        ensures ok { IfOk result (λ run. (missing : _) → NeedsSuper heard false run.value
            (include_found (H.program host.now).host apart missing
            (Some (TemplateId.Entry entry.entry.name.now)) self.old)
            self.old self.new) }
        ensures deeper { IfOk result (λ run.
            OneDeeper (H.program host.now).host.limit run.value.saved self.old self.new) }
        ensures err { IfErr result (λ e. is_want_of_memory e ≡ false → (missing : _) →
            include_found (H.program host.now).host apart missing
            (Some (TemplateId.Entry entry.entry.name.now)) self.old
            ≡ refused e self.old) }
        ensures unchanged { OnErr result (self.new ≡ self.old) }
        ensures kept { KeepsFixedAndNames self.old self.new }
    {
        if self.depths_left(host) < include_cost(apart) {
            return Err(Error::from(ErrorKind::InvalidOperation));
        }
        let template = TemplateId::Entry(entry.name.share()?);
        let lists = self.lists.own(alloc, &template, entry.blocks)?;
        let running = StreamId::root(template.share()?);
        let block = shared_name(&self.block)?;
        let (scopes, closure) = (self.height(), self.context.own_closure());
        self.open_template(alloc, host, apart)?;
        let saved = self.run_template(host, &entry, running, block, lists, scopes, closure);
        let run = NestedRun {
            run: RunOf::Stream(StreamId::root(template)),
            heard,
            value: false,
            text: RunText::Captured,
            wrap: Some(Wrapping::BadInclude),
            saved: Saved::Include(saved),
        };
        self.boxed(alloc, run)
    }

    /// Opens a scope for a template that runs `apart`, and otherwise detaches the innermost scope's
    /// own closure. Fails only with OutOfMemory; then nothing changes.
    #[inline(always)]
    fn open_template<H: Host>(&mut self, alloc: Global, host: &H, apart: bool) -> Result<(), Error>
        requires fits { depth self.old.scopes + 1 ≤ (H.program host.now).host.limit }
        ensures ok { OnOk result (self.new ≡ record self.old {
          scopes = record self.old.scopes {
            frames = include_frames apart self.old.scopes.frames;
          };
        }) }
        ensures kind { IfErr result (λ e. e ≡ ErrorKind.OutOfMemory ∷ []) }
        ensures err { OnErr result (self.new ≡ self.old) }
    {
        if apart {
            return self.push_scope(alloc, host.recursion_limit());
        }
        self.context.set_own_closure(None);
        Ok(())
    }

    /// Starts a template in the present scopes, deeper and with its own escape and lists. Returns
    /// what this replaces, together with `scopes` and `closure` from before.
    #[inline(always)]
    fn run_template<H: Host>(
        &mut self,
        host: &H,
        entry: &TemplateEntry<'_>,
        stream: StreamId,
        block: Option<Name>,
        lists: Lists,
        scopes: usize,
        closure: Option<usize>,
    ) -> SavedInclude
        requires fits { depth self.old.scopes + include_depth ≤ (H.program host.now).host.limit }
        requires same { block ≡ self.old.block }
        ensures saved { result ≡ record {
          replaced = record (saved_of self.old) { scopes = scopes };
          closure = closure;
          lists = lists_of self.old;
        } }
        ensures runs { self.new ≡ record self.old {
          scopes = record {
            frames = self.old.scopes.frames;
            outer = include_depth + self.old.scopes.outer;
          };
          stream = stream;
          escape = entry.now.escape;
          blocks = lists.blocks;
          places = lists.places;
          loaded = lists.loaded;
        } }
    {
        self.template_place = entry.place;
        let outer = self.go_deeper(host, INCLUDE_DEPTH);
        SavedInclude {
            replaced: SavedBlock {
                stream: mem::replace(&mut self.stream, stream),
                block,
                escape: mem::replace(&mut self.escape, entry.escape),
                scopes,
                outer,
            },
            closure,
            lists: mem::replace(&mut self.lists, lists),
        }
    }

    /// A module of the names that the innermost scope exports, with the text of `value`. Fails if
    /// the value can't be printed; OutOfMemory.
    pub fn module(&self, alloc: Global, value: Value) -> Result<Value, Error>
        ensures ok { IfOk result (λ v. module_with value self.now ≡ Good v self.now) }
        ensures err { IfErr result (λ e. is_want_of_memory e ≡ false →
            module_with value self.now ≡ Bad e self.now) }
    {
        let text = self.printed(alloc, value)?;
        let pairs = self.context.exported(alloc)?;
        Value::module(alloc, pairs, text)
    }

    /// The text of `value`. Fails if it can't be printed; OutOfMemory.
    fn printed(&self, alloc: Global, value: Value) -> Result<SharedText, Error>
        ensures { IsAnswer result (text_answer (records_of self.now) value) }
    {
        match value.into_text() {
            Ok((text, _safe)) => Ok(text),
            Err(value) => {
                let text = to_text(alloc, &value, self)?;
                Ok(SharedText::from_string(text)?)
            }
        }
    }
}
