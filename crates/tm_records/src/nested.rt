//! A run that must finish before the next instruction.
ghost use Rattle.std.specs.Prelude.{◌≡◌, [], ◌∷◌, IfOk, IfErr, None, true};
ghost use Rattle.tm_records.specs.declared.saved.Saved.TheVariants.{Macro};

use crate::saved::{Saved, SavedMacro};
use std::alloc::Global;
use std::mem;
use tm_meaning::{RunText, StreamId, TemplateId, Wrapping};
use tm_tables::{Context, Lists};
use tm_values::{AutoEscape, Error, ErrorKind, Value};

/// What runs.
#[derive(Drop)]
pub enum RunOf {
    /// A whole stream.
    Stream(StreamId),
    /// The macro with this number in a stream, with its arguments.
    Macro(StreamId, usize, Vec<Value>),
}

/// A run that must finish before the next instruction.
#[derive(Drop)]
pub struct NestedRun {
    /// What runs.
    pub run: RunOf,
    /// Whether its text is heard.
    pub heard: bool,
    /// Whether its text becomes a value. If so, it is collected in the innermost capture, and
    /// otherwise it goes where the waiting run writes.
    pub value: bool,
    /// How its text is turned into a value, if it becomes one.
    pub text: RunText,
    /// The error kind that wraps its fault, if any.
    pub wrap: Option<Wrapping>,
    /// What is restored after it.
    pub saved: Saved,
}

impl NestedRun {
    /// Takes the run out and leaves a placeholder.
    #[inline(always)]
    pub fn take_run(&mut self) -> RunOf
        ensures run { result ≡ self.old.run }
        ensures rest { self.new ≡ record self.old { run = self.new.run } }
    {
        let own = StreamId::root(TemplateId::Own);
        mem::replace(&mut self.run, RunOf::Stream(own))
    }

    /// A placeholder for the box of a macro's run.
    pub fn of_no_macro(alloc: Global) -> NestedRun {
        let saved = SavedMacro {
            context: Context::new(alloc),
            stream: StreamId::root(TemplateId::Own),
            block: None,
            escape: AutoEscape::None,
            lists: Lists::new(alloc),
        };
        NestedRun {
            run: RunOf::Stream(StreamId::root(TemplateId::Own)),
            heard: true,
            value: true,
            text: RunText::Captured,
            wrap: None,
            saved: Saved::Macro(saved),
        }
    }

    /// Reuses this finished run for a macro's run: it runs `run`, its text becomes a value of the
    /// form `text`, and `saved` is restored after it.
    #[inline(always)]
    pub fn refill(&mut self, run: RunOf, text: RunText, saved: SavedMacro)
        ensures { self.new ≡ record {
          run = run;
          heard = true;
          value = true;
          text = text;
          wrap = None;
          saved = Macro saved;
        } }
    {
        self.run = run;
        self.heard = true;
        self.value = true;
        self.text = text;
        self.wrap = None;
        match &mut self.saved {
            Saved::Macro(before) => *before = saved,
            _ => self.saved = Saved::Macro(saved),
        }
    }

    /// Moves this into a box. Fails only with OutOfMemory.
    pub fn boxed(self, alloc: Global) -> Result<Box<NestedRun>, Error>
        ensures ok { IfOk result (λ boxed. boxed.value ≡ self) }
        ensures kind { IfErr result (λ e. e ≡ ErrorKind.OutOfMemory ∷ []) }
    {
        Ok(Box::new(alloc, self)?)
    }
}
