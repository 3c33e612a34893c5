//! Macros: their closures, values, arguments and runs.
ghost use Rattle.std.specs.Prelude.{◌≡◌, ◌+◌, ◌≤◌, ◌<◌, ◌∷◌, [], IfErr, IfOk, IfSome, None, Ok, OnErr, OnOk, Some, false, length, map as each};
ghost use Rattle.std.specs.Rc.{rc_str_bytes};
ghost use Rattle.tm_meaning.specs.Calls.{enter_macro, known_stream, macro_scopes, refused};
ghost use Rattle.tm_meaning.specs.Memory.{is_want_of_memory};
ghost use Rattle.tm_meaning.specs.World.{Bad, Good, HostValue, closing_over, depth, enclose, find_name, make_macro, own_closure, put_enclosed, view_of};
ghost use Rattle.tm_state.specs.Answers.{CallDeeper, KeepsFixedAndNames, NeedsMacro};
ghost use Rattle.tm_state.specs.State.{in_macro, runs_macro, saved_scopes};
ghost use Rattle.tm_values.specs.Val.{macro};
ghost use Rattle.tm_values.specs.Answer.{IsLent, OkOrOutOfMemory};

use crate::state::StateData;
use std::alloc::Global;
use std::rc::RcStr;
use tm_meaning::{RunText, StreamId};
use tm_records::{NestedRun, RunOf, bind, caller_of};
use tm_syntax::Name;
use tm_tables::{Context, Found, Host};
use tm_values::{Error, ErrorKind, MacroValue, Node, Value};

/// How much deeper than its call a macro's outer scope is.
const MACRO_DEPTH: usize = 4;

/// The macro that `value` is, if it is one.
fn macro_in(value: &Value) -> Option<&MacroValue>
    ensures { IfSome result (λ m. value.now ≡ macro m.now) }
{
    match &value.node {
        Node::Macro(declared) => Some(declared.as_ref()),
        _ => None,
    }
}

impl StateData {
    /// The number of the closure that was made in the innermost scope, if any.
    pub fn own_closure(&self) -> Option<usize>
        ensures { result ≡ own_closure self.now.scopes.frames }
    {
        self.context.own_closure()
    }

    /// Binds `name` to its present value, or undefined, in the innermost scope's own closure, which
    /// is made if there is none. If the closure binds the name already, nothing changes.
    /// InvalidOperation if the lookup meets a context value without a record; OutOfMemory. If it
    /// fails, nothing changes.
    pub fn enclose<H: Host>(&mut self, alloc: Global, host: &H, name: &Name) -> Result<(), Error>
        ensures ok { OnOk result
            (enclose (H.program host.now).host name.now self.old ≡ Good tt self.new) }
        ensures err { IfErr result (λ e. is_want_of_memory e ≡ false →
            enclose (H.program host.now).host name.now self.old ≡ Bad e self.old) }
        ensures unchanged { OnErr result (self.new ≡ self.old) }
        ensures rest { self.new ≡ record self.old {
          scopes = self.new.scopes;
          closures = self.new.closures;
        } }
        ensures height { length self.new.scopes.frames ≡ length self.old.scopes.frames }
        ensures outer { self.new.scopes.outer ≡ self.old.scopes.outer }
    {
        let own = self.context.own_closure();
        if self.closures.get(own, name).is_some() {
            return Ok(());
        }
        let value = match self.lookup(host, name)? {
            Some(value) => value,
            None => Value::undefined(),
        };
        self.enclose_value(alloc, own, name.share()?, value)
    }

    /// Binds `name` to `value` in the innermost scope's own closure, which is made if there is
    /// none. Fails only with OutOfMemory; then nothing changes.
    #[tactic(auto, using(crate::proofs::Stored::made, crate::proofs::Stored::not_made, crate::proofs::Stored::put_more))]
    fn enclose_value(
        &mut self,
        alloc: Global,
        own: Option<usize>,
        name: Name,
        value: Value,
    ) -> Result<(), Error>
        requires { own ≡ own_closure self.old.scopes.frames }
        ensures ok { OnOk result (self.new ≡ put_enclosed name value (closing_over own self.old)) }
        ensures kind { IfErr result (λ e. e ≡ ErrorKind.OutOfMemory ∷ []) }
        ensures err { OnErr result (self.new ≡ self.old) }
    {
        if let Some(number) = own {
            return self.closures.put(number, name, value);
        }
        if self.context.height() == 0 {
            return Ok(());
        }
        let number = self.closures.len();
        self.closures.add(alloc, name, value)?;
        self.context.set_own_closure(Some(number));
        Ok(())
    }

    /// Makes a macro of the running stream: `number` is its entry there, and `caller` tells whether
    /// it takes `caller`. Fails only with OutOfMemory; then nothing changes.
    pub fn make_macro(
        &mut self,
        alloc: Global,
        number: usize,
        closure: Option<usize>,
        name: &Name,
        arguments: Vec<RcStr>,
        caller: bool,
    ) -> Result<Value, Error>
        ensures ok { IfOk result (λ v. make_macro number closure name.now
            (each rc_str_bytes arguments.items) caller self.old ≡ Good v self.new) }
        ensures kind { IfErr result (λ e. e ≡ ErrorKind.OutOfMemory ∷ []) }
        ensures err { OnErr result (self.new ≡ self.old) }
        ensures rest { self.new ≡ record self.old { streams = self.new.streams } }
    {
        let stream = self.streams.number_of(&self.stream);
        let text = name.text()?;
        let declared = MacroValue::new(text, arguments, caller, self.id(), stream, number, closure);
        let value = Value::declared(alloc, declared)?;
        self.streams.add(stream, &self.stream)?;
        Ok(value)
    }

    /// The run of a macro called with `args`, `levels` deeper than the present scopes; `text` tells
    /// how its text becomes a value. InvalidOperation if the macro belongs to another state, if its
    /// stream or closure is missing, or if its scopes would exceed the depth limit;
    /// TooManyArguments if `args` don't fit; OutOfMemory. If it fails, nothing changes.
    #[inline(always)]
    pub(crate) fn macro_run<H: Host>(
        &mut self,
        alloc: Global,
        host: &H,
        declared: &MacroValue,
        args: &[Value],
        levels: usize,
        text: RunText,
    ) -> Result<Box<NestedRun>, Error>
        ensures ok { IfOk result (λ run. NeedsMacro text run.value (enter_macro levels
            (H.program host.now).host declared.now args.now self.old) self.old self.new) }
        ensures deeper { IfOk result (λ run.
            CallDeeper (H.program host.now).host.limit run.value.saved self.old self.new) }
        ensures err { IfErr result (λ e. is_want_of_memory e ≡ false → enter_macro levels
            (H.program host.now).host declared.now args.now self.old ≡ refused e self.old) }
        ensures unchanged { OnErr result (self.new ≡ self.old) }
        ensures kept { KeepsFixedAndNames self.old self.new }
        ensures blocks { self.new.blocks ≡ self.old.blocks }
    {
        let mut entry = self.macro_box(alloc)?;
        self.enter_macro(alloc, host, declared, args, levels, text, &mut *entry)?;
        Ok(entry)
    }

    /// A box for a macro's run, a kept one or a new one. Fails only with OutOfMemory.
    fn macro_box(&mut self, alloc: Global) -> Result<Box<NestedRun>, Error>
        ensures unchanged { self.new ≡ self.old }
        ensures kind { IfErr result (λ e. e ≡ ErrorKind.OutOfMemory ∷ []) }
    {
        match self.rooms.take_run() {
            Some(kept) => Ok(kept),
            None => NestedRun::of_no_macro(alloc).boxed(alloc),
        }
    }

    /// Enters a macro called with `args` and writes its run and what is restored after it into
    /// `entry`. Errors as in `macro_run`; then nothing changes.
    #[inline(always)]
    fn enter_macro<H: Host>(
        &mut self,
        alloc: Global,
        host: &H,
        declared: &MacroValue,
        args: &[Value],
        levels: usize,
        text: RunText,
        entry: &mut NestedRun,
    ) -> Result<(), Error>
        ensures ok { OnOk result (NeedsMacro text entry.new (enter_macro levels
            (H.program host.now).host declared.now args.now self.old) self.old self.new) }
        ensures deeper { OnOk result
            (CallDeeper (H.program host.now).host.limit entry.new.saved self.old self.new) }
        ensures err { IfErr result (λ e. is_want_of_memory e ≡ false → enter_macro levels
            (H.program host.now).host declared.now args.now self.old ≡ refused e self.old) }
        ensures unchanged { OnErr result (self.new ≡ self.old) }
        ensures rest { self.new ≡ record self.old {
          scopes = self.new.scopes;
          stream = self.new.stream;
          block = self.new.block;
        } }
    {
        if declared.state() != self.id() {
            return Err(Error::from(ErrorKind::InvalidOperation));
        }
        let room = self.rooms.take_operands(alloc);
        let given = bind(alloc, declared, args, room)?;
        let Some(stream) = self.known_stream(declared) else {
            return Err(Error::from(ErrorKind::InvalidOperation));
        };
        let stream = stream.share()?;
        let outer = levels
            .saturating_add(self.context.depth())
            .saturating_add(MACRO_DEPTH);
        if outer.saturating_add(1) >= host.recursion_limit() {
            return Err(Error::from(ErrorKind::InvalidOperation));
        }
        let running = stream.share()?;
        let lists = self.lists.copy(alloc)?;
        let context = self.macro_scopes(alloc, declared, args, outer)?;
        let run = RunOf::Macro(stream, declared.entry(), given);
        let saved = self.run_macro(running, context, lists);
        entry.refill(run, text, saved);
        Ok(())
    }

    /// The stream of a macro if it and the macro's closure exist.
    fn known_stream(&self, declared: &MacroValue) -> Option<&StreamId>
        ensures { IsLent result (known_stream declared.now self.now) }
    {
        if let Some(number) = declared.closure() {
            if number >= self.closures.len() {
                return None;
            }
        }
        self.streams.get(declared.stream())
    }

    /// The macro that `name` is bound to in the scopes, if it is one and this state has made
    /// macros; other states' macros can't be called here.
    #[inline(always)]
    pub fn macro_named(&self, name: &Name) -> Option<&MacroValue>
        ensures { IfSome result (λ m. (host : HostValue) →
            find_name (view_of host self.now) name.now ≡ Ok (Some (macro m.now))) }
    {
        // An early exit, since most calls are of functions, in states without macros.
        let _made = self.streams.get(0)?;
        match self.find_at_once(name) {
            Some(value) => macro_in(value),
            None => match self.context.find(name, &self.closures, self) {
                Ok(Some(Found::Value(value))) => macro_in(value),
                _ => None,
            },
        }
    }

    /// The stream and the arguments, in `room`, of a macro called with `args`, if it can be
    /// entered. None if the call is refused, if the macro takes `caller`, and if memory runs out.
    pub fn plain_call<H: Host>(
        &self,
        alloc: Global,
        host: &H,
        declared: &MacroValue,
        args: &[Value],
        room: Vec<Value>,
    ) -> Option<(&StreamId, Vec<Value>)>
        requires { room.items ≡ [] }
        ensures { IfSome result (λ r.
            enter_macro 0 (H.program host.now).host declared.now args.now self.now
            ≡ runs_macro r.0.now declared.now r.1.items self.now
            (in_macro r.0.now declared.now self.now)) }
    {
        if declared.state() != self.id() || declared.takes_caller() {
            return None;
        }
        let given = bind(alloc, declared, args, room).ok()?;
        let stream = self.known_stream(declared)?;
        let inner = self.context.depth().saturating_add(MACRO_DEPTH + 1);
        if inner >= host.recursion_limit() {
            return None;
        }
        Some((stream, given))
    }

    /// The scopes for a macro called with `args`, at the depth `outer`. Fails only with
    /// OutOfMemory.
    fn macro_scopes(
        &mut self,
        alloc: Global,
        declared: &MacroValue,
        args: &[Value],
        outer: usize,
    ) -> Result<Context, Error>
        ensures scopes { OkOrOutOfMemory result (λ c.
            c ≡ macro_scopes declared.now args.now self.old.scopes.frames outer) }
        ensures unchanged { self.new ≡ self.old }
    {
        let root = self.context.root_context()?;
        let caller = caller_of(alloc, declared, args)?;
        self.rooms
            .contexts
            .lend(alloc, root, declared.closure(), outer, caller)
    }
}
