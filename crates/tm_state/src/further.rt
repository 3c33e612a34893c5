//! How the answer of a caller's object is followed through the further calls that it asks for.
ghost use Rattle.std.specs.Prelude.{◌≡◌, ◌+◌, ◌≤◌, false, IfOk, IfErr, OnErr, OnOk};
ghost use Rattle.tm_values.specs.Val.{function, macro};
ghost use Rattle.tm_syntax.specs.Named.{find, put_each};
ghost use Rattle.tm_meaning.specs.Memory.{is_want_of_memory};
ghost use Rattle.tm_meaning.specs.World.{depth};
ghost use Rattle.tm_meaning.specs.Calls.{block_call, by_depths, deeper, enter_block, from_deeper, further_call, has, refused};
ghost use Rattle.tm_meaning.specs.Calls.{as_printed, depths_left, named_call, replied, runs, value_call};
ghost use Rattle.tm_meaning.specs.declared.run_text.RunText.TheVariants as texts;
ghost use Rattle.tm_state.specs.Answers.{Answers, Becomes, Comes, FurtherComes, FurtherLies, KeepsFixedAndNames, LeavesState, NeedsPlain, PrintedComes};
ghost use Rattle.tm_state.specs.Answers.{CallDeeper, HasOneMore, shown, tested};
ghost use Rattle.tm_state.specs.State.{saved_of};

use crate::state::StateData;
use std::alloc::Global;
use tm_meaning::{Call, Reply, StreamId};
use tm_printing::to_text;
use tm_records::{CallResult, Further, NestedRun, RunOf, Saved, SavedBlock, is_macro, text_for};
use tm_syntax::Name;
use tm_tables::{CallableAnswer, Called, Host, NO_PLACE, Parties};
use tm_values::{Error, ErrorKind, MacroValue, Node, Value};

impl StateData {
    /// How many more levels of depth the limit allows.
    pub(crate) fn depths_left<H: Host>(&self, host: &H) -> usize
        ensures { result ≡ depths_left (H.program host.now).host self.now }
    {
        host.recursion_limit().saturating_sub(self.context.depth())
    }

    /// Follows an answer: stores the values that it keeps, makes the further call that it asks for,
    /// one level deeper, follows the answer of that, and so on. For a test the result is the truth
    /// of the value. InvalidOperation for a call beyond the limit, and the fault of an answer.
    pub(crate) fn follow<H: Host>(
        &mut self,
        alloc: Global,
        host: &H,
        answer: CallableAnswer,
        test: bool,
    ) -> Result<CallResult, Error>
        ensures called { Becomes result (tested test
            (replied (by_depths (H.program host.now).host self.old) answer.reply
            (record self.old { temps = put_each answer.temps self.old.temps }))) self.new }
        ensures leaves { LeavesState (H.program host.now).host.limit result self.old self.new }
    {
        let left = self.depths_left(host);
        let mut made = 0;
        let mut printed = false;
        let mut answer = answer;
        loop {
            let CallableAnswer { temps, result } = answer;
            self.keep(temps)?;
            let call = match result {
                Reply::Value(value) => {
                    let value = self.answered_value(alloc, value, printed, test)?;
                    return Ok(CallResult::Value(value));
                }
                Reply::Fault(error) => return Err(error),
                Reply::Further(call) => call,
            };
            if made == left {
                return Err(Error::from(ErrorKind::InvalidOperation));
            }
            made += 1;
            printed = printed | is_macro(&call);
            answer = match self.further(alloc, host, call, made, test)? {
                Further::Answered(answer) => answer,
                Further::Run(run) => return Ok(CallResult::Run(run)),
            };
        }
    }

    /// The final value of a call: its text if a macro was called on the way, and the truth of that
    /// if it is a test's.
    fn answered_value(
        &self,
        alloc: Global,
        value: Value,
        printed: bool,
        test: bool,
    ) -> Result<Value, Error>
        ensures { Comes result (tested test (shown printed (has value self.now))) self.now }
    {
        let shown = if printed {
            let text = to_text(alloc, &value, self)?;
            Value::text(alloc, text.as_str())?
        } else {
            value
        };
        if test {
            return Ok(Value::boolean(shown.is_true()));
        }
        Ok(shown)
    }

    /// Makes a further call `levels` deeper than the present scopes.
    fn further<H: Host>(
        &mut self,
        alloc: Global,
        host: &H,
        call: Call,
        levels: usize,
        test: bool,
    ) -> Result<Further, Error>
        requires { depth self.old.scopes + levels ≤ (H.program host.now).host.limit }
        ensures comes { (make : _) → FurtherComes make test call result
            (further_call make levels (H.program host.now).host call self.old) self.new }
        ensures lies { FurtherLies (H.program host.now).host.limit result self.old self.new }
    {
        match call {
            Call::Filter(name, args) => {
                let name = name.as_str();
                let answer = self.filter_answer(alloc, host, name, NO_PLACE, args.as_slice())?;
                Ok(Further::Answered(answer))
            }
            Call::Macro(name, args) => {
                self.further_named(alloc, host, &name, args.as_slice(), levels, test)
            }
            Call::Block(name) => {
                let run = self.further_block(alloc, host, &name, levels, test)?;
                Ok(Further::Run(run))
            }
        }
    }

    /// Makes a further call of what `name` is bound to, `levels` deeper than the present scopes.
    /// UnknownFunction if the name isn't bound, InvalidOperation if its value can't be called, and
    /// the error of the call.
    fn further_named<H: Host>(
        &mut self,
        alloc: Global,
        host: &H,
        name: &Name,
        args: &[Value],
        levels: usize,
        test: bool,
    ) -> Result<Further, Error>
        ensures comes { (make : _) → PrintedComes make test result
            (as_printed (named_call make levels (H.program host.now).host
            name.now args.now self.old)) self.new }
        ensures lies { FurtherLies (H.program host.now).host.limit result self.old self.new }
    {
        match self.lookup(host, name)? {
            Some(found) => self.further_value(alloc, host, &found, args, levels, test),
            None => Err(Error::from(ErrorKind::UnknownFunction)),
        }
    }

    /// Makes a further call of `value`, `levels` deeper than the present scopes. InvalidOperation
    /// if it can't be called, and the error of the call.
    fn further_value<H: Host>(
        &mut self,
        alloc: Global,
        host: &H,
        value: &Value,
        args: &[Value],
        levels: usize,
        test: bool,
    ) -> Result<Further, Error>
        ensures comes { (make : _) → PrintedComes make test result
            (as_printed (value_call make levels (H.program host.now).host
            value.now args.now self.old)) self.new }
        ensures lies { FurtherLies (H.program host.now).host.limit result self.old self.new }
    {
        match &value.node {
            Node::Function(number) => self.further_function(alloc, host, *number, args),
            Node::Macro(declared) => {
                self.further_macro(alloc, host, declared, args, levels, test)
            }
            _ => Err(Error::from(ErrorKind::InvalidOperation)),
        }
    }

    /// Makes a further call of the function `number`.
    fn further_function<H: Host>(
        &mut self,
        alloc: Global,
        host: &H,
        number: usize,
        args: &[Value],
    ) -> Result<Further, Error>
        ensures comes { (make : _) (test : _) → PrintedComes make test result
            (as_printed (value_call make 0 (H.program host.now).host
            (function number) args.now self.old)) self.new }
        ensures lies { FurtherLies (H.program host.now).host.limit result self.old self.new }
    {
        match self.function_answer(alloc, host, number, args) {
            Ok(answer) => Ok(Further::Answered(answer)),
            Err(error) => Err(error),
        }
    }

    /// The run for a further call of a macro, `levels` deeper than the present scopes.
    fn further_macro<H: Host>(
        &mut self,
        alloc: Global,
        host: &H,
        declared: &MacroValue,
        args: &[Value],
        levels: usize,
        test: bool,
    ) -> Result<Further, Error>
        ensures comes { (make : _) → PrintedComes make test result
            (as_printed (value_call make levels (H.program host.now).host
            (macro declared.now) args.now self.old)) self.new }
        ensures lies { FurtherLies (H.program host.now).host.limit result self.old self.new }
    {
        match self.macro_run(alloc, host, declared, args, levels, text_for(test)) {
            Ok(run) => Ok(Further::Run(run)),
            Err(error) => Err(error),
        }
    }

    /// The answer of the function `number` to `args`; a function of the language answers with its
    /// value. InvalidOperation if there is no such function, and the error of a function of the
    /// language.
    pub(crate) fn function_answer<H: Host>(
        &mut self,
        alloc: Global,
        host: &H,
        number: usize,
        args: &[Value],
    ) -> Result<CallableAnswer, Error>
        ensures answers { (make : _) → Answers make result (value_call make 0
            (H.program host.now).host (function number) args.now self.old) self.new }
        ensures rest { self.new ≡ record self.old { namespaces = self.new.namespaces } }
    {
        let view = self.view(host);
        match host.objects().call_function(alloc, number, args, &view) {
            Some(Called::Answered(answer)) => Ok(answer),
            Some(Called::Language(function)) => {
                let value = self.call_language(alloc, function, args)?;
                Ok(CallableAnswer::value(alloc, value))
            }
            None => Err(Error::from(ErrorKind::InvalidOperation)),
        }
    }

    /// The run of the block `name`, `levels` deeper than the present scopes. Its text becomes plain
    /// text, or its truth if a test asks for it. Errors as in `enter_block`; then nothing changes.
    fn further_block<H: Host>(
        &mut self,
        alloc: Global,
        host: &H,
        name: &Name,
        levels: usize,
        test: bool,
    ) -> Result<Box<NestedRun>, Error>
        requires { depth self.old.scopes + levels ≤ (H.program host.now).host.limit }
        ensures ok { IfOk result (λ run. NeedsPlain test run.value (from_deeper self.old
            (enter_block (H.program host.now).host name.now (deeper levels self.old))) self.new) }
        ensures deeper { IfOk result (λ run.
            CallDeeper (H.program host.now).host.limit run.value.saved self.old self.new) }
        ensures err { IfErr result (λ e. is_want_of_memory e ≡ false → from_deeper self.old
            (enter_block (H.program host.now).host name.now (deeper levels self.old))
            ≡ refused e self.old) }
        ensures unchanged { OnErr result (self.new ≡ self.old) }
        ensures kept { KeepsFixedAndNames self.old self.new }
        ensures blocks { self.new.blocks ≡ self.old.blocks }
    {
        let (stream, saved) = self.enter_deeper(alloc, host, name, levels)?;
        let run = NestedRun {
            run: RunOf::Stream(stream),
            heard: true,
            value: true,
            text: text_for(test),
            wrap: None,
            saved: Saved::Block(saved),
        };
        self.boxed(alloc, run)
    }

    /// Enters the block `name`, `levels` deeper than the present scopes, and returns its stream and
    /// what is restored after it. Errors as in `enter_block`; then nothing changes.
    fn enter_deeper<H: Host>(
        &mut self,
        alloc: Global,
        host: &H,
        name: &Name,
        levels: usize,
    ) -> Result<(StreamId, SavedBlock), Error>
        requires { depth self.old.scopes + levels ≤ (H.program host.now).host.limit }
        ensures ok { IfOk result (λ r. (r.1 ≡ saved_of self.old) × (from_deeper self.old
            (enter_block (H.program host.now).host name.now (deeper levels self.old)) ≡
            runs (record (block_call r.0 self.old) { text = texts.Plain }) self.new)) }
        ensures more { OnOk result (HasOneMore self.old self.new) }
        ensures deeper { OnOk result (depth self.new.scopes ≤ (H.program host.now).host.limit) }
        ensures places { self.new.places ≡ self.old.places }
        ensures err { IfErr result (λ e. is_want_of_memory e ≡ false → from_deeper self.old
            (enter_block (H.program host.now).host name.now (deeper levels self.old))
            ≡ refused e self.old) }
        ensures unchanged { OnErr result (self.new ≡ self.old) }
        ensures kept { KeepsFixedAndNames self.old self.new }
        ensures blocks { self.new.blocks ≡ self.old.blocks }
    {
        let outer = self.go_deeper(host, levels);
        match self.enter_block(alloc, host, name) {
            Ok((stream, mut saved)) => {
                saved.outer = outer;
                Ok((stream, saved))
            }
            Err(error) => {
                self.stand_at(outer);
                Err(error)
            }
        }
    }
}
