//! What a render runs under: an environment and a template.
ghost use Rattle.std.specs.Prelude.{◌≡◌, [], ◌∷◌, IfErr, IfOk, length};
ghost use Rattle.tm_state.specs.Answers.{KeepsFixed};
ghost use Rattle.template_machine.specs.Environment.{IsOfTrees, code, meant, unknown_template};
ghost use Rattle.template_machine.specs.Renders.{first, meaning_from, value_meant, Evaluated, IsFresh, Ran};
ghost use Rattle.template_machine.specs.Renders.{SoundRecords, StreamRan, StreamValue};
ghost use Rattle.tm_shapes.specs.Verified.{IsAccepted};
ghost use Rattle.template_machine.specs.TemplateRef.{entry_id, own_template};
ghost use Rattle.tm_values.specs.Answer.{OkOrOutOfMemory};
ghost use Rattle.tm_vm.specs.Answers.{NoFewer};

use crate::cuts::halted;
use crate::environment::EnvironmentOf;
use std::alloc::Global;
use std::marker::Model;
use tm_meaning::{StreamId, TemplateId};
use tm_operations::with_maps;
use tm_parts::{Captures, Halt, NullWriter, Sink};
use tm_shapes::Verified;
use tm_state::StateData;
use tm_syntax::{Name, NameMap};
use tm_tables::{Host, NO_PLACE, Parties, TemplateEntry};
use tm_templates::CompiledTemplate;
use tm_values::{AutoEscape, Error, ErrorKind, UndefinedBehavior, Value};
use tm_vm::Machine;

/// The rendered template, or that of a state.
pub(crate) enum OwnTemplate<'env> {
    /// A template that outlives the state.
    Lent(&'env CompiledTemplate<'env>),
    /// A template that only the state owns.
    Owned(Box<CompiledTemplate<'env>>),
}

// Written by hand: one drop call per owner instead of dropping each part.
impl Drop for OwnTemplate<'_> {
    fn drop(self) {
        match self {
            OwnTemplate::Lent(_) | OwnTemplate::Owned(_) => {}
        }
    }
}

impl<'env> OwnTemplate<'env> {
    /// The compiled template.
    #[inline(always)]
    fn compiled(&self) -> &CompiledTemplate<'env>
        ensures { result.now ≡ own_template self.now }
    {
        match self {
            OwnTemplate::Lent(compiled) => compiled,
            OwnTemplate::Owned(compiled) => &**compiled,
        }
    }
}

/// The environment and the rendered template: the machine's host.
#[derive(Drop)]
pub(crate) struct Rendering<'env, O: Drop> {
    environment: &'env EnvironmentOf<'env, O>,
    name: Option<&'env Name>,
    own: OwnTemplate<'env>,
}

impl<'env, O: Drop> Model for Rendering<'env, O> {
    ghost use Rattle.std.specs.Coded.{codes};
    ghost use Rattle.tm_syntax.specs.contracts.tree.Expr as expression;
    ghost use Rattle.tm_syntax.specs.contracts.tree.Stmt as statement;
    ghost use Rattle.tm_values.specs.Code.{coded_Val};
    ghost use Rattle.template_machine.specs.Environment.{TemplateValue};

    ghost Value = { TemplateValue O };

    ghost coded = { Prim.hlevel (codes, coded_Val, expression.the_row.coded, statement.the_row.coded, O.code) };

    ghost use Rattle.template_machine.specs.TemplateRef.{entry_id, own_template};

    ghost view = { λ r. record {
      environment = r.environment.now;
      id = entry_id r.name;
      template = own_template r.own;
    } };
}

impl<'env, O: Drop> Rendering<'env, O> {
    /// A rendering of a template in an environment; `name` is the name of the template's entry
    /// there, if it is one.
    pub(crate) fn new(
        environment: &'env EnvironmentOf<'env, O>,
        name: Option<&'env Name>,
        own: OwnTemplate<'env>,
    ) -> Rendering<'env, O>
        ensures { result ≡ record {
          environment = environment.entry.now;
          id = entry_id name.entry;
          template = own_template own.entry;
        } }
    {
        Rendering {
            environment,
            name,
            own,
        }
    }

    /// A rendering without a template. Fails only with OutOfMemory.
    pub(crate) fn unknown(
        environment: &'env EnvironmentOf<'env, O>,
    ) -> Result<Rendering<'env, O>, Error>
        ensures { OkOrOutOfMemory result (λ r. r ≡ unknown_template environment.entry.now) }
    {
        let compiled = environment.unknown()?;
        let owned = Box::new(environment.allocator(), compiled)?;
        Ok(Rendering::new(environment, None, OwnTemplate::Owned(owned)))
    }

    /// The environment's allocator.
    pub(crate) fn allocator(&self) -> Global {
        self.environment.allocator()
    }

    /// The environment.
    pub(crate) fn environment(&self) -> &'env EnvironmentOf<'env, O>
        ensures { result.now ≡ self.now.environment }
    {
        self.environment
    }

    /// The template that `template` means.
    fn template(&self, template: &TemplateId) -> &CompiledTemplate<'env>
        ensures { result.now ≡ meant self.now template.now }
    {
        self.template_at(template, NO_PLACE)
    }

    /// The template that `template` means; `place` is only a hint.
    #[inline(always)]
    fn template_at(&self, template: &TemplateId, place: usize) -> &CompiledTemplate<'env>
        ensures { result.now ≡ meant self.now template.now }
    {
        let own = self.own.compiled();
        let TemplateId::Entry(name) = template else {
            return own;
        };
        self.environment
            .find_template(place, name.as_str())
            .unwrap_or(own)
    }

    /// Proves that all streams that can run are accepted; does nothing.
    pub(crate) fn accepted(&self)
        ensures { (stream : _) → IsAccepted (code self.now stream) }
    {
        self.environment.accepted();
        self.own.compiled().accepted();
    }

    /// The template's id in its environment. OutOfMemory if a reference count overflows.
    fn id(&self) -> Result<TemplateId, Error>
        ensures ok { IfOk result (λ id. id ≡ self.now.id) }
        ensures memory { IfErr result (λ e. e ≡ ErrorKind.OutOfMemory ∷ []) }
    {
        match self.name {
            Some(name) => Ok(TemplateId::Entry(name.share()?)),
            None => Ok(TemplateId::Own),
        }
    }
}

impl<O: Parties> Rendering<'_, O> {
    /// The state at the start of a render, with the number `id`. Fails only with OutOfMemory.
    pub(crate) fn state_at(&self, id: u64, context: Value) -> Result<StateData, Error>
        requires { meant self.now self.now.id ≡ self.now.template }
        ensures { OkOrOutOfMemory result (λ s. s ≡ first O.stated self.now id context) }
    {
        let template = self.id()?;
        let own = self.own.compiled();
        own.ascend();
        let mut state = StateData::new(
            self.allocator(),
            id,
            template,
            own.block_names(),
            own.escape(),
            self.environment.fuel(),
            context,
        )?;
        state.set_template_place(self.place());
        Ok(state)
    }

    /// The template's place in its environment, as a hint.
    fn place(&self) -> usize {
        let Some(name) = self.name else {
            return NO_PLACE;
        };
        match self.environment.find_entry(NO_PLACE, name.as_str()) {
            Some((place, _name, _template)) => place,
            None => NO_PLACE,
        }
    }

    /// Runs the state's stream, heard, with these captures and this writer, and returns the
    /// remaining captures. If the run is cut short, the state forgets its loops.
    pub(crate) fn run<W: Sink>(
        &self,
        state: &mut StateData,
        captures: Captures,
        writer: &mut W,
    ) -> Result<Captures, Halt>
        requires { IsFresh captures }
        ensures ran { IsOfTrees self.now →
            Ran (meaning_from O.stated self.now state.old) result state.new captures
            (W.told writer.old) (W.told writer.new) }
        ensures streams { SoundRecords self.now state.old →
            StreamRan O.stated self.now state.old result state.new captures
            (W.told writer.old) (W.told writer.new) }
        ensures sound { SoundRecords self.now state.old → SoundRecords self.now state.new }
        ensures closed { IfOk result (λ new. length new ≡ length captures) }
        ensures no_fewer { NoFewer state.old state.new }
        ensures kept { KeepsFixed state.old state.new }
    {
        let alloc = self.allocator();
        let stream = match state.stream().share() {
            Ok(stream) => stream,
            Err(_error) => return Err(Halt::Fault(Error::from(ErrorKind::OutOfMemory))),
        };
        self.accepted();
        let mut machine = Machine::new(alloc, stream, captures, state.take(alloc));
        let result = machine.run(alloc, self, true, writer);
        let (captures, left) = machine.into_parts();
        *state = left;
        match result {
            Ok(()) => Ok(captures),
            Err(halt) => Err(halted(state, halt)),
        }
    }

    /// The value of the expression that is the state's stream, with its namespaces as maps. The
    /// state stays as the run left it.
    pub(crate) fn evaluate(&self, state: &mut StateData) -> Result<Value, Error>
        ensures evaluated { IsOfTrees self.now →
            Evaluated (value_meant O.stated self.now state.old) result }
        ensures streams { SoundRecords self.now state.old →
            StreamValue O.stated self.now state.old result }
    {
        let alloc = self.allocator();
        let stream = state.stream().share()?;
        self.accepted();
        let captures = Captures::within(alloc, self.environment.longest_text());
        let mut machine = Machine::new(alloc, stream, captures, state.take(alloc));
        let result = machine.run(alloc, self, true, &mut NullWriter);
        let (value, left) = machine.into_value();
        *state = left;
        result?;
        match value {
            Some(value) => with_maps(alloc, &value, state, self.value_limit() as u64),
            None => Err(Error::from(ErrorKind::InvalidOperation)),
        }
    }
}

impl<O: Parties> Host for Rendering<'_, O> {
    ghost use Rattle.template_machine.specs.Environment.{largest_value};
    ghost use Rattle.template_machine.specs.Renders.{program_of};

    type Objects = O;

    ghost program = { program_of O.stated };

    ghost largest = { largest_value };

    #[inline(always)]
    fn objects(&self) -> &O {
        self.environment.objects()
    }

    fn globals(&self) -> &NameMap<Value> {
        self.environment.global_values()
    }

    fn recursion_limit(&self) -> usize {
        self.environment.recursion_limit()
    }

    #[inline(always)]
    fn value_limit(&self) -> usize {
        self.environment.largest_value()
    }

    fn undefined_behavior(&self) -> UndefinedBehavior {
        self.environment.undefined_behavior()
    }

    fn template_name(&self, template: &TemplateId, place: usize) -> &str {
        self.template_at(template, place).name()
    }

    fn template_escape(&self, template: &TemplateId) -> AutoEscape {
        self.template(template).escape()
    }

    fn is_required(&self, stream: &StreamId) -> bool {
        self.template(&stream.template).is_required(&stream.block)
    }

    #[inline(always)]
    fn entry(&self, name: &str, place: usize) -> Option<TemplateEntry<'_>> {
        match self.environment.find_entry(place, name) {
            Some((place, name, template)) => Some(TemplateEntry {
                name,
                escape: template.escape(),
                blocks: template.block_names(),
                place,
            }),
            None => None,
        }
    }

    fn instructions(&self, stream: &StreamId, place: usize) -> &Verified {
        self.template_at(&stream.template, place)
            .stream(&stream.block)
    }
}
