//! The data of a state.
ghost use Rattle.std.specs.List.Sorted.{IsStrictlySortedBy};
ghost use Rattle.std.specs.Prelude.{◌-◌, ◌≡◌, ◌+◌, ◌≤◌, ◌<◌, List, [], ◌∷◌, ◌++◌, ◌^◌, Some, None, SomeIff, false, true, is_some, length};
ghost use Rattle.std.specs.Prelude.{nat_lt, slice_get, Ok, OnOk, OnErr, IfErr, IfOk, IfSome, MatchOption, MatchResult};
ghost use Rattle.tm_values.specs.Answer.{IsAnswer, OkOrOutOfMemory, OrStays, IsLent};
ghost use Rattle.tm_meaning.specs.Memory.{is_want_of_memory};
ghost use Rattle.tm_syntax.specs.Named.{find, name_cmp, put, put_each, texts_of};
ghost use Rattle.tm_meaning.specs.World.{depth, with_escape, innermost, loop_depth, top_loop, top_mark, next_turn};
ghost use Rattle.tm_meaning.specs.World.{cleared, leave_loop, pop, store, set_member, make_namespace, emitted, records_of};
ghost use Rattle.tm_meaning.specs.World.{HostValue, find_name, top_locals, view_of, name_of, Good, Bad, block_of};
ghost use Rattle.tm_meaning.specs.Calls.{enter_block, given_by, refused, of_loop, told_changed, told_turn};
ghost use Rattle.tm_definitions.specs.Emitted.{emitted_text};
ghost use Rattle.tm_scopes.specs.Known.{AreFound, NamingFails};
ghost use Rattle.tm_scopes.specs.Scopes.{PushFails};
ghost use Rattle.tm_state.specs.Answers.{KeepsFixedAndNames, CanBeEmitted, Comes};
ghost use Rattle.tm_state.specs.State.{with_open_loop, exported, nothing_left, started, put_back, saved_of, runs_block, IsBlockOf, scoped};

use std::alloc::Global;
use std::marker::Model;
use std::mem;
use std::rc::Rc;
use tm_meaning::{GlobalFunction, LoopMark, StreamId, TemplateId};
use tm_operations::{check_settable, dict, namespace, range};
use tm_printing::check_emission;
use tm_records::{Rooms, Streams, add_loop, changed_at, keep_each, leave_at, set_in, turn_at};
use tm_syntax::{LoopFlags, Name, NameMap};
use tm_tables::{
    BlockNames, Closures, Context, Frame, FuelTracker, Host, Lists, LoopState, NO_PLACE, View,
    following_at, position_at, previous_at,
};
use tm_values::{
    AutoEscape, Error, ErrorKind, LoopPosition, Node, Records, UndefinedUse, Value, ValueMap,
    check_defined,
};

/// What a state stores. A contract sees it as a world of the definitions.
pub struct StateData {
    id: u64,
    pub(crate) context: Context,
    pub(crate) namespaces: Vec<ValueMap>,
    loops: Vec<LoopState>,
    pub(crate) closures: Closures,
    pub(crate) streams: Streams,
    temps: NameMap<Value>,
    pub(crate) lists: Lists,
    pub(crate) block: Option<Name>,
    pub(crate) escape: AutoEscape,
    pub(crate) stream: StreamId,
    pub(crate) fuel: FuelTracker,
    pub(crate) fuel_is_set: bool,
    pub(crate) rooms: Rooms,
    pub(crate) template_place: usize,
}

// Written by hand: one drop call per owner instead of dropping each part.
impl Drop for StateData {
    fn drop(self) {
        let StateData {
            id: _id,
            context: _context,
            namespaces: _namespaces,
            loops: _loops,
            closures: _closures,
            streams: _streams,
            temps: _temps,
            lists: _lists,
            block: _block,
            escape: _escape,
            stream: _stream,
            fuel: _fuel,
            fuel_is_set: _fuel_is_set,
            rooms: _rooms,
            template_place: _template_place,
        } = self;
    }
}

impl Model for StateData {
    ghost use Rattle.std.specs.Coded.{codes};
    ghost use Rattle.tm_values.specs.Code.{coded_Val};
    ghost use Rattle.tm_meaning.specs.World.{World};
    ghost use Rattle.tm_state.specs.State.{fuel_set_of};

    ghost Value = { World };

    ghost coded = { Prim.hlevel (codes, coded_Val) };

    ghost view = { λ s. record {
      id = s.id;
      scopes = s.context;
      namespaces = s.namespaces.items;
      loops = s.loops.items;
      closures = s.closures;
      streams = s.streams;
      temps = s.temps;
      blocks = s.lists.blocks;
      places = s.lists.places;
      loaded = s.lists.loaded;
      block = s.block;
      escape = s.escape;
      stream = s.stream;
      fuel_set = fuel_set_of s.fuel_is_set s.fuel;
      fuel = s.fuel.left;
    } };
}

impl StateData {
    /// The state at the start of a render: one scope over `context`, the template's blocks, which
    /// have these `names`, and the fuel, or `u64::MAX` if none is set. Fails only with OutOfMemory.
    pub fn new(
        alloc: Global,
        id: u64,
        template: TemplateId,
        names: &Rc<BlockNames>,
        escape: AutoEscape,
        fuel: Option<u64>,
        context: Value,
    ) -> Result<StateData, Error>
        ensures { OkOrOutOfMemory result
            (λ s. s ≡ started id template names.now.value escape fuel context) }
    {
        let context = Context::new_with_frame(alloc, Frame::new(context))?;
        let mut lists = Lists::new(alloc);
        lists.append(alloc, &template, names)?;
        Ok(StateData {
            id,
            context,
            namespaces: Vec::new(alloc),
            loops: Vec::new(alloc),
            closures: Closures::new(alloc),
            streams: Streams::new(alloc),
            temps: NameMap::new(alloc),
            lists,
            block: None,
            escape,
            stream: StreamId::root(template),
            fuel: FuelTracker::new(fuel.unwrap_or(u64::MAX)),
            fuel_is_set: fuel.is_some(),
            rooms: Rooms::new(alloc),
            template_place: NO_PLACE,
        })
    }

    /// The value that the innermost scope itself binds to `name`, if any.
    #[inline(always)]
    pub fn local(&self, name: &Name) -> Option<&Value>
        ensures own { IsLent result (find name.now (top_locals self.now.scopes.frames)) }
        ensures found { IfSome result (λ v. (host : HostValue) →
            find_name (view_of host self.now) name.now ≡ Ok (Some v.now)) }
    {
        self.context.local(name)
    }

    /// What `name` is bound to in the scopes, if that is a value which is found without closures and
    /// records. None if only `lookup` can tell.
    #[inline(always)]
    pub fn find_at_once(&self, name: &Name) -> Option<&Value>
        ensures { IfSome result (λ v. (host : HostValue) →
            find_name (view_of host self.now) name.now ≡ Ok (Some v.now)) }
    {
        match self.context.local(name) {
            Some(own) => Some(own),
            None => self.context.find_at_once(name),
        }
    }

    /// What an object of the caller sees of the state.
    pub fn view<'a, H: Host>(&'a self, host: &'a H) -> View<'a>
        ensures { result ≡ view_of (H.program host.now).host self.now }
    {
        View::new(
            self.id,
            &self.context,
            &self.closures,
            &self.namespaces,
            &self.loops,
            host.globals(),
            &self.temps,
            host.template_name(&self.stream.template, self.template_place),
            self.escape,
            host.undefined_behavior(),
        )
    }

    /// The value that `name` is bound to: in the scopes, innermost first, else among the globals.
    /// InvalidOperation if the search meets a context value without a record.
    pub fn lookup<H: Host>(&self, host: &H, name: &Name) -> Result<Option<Value>, Error>
        ensures { IsAnswer result
            (find_name (view_of (H.program host.now).host self.now) name.now) }
    {
        match self.context.find(name, &self.closures, self)? {
            Some(found) => Ok(Some(found.value(self.id)?)),
            None => match host.globals().get(name.as_str()) {
                Some(global) => Ok(Some(global.share()?)),
                None => Ok(None),
            },
        }
    }

    /// The names that a lookup finds, in the scopes or among the globals, each once, in order.
    /// InvalidOperation if a context value is a namespace without a record; OutOfMemory.
    pub fn known_variables<'a, H: Host>(
        &'a self,
        alloc: Global,
        host: &'a H,
    ) -> Result<Vec<&'a str>, Error>
        ensures order { IfOk result
            (λ names. IsStrictlySortedBy name_cmp (texts_of names.items)) }
        ensures found { IfOk result (λ names. AreFound
            (find_name (view_of (H.program host.now).host self.now)) (texts_of names.items)) }
        ensures err { IfErr result (NamingFails (records_of self.now) self.now.scopes.frames) }
    {
        self.context
            .known_names(alloc, &self.closures, self, host.globals())
    }

    /// The value that is kept under `name`, if any.
    pub fn get_temp(&self, name: &str) -> Option<&Value>
        ensures { IsLent result (find name.now self.now.temps) }
    {
        self.temps.get(name)
    }

    /// Keeps `value` under `name` and returns the value that was kept there. Fails only with
    /// OutOfMemory; then nothing changes.
    pub fn set_temp(&mut self, name: Name, value: Value) -> Result<Option<Value>, Error>
        ensures before { IfOk result (λ before. before ≡ find name self.old.temps) }
        ensures ok { OnOk result
            (self.new ≡ record self.old { temps = put name value self.old.temps }) }
        ensures kind { IfErr result (λ e. e ≡ ErrorKind.OutOfMemory ∷ []) }
        ensures err { OnErr result (self.new ≡ self.old) }
    {
        let before = self.temps.replace(name, value)?;
        Ok(before)
    }

    /// The names that the outermost scope exports, in order: its own names that don't begin with
    /// `_`. Fails only with OutOfMemory.
    pub fn exports(&self, alloc: Global) -> Result<Vec<&str>, Error>
        ensures { OkOrOutOfMemory result (λ names. texts_of names.items ≡ exported self.now) }
    {
        self.context.exports(alloc)
    }

    /// The state's id.
    pub(crate) fn id(&self) -> u64
        ensures { result ≡ self.now.id }
    {
        self.id
    }

    /// Keeps values by name, in order. Fails only with OutOfMemory; then only kept values may have
    /// changed.
    pub fn keep(&mut self, temps: Vec<(Name, Value)>) -> Result<(), Error>
        ensures ok { OnOk result (self.new.temps ≡ put_each temps.items self.old.temps) }
        ensures kind { IfErr result (λ e. e ≡ ErrorKind.OutOfMemory ∷ []) }
        ensures rest { self.new ≡ record self.old { temps = self.new.temps } }
    {
        if temps.is_empty() {
            return Ok(());
        }
        keep_each(&mut self.temps, temps)
    }

    /// Calls a function of the language with `args`; the record of a new namespace comes after all
    /// others. Fails as `range`, `dict` and `namespace` do; then nothing changes.
    pub fn call_language(
        &mut self,
        alloc: Global,
        function: GlobalFunction,
        args: &[Value],
    ) -> Result<Value, Error>
        ensures ok { IfOk result (λ v. given_by function args.now self.old ≡ Good v self.new) }
        ensures err { IfErr result (λ e. is_want_of_memory e ≡ false →
            given_by function args.now self.old ≡ Bad e self.old) }
        ensures unchanged { OnErr result (self.new ≡ self.old) }
        ensures rest { self.new ≡ record self.old { namespaces = self.new.namespaces } }
    {
        match function {
            GlobalFunction::Range => range(alloc, args),
            GlobalFunction::Dict => {
                let pairs = dict(alloc, args, self)?;
                Value::from_map(alloc, pairs)
            }
            GlobalFunction::Namespace => {
                let pairs = namespace(alloc, args, self)?;
                self.add_namespace(pairs)
            }
        }
    }

    /// A new namespace of `pairs`, whose record comes after all others. Fails only with
    /// OutOfMemory; then nothing changes.
    fn add_namespace(&mut self, pairs: ValueMap) -> Result<Value, Error>
        ensures ok { IfOk result (λ v. make_namespace pairs self.old ≡ Good v self.new) }
        ensures kind { IfErr result (λ e. e ≡ ErrorKind.OutOfMemory ∷ []) }
        ensures err { OnErr result (self.new ≡ self.old) }
        ensures rest { self.new ≡ record self.old { namespaces = self.new.namespaces } }
    {
        let number = self.namespaces.len();
        self.namespaces.push(pairs)?;
        Ok(Value::namespace(self.id, number))
    }

    /// Whether `value` can be emitted without a formatter: UndefinedError if it is undefined and
    /// may not be emitted, else the error of the escape.
    pub fn check_value<H: Host>(&self, alloc: Global, host: &H, value: &Value) -> Result<(), Error>
        requires { (H.program host.now).host.formatter ≡ None }
        ensures { CanBeEmitted result (emitted (H.program host.now).host value.now self.now)
            (emitted_text self.now.escape (records_of self.now) value.now) self.now }
    {
        check_defined(value, host.undefined_behavior(), UndefinedUse::Emission)?;
        check_emission(alloc, value, self.escape, self)
    }

    /// The number of scopes.
    pub fn height(&self) -> usize
        ensures { result ≡ length self.now.scopes.frames }
    {
        self.context.height()
    }

    /// Takes the state out and leaves one without a template, scopes and fuel.
    pub fn take(&mut self, alloc: Global) -> StateData
        ensures taken { result ≡ self.old }
        ensures left { self.new ≡ nothing_left }
    {
        mem::replace(
            self,
            StateData {
                id: 0,
                context: Context::new(alloc),
                namespaces: Vec::new(alloc),
                loops: Vec::new(alloc),
                closures: Closures::new(alloc),
                streams: Streams::new(alloc),
                temps: NameMap::new(alloc),
                lists: Lists::new(alloc),
                block: None,
                escape: AutoEscape::None,
                stream: StreamId::root(TemplateId::Own),
                fuel: FuelTracker::new(0),
                fuel_is_set: false,
                rooms: Rooms::new(alloc),
                template_place: NO_PLACE,
            },
        )
    }

    /// The running stream.
    pub fn stream(&self) -> &StreamId
        ensures { result.now ≡ self.now.stream }
    {
        &self.stream
    }

    /// The place of the template that was rendered or included last, as a hint for the host's
    /// lookups.
    #[inline(always)]
    pub fn template_place(&self) -> usize {
        self.template_place
    }

    /// Sets that hint.
    pub fn set_template_place(&mut self, place: usize)
        ensures { self.new ≡ self.old }
    {
        self.template_place = place;
    }

    /// How output is escaped.
    pub fn escape(&self) -> AutoEscape
        ensures { result ≡ self.now.escape }
    {
        self.escape
    }

    /// Sets how output is escaped.
    pub fn set_escape(&mut self, escape: AutoEscape)
        ensures { self.new ≡ with_escape escape self.old }
    {
        self.escape = escape;
    }

    /// Pushes an empty scope. InvalidOperation if it would exceed the depth limit, OutOfMemory if
    /// memory runs out; then nothing changes.
    pub fn push_scope(&mut self, alloc: Global, limit: usize) -> Result<(), Error>
        ensures ok { OnOk result (self.new ≡ scoped self.old) }
        ensures fits { OnOk result (nat_lt (depth self.old.scopes) limit ≡ true) }
        ensures kind { IfErr result (PushFails (nat_lt (depth self.old.scopes) limit)) }
        ensures err { OnErr result (self.new ≡ self.old) }
    {
        self.context
            .push_frame(Frame::new(Value::undefined()), limit)
    }

    /// Opens the loop `number` over `items` in a scope of its own, with a record after all others.
    /// InvalidOperation if the scope would exceed the depth limit, OutOfMemory if memory runs out;
    /// then nothing changes.
    pub fn open_loop(
        &mut self,
        alloc: Global,
        items: Rc<Vec<Value>>,
        flags: LoopFlags,
        number: usize,
        limit: usize,
    ) -> Result<(), Error>
        ensures ok { OnOk result
            (self.new ≡ with_open_loop items.value.items flags number self.old) }
        ensures fits { OnOk result (nat_lt (depth self.old.scopes) limit ≡ true) }
        ensures kind { IfErr result (PushFails (nat_lt (depth self.old.scopes) limit)) }
        ensures err { OnErr result (self.new ≡ self.old) }
    {
        let depth = self.loop_depth();
        let mark = LoopMark {
            number: self.loops.len(),
            variable: flags.variable,
        };
        self.context.push_frame(Frame::of_loop(mark), limit)?;
        let added = match depth {
            Some(depth) => add_loop(
                &mut self.loops,
                &self.stream,
                items,
                depth,
                number,
                flags.recursive,
            ),
            None => Err(Error::from(ErrorKind::OutOfMemory)),
        };
        if added.is_err() {
            self.context.pop_frame();
        }
        added
    }

    /// The depth of a loop that is opened now. None if it overflows.
    fn loop_depth(&self) -> Option<usize>
        ensures { SomeIff result (loop_depth self.now < 2 ^ 64) (loop_depth self.now) }
    {
        match self.context.innermost_loop() {
            Some(number) => match self.loops.get(number) {
                Some(state) => state.depth_inside(),
                None => Some(0),
            },
            None => Some(0),
        }
    }

    /// The number of the innermost loop's record, if a loop is open.
    pub(crate) fn innermost_loop(&self) -> Option<usize>
        ensures { result ≡ innermost self.now.scopes.frames }
    {
        self.context.innermost_loop()
    }

    /// The loop record `number`, if there is one.
    pub(crate) fn loop_at(&self, number: usize) -> Option<&LoopState>
        ensures { IsLent result (slice_get self.now.loops number) }
    {
        self.loops.get(number)
    }

    /// The loop record of the innermost scope, if it is a loop's.
    #[inline(always)]
    pub fn top_loop(&self) -> Option<&LoopState>
        ensures { IsLent result (top_loop self.now) }
    {
        match self.context.top_mark() {
            Some(mark) => self.loops.get(mark.number),
            None => None,
        }
    }

    /// Whether `args` differ from the arguments that the loop `number` kept last; if so, it keeps
    /// `args`. InvalidOperation if there is no such loop, OutOfMemory if memory runs out; then
    /// nothing changes.
    pub(crate) fn loop_changed(
        &mut self,
        alloc: Global,
        number: usize,
        args: &[Value],
    ) -> Result<Value, Error>
        ensures called { Comes result (of_loop (slice_get self.old.loops number) self.old
            (told_changed number args.now self.old)) self.new }
        ensures rest { self.new ≡ record self.old { loops = self.new.loops } }
    {
        let changed = changed_at(&mut self.loops, alloc, number, args)?;
        Ok(Value::boolean(changed))
    }

    /// The argument for the current item of the loop `number`, in turn. InvalidOperation if there
    /// is no such loop; OutOfMemory.
    pub(crate) fn loop_cycle(&self, number: usize, args: &[Value]) -> Result<Value, Error>
        ensures { Comes result (of_loop (slice_get self.now.loops number) self.now
            (told_turn args.now self.now)) self.now }
    {
        match self.loops.get(number) {
            Some(state) => state.cycle(args),
            None => Err(Error::from(ErrorKind::InvalidOperation)),
        }
    }

    /// Advances the innermost scope's loop to its next item.
    #[inline(always)]
    pub fn next_turn(&mut self)
        ensures { self.new ≡ next_turn self.old }
    {
        if let Some(mark) = self.context.top_mark() {
            turn_at(&mut self.loops, mark.number);
        }
    }

    /// Drops the names of the innermost scope.
    #[inline(always)]
    pub fn clear_locals(&mut self)
        ensures { self.new ≡ cleared self.old }
    {
        self.context.clear_locals();
    }

    /// Whether the innermost scope is a loop's.
    pub fn is_in_loop(&self) -> bool
        ensures { result ≡ is_some (top_mark self.now.scopes.frames) }
    {
        self.context.top_mark().is_some()
    }

    /// Forgets the records of all loops; the values of loops have no record afterwards.
    pub fn forget_loops(&mut self)
        ensures { self.new ≡ record self.old { loops = [] } }
    {
        self.loops.clear();
    }

    /// Drops the innermost scope, which is a loop's, and forgets the loop's items. Fails only with
    /// OutOfMemory; then nothing changes.
    pub fn leave_loop(&mut self) -> Result<(), Error>
        ensures ok { OnOk result (self.new ≡ leave_loop self.old) }
        ensures kind { IfErr result (λ e. e ≡ ErrorKind.OutOfMemory ∷ []) }
        ensures err { OnErr result (self.new ≡ self.old) }
    {
        if let Some(mark) = self.context.top_mark() {
            leave_at(&mut self.loops, mark.number)?;
        }
        self.pop_scope();
        Ok(())
    }

    /// Drops the innermost scope.
    pub fn pop_scope(&mut self)
        ensures { self.new ≡ pop self.old }
    {
        self.context.pop_frame();
    }

    /// Binds `name` in the innermost scope, and in its own closure, if it has one. Fails only with
    /// OutOfMemory; then nothing changes.
    #[tactic(auto, using(crate::proofs::Stored::plainly, crate::proofs::Stored::enclosed))]
    pub fn store(&mut self, name: &Name, value: Value) -> Result<(), Error>
        ensures ok { OnOk result (self.new ≡ store name.now value self.old) }
        ensures kind { IfErr result (λ e. e ≡ ErrorKind.OutOfMemory ∷ []) }
        ensures err { OnErr result (self.new ≡ self.old) }
    {
        match self.context.own_closure() {
            Some(number) => {
                self.context
                    .store_enclosed(&mut self.closures, number, name, value)
            }
            None => self.context.store(name.share()?, value),
        }
    }

    /// Binds `name` in the innermost scope to a shared copy of `value`. If memory runs out or the
    /// scope has a closure of its own, nothing changes and the result is false.
    #[inline(always)]
    #[tactic(auto, using(crate::proofs::Stored::at_once))]
    pub fn store_at_once(&mut self, name: &Name, value: &Value) -> bool
        ensures { OrStays result self.old self.new
            (self.new ≡ store name.now value.now self.old) }
    {
        if self.context.own_closure().is_some() {
            return false;
        }
        self.context.store_at_once(name, value)
    }

    /// Sets an attribute of a namespace. InvalidOperation for a value that isn't a namespace of
    /// this state; OutOfMemory. If it fails, nothing changes.
    pub fn set_member(
        &mut self,
        alloc: Global,
        object: &Value,
        name: &Name,
        value: Value,
    ) -> Result<(), Error>
        ensures ok { OnOk result
            (set_member name.now value object.now self.old ≡ Good tt self.new) }
        ensures err { IfErr result (λ e. is_want_of_memory e ≡ false →
            set_member name.now value object.now self.old ≡ Bad e self.old) }
        ensures unchanged { OnErr result (self.new ≡ self.old) }
        ensures rest { self.new ≡ record self.old { namespaces = self.new.namespaces } }
    {
        let index = check_settable(alloc, object, self)?;
        set_in(alloc, &mut self.namespaces, index, name, value)
    }
}

impl Records for StateData {
    ghost use Rattle.tm_meaning.specs.World.{records_of};

    ghost records = { records_of };

    fn state(&self) -> u64 {
        self.id
    }

    fn namespace_count(&self) -> usize {
        self.namespaces.len()
    }

    fn namespace(&self, index: usize) -> Option<&ValueMap> {
        self.namespaces.get(index)
    }

    fn loop_position(&self, index: usize) -> Option<LoopPosition> {
        position_at(&self.loops, index)
    }

    fn previous_item(&self, index: usize) -> Option<&Value> {
        previous_at(&self.loops, index)
    }

    fn following_item(&self, index: usize) -> Option<&Value> {
        following_at(&self.loops, index)
    }
}
