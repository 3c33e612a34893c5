//! One scope, and what a lookup in scopes finds.
ghost use Rattle.std.specs.Prelude.{ℕ, option_map, ◌≡◌, ◌||◌, [], ◌∷◌, None, false, OnOk, IfErr, IfOk, IfSome, Ok, Some};
ghost use Rattle.tm_syntax.specs.Named.{texts_of};
ghost use Rattle.tm_values.specs.Answer.{OkOrOutOfMemory};
ghost use Rattle.tm_values.specs.Val.{loop, undefined};
ghost use Rattle.tm_meaning.specs.World.{View, in_frames, plain_scope, loop_scope, marked_loop, context_member, is_exported};
ghost use Rattle.tm_scopes.specs.Found.{IsHeld, IsFoundIn, meant_by};
ghost use Rattle.tm_scopes.specs.Known.{AddsFound, AreMembers, NamingFails, has_text, is_among};

use crate::closures::Closures;
use std::alloc::{AllocError, Global};
use std::marker::Model;
use tm_meaning::LoopMark;
use tm_syntax::Name;
use tm_values::{Error, ErrorKind, Node, Records, Value, find_namespace};

/// Whether `name` is exported: it doesn't begin with `_`.
pub(crate) fn is_exported(name: &str) -> bool
    ensures { result ≡ is_exported name.now }
{
    match name.as_bytes().first() {
        Some(b'_') => false,
        _ => true,
    }
}

/// What a lookup of a name in the scopes finds.
#[derive(Drop)]
pub enum Found<'a> {
    /// A value held there.
    Value(&'a Value),
    /// A scope's `loop`, by the number of its record.
    Loop(usize),
}

impl Found<'_> {
    /// The value; a loop becomes a value of the state with id `state`. Fails only with OutOfMemory.
    pub fn value(&self, state: u64) -> Result<Value, Error>
        ensures { OkOrOutOfMemory result (λ v. v ≡ meant_by state self.now) }
    {
        match self {
            Found::Value(value) => value.share(),
            Found::Loop(number) => Ok(Value::loop_record(state, *number)),
        }
    }
}

/// A scope apart from its own names: the value whose keys are names in it, its loop, and the
/// numbers of the closure that was made in it and of the closure that it reads.
pub struct Frame {
    pub(crate) context: Value,
    pub(crate) mark: Option<LoopMark>,
    pub(crate) own_closure: Option<usize>,
    reads: Option<usize>,
}

// Written by hand: one drop call per owner instead of dropping each part.
impl Drop for Frame {
    fn drop(self) {
        let Frame {
            context: _context,
            mark: _mark,
            own_closure: _own_closure,
            reads: _reads,
        } = self;
    }
}

impl Model for Frame {
    ghost use Rattle.std.specs.Coded.{codes};
    ghost use Rattle.std.specs.Prelude.{[]};
    ghost use Rattle.tm_meaning.specs.World.{Scope};
    ghost use Rattle.tm_values.specs.Code.{coded_Val};

    ghost Value = { Scope };

    ghost coded = { Prim.hlevel (codes, coded_Val) };

    ghost view = { λ f. record {
      locals = [];
      context = f.context;
      mark = f.mark;
      own_closure = f.own_closure;
      reads = f.reads;
    } };
}

impl Frame {
    /// A scope over a context value.
    pub fn new(context: Value) -> Frame
        ensures { result ≡ plain_scope context }
    {
        Frame {
            context,
            mark: None,
            own_closure: None,
            reads: None,
        }
    }

    /// A loop's scope.
    pub fn of_loop(mark: LoopMark) -> Frame
        ensures { result ≡ loop_scope mark }
    {
        Frame {
            context: Value::undefined(),
            mark: Some(mark),
            own_closure: None,
            reads: None,
        }
    }

    /// A macro's scope, which reads the closure `reads`, if given.
    pub(crate) fn of_macro(reads: Option<usize>) -> Frame
        ensures { result ≡ record (plain_scope (undefined false)) { reads = reads } }
    {
        Frame {
            context: Value::undefined(),
            mark: None,
            own_closure: None,
            reads,
        }
    }

    /// Proves that a frame has no names of its own; does nothing.
    #[inline(always)]
    pub(crate) fn is_bare(&self)
        ensures { self.now.locals ≡ [] }
    {
        let _context = &self.context;
    }

    /// The number of the scope's loop if `name` means that loop here.
    fn named_loop(&self, name: &str) -> Option<usize>
        ensures { (id : ℕ) →
            option_map (λ n. loop id n) result ≡ marked_loop id self.now.mark name.now }
    {
        let mark = self.mark?;
        if mark.variable && name == "loop" {
            Some(mark.number)
        } else {
            None
        }
    }

    /// What `name` is bound to: the scope's loop, else a value of the closure that it reads, else a
    /// member of the context value. InvalidOperation if only the context value is left and it is a
    /// namespace without a record.
    pub fn get<'a, R: Records>(
        &'a self,
        name: &Name,
        closures: &'a Closures,
        records: &'a R,
    ) -> Result<Option<Found<'a>>, Error>
        ensures { IsFoundIn (R.records records.now) closures.now name.now
            (self.now ∷ []) result }
    {
        self.is_bare();
        if let Some(number) = self.named_loop(name.as_str()) {
            return Ok(Some(Found::Loop(number)));
        }
        if self.reads.is_some() {
            if let Some(enclosed) = closures.get(self.reads, name) {
                return Ok(Some(Found::Value(enclosed)));
            }
        }
        match self.context_member(name.as_str(), records)? {
            Some(member) => Ok(Some(Found::Value(member))),
            None => Ok(None),
        }
    }

    /// The member of the context value that `name` is bound to, if the scope binds it to nothing
    /// else. None if only `get` can tell: if `name` means the scope's loop, or the scope reads a
    /// closure, or its context value is neither a map nor undefined.
    #[inline(always)]
    pub(crate) fn member_at_once(&self, name: &Name) -> Option<Option<&Value>>
        ensures { IfSome result (λ found. (view : View) →
            IsHeld (Ok found) (in_frames view name.now (self.now ∷ []))) }
    {
        self.is_bare();
        if self.reads.is_some() || self.named_loop(name.as_str()).is_some() {
            return None;
        }
        match &self.context.node {
            Node::Undefined(_) => Some(None),
            Node::Map(_, _) => Some(self.context.member(name.as_str())),
            _ => None,
        }
    }

    /// The member `name` of the context value. InvalidOperation if that is a namespace without a
    /// record.
    fn context_member<'a, R: Records>(
        &'a self,
        name: &str,
        records: &'a R,
    ) -> Result<Option<&'a Value>, Error>
        ensures { IsHeld result (context_member (R.records records.now) name.now self.now.context) }
    {
        match &self.context.node {
            Node::Undefined(_) => Ok(None),
            Node::Namespace(state, index) => match find_namespace(records, *state, *index) {
                Some(pairs) => Ok(pairs.member(name)),
                None => Err(Error::from(ErrorKind::InvalidOperation)),
            },
            _ => Ok(self.context.member(name)),
        }
    }

    /// Sets the number of the scope's own closure.
    pub(crate) fn own(&mut self, closure: Option<usize>)
        ensures { self.new ≡ record self.old { own_closure = closure } }
    {
        self.own_closure = closure;
    }

    /// A shared copy of the context value. Fails only with OutOfMemory.
    pub(crate) fn share_context(&self) -> Result<Value, Error>
        ensures { OkOrOutOfMemory result (λ v. v ≡ self.now.context) }
    {
        self.context.share()
    }

    /// Appends the names that are bound here: its loop's, those of the closure that it reads, and
    /// the text keys of its context value. InvalidOperation if that is a namespace without a
    /// record; OutOfMemory.
    pub(crate) fn add_names<'a, R: Records>(
        &'a self,
        alloc: Global,
        closures: &'a Closures,
        records: &'a R,
        names: &mut Vec<&'a str>,
    ) -> Result<(), Error>
        ensures ok { OnOk result (AddsFound (R.records records.now) closures.now (self.now ∷ [])
            (texts_of names.old.items) (texts_of names.new.items)) }
        ensures err { IfErr result (NamingFails (R.records records.now) (self.now ∷ [])) }
    {
        self.is_bare();
        let pairs = self.context_pairs(records)?;
        if self.named_loop("loop").is_some() {
            names.push("loop")?;
        }
        let mut enclosed = closures.names(alloc, self.reads)?;
        names.append(&mut enclosed)?;
        add_texts(pairs, names)?;
        Ok(())
    }

    /// The pairs of the context value, empty if it has none. InvalidOperation if it is a namespace
    /// without a record.
    fn context_pairs<'a, R: Records>(
        &'a self,
        records: &'a R,
    ) -> Result<&'a [(Value, Value)], Error>
        ensures members { IfOk result (AreMembers (R.records records.now) self.now.context) }
        ensures err { IfErr result (NamingFails (R.records records.now) (self.now ∷ [])) }
    {
        match &self.context.node {
            Node::Namespace(state, index) => {
                let Some(map) = find_namespace(records, *state, *index) else {
                    return Err(Error::from(ErrorKind::InvalidOperation));
                };
                Ok(map.pairs())
            }
            _ => Ok(self.context.pairs()),
        }
    }
}

/// Appends the text keys of a map. AllocError if memory runs out.
fn add_texts<'a>(pairs: &'a [(Value, Value)], names: &mut Vec<&'a str>) -> Result<(), AllocError>
    ensures { OnOk result ((x : _) → is_among x (texts_of names.new.items)
        ≡ (is_among x (texts_of names.old.items) || has_text x pairs.now)) }
{
    for pair in pairs {
        if let Some(name) = pair.0.as_str() {
            names.push(name)?;
        }
    }
    Ok(())
}
