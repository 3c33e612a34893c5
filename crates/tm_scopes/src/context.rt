//! Scopes.
ghost use Rattle.std.specs.List.Sorted.{IsStrictlySortedBy};
ghost use Rattle.std.specs.Prelude.{◌≡◌, ◌<◌, ◌^◌, ◌-◌, [], ◌∷◌, true, false, length, min, nat_lt};
ghost use Rattle.std.specs.Prelude.{Ok, OnErr, OnOk, IfErr, IfOk, IfSome, Some};
ghost use Rattle.tm_syntax.specs.Named.{find, name_cmp, texts_of};
ghost use Rattle.tm_values.specs.Answer.{IsLent, OkOrOutOfMemory, OrStays};
ghost use Rattle.tm_values.specs.Val.{undefined};
ghost use Rattle.tm_values.specs.declared.error.ErrorKind.TheVariants.{OutOfMemory};
ghost use Rattle.tm_meaning.specs.World.{View, plain_scope, depth, in_frames, innermost, own_closure, put_at, stored_in, top_mark};
ghost use Rattle.tm_meaning.specs.World.{owning, without_first, without_locals, exported, top_locals};
ghost use Rattle.tm_meaning.specs.Calls.{outermost, root_context};
ghost use Rattle.tm_scopes.specs.Found.{IsFoundIn};
ghost use Rattle.tm_scopes.specs.Known.{AreFoundIn, AreKnownIn, NamingFails};
ghost use Rattle.tm_scopes.specs.Scopes.{one_scope, PushFails, exported_among, exported_of};

use crate::closures::Closures;
use crate::frame::{Found, Frame, is_exported};
use crate::mark::{SCANNED, ScopeMark, cut};
use crate::pairs::{exported, in_order, names_in, place_of, value_of};
use std::alloc::{AllocError, Global};
use std::marker::Model;
use tm_meaning::LoopMark;
use tm_syntax::{Name, NameMap};
use tm_values::{Error, ErrorKind, Node, Records, Value, ValueMap};

/// The scopes of a state. One vector holds their names: a scope's pairs start at the first place
/// that its mark records, and end where the next scope's start. A contract sees the scopes innermost
/// first.
pub struct Context {
    pairs: Vec<(Name, Value)>,
    marks: Vec<ScopeMark>,
    // The first place of the innermost scope.
    top: usize,
    outer: usize,
}

// Written by hand: one drop call per owner instead of dropping each part.
impl Drop for Context {
    fn drop(self) {
        let Context {
            pairs: _pairs,
            marks: _marks,
            top: _top,
            outer: _outer,
        } = self;
    }
}

impl Model for Context {
    ghost use Rattle.std.specs.Coded.{codes};
    ghost use Rattle.std.specs.Prelude.{reverse};
    ghost use Rattle.tm_meaning.specs.World.{Scopes};
    ghost use Rattle.tm_scopes.specs.Marks.{AreScopes, framed};
    ghost use Rattle.tm_values.specs.Code.{coded_Val};

    ghost Value = { Scopes };

    ghost coded = { Prim.hlevel (codes, coded_Val) };

    ghost view = { λ c. record {
      frames = framed (reverse c.marks.items) c.pairs.items;
      outer = c.outer;
    } };

    ghost invariant = { λ c. AreScopes (reverse c.marks.items) c.pairs.items c.top };
}

impl Context {
    /// No scopes.
    pub fn new(alloc: Global) -> Context
        ensures { result ≡ record { frames = []; outer = 0 } }
    {
        Context {
            pairs: Vec::new(alloc),
            marks: Vec::new(alloc),
            top: 0,
            outer: 0,
        }
    }

    /// A single scope; its depth isn't checked. Fails only with OutOfMemory.
    pub fn new_with_frame(alloc: Global, frame: Frame) -> Result<Context, Error>
        ensures { OkOrOutOfMemory result (λ c. c ≡ one_scope frame) }
    {
        let mut context = Context::new(alloc);
        context.enter(frame)?;
        Ok(context)
    }

    /// Drops all scopes and enters those of a macro at depth `outer`, which isn't checked: one over
    /// the context value `root`, and inside it one that reads the closure `reads`, if given. Fails
    /// only with OutOfMemory.
    pub fn begin_macro(
        &mut self,
        root: Value,
        reads: Option<usize>,
        outer: usize,
    ) -> Result<(), Error>
        ensures ok { OnOk result (self.new ≡ record {
          frames = record (plain_scope (undefined false)) { reads = reads } ∷ plain_scope root ∷ [];
          outer = outer;
        }) }
        ensures kind { IfErr result (λ e. e ≡ OutOfMemory ∷ []) }
    {
        self.clear();
        self.enter(Frame::new(root))?;
        self.enter(Frame::of_macro(reads))?;
        self.set_outer(outer);
        Ok(())
    }

    /// Drops all scopes and keeps their memory.
    pub fn clear(&mut self)
        ensures { self.new ≡ record { frames = []; outer = 0 } }
    {
        cut(&mut self.pairs, 0);
        self.marks.clear();
        self.top = 0;
        self.outer = 0;
    }

    /// The allocator of the scopes.
    pub fn allocator(&self) -> Global {
        *self.marks.allocator()
    }

    /// The number of scopes.
    pub fn height(&self) -> usize
        ensures { result ≡ length self.now.frames }
    {
        self.marks.len()
    }

    /// The depth of the outermost scope.
    pub fn outer(&self) -> usize
        ensures { result ≡ self.now.outer }
    {
        self.outer
    }

    /// Sets the depth of the outermost scope.
    pub fn set_outer(&mut self, outer: usize)
        ensures { self.new ≡ record self.old { outer = outer } }
    {
        self.outer = outer;
    }

    /// The depth of the scopes, saturated at `usize::MAX`.
    pub fn depth(&self) -> usize
        ensures { result ≡ min (depth self.now) (2 ^ 64 - 1) }
    {
        self.marks.len().saturating_add(self.outer)
    }

    /// Drops all but the `count` outermost scopes and sets their depth to `outer`.
    pub fn cut_to(&mut self, count: usize, outer: usize)
        ensures { self.new ≡ record { frames = outermost count self.old.frames; outer = outer } }
    {
        while self.height() > count {
            self.pop_frame();
        }
        self.set_outer(outer);
    }

    /// What `name` is bound to; an inner scope wins over an outer one. InvalidOperation if the
    /// search meets a context value that is a namespace without a record.
    pub fn find<'a, R: Records>(
        &'a self,
        name: &Name,
        closures: &'a Closures,
        records: &'a R,
    ) -> Result<Option<Found<'a>>, Error>
        ensures { IsFoundIn (R.records records.now) closures.now name.now
            self.now.frames result }
    {
        let mut i = self.marks.len();
        let mut end = self.pairs.len();
        while i > 0 {
            i -= 1;
            let mark = &self.marks[i];
            match mark.get(&self.pairs[mark.first..end], name) {
                Some(own) => return Ok(Some(Found::Value(own))),
                None => {}
            }
            match mark.frame.get(name, closures, records)? {
                Some(found) => return Ok(Some(found)),
                None => {}
            }
            end = mark.first;
        }
        Ok(None)
    }

    /// What `name` is bound to in the scopes, if that is a value which is found without closures and
    /// records; an inner scope wins over an outer one. None if only `find` can tell.
    #[inline(never)]
    pub fn find_at_once(&self, name: &Name) -> Option<&Value>
        ensures { IfSome result (λ v. (view : View) →
            in_frames view name.now self.now.frames ≡ Ok (Some v.now)) }
    {
        let mut i = self.marks.len();
        let mut end = self.pairs.len();
        while i > 0 {
            i -= 1;
            let mark = &self.marks[i];
            match mark.get(&self.pairs[mark.first..end], name) {
                Some(own) => return Some(own),
                None => {}
            }
            match mark.frame.member_at_once(name)? {
                Some(member) => return Some(member),
                None => {}
            }
            end = mark.first;
        }
        None
    }

    /// The names that are bound in the scopes or among the globals, each once, in order.
    /// InvalidOperation if a context value is a namespace without a record; OutOfMemory.
    pub fn known_names<'a, R: Records>(
        &'a self,
        alloc: Global,
        closures: &'a Closures,
        records: &'a R,
        globals: &'a NameMap<Value>,
    ) -> Result<Vec<&'a str>, Error>
        ensures order { IfOk result
            (λ names. IsStrictlySortedBy name_cmp (texts_of names.items)) }
        ensures known { IfOk result (λ names. AreKnownIn (R.records records.now) closures.now
            self.now.frames globals.now (texts_of names.items)) }
        ensures err { IfErr result (NamingFails (R.records records.now) self.now.frames) }
    {
        let mut names = self.names(alloc, closures, records)?;
        let mut global = globals.names(alloc)?;
        names.append(&mut global)?;
        Ok(in_order(names))
    }

    /// The names that are bound in the scopes. InvalidOperation if a context value is a namespace
    /// without a record; OutOfMemory.
    fn names<'a, R: Records>(
        &'a self,
        alloc: Global,
        closures: &'a Closures,
        records: &'a R,
    ) -> Result<Vec<&'a str>, Error>
        ensures found { IfOk result (λ names. AreFoundIn (R.records records.now) closures.now
            self.now.frames (texts_of names.items)) }
        ensures err { IfErr result (NamingFails (R.records records.now) self.now.frames) }
    {
        let mut names = Vec::new(alloc);
        let mut i = self.marks.len();
        let mut end = self.pairs.len();
        while i > 0 {
            i -= 1;
            let mark = &self.marks[i];
            let mut own = names_in(alloc, &self.pairs[mark.first..end])?;
            names.append(&mut own)?;
            mark.frame.add_names(alloc, closures, records, &mut names)?;
            end = mark.first;
        }
        Ok(names)
    }

    /// The names that the outermost scope exports, in order: its own names that don't begin with
    /// `_`. Fails only with OutOfMemory.
    pub fn exports(&self, alloc: Global) -> Result<Vec<&str>, Error>
        ensures { OkOrOutOfMemory result
            (λ names. texts_of names.items ≡ exported_of self.now.frames) }
    {
        let mut exported = Vec::new(alloc);
        for name in names_in(alloc, self.outermost_pairs())? {
            if is_exported(name) {
                exported.push(name)?;
            }
        }
        Ok(exported)
    }

    /// The pairs of the outermost scope.
    fn outermost_pairs(&self) -> &[(Name, Value)]
        ensures { exported_of self.now.frames ≡ exported_among result.now }
    {
        if self.marks.len() > 1 {
            &self.pairs[..self.marks[1].first]
        } else {
            &self.pairs
        }
    }

    /// Pushes a scope. InvalidOperation if the depth has reached `limit`, OutOfMemory if memory
    /// runs out; then nothing changes.
    pub fn push_frame(&mut self, frame: Frame, limit: usize) -> Result<(), Error>
        ensures fits { OnOk result (nat_lt (depth self.old) limit ≡ true) }
        ensures ok { OnOk result (self.new ≡ record self.old { frames = frame ∷ self.old.frames }) }
        ensures kind { IfErr result (PushFails (nat_lt (depth self.old) limit)) }
        ensures err { IfErr result (λ _. self.new ≡ self.old) }
    {
        if self.depth() >= limit {
            return Err(Error::from(ErrorKind::InvalidOperation));
        }
        self.enter(frame)?;
        Ok(())
    }

    /// Pushes a scope without checking its depth. AllocError if memory runs out; then nothing
    /// changes.
    #[inline(always)]
    fn enter(&mut self, frame: Frame) -> Result<(), AllocError>
        ensures ok { OnOk result (self.new ≡ record self.old { frames = frame ∷ self.old.frames }) }
        ensures err { OnErr result (self.new ≡ self.old) }
    {
        let first = self.pairs.len();
        self.marks.push(ScopeMark::new(first, frame))?;
        self.top = first;
        Ok(())
    }

    /// Binds `name` in the innermost scope, if there is one. Fails only with OutOfMemory; then
    /// nothing changes.
    pub fn store(&mut self, name: Name, value: Value) -> Result<(), Error>
        ensures ok { OnOk result
            (self.new ≡ record self.old { frames = stored_in name value self.old.frames }) }
        ensures kind { IfErr result (λ e. e ≡ OutOfMemory ∷ []) }
        ensures err { OnErr result (self.new ≡ self.old) }
    {
        let Some(innermost) = self.marks.len().checked_sub(1) else {
            return Ok(());
        };
        self.marks[innermost].insert(&mut self.pairs, name, value)?;
        Ok(())
    }

    /// Binds `name` in the innermost scope and in the closure `number`, if there are such. Fails
    /// only with OutOfMemory; then nothing changes.
    pub fn store_enclosed(
        &mut self,
        closures: &mut Closures,
        number: usize,
        name: &Name,
        value: Value,
    ) -> Result<(), Error>
        ensures ok { OnOk result
            (self.new ≡ record self.old { frames = stored_in name.now value self.old.frames }) }
        ensures enclosed { OnOk result
            (closures.new ≡ put_at number name.now value closures.old) }
        ensures kind { IfErr result (λ e. e ≡ OutOfMemory ∷ []) }
        ensures err { OnErr result (self.new ≡ self.old) }
        ensures unchanged { OnErr result (closures.new ≡ closures.old) }
    {
        let own = name.share()?;
        let kept = name.share()?;
        let second = value.share()?;
        if closures.get(Some(number), name).is_some() {
            self.store(own, value)?;
            let _replaced = closures.replace(number, kept, second);
            return Ok(());
        }
        closures.put(number, kept, second)?;
        let stored = self.store(own, value);
        if stored.is_err() {
            closures.remove(number, name);
        }
        stored
    }

    /// The value that the innermost scope itself binds to `name`, if any.
    #[inline(always)]
    pub fn local(&self, name: &Name) -> Option<&Value>
        ensures own { IsLent result (find name.now (top_locals self.now.frames)) }
        ensures found { IfSome result (λ v. (view : View) →
            in_frames view name.now self.now.frames ≡ Ok (Some v.now)) }
    {
        let own = &self.pairs[self.top..];
        if own.len() > SCANNED {
            return self.local_among_many(name);
        }
        value_of(own, name)
    }

    /// `local` for a scope with more than `SCANNED` names.
    #[inline(never)]
    fn local_among_many(&self, name: &Name) -> Option<&Value>
        ensures { IsLent result (find name.now (top_locals self.now.frames)) }
    {
        let mark = self.marks.last()?;
        mark.get(&self.pairs[mark.first..], name)
    }

    /// Binds `name` in the innermost scope to a shared copy of `value`. If memory runs out, nothing
    /// changes and the result is false.
    #[inline(always)]
    pub fn store_at_once(&mut self, name: &Name, value: &Value) -> bool
        ensures { OrStays result self.old self.new
            (self.new ≡ record self.old { frames = stored_in name.now value.now self.old.frames }) }
    {
        if let Node::Number(whole) = &value.node {
            return self.put(name, Value::number(*whole));
        }
        match value.share() {
            Ok(value) => self.put(name, value),
            Err(_) => false,
        }
    }

    /// Binds `name` in the innermost scope to `value`, with the same result.
    #[inline(always)]
    fn put(&mut self, name: &Name, value: Value) -> bool
        ensures { OrStays result self.old self.new
            (self.new ≡ record self.old { frames = stored_in name.now value self.old.frames }) }
    {
        let count = self.pairs.len();
        let own = &self.pairs[self.top..];
        if own.len() >= SCANNED || self.marks.len() == 0 {
            return self.put_shared(name, value);
        }
        match place_of(own, name) {
            Some(place) => {
                self.pairs[self.top + place].1 = value;
                true
            }
            None => {
                if count >= self.pairs.capacity() {
                    return self.put_shared(name, value);
                }
                let Ok(name) = name.share() else {
                    return false;
                };
                self.pairs.push_reserved((name, value));
                true
            }
        }
    }

    /// `put` for the rare cases: no spare room, no scope, or a scope with many names.
    #[inline(never)]
    fn put_shared(&mut self, name: &Name, value: Value) -> bool
        ensures { OrStays result self.old self.new
            (self.new ≡ record self.old { frames = stored_in name.now value self.old.frames }) }
    {
        match name.share() {
            Ok(name) => self.store(name, value).is_ok(),
            Err(_) => false,
        }
    }

    /// The number of the closure that was made in the innermost scope, if any.
    #[inline(always)]
    pub fn own_closure(&self) -> Option<usize>
        ensures { result ≡ own_closure self.now.frames }
    {
        self.marks.last()?.frame.own_closure
    }

    /// Sets the number of the innermost scope's own closure, if there is a scope.
    pub fn set_own_closure(&mut self, closure: Option<usize>)
        ensures { self.new ≡ record self.old { frames = owning closure self.old.frames } }
    {
        if let Some(innermost) = self.marks.len().checked_sub(1) {
            self.marks[innermost].frame.own(closure);
        }
    }

    /// The names that the innermost scope exports as keys of their shared values; empty if there is
    /// no scope. Fails only with OutOfMemory.
    pub fn exported(&self, alloc: Global) -> Result<ValueMap, Error>
        ensures { OkOrOutOfMemory result (λ pairs. pairs ≡ exported (top_locals self.now.frames)) }
    {
        exported(alloc, &self.pairs[self.top..])
    }

    /// The context value of the outermost scope; undefined if there is no scope. Fails only with
    /// OutOfMemory.
    pub fn root_context(&self) -> Result<Value, Error>
        ensures { OkOrOutOfMemory result (λ v. v ≡ root_context self.now.frames) }
    {
        match self.marks.first() {
            Some(outermost) => outermost.frame.share_context(),
            None => Ok(Value::undefined()),
        }
    }

    /// The loop mark of the innermost scope, if it is a loop's.
    #[inline(always)]
    pub fn top_mark(&self) -> Option<LoopMark>
        ensures { result ≡ top_mark self.now.frames }
    {
        self.marks.last()?.frame.mark
    }

    /// The number of the innermost loop's record, if any scope is a loop's.
    pub fn innermost_loop(&self) -> Option<usize>
        ensures { result ≡ innermost self.now.frames }
    {
        let mut i = self.marks.len();
        while i > 0 {
            i -= 1;
            if let Some(mark) = self.marks[i].frame.mark {
                return Some(mark.number);
            }
        }
        None
    }

    /// Drops the names of the innermost scope, if there is one.
    #[inline(always)]
    pub fn clear_locals(&mut self)
        ensures { self.new ≡ record self.old { frames = without_locals self.old.frames } }
    {
        if self.pairs.len() - self.top > SCANNED {
            return self.clear_many();
        }
        cut(&mut self.pairs, self.top);
    }

    /// `clear_locals` for a scope with more than `SCANNED` names.
    #[inline(never)]
    fn clear_many(&mut self)
        ensures { self.new ≡ record self.old { frames = without_locals self.old.frames } }
    {
        let Some(innermost) = self.marks.len().checked_sub(1) else {
            return;
        };
        self.marks[innermost].forget_index();
        cut(&mut self.pairs, self.top);
    }

    /// Drops the innermost scope, if there is one.
    pub fn pop_frame(&mut self)
        ensures { self.new ≡ record self.old { frames = without_first self.old.frames } }
    {
        if let Some(left) = self.marks.pop() {
            cut(&mut self.pairs, left.first);
            self.top = match self.marks.last() {
                Some(innermost) => innermost.first,
                None => 0,
            };
        }
    }
}
