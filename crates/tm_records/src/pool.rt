//! The scopes of macro calls, reused.
ghost use Rattle.std.specs.Prelude.{◌≡◌, ◌+◌, ◌-◌, ◌∷◌, [], IfErr, OnErr, OnOk};
ghost use Rattle.tm_records.specs.Macros.{called_scopes, no_scopes};
ghost use Rattle.tm_values.specs.Answer.{OkOrOutOfMemory};
ghost use Rattle.tm_values.specs.declared.error.ErrorKind.TheVariants.{OutOfMemory};

use std::alloc::Global;
use std::marker::Model;
use std::mem;
use tm_syntax::Name;
use tm_tables::Context;
use tm_values::{Error, Value};

/// Contexts for macro calls, so that a call allocates nothing if an earlier call has ended. The
/// places of the contexts on loan come first, and each holds an empty context meanwhile. A contract
/// sees how many are on loan.
pub struct ContextPool {
    contexts: Vec<Context>,
    lent: usize,
}

// Written by hand: one drop call per owner instead of dropping each part.
impl Drop for ContextPool {
    fn drop(self) {
        let ContextPool {
            contexts: _contexts,
            lent: _lent,
        } = self;
    }
}

impl Model for ContextPool {
    ghost use Rattle.std.specs.Coded.{codes};
    ghost use Rattle.std.specs.Prelude.{◌≤◌, ℕ, length};

    ghost Value = { ℕ };

    ghost coded = { Prim.hlevel codes };

    ghost view = { λ p. p.lent };

    ghost invariant = { λ p. p.lent ≤ length p.contexts.items };
}

impl ContextPool {
    /// No contexts; allocates nothing.
    pub fn new(alloc: Global) -> ContextPool
        ensures { result ≡ 0 }
    {
        ContextPool {
            contexts: Vec::new(alloc),
            lent: 0,
        }
    }

    /// Lends the scopes of a macro call, at the depth `outer`: one over the context value `root`,
    /// and inside it one that reads the closure `reads` and binds `caller`, if given. Fails only
    /// with OutOfMemory; then nothing is lent.
    pub fn lend(
        &mut self,
        alloc: Global,
        root: Value,
        reads: Option<usize>,
        outer: usize,
        caller: Option<(Name, Value)>,
    ) -> Result<Context, Error>
        ensures scopes { OkOrOutOfMemory result (λ c. c ≡ called_scopes root reads outer caller) }
        ensures lent { OnOk result (self.new ≡ self.old + 1) }
        ensures none { OnErr result (self.new ≡ self.old) }
    {
        if self.lent == self.contexts.len() {
            self.contexts.push(Context::new(alloc))?;
        }
        let place = self.lent;
        begin(&mut self.contexts[place], root, reads, outer, caller)?;
        let lent = mem::replace(&mut self.contexts[place], Context::new(alloc));
        self.lent += 1;
        Ok(lent)
    }

    /// Takes back the context of a finished macro call and empties it. Allocates nothing.
    fn take_back(&mut self, context: &mut Context)
        ensures { self.new ≡ self.old - 1 }
    {
        context.clear();
        let Some(place) = self.lent.checked_sub(1) else {
            return;
        };
        mem::swap(&mut self.contexts[place], context);
        self.lent = place;
    }

    /// Restores in `own` the scopes from `saved`, which the macro call replaced, and takes back the
    /// macro's scopes.
    #[inline(always)]
    pub fn swap_back(&mut self, own: &mut Context, saved: &mut Context)
        ensures back { own.new ≡ saved.old }
        ensures given { self.new ≡ self.old - 1 }
    {
        mem::swap(own, saved);
        self.take_back(saved);
    }
}

/// Enters the scopes of a macro call in `context`, like `ContextPool::lend`. Fails only with
/// OutOfMemory; then the context has no scopes.
fn begin(
    context: &mut Context,
    root: Value,
    reads: Option<usize>,
    outer: usize,
    caller: Option<(Name, Value)>,
) -> Result<(), Error>
    ensures ok { OnOk result (context.new ≡ called_scopes root reads outer caller) }
    ensures kind { IfErr result (λ e. e ≡ OutOfMemory ∷ []) }
    ensures none { OnErr result (context.new ≡ no_scopes) }
{
    let entered = enter(context, root, reads, outer, caller);
    if entered.is_err() {
        context.clear();
    }
    entered
}

/// `begin`, but scopes may remain if it fails.
fn enter(
    context: &mut Context,
    root: Value,
    reads: Option<usize>,
    outer: usize,
    caller: Option<(Name, Value)>,
) -> Result<(), Error>
    ensures ok { OnOk result (context.new ≡ called_scopes root reads outer caller) }
    ensures kind { IfErr result (λ e. e ≡ OutOfMemory ∷ []) }
{
    context.begin_macro(root, reads, outer)?;
    match caller {
        Some((name, value)) => context.store(name, value),
        None => Ok(()),
    }
}
