//! What an object of the caller sees of a state.
ghost use Rattle.std.specs.Prelude.{◌≡◌};
ghost use Rattle.tm_syntax.specs.Named.{find};
ghost use Rattle.tm_values.specs.Answer.{IsAnswer, IsLent};
ghost use Rattle.tm_meaning.specs.World.{find_name};
ghost use Rattle.tm_objects.specs.Views.{records_with};

use std::marker::Model;
use tm_scopes::{Closures, Context, LoopState, following_at, position_at, previous_at};
use tm_syntax::{Name, NameMap};
use tm_values::{AutoEscape, Error, LoopPosition, Records, UndefinedBehavior, Value, ValueMap};

/// What an object of the caller sees of a state: its scopes and loops, the kept values, the
/// environment's globals, and the running template.
#[derive(Drop)]
pub struct View<'a> {
    id: u64,
    context: &'a Context,
    closures: &'a Closures,
    namespaces: &'a [ValueMap],
    loops: &'a [LoopState],
    globals: &'a NameMap<Value>,
    temps: &'a NameMap<Value>,
    name: &'a str,
    escape: AutoEscape,
    undefined: UndefinedBehavior,
}

impl<'a> Model for View<'a> {
    ghost use Rattle.std.specs.Coded.{codes};
    ghost use Rattle.tm_meaning.specs.World.{View as Seen};
    ghost use Rattle.tm_values.specs.Code.{coded_Val};
    ghost use Rattle.tm_objects.specs.Views.{records_with};

    ghost Value = { Seen };

    ghost coded = { Prim.hlevel (codes, coded_Val) };

    ghost view = { λ v. record {
      id = v.id;
      frames = v.context.now.frames;
      closures = v.closures.now;
      records = records_with v.id v.namespaces.now v.loops.now;
      globals = v.globals.now;
      temps = v.temps.now;
      name = v.name.now;
      escape = v.escape;
      undefined = v.undefined;
    } };
}

impl<'a> View<'a> {
    /// A view of a state with this id, its scopes, closures, namespaces and loops, the
    /// environment's globals, the kept values, the running template's name and escape, and the
    /// behavior of undefined values.
    pub fn new(
        id: u64,
        context: &'a Context,
        closures: &'a Closures,
        namespaces: &'a [ValueMap],
        loops: &'a [LoopState],
        globals: &'a NameMap<Value>,
        temps: &'a NameMap<Value>,
        name: &'a str,
        escape: AutoEscape,
        undefined: UndefinedBehavior,
    ) -> View<'a>
        ensures { result ≡ record {
          id = id;
          frames = context.entry.now.frames;
          closures = closures.entry.now;
          records = records_with id namespaces.entry.now loops.entry.now;
          globals = globals.entry.now;
          temps = temps.entry.now;
          name = name.entry.now;
          escape = escape;
          undefined = undefined;
        } }
    {
        View {
            id,
            context,
            closures,
            namespaces,
            loops,
            globals,
            temps,
            name,
            escape,
            undefined,
        }
    }

    /// The value that `name` is bound to: in the scopes, innermost first, else among the globals.
    /// InvalidOperation if the search meets a scope over a namespace without a record; OutOfMemory.
    pub fn lookup(&self, name: &str) -> Result<Option<Value>, Error>
        ensures { IsAnswer result (find_name self.now name.now) }
    {
        let hashed = Name::new(self.context.allocator(), name)?;
        match self.context.find(&hashed, self.closures, self)? {
            Some(found) => Ok(Some(found.value(self.id)?)),
            None => match self.globals.get(name) {
                Some(global) => Ok(Some(global.share()?)),
                None => Ok(None),
            },
        }
    }

    /// The value that is kept under `name`, if any.
    pub fn get_temp(&self, name: &str) -> Option<&Value>
        ensures { IsLent result (find name.now self.now.temps) }
    {
        self.temps.get(name)
    }

    /// The name of the template that runs.
    pub fn name(&self) -> &str
        ensures { result.now ≡ self.now.name }
    {
        self.name
    }

    /// How emitted values are escaped.
    pub fn auto_escape(&self) -> AutoEscape
        ensures { result ≡ self.now.escape }
    {
        self.escape
    }

    /// How undefined values behave.
    pub fn undefined_behavior(&self) -> UndefinedBehavior
        ensures { result ≡ self.now.undefined }
    {
        self.undefined
    }
}

impl Records for View<'_> {
    ghost records = { λ v. v.records };

    fn state(&self) -> u64 {
        self.id
    }

    fn namespace_count(&self) -> usize {
        self.namespaces.len()
    }

    fn namespace(&self, index: usize) -> Option<&ValueMap> {
        self.namespaces.get(index)
    }

    fn loop_position(&self, index: usize) -> Option<LoopPosition> {
        position_at(self.loops, index)
    }

    fn previous_item(&self, index: usize) -> Option<&Value> {
        previous_at(self.loops, index)
    }

    fn following_item(&self, index: usize) -> Option<&Value> {
        following_at(self.loops, index)
    }
}
