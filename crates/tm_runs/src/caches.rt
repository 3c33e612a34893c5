//! The caches of a run for the names of filters or tests.
ghost use Rattle.std.specs.Prelude.{◌≡◌, ◌⊎◌, [], ◌∷◌, None, Some, OnOk, IfErr, MatchOption, slice_get};
ghost use Rattle.tm_meaning.specs.Instructions.{holding, used};
ghost use Rattle.tm_syntax.specs.Named.{same_name};
ghost use Rattle.tm_runs.specs.Runs.{IsUsed};

use std::alloc::Global;
use std::marker::Model;
use tm_objects::{Host, Parties};
use tm_parts::Halt;
use tm_scopes::NO_PLACE;
use tm_syntax::{Application, CACHES, NO_CACHE, Name};
use tm_values::{Error, ErrorKind};

/// The place of the filter or test `name` in the host. A method has none.
#[inline(never)]
fn place_of<H: Host>(host: &H, application: Application, name: &str) -> usize {
    match application {
        Application::Filter => host.objects().filter_place(name),
        Application::Test | Application::NegatedTest => host.objects().test_place(name),
        Application::Method => NO_PLACE,
    }
}

/// A cached name with the place of its filter or test. A contract sees only the name.
#[derive(Drop)]
struct CachedName {
    name: Name,
    place: usize,
}

impl Model for CachedName {
    ghost use Rattle.std.specs.Prelude.{List, ℕ};

    ghost Value = { List ℕ };

    ghost view = { λ held. held.name };
}

impl CachedName {
    /// Whether this is the cached name.
    #[inline(always)]
    fn is(&self, name: &Name) -> bool
        ensures { result ≡ same_name name.now self.now }
    {
        *name == self.name
    }

    /// The place of the filter or test.
    #[inline(always)]
    fn place(&self) -> usize {
        self.place
    }
}

/// The cached names by number. The caches after the last used one are empty and not stored, so that
/// a run without filters allocates nothing for them.
#[derive(Drop)]
pub(crate) struct Caches {
    names: Vec<Option<CachedName>>,
}

impl Model for Caches {
    ghost use Rattle.std.specs.Prelude.{List, Option, ℕ};

    ghost Value = { List (Option (List ℕ)) };

    ghost view = { λ caches. caches.names.items };
}

impl Caches {
    /// Only empty caches.
    pub(crate) fn new(alloc: Global) -> Caches
        ensures { result ≡ [] }
    {
        Caches {
            names: Vec::new(alloc),
        }
    }

    /// Returns the place of the filter or test `name`. If `cache` is the number of a cache, it
    /// holds the name from then on, so that the host is asked only once. Stuck if that cache holds
    /// another name, or if the number is neither a cache's nor `NO_CACHE`; OutOfMemory.
    #[inline(always)]
    pub(crate) fn use_name<H: Host>(
        &mut self,
        host: &H,
        application: Application,
        cache: u8,
        name: &Name,
    ) -> Result<usize, Halt>
        ensures { IsUsed (used cache name.now self.old) self.new result }
    {
        if cache == NO_CACHE {
            return Ok(NO_PLACE);
        }
        if cache >= CACHES {
            return Err(Halt::Stuck);
        }
        match self.held(cache as usize) {
            Some(held) if held.is(name) => return Ok(held.place()),
            Some(_) => return Err(Halt::Stuck),
            None => {}
        }
        let place = place_of(host, application, name.as_str());
        self.hold(cache as usize, name, place)?;
        Ok(place)
    }

    /// The content of a cache, if it isn't empty.
    #[inline(always)]
    fn held(&self, cache: usize) -> Option<&CachedName>
        ensures { MatchOption result
            ((slice_get self.now cache ≡ None) ⊎ (slice_get self.now cache ≡ Some None))
            (λ held. slice_get self.now cache ≡ Some (Some held.now)) }
    {
        match self.names.get(cache) {
            Some(Some(held)) => Some(held),
            _ => None,
        }
    }

    /// Stores `name` and its place in a cache; OutOfMemory.
    #[inline(never)]
    #[tactic(auto, using(crate::proofs::Used::one_empty, crate::proofs::Used::held_there))]
    fn hold(&mut self, cache: usize, name: &Name, place: usize) -> Result<(), Error>
        ensures ok { OnOk result (self.new ≡ holding cache name.now self.old) }
        ensures kind { IfErr result (λ e. e ≡ ErrorKind.OutOfMemory ∷ []) }
    {
        while self.names.len() <= cache {
            self.names.push(None)?;
        }
        let name = name.share()?;
        self.names[cache] = Some(CachedName { name, place });
        Ok(())
    }
}
