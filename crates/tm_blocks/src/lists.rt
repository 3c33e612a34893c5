//! The lists of blocks of a state, its places in them, and the names of the templates that it
//! loaded.
ghost use Rattle.std.specs.Prelude.{◌≡◌, ◌+◌, ◌∷◌, ◌++◌, [], slice_get, List, Some, MatchOption, IfErr, IfOk, OnErr, OnOk};
ghost use Rattle.tm_meaning.specs.Inheritance.{place_in};
ghost use Rattle.tm_meaning.specs.declared.stream.TemplateId.{TemplateId as Template};
ghost use Rattle.tm_syntax.specs.Named.{find, put};
ghost use Rattle.tm_syntax.specs.Names.{is_among};
ghost use Rattle.tm_blocks.specs.Lists.{IsListed, alone_in, listed_at, loaded_part, no_lists, with_each};
ghost use Rattle.tm_values.specs.Answer.{OkOrOutOfMemory};
ghost use Rattle.tm_values.specs.declared.error.ErrorKind.TheVariants.{OutOfMemory};

use crate::block_names::BlockNames;
use crate::loaded::Loaded;
use std::alloc::{AllocError, Global};
use std::marker::Model;
use std::mem;
use std::rc::Rc;
use tm_meaning::TemplateId;
use tm_scopes::NameTable;
use tm_syntax::Name;
use tm_values::{Error, ErrorKind};

/// Moves `loaded` into an Rc. Fails only with OutOfMemory.
fn shared(alloc: Global, loaded: Loaded) -> Result<Rc<Loaded>, Error>
    ensures { OkOrOutOfMemory result (λ made. made.value ≡ loaded) }
{
    match Rc::new(alloc, loaded) {
        Ok(made) => Ok(made),
        Err(_) => Err(Error::from(ErrorKind::OutOfMemory)),
    }
}

/// The lists of blocks by name, the places in them that differ from the child's, and the names of
/// the loaded templates, in order. Copies share the lists and the names until one of them adds to
/// them. A contract sees all three.
pub struct Lists {
    loaded: Option<Rc<Loaded>>,
    places: NameTable<usize>,
}

// Written by hand: one drop call per owner instead of dropping each part.
impl Drop for Lists {
    fn drop(self) {
        let Lists {
            loaded: _loaded,
            places: _places,
        } = self;
    }
}

impl Model for Lists {
    ghost use Rattle.tm_blocks.specs.Lists.{ListsValue, loaded_in};

    ghost Value = { ListsValue };

    ghost view = { λ s. record {
      blocks = (loaded_in s.loaded).blocks;
      places = s.places;
      loaded = (loaded_in s.loaded).names;
    } };
}

impl Lists {
    /// No lists and no names; allocates nothing.
    pub fn new(alloc: Global) -> Lists
        ensures { result ≡ no_lists }
    {
        Lists {
            loaded: None,
            places: NameTable::new(alloc),
        }
    }

    /// The template at `place` in the list of `name`, if there is one, and whether the list has no
    /// other.
    pub fn at(&self, name: &Name, place: usize) -> Option<(&TemplateId, bool)>
        ensures { MatchOption result (listed_at name.now place self.now.blocks ≡ None)
            (λ r. IsListed r.0.now r.1 name.now place self.now.blocks) }
    {
        match &self.loaded {
            Some(loaded) => loaded.as_ref().at(name, place),
            None => None,
        }
    }

    /// The place after `place` in the list of `name`, toward the root, and its template, if there
    /// is one.
    pub fn after(&self, name: &Name, place: usize) -> Option<(usize, &TemplateId)>
        ensures { MatchOption result (listed_at name.now (place + 1) self.now.blocks ≡ None)
            (λ r. (r.0 ≡ place + 1) × ((l : List Template) × (find name.now self.now.blocks ≡ Some l)
            × (slice_get l (place + 1) ≡ Some r.1.now))) }
    {
        match &self.loaded {
            Some(loaded) => loaded.as_ref().after(name, place),
            None => None,
        }
    }

    /// The current place in the list of `name`.
    pub fn place(&self, name: &str) -> usize
        ensures { result ≡ place_in name.now self.now.places }
    {
        match self.places.get(name) {
            Some(place) => *place,
            None => 0,
        }
    }

    /// Whether the template `name` was loaded. Makes log n comparisons for n names.
    pub fn is_loaded(&self, name: &str) -> bool
        ensures { result ≡ is_among name.now self.now.loaded }
    {
        match &self.loaded {
            Some(loaded) => loaded.as_ref().has(name),
            None => false,
        }
    }

    /// A copy of the places in which the list of `name` has `place`. Fails only with OutOfMemory.
    pub fn places_with(
        &self,
        alloc: Global,
        name: Name,
        place: usize,
    ) -> Result<NameTable<usize>, Error>
        ensures { OkOrOutOfMemory result (λ places. places ≡ put name place self.now.places) }
    {
        let mut places = self.places.copy(alloc)?;
        places.insert(name, place)?;
        Ok(places)
    }

    /// Replaces the places and returns the old ones.
    pub fn replace_places(&mut self, places: NameTable<usize>) -> NameTable<usize>
        ensures before { result ≡ self.old.places }
        ensures now { self.new ≡ record self.old { places = places } }
    {
        mem::replace(&mut self.places, places)
    }

    /// Swaps the places with `places`.
    pub fn swap_places(&mut self, places: &mut NameTable<usize>)
        ensures before { places.new ≡ self.old.places }
        ensures now { self.new ≡ record self.old { places = places.old } }
    {
        mem::swap(&mut self.places, places);
    }

    /// Appends `template` to the list of each block in `names`. Fails only with OutOfMemory; then
    /// nothing changes.
    pub fn append(
        &mut self,
        alloc: Global,
        template: &TemplateId,
        names: &Rc<BlockNames>,
    ) -> Result<(), Error>
        ensures ok { OnOk result (self.new ≡ record self.old {
          blocks = with_each template.now names.now.value self.old.blocks;
        }) }
        ensures kind { IfErr result (λ e. e ≡ OutOfMemory ∷ []) }
        ensures err { OnErr result (self.new ≡ self.old) }
    {
        if names.as_ref().is_empty() {
            return Ok(());
        }
        if let Some(loaded) = &mut self.loaded {
            if let Some(own) = Rc::get_mut(loaded) {
                return own.append(template, names);
            }
        }
        let mut own = self.copy_loaded(alloc)?;
        own.append(template, names)?;
        self.loaded = Some(shared(alloc, own)?);
        Ok(())
    }

    /// Records that the template `name` was loaded. Fails only with OutOfMemory; then nothing
    /// changes.
    pub fn add_loaded(&mut self, alloc: Global, name: Name) -> Result<(), Error>
        ensures ok { OnOk result
            (self.new ≡ record self.old { loaded = self.old.loaded ++ name ∷ [] }) }
        ensures kind { IfErr result (λ e. e ≡ OutOfMemory ∷ []) }
        ensures err { OnErr result (self.new ≡ self.old) }
    {
        if let Some(loaded) = &mut self.loaded {
            if let Some(own) = Rc::get_mut(loaded) {
                return own.add(alloc, name);
            }
        }
        let mut own = self.copy_loaded(alloc)?;
        own.add(alloc, name)?;
        self.loaded = Some(shared(alloc, own)?);
        Ok(())
    }

    /// The lists for the blocks of `template` alone, without places; the names of the loaded
    /// templates stay. Fails only with OutOfMemory.
    #[tactic(auto, using(crate::proofs::Alone::each_alone))]
    pub fn own(
        &self,
        alloc: Global,
        template: &TemplateId,
        names: &Rc<BlockNames>,
    ) -> Result<Lists, Error>
        ensures { OkOrOutOfMemory result (λ own. own ≡ record {
          blocks = alone_in template.now names.now.value;
          places = [];
          loaded = self.now.loaded;
        }) }
    {
        let mut own = self.names_alone(alloc)?;
        let has_no_blocks = names.as_ref().is_empty();
        if has_no_blocks {
            return Ok(own);
        }
        names.as_ref().ascend();
        own.append(alloc, template, names)?;
        Ok(own)
    }

    /// The names of the loaded templates, without lists and places. Fails only with OutOfMemory.
    fn names_alone(&self, alloc: Global) -> Result<Lists, Error>
        ensures { OkOrOutOfMemory result
            (λ alone. alone ≡ record no_lists { loaded = self.now.loaded }) }
    {
        let Some(loaded) = &self.loaded else {
            return Ok(Lists::new(alloc));
        };
        let names = loaded.as_ref().names_alone(alloc)?;
        Ok(Lists {
            loaded: Some(shared(alloc, names)?),
            places: NameTable::new(alloc),
        })
    }

    /// A copy of the loaded part, not shared with another state. Fails only with OutOfMemory.
    fn copy_loaded(&self, alloc: Global) -> Result<Loaded, Error>
        ensures { OkOrOutOfMemory result (λ copy. copy ≡ loaded_part self.now) }
    {
        match &self.loaded {
            Some(loaded) => loaded.as_ref().copy(alloc),
            None => Ok(Loaded::new(alloc)),
        }
    }

    /// Shares the lists and names, and copies the places. Fails only with OutOfMemory.
    #[inline(always)]
    pub fn copy(&self, alloc: Global) -> Result<Lists, Error>
        ensures { OkOrOutOfMemory result (λ copy. copy ≡ self.now) }
    {
        let loaded = match &self.loaded {
            Some(loaded) => Some(loaded.clone()?),
            None => None,
        };
        Ok(Lists {
            loaded,
            places: self.places.copy(alloc)?,
        })
    }
}
