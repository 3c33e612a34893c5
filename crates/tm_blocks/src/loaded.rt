//! What states share about the templates that they loaded.
ghost use Rattle.std.specs.Prelude.{◌≡◌, ◌+◌, ◌∷◌, ◌++◌, [], drop, slice_get, List, Some, MatchOption, IfErr, IfOk, OnErr, OnOk};
ghost use Rattle.std.specs.List.{list_any};
ghost use Rattle.tm_syntax.specs.Named.{find};
ghost use Rattle.tm_syntax.specs.Names.{is_among};
ghost use Rattle.tm_meaning.specs.declared.stream.TemplateId.{TemplateId as Template};
ghost use Rattle.tm_blocks.specs.Layers.{IsLayerOf, has_block};
ghost use Rattle.tm_blocks.specs.Lists.{IsListed, listed_at, nothing_loaded, with_each};
ghost use Rattle.tm_values.specs.Answer.{OkOrOutOfMemory};
ghost use Rattle.tm_values.specs.declared.error.ErrorKind.TheVariants.{OutOfMemory};

use crate::block_names::BlockNames;
use crate::layer::Layer;
use crate::loaded_names::LoadedNames;
use std::alloc::{AllocError, Global};
use std::marker::Model;
use std::rc::Rc;
use tm_meaning::TemplateId;
use tm_syntax::Name;
use tm_values::{Error, ErrorKind};

/// The index of the layer whose template is at `place` in the list of `name`.
fn layer_of(layers: &[Layer], name: &Name, place: usize) -> Option<usize>
    ensures { IsLayerOf result name.now place layers.now }
{
    let mut left = place;
    let mut at = 0;
    while at < layers.len() {
        if layers[at].has(name) {
            if left == 0 {
                return Some(at);
            }
            left -= 1;
        }
        at += 1;
    }
    None
}

/// Whether one of the layers at `from` or later has a block named `name`. Starts at the root, since
/// layouts have most blocks.
fn has_from(layers: &[Layer], from: usize, name: &Name) -> bool
    ensures { result ≡ list_any (has_block name.now) (drop from layers.now) }
{
    let mut end = layers.len();
    while end > from {
        end -= 1;
        if layers[end].has(name) {
            return true;
        }
    }
    false
}

/// A copy of the layers. AllocError if memory runs out.
fn copy_layers(alloc: Global, layers: &[Layer]) -> Result<Vec<Layer>, AllocError>
    ensures { IfOk result (λ copy. copy.items ≡ layers.now) }
{
    let mut copy = Vec::new(alloc);
    for layer in layers {
        copy.push(layer.share()?)?;
    }
    Ok(copy)
}

/// Moves `names` into an Rc. Fails only with OutOfMemory.
fn shared(alloc: Global, names: LoadedNames) -> Result<Rc<LoadedNames>, Error>
    ensures { OkOrOutOfMemory result (λ made. made.value ≡ names) }
{
    match Rc::new(alloc, names) {
        Ok(made) => Ok(made),
        Err(_) => Err(Error::from(ErrorKind::OutOfMemory)),
    }
}

/// The chain of templates with the names of their blocks, from child to root, and the names of the
/// loaded templates, in order. Copies share these names until one of them adds a name. A contract
/// sees for each block name the list of its templates, and the names of the loaded templates.
pub(crate) struct Loaded {
    layers: Vec<Layer>,
    names: Option<Rc<LoadedNames>>,
}

// Written by hand: one drop call per owner instead of dropping each part.
impl Drop for Loaded {
    fn drop(self) {
        let Loaded {
            layers: _layers,
            names: _names,
        } = self;
    }
}

impl Model for Loaded {
    ghost use Rattle.std.specs.Prelude.{[]};
    ghost use Rattle.tm_blocks.specs.Layers.{AreAscending};
    ghost use Rattle.tm_blocks.specs.Lists.{LoadedValue, names_in, with_layers};

    ghost Value = { LoadedValue };

    ghost view = { λ s. record { blocks = with_layers s.layers.items []; names = names_in s.names } };

    ghost invariant = { λ s. AreAscending s.layers.items };
}

impl Loaded {
    /// No lists and no names; allocates nothing.
    pub(crate) fn new(alloc: Global) -> Loaded
        ensures { result ≡ nothing_loaded }
    {
        Loaded {
            layers: Vec::new(alloc),
            names: None,
        }
    }

    /// The template at `place` in the list of `name`, if there is one, and whether the list has no
    /// other.
    pub(crate) fn at(&self, name: &Name, place: usize) -> Option<(&TemplateId, bool)>
        ensures { MatchOption result (listed_at name.now place self.now.blocks ≡ None)
            (λ r. IsListed r.0.now r.1 name.now place self.now.blocks) }
    {
        match layer_of(&self.layers, name, place) {
            Some(at) => {
                let alone = place == 0 && !has_from(&self.layers, at + 1, name);
                Some((self.layers[at].template(), alone))
            }
            None => None,
        }
    }

    /// The place after `place` in the list of `name`, toward the root, and its template, if there
    /// is one.
    pub(crate) fn after(&self, name: &Name, place: usize) -> Option<(usize, &TemplateId)>
        ensures { MatchOption result (listed_at name.now (place + 1) self.now.blocks ≡ None)
            (λ r. (r.0 ≡ place + 1) × ((l : List Template) × (find name.now self.now.blocks ≡ Some l)
            × (slice_get l (place + 1) ≡ Some r.1.now))) }
    {
        if place >= self.layers.len() {
            return None;
        }
        let next = place + 1;
        match layer_of(&self.layers, name, next) {
            Some(at) => Some((next, self.layers[at].template())),
            None => None,
        }
    }

    /// Whether the template `name` was loaded. Makes log n comparisons for n names.
    pub(crate) fn has(&self, name: &str) -> bool
        ensures { result ≡ is_among name.now self.now.names }
    {
        match &self.names {
            Some(names) => names.as_ref().has(name),
            None => false,
        }
    }

    /// Appends `template` to the list of each block in `names`. Fails only with OutOfMemory; then
    /// nothing changes.
    pub(crate) fn append(
        &mut self,
        template: &TemplateId,
        names: &Rc<BlockNames>,
    ) -> Result<(), Error>
        ensures ok { OnOk result (self.new ≡ record self.old {
          blocks = with_each template.now names.now.value self.old.blocks;
        }) }
        ensures kind { IfErr result (λ e. e ≡ OutOfMemory ∷ []) }
        ensures err { OnErr result (self.new ≡ self.old) }
    {
        names.as_ref().ascend();
        let layer = Layer {
            template: template.share()?,
            names: names.clone()?,
        };
        self.layers.push(layer)?;
        Ok(())
    }

    /// Records that the template `name` was loaded. Fails only with OutOfMemory; then nothing
    /// changes.
    pub(crate) fn add(&mut self, alloc: Global, name: Name) -> Result<(), Error>
        ensures ok { OnOk result
            (self.new ≡ record self.old { names = self.old.names ++ name ∷ [] }) }
        ensures kind { IfErr result (λ e. e ≡ OutOfMemory ∷ []) }
        ensures err { OnErr result (self.new ≡ self.old) }
    {
        if let Some(names) = &mut self.names {
            if let Some(own) = Rc::get_mut(names) {
                return own.add(name);
            }
        }
        let mut own = self.copy_names(alloc)?;
        own.add(name)?;
        self.names = Some(shared(alloc, own)?);
        Ok(())
    }

    /// A copy of the names, not shared with another state. Fails only with OutOfMemory.
    fn copy_names(&self, alloc: Global) -> Result<LoadedNames, Error>
        ensures { OkOrOutOfMemory result (λ copy. copy ≡ self.now.names) }
    {
        match &self.names {
            Some(names) => names.as_ref().copy(alloc),
            None => Ok(LoadedNames::new(alloc)),
        }
    }

    /// Shares the names, without lists. Fails only with OutOfMemory.
    pub(crate) fn names_alone(&self, alloc: Global) -> Result<Loaded, Error>
        ensures { OkOrOutOfMemory result (λ copy. copy ≡ record self.now { blocks = [] }) }
    {
        let names = match &self.names {
            Some(names) => Some(names.clone()?),
            None => None,
        };
        Ok(Loaded {
            layers: Vec::new(alloc),
            names,
        })
    }

    /// A copy of the lists that shares the names. Fails only with OutOfMemory.
    pub(crate) fn copy(&self, alloc: Global) -> Result<Loaded, Error>
        ensures { OkOrOutOfMemory result (λ copy. copy ≡ self.now) }
    {
        let mut loaded = self.names_alone(alloc)?;
        loaded.layers = copy_layers(alloc, &self.layers)?;
        Ok(loaded)
    }
}
