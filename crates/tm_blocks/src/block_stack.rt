//! The blocks of one name in a chain of templates.
ghost use Rattle.std.specs.Prelude.{◌≡◌, ◌<◌, ◌+◌, ◌-◌, ◌↔◌, IsTrue, ℕ, [], ◌∷◌, ◌++◌, length, slice_get, None, Some, MatchOption, IfErr, IfOk, OnErr, OnOk};
ghost use Rattle.tm_values.specs.Answer.{IsLent, OkOrOutOfMemory, OrStays};
ghost use Rattle.tm_values.specs.declared.error.ErrorKind.TheVariants.{OutOfMemory};

use std::alloc::{AllocError, Global};
use std::marker::Model;
use tm_meaning::TemplateId;
use tm_values::Error;

/// The templates that have a block of one name, from child to root, and the place of the current
/// one. A contract sees both.
#[derive(Drop)]
pub struct BlockStack {
    templates: Vec<TemplateId>,
    place: usize,
}

impl Model for BlockStack {
    ghost use Rattle.tm_blocks.specs.Lists.{Layers};

    ghost Value = { Layers };

    ghost view = { λ s. record { templates = s.templates.items; place = s.place } };
}

impl BlockStack {
    /// A stack of one template's block. Fails only with OutOfMemory.
    pub fn new(alloc: Global, template: TemplateId) -> Result<BlockStack, Error>
        ensures { OkOrOutOfMemory result
            (λ s. s ≡ record { templates = template ∷ []; place = 0 }) }
    {
        let mut templates = Vec::new(alloc);
        templates.push(template)?;
        Ok(BlockStack {
            templates,
            place: 0,
        })
    }

    /// The current template, if there is one at the place.
    pub fn template(&self) -> Option<&TemplateId>
        ensures { IsLent result (slice_get self.now.templates self.now.place) }
    {
        self.templates.get(self.place)
    }

    /// The next place toward the root and its template, if there is one.
    pub fn next(&self) -> Option<(usize, &TemplateId)>
        ensures { MatchOption result (slice_get self.now.templates (self.now.place + 1) ≡ None)
            (λ r. (r.0 ≡ self.now.place + 1)
            × (slice_get self.now.templates (self.now.place + 1) ≡ Some r.1.now)) }
    {
        if self.place >= self.templates.len() {
            return None;
        }
        let place = self.place + 1;
        match self.templates.get(place) {
            Some(template) => Some((place, template)),
            None => None,
        }
    }

    /// Moves to the next template toward the root. If there is none, nothing changes and the result
    /// is false.
    pub fn push(&mut self) -> bool
        ensures moved { OrStays result self.old self.new
            (self.new ≡ record self.old { place = self.old.place + 1 }) }
        ensures there { IsTrue result ↔ (self.old.place + 1 < length self.old.templates) }
    {
        if self.place >= self.templates.len().saturating_sub(1) {
            return false;
        }
        self.place += 1;
        true
    }

    /// Moves to the previous template toward the child; at the first one nothing changes.
    pub fn pop(&mut self)
        ensures { self.new ≡ record self.old { place = self.old.place - 1 } }
    {
        self.place = self.place.saturating_sub(1);
    }

    /// The number of templates that have the block.
    pub fn len(&self) -> usize
        ensures { result ≡ length self.now.templates }
    {
        self.templates.len()
    }

    /// The place of the current template.
    pub fn place(&self) -> usize
        ensures { result ≡ self.now.place }
    {
        self.place
    }

    /// Makes the template at `place` current.
    pub fn move_to(&mut self, place: usize)
        ensures { self.new ≡ record self.old { place = place } }
    {
        self.place = place;
    }

    /// A copy. AllocError if memory runs out.
    pub fn copy(&self, alloc: Global) -> Result<BlockStack, AllocError>
        ensures { IfOk result (λ s. s ≡ self.now) }
    {
        let mut templates = Vec::new(alloc);
        for template in self.templates.iter() {
            templates.push(template.share()?)?;
        }
        Ok(BlockStack {
            templates,
            place: self.place,
        })
    }

    /// Appends `template` at the root's end. Fails only with OutOfMemory; then nothing changes.
    pub fn append(&mut self, template: TemplateId) -> Result<(), Error>
        ensures ok { OnOk result
            (self.new ≡ record self.old { templates = self.old.templates ++ template ∷ [] }) }
        ensures kind { IfErr result (λ e. e ≡ OutOfMemory ∷ []) }
        ensures err { OnErr result (self.new ≡ self.old) }
    {
        self.templates.push(template)?;
        Ok(())
    }
}
