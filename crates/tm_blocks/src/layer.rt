//! One template of a chain.
ghost use Rattle.std.specs.Prelude.{◌≡◌, IfOk};
ghost use Rattle.tm_blocks.specs.Layers.{has_block};

use crate::block_names::BlockNames;
use std::alloc::AllocError;
use std::marker::Model;
use std::rc::Rc;
use tm_meaning::TemplateId;
use tm_syntax::Name;

/// A template of a chain, with the names of its blocks. A contract sees both.
pub(crate) struct Layer {
    pub template: TemplateId,
    pub names: Rc<BlockNames>,
}

// Written by hand: one drop call per owner instead of dropping each part.
impl Drop for Layer {
    fn drop(self) {
        let Layer {
            template: _template,
            names: _names,
        } = self;
    }
}

impl Model for Layer {
    ghost use Rattle.tm_blocks.specs.Layers.{LayerValue};

    ghost Value = { LayerValue };

    ghost view = { λ s. record { template = s.template; names = s.names.value } };
}

impl Layer {
    /// The template.
    #[inline(always)]
    pub(crate) fn template(&self) -> &TemplateId
        ensures { result.now ≡ self.now.template }
    {
        &self.template
    }

    /// Whether it has a block named `name`.
    #[inline(always)]
    pub(crate) fn has(&self, name: &Name) -> bool
        ensures { result ≡ has_block name.now self.now }
    {
        self.names.as_ref().contains(name)
    }

    /// Shares the template and the names. AllocError if the reference count overflows.
    pub(crate) fn share(&self) -> Result<Layer, AllocError>
        ensures { IfOk result (λ layer. layer ≡ self.now) }
    {
        Ok(Layer {
            template: self.template.share()?,
            names: self.names.clone()?,
        })
    }
}
