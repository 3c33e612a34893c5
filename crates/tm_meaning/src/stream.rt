//! The names of templates and of their streams.
ghost use Rattle.std.specs.Prelude.{◌≡◌, None, Some, IfOk};
ghost use Rattle.tm_meaning.specs.World.{root_of, block_of, same_template, same_stream};

use std::alloc::AllocError;
use tm_syntax::Name;

/// A template: the rendered one, or an entry of the environment.
pub enum TemplateId {
    /// The rendered template.
    Own,
    /// The environment's template of that name.
    Entry(Name),
}

// By hand: one call for each owner, instead of a drop of each part.
impl Drop for TemplateId {
    fn drop(self) {
        match self {
            TemplateId::Own | TemplateId::Entry(_) => {}
        }
    }
}

impl TemplateId {
    /// Whether both are the same template.
    pub fn is(&self, other: &TemplateId) -> bool
        ensures { result ≡ same_template self.now other.now }
    {
        match (self, other) {
            (TemplateId::Own, TemplateId::Own) => true,
            (TemplateId::Entry(name), TemplateId::Entry(of_other)) => {
                name.as_str() == of_other.as_str()
            }
            _ => false,
        }
    }

    /// A second owner of the same id. AllocError only if the count of a name's owners overflows.
    pub fn share(&self) -> Result<TemplateId, AllocError>
        ensures { IfOk result (λ template. template ≡ self.now) }
    {
        match self {
            TemplateId::Own => Ok(TemplateId::Own),
            TemplateId::Entry(name) => Ok(TemplateId::Entry(name.share()?)),
        }
    }
}

/// A stream: the root of a template, or its block of that name.
pub struct StreamId {
    /// The template.
    pub template: TemplateId,
    /// The name of the block, or None for the root.
    pub block: Option<Name>,
}

// By hand: one call for each owner, instead of a drop of each part.
impl Drop for StreamId {
    fn drop(self) {
        let StreamId {
            template: _template,
            block: _block,
        } = self;
    }
}

impl StreamId {
    /// The root of a template.
    pub fn root(template: TemplateId) -> StreamId
        ensures { result ≡ root_of template }
    {
        StreamId {
            template,
            block: None,
        }
    }

    /// Whether both are the same stream.
    pub fn is(&self, other: &StreamId) -> bool
        ensures { result ≡ same_stream self.now other.now }
    {
        if !self.template.is(&other.template) {
            return false;
        }
        match (&self.block, &other.block) {
            (None, None) => true,
            (Some(name), Some(of_other)) => name.as_str() == of_other.as_str(),
            _ => false,
        }
    }

    /// A second owner of the same id. AllocError only if the count of a name's owners overflows.
    pub fn share(&self) -> Result<StreamId, AllocError>
        ensures { IfOk result (λ stream. stream ≡ self.now) }
    {
        let block = match &self.block {
            Some(name) => Some(name.share()?),
            None => None,
        };
        Ok(StreamId {
            template: self.template.share()?,
            block,
        })
    }

    /// The block `name` of a template.
    pub fn block(template: TemplateId, name: Name) -> StreamId
        ensures { result ≡ block_of template name }
    {
        StreamId {
            template,
            block: Some(name),
        }
    }
}
