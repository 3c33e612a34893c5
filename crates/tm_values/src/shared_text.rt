//! Texts that values share.
ghost use Rattle.std.specs.Prelude.{◌≡◌, ◌++◌, [], IfOk, OnErr, OnOk, string_bytes};
ghost use Rattle.tm_values.specs.Answer.{OrStays};

use std::alloc::{AllocError, Global};
use std::marker::Model;
use std::rc::Rc;

/// A text with shared bytes. A contract sees the bytes.
#[derive(Drop)]
pub struct SharedText {
    content: Rc<String>,
}

impl Model for SharedText {
    ghost use Rattle.std.specs.Prelude.{ℕ, List, string_bytes};

    ghost Value = { List ℕ };

    ghost view = { λ a. string_bytes a.content.value };
}

impl SharedText {
    /// A copy of `content`. AllocError if memory runs out.
    pub fn from_str(alloc: Global, content: &str) -> Result<SharedText, AllocError>
        ensures { IfOk result (λ made. made ≡ content.now) }
    {
        SharedText::from_string(String::from_str(alloc, content)?)
    }

    /// The text of `content`, which is moved. AllocError if memory runs out.
    pub fn from_string(content: String) -> Result<SharedText, AllocError>
        ensures { IfOk result (λ made. made ≡ string_bytes content) }
    {
        match Rc::new(*content.allocator(), content) {
            Ok(content) => Ok(SharedText { content }),
            Err(_) => Err(AllocError),
        }
    }

    /// The text.
    #[inline(always)]
    pub fn as_str(&self) -> &str
        ensures { result.now ≡ self.now }
    {
        self.content.as_ref().as_str()
    }

    /// A second owner of the same bytes. AllocError only if the count of owners overflows.
    #[inline(always)]
    pub fn share(&self) -> Result<SharedText, AllocError>
        ensures { IfOk result (λ shared. shared ≡ self.now) }
    {
        let content = self.content.clone()?;
        Ok(SharedText { content })
    }

    /// Whether both share the same bytes in memory.
    pub(crate) fn shares_with(&self, other: &SharedText) -> bool {
        Rc::ptr_eq(&self.content, &other.content)
    }

    /// Empties the text and keeps its capacity, if it has no other owner. Otherwise returns false
    /// and changes nothing.
    pub fn clear(&mut self) -> bool
        ensures { OrStays result self.old self.new (self.new ≡ []) }
    {
        match Rc::get_mut(&mut self.content) {
            Some(own) => {
                own.clear();
                true
            }
            None => false,
        }
    }

    /// Appends `after`: in place if there is no other owner, and otherwise to a copy, so that the
    /// other owners see no change. AllocError if memory runs out; then nothing changes.
    pub fn append(&mut self, after: &str) -> Result<(), AllocError>
        ensures ok { OnOk result (self.new ≡ self.old ++ after.now) }
        ensures err { OnErr result (self.new ≡ self.old) }
    {
        if let Some(own) = Rc::get_mut(&mut self.content) {
            return own.push_str(after);
        }
        *self = joined(self.as_str(), after, *self.content.allocator())?;
        Ok(())
    }
}

// The concatenation of two texts.
fn joined(front: &str, after: &str, alloc: Global) -> Result<SharedText, AllocError>
    ensures { IfOk result (λ made. made ≡ front.now ++ after.now) }
{
    let room = front.len().saturating_add(after.len());
    let mut content = String::with_capacity(alloc, room)?;
    content.push_str(front)?;
    content.push_str(after)?;
    SharedText::from_string(content)
}
