//! Shared names.
ghost use Rattle.std.specs.Prelude.{◌≡◌, IfOk, Some, nat_eq, refl};
ghost use Rattle.std.specs.Cmp.{partial_equiv_from_equiv};
ghost use Rattle.std.specs.Cmp.Lexicographic.{nat_list_eq_equiv, pointwise, slice_cmp};
ghost use Rattle.std.specs.Ordering.{nat_cmp};
ghost use Rattle.std.specs.Rc.{rc_str_bytes};
ghost use Rattle.tm_syntax.specs.Hashed.{hash_of, hashed_cmp};
ghost use Rattle.tm_syntax.specs.HashedLaws.{hashed_po, hashed_ties, hashed_total};

use std::alloc::{AllocError, Global};
use std::cmp::Ordering;
use std::hash::{FoldHasher, Hasher};
use std::marker::Model;
use std::rc::RcStr;

/// The hash of a text, the same for all owners.
fn hash_of(text: &str) -> u64
    ensures { result ≡ hash_of text.now }
{
    let mut hasher = FoldHasher::default();
    hasher.write(text.as_bytes());
    hasher.finish()
}

/// A name in a template, with its hash. A contract sees its bytes. Sharing a name needs no memory.
#[derive(Drop)]
pub struct Name {
    text: RcStr,
    hash: u64,
}

impl Model for Name {
    ghost use Rattle.std.specs.Prelude.{◌≡◌, List, ℕ};
    ghost use Rattle.std.specs.Rc.{rc_str_bytes};
    ghost use Rattle.tm_syntax.specs.Hashed.{hash_of};

    ghost Value = { List ℕ };

    ghost view = { λ a. rc_str_bytes a.text };

    ghost invariant = { λ a. a.hash ≡ hash_of (rc_str_bytes a.text) };
}

impl Name {
    /// A copy of `text`. AllocError if memory runs out.
    pub fn new(alloc: Global, text: &str) -> Result<Name, AllocError>
        ensures { IfOk result (λ name. name ≡ text.now) }
    {
        let hash = hash_of(text);
        let text = RcStr::from_str(alloc, text)?;
        Ok(Name { text, hash })
    }

    /// The name that shares `text`.
    pub fn from_text(text: RcStr) -> Name
        ensures { result ≡ rc_str_bytes text }
    {
        let hash = hash_of(text.as_str());
        Name { text, hash }
    }

    /// A second owner of the same text. AllocError only if the count of owners overflows.
    pub fn share(&self) -> Result<Name, AllocError>
        ensures { IfOk result (λ name. name ≡ self.now) }
    {
        Ok(Name {
            text: self.text.clone()?,
            hash: self.hash,
        })
    }

    /// The text.
    pub fn as_str(&self) -> &str
        ensures { result.now ≡ self.now }
    {
        self.text.as_str()
    }

    /// The text, shared. AllocError if the count of owners overflows.
    pub fn text(&self) -> Result<RcStr, AllocError>
        ensures { IfOk result (λ text. rc_str_bytes text ≡ self.now) }
    {
        self.text.clone()
    }

    /// The text, moved out of the name.
    pub fn into_text(self) -> RcStr
        ensures { rc_str_bytes result ≡ self }
    {
        let Name { text, .. } = self;
        text
    }

    /// Whether the name is the text `other`.
    pub fn is(&self, other: &str) -> bool
        ensures { result ≡ pointwise nat_eq self.now other.now }
    {
        self.text.as_str() == other
    }

    /// Compares the texts by their bytes.
    pub fn compare(&self, other: &str) -> Ordering
        ensures { result ≡ slice_cmp nat_cmp self.now other.now }
    {
        self.text.as_str().cmp(other)
    }
}

/// Compares the hashes first; texts with different hashes aren't read.
impl PartialEq for Name {
    ghost eq = { pointwise nat_eq };

    ghost laws = { partial_equiv_from_equiv nat_list_eq_equiv };

    fn eq(&self, other: &Name) -> bool {
        self.hash == other.hash && self.text.as_str() == other.text.as_str()
    }
}

impl Eq for Name {
    ghost laws = { nat_list_eq_equiv };
}

impl PartialOrd for Name {
    ghost partial_cmp = { λ x y. Some (hashed_cmp x y) };

    ghost laws = { hashed_po };

    fn partial_cmp(&self, other: &Name) -> Option<Ordering> {
        Some(self.cmp(other))
    }
}

/// Compares by hash, so that an index of names seldom reads a text; equal hashes are compared by
/// text.
impl Ord for Name {
    ghost cmp = { hashed_cmp };

    ghost total = { hashed_total };

    ghost matches_partial_cmp = { λ x y. refl };

    ghost matches_eq = { hashed_ties };

    fn cmp(&self, other: &Name) -> Ordering {
        match self.hash.cmp(&other.hash) {
            Ordering::Equal => self.text.as_str().cmp(other.text.as_str()),
            order => order,
        }
    }
}
