//! Templates by name.
ghost use Rattle.std.specs.Iterator.{item_count, YieldsFirstBy};
ghost use Rattle.std.specs.Prelude.{◌≡◌, ◌≢◌, [], ◌∷◌, None, Some, OnOk, OnErr, IfErr, MatchOption, length};
ghost use Rattle.tm_syntax.specs.Named.{find, named_of, put, without};
ghost use Rattle.tm_values.specs.Answer.{IsLent};
ghost use Rattle.tm_scopes.specs.Places.{AreOrdered};
ghost use Rattle.tm_templates.specs.Templates.{AreFoundIn, EachAccepted, with_place};

use crate::compiled::CompiledTemplate;
use std::alloc::Global;
use std::collections::BTreeMap;
use std::collections::btree_map::Iter;
use std::marker::Model;
use std::rc::RcStr;
use tm_compiler::Name;
use tm_values::{Error, ErrorKind};

/// Gives `name` another place, if it has one.
fn set_place(places: &mut BTreeMap<RcStr, usize>, name: &str, place: usize)
    ensures { named_of places.new.entries
        ≡ with_place name.now place (named_of places.old.entries) }
{
    if let Some(at) = places.get_mut(name) {
        *at = place;
    }
}

/// The templates of an environment. A contract sees them as pairs of a name and a template, ordered
/// by name.
#[derive(Drop)]
pub struct Templates<'source> {
    // Not one map with the templates in it: in the library's maps a template can't be borrowed for
    // less time than its source is. So the map has the places of the templates in `entries`.
    places: BTreeMap<RcStr, usize>,
    // In no order.
    entries: Vec<(Name, CompiledTemplate<'source>)>,
}

impl<'source> Model for Templates<'source> {
    ghost use Rattle.std.specs.Coded.{codes};
    ghost use Rattle.tm_syntax.specs.Named.{Named, named_of};
    ghost use Rattle.tm_syntax.specs.contracts.tree.Expr as expression;
    ghost use Rattle.tm_syntax.specs.contracts.tree.Stmt as statement;
    ghost use Rattle.tm_values.specs.Code.{coded_Val};
    ghost use Rattle.tm_templates.specs.Templates.{Compiled};

    ghost Value = { Named Compiled };

    ghost coded = { Prim.hlevel (codes, coded_Val, expression.the_row.coded, statement.the_row.coded) };

    ghost use Rattle.tm_templates.specs.Templates.{placed, ArePlacesOf, EachAccepted};

    ghost view = { λ a. placed a.entries.items (named_of a.places.entries) };

    ghost invariant = { λ a. ArePlacesOf (named_of a.places.entries) a.entries.items
        × EachAccepted (placed a.entries.items (named_of a.places.entries)) };
}

impl<'source> Templates<'source> {
    /// No templates.
    pub fn new(alloc: Global) -> Templates<'source>
        ensures { result ≡ [] }
    {
        Templates {
            places: BTreeMap::new(alloc),
            entries: Vec::new(alloc),
        }
    }

    /// The template named `name`, if there is one. `place` is a hint: one comparison is enough if
    /// the template is there.
    #[inline(always)]
    pub fn get(&self, place: usize, name: &str) -> Option<&CompiledTemplate<'source>>
        ensures { IsLent result (find name.now self.now) }
    {
        match self.entry(place, name) {
            Some((_place, _name, template)) => Some(template),
            None => None,
        }
    }

    /// The template named `name`, if there is one, with its place and the shared name. `place` is a
    /// hint: one comparison is enough if the template is there.
    #[inline(always)]
    pub fn entry(
        &self,
        place: usize,
        name: &str,
    ) -> Option<(usize, &Name, &CompiledTemplate<'source>)>
        ensures { MatchOption result (find name.now self.now ≡ None)
            (λ found. (found.1.now ≡ name.now) × (find name.now self.now ≡ Some found.2.now)) }
    {
        match self.entries.get(place) {
            Some(entry) if entry.0.is(name) => Some((place, &entry.0, &entry.1)),
            _ => match self.places.get(name) {
                Some(at) => {
                    let entry = &self.entries[*at];
                    Some((*at, &entry.0, &entry.1))
                }
                None => None,
            },
        }
    }

    /// Adds a template and replaces one of the same name. OutOfMemory if memory runs out; then
    /// nothing changes.
    pub fn insert(&mut self, name: Name, template: CompiledTemplate<'source>) -> Result<(), Error>
        ensures ok { OnOk result (self.new ≡ put name template.entry self.old) }
        ensures kind { IfErr result (λ e. e ≡ ErrorKind.OutOfMemory ∷ []) }
        ensures err { OnErr result (self.new ≡ self.old) }
    {
        template.accepted();
        match self.places.get(name.as_str()) {
            Some(at) => {
                self.entries[*at].1 = template;
                Ok(())
            }
            None => {
                let text = name.text()?;
                let place = self.entries.len();
                self.entries.reserve(1)?;
                self.places.insert(text, place)?;
                self.entries.push_reserved((name, template));
                Ok(())
            }
        }
    }

    /// Removes the template named `name`, if there is one.
    pub fn remove(&mut self, name: &str)
        ensures rest { self.new ≡ without name.now self.old }
        ensures absent { find name.now self.old ≡ None → self.new ≡ self.old }
        ensures gone { find name.now self.new ≡ None }
        ensures others { (x : _) → x ≢ name.now → find x self.new ≡ find x self.old }
    {
        if let Some(place) = self.places.remove(name) {
            let _removed = self.entries.swap_remove(place);
            // The last entry is at `place` now, unless it was removed itself.
            if let Some(moved) = self.entries.get(place) {
                set_place(&mut self.places, moved.0.as_str(), place);
            }
        }
    }

    /// Removes all templates.
    pub fn clear(&mut self)
        ensures { self.new ≡ [] }
    {
        self.places.clear();
        self.entries.clear();
    }

    /// The number of templates.
    pub fn len(&self) -> usize
        ensures { result ≡ length self.now }
    {
        self.places.len()
    }

    /// The templates with their names, in the order of these. Allocates nothing.
    pub fn iter(&self) -> TemplatesIter<'_, 'source>
        ensures items { result ≡ self.now }
        ensures found { AreFoundIn self.now result }
    {
        TemplatesIter {
            places: self.places.iter(),
            entries: &self.entries,
        }
    }

    /// Proves that all streams of the templates are accepted; does nothing.
    pub fn accepted(&self)
        ensures { EachAccepted self.now }
    {
        let _ = &self.entries;
    }

    /// Proves that the names ascend; does nothing.
    pub fn ascend(&self)
        ensures { AreOrdered self.now }
    {
        let _ = &self.entries;
    }
}

/// An iterator over templates with their names, in the order of these. A contract sees those that
/// are left.
#[derive(Drop)]
pub struct TemplatesIter<'env, 'source> {
    places: Iter<'env, RcStr, usize>,
    entries: &'env Vec<(Name, CompiledTemplate<'source>)>,
}

impl<'env, 'source> Model for TemplatesIter<'env, 'source> {
    ghost use Rattle.std.specs.Coded.{codes};
    ghost use Rattle.tm_syntax.specs.Named.{Named, named_of};
    ghost use Rattle.tm_syntax.specs.contracts.tree.Expr as expression;
    ghost use Rattle.tm_syntax.specs.contracts.tree.Stmt as statement;
    ghost use Rattle.tm_values.specs.Code.{coded_Val};
    ghost use Rattle.tm_templates.specs.Templates.{Compiled};

    ghost Value = { Named Compiled };

    ghost coded = { Prim.hlevel (codes, coded_Val, expression.the_row.coded, statement.the_row.coded) };

    ghost use Rattle.tm_templates.specs.Templates.{placed, EachPlaced};

    ghost view = { λ a. placed a.entries.now.items (named_of a.places) };

    ghost invariant = { λ a. EachPlaced a.entries.now.items (named_of a.places) };
}

impl<'env, 'source> Iterator for TemplatesIter<'env, 'source> {
    type Item = (&'env Name, &'env CompiledTemplate<'source>);

    ghost next_gives = { YieldsFirstBy (λ p. (p.0.now, p.1.now)) (λ rest. rest) };

    ghost remaining = { item_count (λ rest. rest) };

    fn next(&mut self) -> Option<(&'env Name, &'env CompiledTemplate<'source>)> {
        let entries = self.entries;
        let (_name, place) = self.places.next()?;
        let entry = &entries[*place];
        Some((&entry.0, &entry.1))
    }
}
