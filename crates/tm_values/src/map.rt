//! Maps: building one, and looking up a key in a value.
ghost use Rattle.std.specs.Prelude.{◌≡◌, [], ◌∷◌, ◌==◌, None, Some, true, false, length, IfOk, IfErr, MatchOption, MatchResult};
ghost use Rattle.tm_values.specs.Answer.{OkOrOutOfMemory, IsLent};
ghost use Rattle.tm_values.specs.Map.{put, put_all, find, member, IsMap, IsThere, IsGapFor, IsFoundWherePut, KeepsOtherKeys};
ghost use Rattle.tm_values.specs.Order.{val_cmp};
ghost use Rattle.tm_values.specs.Val.{Val, text, map, keywords, exports, pairs_of, entries_in};

use crate::error::{Error, ErrorKind};
use crate::parts::{Parts, with_content};
use crate::shared_text::SharedText;
use crate::value::{Node, Value};
use std::alloc::Global;
use std::cmp::Ordering;
use std::marker::Model;
use std::rc::Rc;
use std::slice;

/// A map being built. A contract sees its pairs in ascending order of their keys.
#[derive(Drop)]
pub struct ValueMap {
    pairs: Vec<(Value, Value)>,
}

impl Model for ValueMap {
    ghost use Rattle.std.specs.Prelude.{List};
    ghost use Rattle.std.specs.Coded.{coded_list, coded×};
    ghost use Rattle.tm_values.specs.Val.{Val};
    ghost use Rattle.tm_values.specs.Code.{coded_Val};

    ghost Value = { List (Val × Val) };

    ghost coded = { coded_list (coded× coded_Val coded_Val) };

    ghost use Rattle.tm_values.specs.Answer.{OkOrOutOfMemory, IsLent};
    ghost use Rattle.tm_values.specs.Map.{IsMap};

    ghost view = { λ a. a.pairs.items };

    ghost invariant = { λ a. IsMap a.pairs.items };
}

impl ValueMap {
    /// An empty map.
    pub fn new(alloc: Global) -> ValueMap
        ensures { result ≡ [] }
    {
        ValueMap {
            pairs: Vec::new(alloc),
        }
    }

    /// Sorts the pairs into a map. Of equal keys, the first spelling and the last value are kept.
    /// Makes n log n comparisons for n pairs. OutOfMemory is the only error.
    pub fn from_pairs(mut pairs: Vec<(Value, Value)>) -> Result<ValueMap, Error>
        ensures { OkOrOutOfMemory result (λ m. m ≡ put_all pairs.items) }
    {
        sort_pairs(&mut pairs)?;
        let pairs = joined(pairs)?;
        Ok(ValueMap { pairs })
    }

    /// The map of these pairs, whose keys must be ascending.
    pub fn from_ascending(pairs: Vec<(Value, Value)>) -> ValueMap
        requires { IsMap pairs.items }
        ensures { result ≡ pairs.items }
    {
        ValueMap { pairs }
    }

    /// Binds `key` to `value`, replacing the old value if there is one. OutOfMemory if memory runs
    /// out; then the map is unchanged.
    pub fn insert(&mut self, key: Value, value: Value) -> Result<(), Error>
        ensures outcome { OkOrOutOfMemory result (λ _. self.new ≡ put key value self.old) }
        ensures unchanged { IfErr result (λ _. self.new ≡ self.old) }
    {
        put_pair(&mut self.pairs, key, value)
    }

    /// The number of pairs.
    pub fn len(&self) -> usize
        ensures { result ≡ length self.now }
    {
        self.pairs.len()
    }

    /// Whether the map is empty.
    pub fn is_empty(&self) -> bool
        ensures { result ≡ (length self.now == 0) }
    {
        self.pairs.is_empty()
    }

    /// The pairs, in the order of their keys.
    pub fn pairs(&self) -> &[(Value, Value)]
        ensures pairs { result.now ≡ self.now }
        ensures ordered { IsMap result.now }
    {
        self.pairs.as_slice()
    }

    /// The value at `key`, if there is one.
    pub fn get(&self, key: &Value) -> Option<&Value>
        ensures { IsLent result (find key.now self.now) }
    {
        match place(&self.pairs, key) {
            Ok(at) => Some(&self.pairs[at].1),
            Err(_) => None,
        }
    }

    /// The value at the text `name`, if there is one. Needs no memory.
    pub fn member(&self, name: &str) -> Option<&Value>
        ensures { IsLent result (find (text name.now false) self.now) }
    {
        value_at_text(&self.pairs, name)
    }
}

impl<'map> IntoIterator for &'map ValueMap {
    ghost use Rattle.std.specs.Prelude.{◌≡◌};
    ghost use Rattle.std.specs.Slice.Iter.{iter_rest};

    type Item = &'map (Value, Value);

    type IntoIter = slice::Iter<'map, (Value, Value)>;

    ghost into_iter_gives = { λ m pairs. iter_rest pairs ≡ m.now };

    /// The pairs, in the order of their keys.
    fn into_iter(self) -> slice::Iter<'map, (Value, Value)> {
        self.pairs().iter()
    }
}

impl Value {
    /// The map of these pairs. OutOfMemory if memory runs out or the size doesn't fit a `u32`.
    pub fn from_map(alloc: Global, entries: ValueMap) -> Result<Value, Error>
        ensures { OkOrOutOfMemory result (λ v. v ≡ map (pairs_of entries)) }
    {
        let ValueMap { pairs } = entries;
        let parts = Parts::of_pairs(&pairs)?;
        Ok(Value {
            node: Node::Map(Rc::new(alloc, pairs)?, parts),
        })
    }

    /// The keyword map of these pairs. OutOfMemory if memory runs out or the size doesn't fit a
    /// `u32`.
    pub fn keywords(alloc: Global, entries: ValueMap) -> Result<Value, Error>
        ensures { OkOrOutOfMemory result (λ v. v ≡ keywords (pairs_of entries)) }
    {
        let ValueMap { pairs } = entries;
        let parts = Parts::of_pairs(&pairs)?;
        Ok(Value {
            node: Node::Keywords(Rc::new(alloc, pairs)?, parts),
        })
    }

    /// The module that exports these pairs and wrote this text. OutOfMemory if memory runs out or
    /// the size doesn't fit a `u32`.
    pub fn module(alloc: Global, entries: ValueMap, content: SharedText) -> Result<Value, Error>
        ensures { OkOrOutOfMemory result
            (λ v. v ≡ exports (pairs_of entries) content) }
    {
        let ValueMap { pairs } = entries;
        let Parts {
            writable: _writable,
            size,
        } = Parts::of_pairs(&pairs)?;
        let size = with_content(size, &content)?;
        Ok(Value {
            node: Node::Exports(Rc::new(alloc, pairs)?, content, size),
        })
    }

    /// The value at the text `name` in a map, a keyword map or a module. None for other values.
    /// Needs no memory.
    pub fn member(&self, name: &str) -> Option<&Value>
        ensures { IsLent result (member name.now self.now) }
    {
        value_at_text(self.pairs(), name)
    }

    /// The value at `key` in a map, a keyword map or a module. None for other values.
    pub fn at_key(&self, key: &Value) -> Option<&Value>
        ensures { IsLent result (find key.now (entries_in self.now)) }
    {
        let pairs = self.pairs();
        match place(pairs, key) {
            Ok(at) => Some(&pairs[at].1),
            Err(_) => None,
        }
    }
}

// Binds `key` to `value` and keeps the order.
fn put_pair(pairs: &mut Vec<(Value, Value)>, key: Value, value: Value) -> Result<(), Error>
    requires { IsMap pairs.old.items }
    ensures outcome { OkOrOutOfMemory result
        (λ _. pairs.new.items ≡ put key value pairs.old.items) }
    ensures unchanged { IfErr result (λ _. pairs.new.items ≡ pairs.old.items) }
    ensures ordered { IsMap pairs.new.items }
{
    match place(pairs, &key) {
        Ok(at) => {
            pairs[at].1 = value;
            Ok(())
        }
        Err(at) => {
            pairs.insert(at, (key, value))?;
            Ok(())
        }
    }
}

// Sorts the pairs by their keys. The sort is stable, so the pairs still make the same map.
fn sort_pairs(pairs: &mut Vec<(Value, Value)>) -> Result<(), Error>
    ensures same_map { put_all pairs.new.items ≡ put_all pairs.old.items }
    ensures fails { IfErr result (λ e. e ≡ ErrorKind.OutOfMemory ∷ []) }
{
    pairs.sort_by(
        |left, right|
            ensures { result ≡ val_cmp left.now.0 right.now.0 }
        { left.0.compare(&right.0) },
    )?;
    Ok(())
}

// Joins equal keys of the pairs. Fast if the keys are ascending.
fn joined(pairs: Vec<(Value, Value)>) -> Result<Vec<(Value, Value)>, Error>
    ensures outcome { OkOrOutOfMemory result (λ joined. joined.items ≡ put_all pairs.items) }
    ensures ordered { IfOk result (λ joined. IsMap joined.items) }
{
    let mut joined = Vec::with_capacity(*pairs.allocator(), pairs.len())?;
    for (key, value) in pairs {
        append_pair(&mut joined, key, value)?;
    }
    Ok(joined)
}

// Binds `key` to `value`. Appends the pair if the key is above all others.
fn append_pair(pairs: &mut Vec<(Value, Value)>, key: Value, value: Value) -> Result<(), Error>
    requires { IsMap pairs.old.items }
    ensures outcome { OkOrOutOfMemory result
        (λ _. pairs.new.items ≡ put key value pairs.old.items) }
    ensures ordered { IsMap pairs.new.items }
{
    if is_above_all(&key, pairs) {
        pairs.push((key, value))?;
        Ok(())
    } else {
        put_pair(pairs, key, value)
    }
}

// Whether `key` is above the keys of all pairs.
fn is_above_all(key: &Value, pairs: &[(Value, Value)]) -> bool
    requires { IsMap pairs.now }
    ensures { result ≡ true → IsGapFor key.now pairs.now (length pairs.now) }
{
    match pairs.last() {
        Some(last) => last.0.compare(key) == Ordering::Less,
        None => true,
    }
}

// The index of the key, or else the index at which it would be inserted.
fn place(pairs: &[(Value, Value)], key: &Value) -> Result<usize, usize>
    requires { IsMap pairs.now }
    ensures { MatchResult result (IsThere key.now pairs.now) (IsGapFor key.now pairs.now) }
{
    pairs.binary_search_by(
        |pair|
            ensures { result ≡ val_cmp pair.now.0 key.entry.now }
        { pair.0.compare(key) },
    )
}

// How many pairs are scanned for a text, and not searched: the lengths tell most of few keys apart.
const SCANNED: usize = 8;

// The value at the text `name`, if there is one.
fn value_at_text<'a>(pairs: &'a [(Value, Value)], name: &str) -> Option<&'a Value>
    requires { IsMap pairs.now }
    ensures { IsLent result (find (text name.now false) pairs.now) }
{
    if pairs.len() > SCANNED {
        return match place_of_text(pairs, name) {
            Ok(at) => Some(&pairs[at].1),
            Err(_) => None,
        };
    }
    let mut at = 0;
    while at < pairs.len() {
        let pair = &pairs[at];
        if pair.0.is_text(name) {
            return Some(&pair.1);
        }
        at += 1;
    }
    None
}

// `place` for a text, without making a value of it.
fn place_of_text(pairs: &[(Value, Value)], name: &str) -> Result<usize, usize>
    requires { IsMap pairs.now }
    ensures { MatchResult result (IsThere (text name.now false) pairs.now)
        (IsGapFor (text name.now false) pairs.now) }
{
    pairs.binary_search_by(
        |pair|
            ensures { result ≡ val_cmp pair.now.0 (text name.entry.now false) }
        { pair.0.compare_text(name) },
    )
}

/// After an insertion, its key yields the new value, and all other keys keep their values.
pub fn put_law()
    ensures found { IsFoundWherePut }
    ensures kept { KeepsOtherKeys }
{}
