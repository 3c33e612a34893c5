//! Replaces the namespaces in a value by maps. A work list holds what is left, so that a deep value
//! needs no deep stack.
ghost use Rattle.std.specs.Prelude.{◌≡◌, ◌+◌, ◌<◌, ◌≤◌, ◌++◌, ◌∷◌, [], false, length, IfErr, IfOk, Ok, OnOk};
ghost use Rattle.tm_definitions.specs.Mapped.{mapped_within, namespace_mapped, with_maps};
ghost use Rattle.tm_operations.specs.Begun.{AllAscend, Ascends, comes_to, items_left, left_in, left_in_all};
ghost use Rattle.tm_operations.specs.Begun.{left_to_make, list_after, made_of, map_after, outermost, pairs_left};
ghost use Rattle.tm_operations.specs.Begun.{left_of_next, namespace_weight, part_next, resumed, weight};
ghost use Rattle.tm_values.specs.Answer.{IsAnswer, OkOrOutOfMemory, is_memory_alone};
ghost use Rattle.tm_values.specs.Map.{IsMap};
ghost use Rattle.tm_values.specs.Records.{RecordData};
ghost use Rattle.tm_values.specs.Val.{pairs_of, val_size, vals_of};

use std::alloc::Global;
use tm_values::{Error, ErrorKind, Node, Records, SharedText, Value, ValueMap, find_namespace};

/// The kind of value that the pairs become.
#[derive(Drop)]
pub enum Kind {
    /// A map.
    Map,
    /// A keyword map.
    Keywords,
    /// A module, with the text that it wrote.
    Module(SharedText),
}

/// A list whose next item is in progress.
#[derive(Drop)]
pub struct BegunList<'a> {
    /// How deeply namespaces in it are entered.
    pub levels: usize,
    /// The items after that one.
    pub rest: &'a [Value],
    /// The finished items before that one.
    pub done: Vec<Value>,
}

/// A map whose next value is in progress.
#[derive(Drop)]
pub struct BegunMap<'a> {
    /// The kind of value that it becomes.
    pub kind: Kind,
    /// How deeply namespaces in it are entered.
    pub levels: usize,
    /// The key of that value.
    pub key: Value,
    /// The pairs after that key.
    pub rest: &'a [(Value, Value)],
    /// The finished pairs before that key.
    pub done: Vec<(Value, Value)>,
}

/// A value with a part in progress.
#[derive(Drop)]
pub enum Begun<'a> {
    /// A list.
    List(BegunList<'a>),
    /// A map, a keyword map or a module.
    Map(BegunMap<'a>),
}

/// The next step.
#[derive(Drop)]
pub enum Ahead<'a> {
    /// Convert this part, in which namespaces are entered to the given depth.
    Part(&'a Value, usize),
    /// Continue the innermost value in progress with this finished part.
    Made(Value),
}

/// The value with its namespaces replaced by maps, at any depth except in keys. InvalidOperation if
/// a namespace has no record or contains itself. OutOfMemory if memory runs out, or if the value
/// would be larger than `most`; each part that is looked at counts towards that, since namespaces
/// in namespaces can make a value that is exponentially larger.
pub fn with_maps<R: Records>(
    alloc: Global,
    value: &Value,
    records: &R,
    most: u64,
) -> Result<Value, Error>
    ensures answer { IsAnswer result (with_maps (R.records records.now) value.now) }
    ensures within { IfOk result (λ made. val_size made ≤ most) }
{
    within(replaced(alloc, value, records, most)?, most)
}

// `with_maps`, but only the parts that are looked at count.
fn replaced<R: Records>(
    alloc: Global,
    value: &Value,
    records: &R,
    most: u64,
) -> Result<Value, Error>
    ensures { IsAnswer result (with_maps (R.records records.now) value.now) }
{
    let mut begun = Vec::new(alloc);
    let mut left = most;
    let mut next = Ahead::Part(value, records.namespace_count());
    loop {
        next = match next {
            Ahead::Part(part, levels) => {
                enter(alloc, part, levels, records, &mut begun, &mut left)?
            }
            Ahead::Made(made) => match begun.pop() {
                Some(outer) => resume(alloc, outer, made, &mut begun)?,
                None => return Ok(made),
            },
        };
    }
}

// Counts a part that is looked at. OutOfMemory if none is left.
fn count(left: &mut u64) -> Result<(), Error>
    ensures { IfErr result (λ e. e ≡ ErrorKind.OutOfMemory ∷ []) }
{
    let Some(fewer) = left.checked_sub(1) else {
        return Err(Error::from(ErrorKind::OutOfMemory));
    };
    *left = fewer;
    Ok(())
}

/// The value, if its size is at most `most`. OutOfMemory otherwise.
pub fn within(value: Value, most: u64) -> Result<Value, Error>
    ensures same { OkOrOutOfMemory result (λ v. v ≡ value) }
    ensures within { IfOk result (λ v. val_size v ≤ most) }
{
    if value.size() > most {
        return Err(Error::from(ErrorKind::OutOfMemory));
    }
    Ok(value)
}

// Begins a part, or returns it finished if it contains no namespace. OutOfMemory if `left` parts
// were looked at already.
fn enter<'a, R: Records>(
    alloc: Global,
    part: &'a Value,
    levels: usize,
    records: &'a R,
    begun: &mut Vec<Begun<'a>>,
    left: &mut u64,
) -> Result<Ahead<'a>, Error>
    ensures ok { IfOk result (λ n. comes_to (R.records records.now) begun.new.items n
        ≡ outermost (R.records records.now) begun.old.items
        (mapped_within (R.records records.now) levels part.now)) }
    ensures err { IfErr result (λ e. is_memory_alone e ≡ false →
        mapped_within (R.records records.now) levels part.now ≡ Err e) }
    ensures ascend { AllAscend begun.old.items → OnOk result (AllAscend begun.new.items) }
    ensures less { IfOk result (λ n. left_to_make (R.records records.now) begun.new.items n
        < left_in_all (R.records records.now) begun.old.items
        + weight (namespace_weight (R.records records.now) levels) part.now) }
{
    count(left)?;
    if part.writable().in_json {
        return Ok(Ahead::Made(part.share()?));
    }
    match &part.node {
        Node::List(items, _) => next_item(alloc, levels, items.as_slice(), Vec::new(alloc), begun),
        Node::Map(pairs, _) => all_pairs(alloc, Kind::Map, levels, pairs.as_slice(), begun),
        Node::Keywords(pairs, _) => {
            all_pairs(alloc, Kind::Keywords, levels, pairs.as_slice(), begun)
        }
        Node::Exports(pairs, content, _) => {
            let kind = Kind::Module(content.share()?);
            all_pairs(alloc, kind, levels, pairs.as_slice(), begun)
        }
        Node::Namespace(state, index) => {
            enter_namespace(alloc, *state, *index, levels, records, begun)
        }
        _ => Ok(Ahead::Made(part.share()?)),
    }
}

// Begins the map of a namespace.
fn enter_namespace<'a, R: Records>(
    alloc: Global,
    state: u64,
    index: usize,
    levels: usize,
    records: &'a R,
    begun: &mut Vec<Begun<'a>>,
) -> Result<Ahead<'a>, Error>
    ensures ok { IfOk result (λ n. comes_to (R.records records.now) begun.new.items n
        ≡ outermost (R.records records.now) begun.old.items
        (namespace_mapped (R.records records.now) levels state index)) }
    ensures err { IfErr result (λ e. is_memory_alone e ≡ false →
        namespace_mapped (R.records records.now) levels state index ≡ Err e) }
    ensures ascend { AllAscend begun.old.items → OnOk result (AllAscend begun.new.items) }
    ensures less { IfOk result (λ n. left_to_make (R.records records.now) begun.new.items n
        < left_in_all (R.records records.now) begun.old.items
        + namespace_weight (R.records records.now) levels state index) }
{
    if levels == 0 {
        return Err(Error::from(ErrorKind::InvalidOperation));
    }
    let Some(entries) = find_namespace(records, state, index) else {
        return Err(Error::from(ErrorKind::InvalidOperation));
    };
    all_pairs(alloc, Kind::Map, levels - 1, entries.pairs(), begun)
}

// Begins the map of these pairs, whose keys are ascending.
fn all_pairs<'a>(
    alloc: Global,
    kind: Kind,
    levels: usize,
    pairs: &'a [(Value, Value)],
    begun: &mut Vec<Begun<'a>>,
) -> Result<Ahead<'a>, Error>
    requires { IsMap pairs.now }
    ensures ok { IfOk result (λ n. (r : RecordData) → comes_to r begun.new.items n
        ≡ outermost r begun.old.items (map_after r kind levels [] (pairs_of pairs.now))) }
    ensures err { IfErr result (λ e. e ≡ ErrorKind.OutOfMemory ∷ []) }
    ensures ascend { AllAscend begun.old.items → OnOk result (AllAscend begun.new.items) }
    ensures no_more { IfOk result (λ n. (r : RecordData) → left_to_make r begun.new.items n
        ≤ left_in_all r begun.old.items + pairs_left r levels (pairs_of pairs.now)) }
{
    next_pair(alloc, kind, levels, pairs, Vec::new(alloc), begun)
}

// Continues the innermost value in progress with a finished part.
fn resume<'a>(
    alloc: Global,
    outer: Begun<'a>,
    made: Value,
    begun: &mut Vec<Begun<'a>>,
) -> Result<Ahead<'a>, Error>
    requires { Ascends outer }
    ensures ok { IfOk result (λ n. (r : RecordData) → comes_to r begun.new.items n
        ≡ outermost r begun.old.items (resumed r outer.entry (Ok made))) }
    ensures err { IfErr result (λ e. e ≡ ErrorKind.OutOfMemory ∷ []) }
    ensures ascend { AllAscend begun.old.items → OnOk result (AllAscend begun.new.items) }
    ensures no_more { IfOk result (λ n. (r : RecordData) → left_to_make r begun.new.items n
        ≤ left_in_all r begun.old.items + left_in r outer.entry) }
{
    match outer {
        Begun::List(list) => {
            let BegunList {
                levels,
                rest,
                mut done,
            } = list;
            done.push(made)?;
            next_item(alloc, levels, rest, done, begun)
        }
        Begun::Map(map) => {
            let BegunMap {
                kind,
                levels,
                key,
                rest,
                mut done,
            } = map;
            done.push((key, made))?;
            next_pair(alloc, kind, levels, rest, done, begun)
        }
    }
}

// Pushes a list with its next item in progress, or finishes the list if no item is left.
fn next_item<'a>(
    alloc: Global,
    levels: usize,
    rest: &'a [Value],
    done: Vec<Value>,
    begun: &mut Vec<Begun<'a>>,
) -> Result<Ahead<'a>, Error>
    ensures ok { IfOk result (λ n. (r : RecordData) → comes_to r begun.new.items n
        ≡ outermost r begun.old.items (list_after r levels done.items (vals_of rest.now))) }
    ensures err { IfErr result (λ e. e ≡ ErrorKind.OutOfMemory ∷ []) }
    ensures ascend { AllAscend begun.old.items → OnOk result (AllAscend begun.new.items) }
    ensures no_more { IfOk result (λ n. (r : RecordData) → left_to_make r begun.new.items n
        ≤ left_in_all r begun.old.items + items_left r levels (vals_of rest.now)) }
{
    let Some((item, rest)) = rest.split_first() else {
        return Ok(Ahead::Made(Value::list(alloc, done)?));
    };
    begun.push(Begun::List(BegunList { levels, rest, done }))?;
    Ok(Ahead::Part(item, levels))
}

// Pushes a map with its next value in progress, or finishes the map if no pair is left.
fn next_pair<'a>(
    alloc: Global,
    kind: Kind,
    levels: usize,
    rest: &'a [(Value, Value)],
    done: Vec<(Value, Value)>,
    begun: &mut Vec<Begun<'a>>,
) -> Result<Ahead<'a>, Error>
    requires { IsMap (done.items ++ rest.now) }
    ensures ok { IfOk result (λ n. (r : RecordData) → comes_to r begun.new.items n
        ≡ outermost r begun.old.items (map_after r kind levels done.items (pairs_of rest.now))) }
    ensures err { IfErr result (λ e. e ≡ ErrorKind.OutOfMemory ∷ []) }
    ensures ascend { AllAscend begun.old.items → OnOk result (AllAscend begun.new.items) }
    ensures no_more { IfOk result (λ n. (r : RecordData) → left_to_make r begun.new.items n
        ≤ left_in_all r begun.old.items + pairs_left r levels (pairs_of rest.now)) }
{
    let Some((pair, rest)) = rest.split_first() else {
        return Ok(Ahead::Made(made_of(alloc, kind, ValueMap::from_ascending(done))?));
    };
    let key = pair.0.share()?;
    let next = value_of(pair, levels);
    begun.push(Begun::Map(BegunMap {
        kind,
        levels,
        key,
        rest,
        done,
    }))?;
    Ok(next)
}

// The next step is the value of the pair.
fn value_of<'a>(pair: &'a (Value, Value), levels: usize) -> Ahead<'a>
    ensures part { (r : RecordData) → part_next r result ≡ mapped_within r levels pair.now.1 }
    ensures left { (r : RecordData) →
        left_of_next r result ≡ weight (namespace_weight r levels) pair.now.1 }
{
    Ahead::Part(&pair.1, levels)
}

// The value of this kind with these pairs. OutOfMemory is the only error.
fn made_of(alloc: Global, kind: Kind, entries: ValueMap) -> Result<Value, Error>
    ensures { OkOrOutOfMemory result (λ v. v ≡ made_of kind (pairs_of entries)) }
{
    match kind {
        Kind::Map => Value::from_map(alloc, entries),
        Kind::Keywords => Value::keywords(alloc, entries),
        Kind::Module(content) => Value::module(alloc, entries, content),
    }
}
