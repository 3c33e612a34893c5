//! `dict` and `namespace`: a map, with keyword arguments added.
ghost use Rattle.std.specs.Prelude.{◌≡◌, ◌++◌, ◌∷◌, [], OnOk, IfErr};
ghost use Rattle.std.specs.Option.{option_copied};
ghost use Rattle.tm_definitions.specs.Iteration.{IsAnswerRead};
ghost use Rattle.tm_definitions.specs.Maps.{keywords_of, plain_of, base_of, dict_of, text_pairs, namespace_of, IsMapWithKeywords};
ghost use Rattle.tm_values.specs.Answer.{IsAnswer, OkOrOutOfMemory};

use std::alloc::Global;
use tm_values::{Error, ErrorKind, Node, Records, Value, ValueMap, find_namespace};

/// The map that `dict` returns: that of the plain argument, with the keyword arguments added. A
/// keyword map as the last argument holds the keyword arguments. Undefined, none and a missing
/// plain argument mean the empty map; a module and a namespace mean their own pairs.
/// InvalidOperation for a plain argument of another kind and for a namespace that has no record.
/// TooManyArguments for a second plain argument. OutOfMemory if memory runs out.
pub fn dict<R: Records>(alloc: Global, arguments: &[Value], records: &R) -> Result<ValueMap, Error>
    ensures { IsAnswer result (dict_of (R.records records.now) arguments.now) }
{
    let (plain, keywords) = split_keywords(arguments);
    let base = base(alloc, plain.first(), records)?;
    if plain.len() > 1 {
        return Err(too_many(alloc));
    }
    let mut pairs = Vec::new(alloc);
    share_pairs(base, &mut pairs)?;
    share_pairs(keywords, &mut pairs)?;
    ValueMap::from_pairs(pairs)
}

/// The initial content of a new namespace: the pairs of the map that `dict` returns whose keys are
/// texts. The errors are those of `dict`.
pub fn namespace<R: Records>(
    alloc: Global,
    arguments: &[Value],
    records: &R,
) -> Result<ValueMap, Error>
    ensures { IsAnswer result (namespace_of (R.records records.now) arguments.now) }
{
    let map = dict(alloc, arguments, records)?;
    let pairs = text_pairs(alloc, map.pairs())?;
    ValueMap::from_pairs(pairs)
}

// The plain arguments, and the pairs of a keyword map at the end.
fn split_keywords(arguments: &[Value]) -> (&[Value], &[(Value, Value)])
    ensures plain { result.0.now ≡ plain_of arguments.now }
    ensures keywords { result.1.now ≡ keywords_of arguments.now }
{
    let Some((last, before)) = arguments.split_last() else {
        return (arguments, &[]);
    };
    match &last.node {
        Node::Keywords(pairs, _) => (before, pairs.as_slice()),
        _ => (arguments, &[]),
    }
}

// The pairs of a map, a module or a namespace; none if there is no argument.
fn base<'a, R: Records>(
    alloc: Global,
    argument: Option<&'a Value>,
    records: &'a R,
) -> Result<&'a [(Value, Value)], Error>
    ensures { IsAnswerRead result (λ pairs. pairs.now)
        (base_of (R.records records.now) (option_copied argument.entry)) }
{
    let Some(value) = argument else {
        return Ok(&[]);
    };
    match &value.node {
        Node::Undefined(_) | Node::None => Ok(&[]),
        Node::Map(pairs, _) | Node::Exports(pairs, _, _) => Ok(pairs.as_slice()),
        Node::Namespace(state, index) => match find_namespace(records, *state, *index) {
            Some(map) => Ok(map.pairs()),
            None => Err(not_a_map(alloc)),
        },
        _ => Err(not_a_map(alloc)),
    }
}

/// Appends a second owner of each pair to `out`. OutOfMemory is the only error.
pub(crate) fn share_pairs(
    pairs: &[(Value, Value)],
    out: &mut Vec<(Value, Value)>,
) -> Result<(), Error>
    ensures items { OnOk result (out.new.items ≡ out.old.items ++ pairs.now) }
    ensures memory { IfErr result (λ e. e ≡ ErrorKind.OutOfMemory ∷ []) }
{
    out.reserve(pairs.len())?;
    for pair in pairs {
        out.push((pair.0.share()?, pair.1.share()?))?;
    }
    Ok(())
}

fn text_pairs(alloc: Global, pairs: &[(Value, Value)]) -> Result<Vec<(Value, Value)>, Error>
    ensures { OkOrOutOfMemory result (λ kept. kept.items ≡ text_pairs pairs.now) }
{
    let mut kept = Vec::new(alloc);
    for pair in pairs {
        if pair.0.as_str().is_some() {
            kept.push((pair.0.share()?, pair.1.share()?))?;
        }
    }
    Ok(kept)
}

#[cold]
#[inline(never)]
fn too_many(alloc: Global) -> Error
    ensures { result ≡ ErrorKind.TooManyArguments ∷ [] }
{
    Error::new(
        alloc,
        ErrorKind::TooManyArguments,
        "one map and keywords are taken",
    )
}

/// The error for a value that isn't a map.
#[cold]
#[inline(never)]
pub(crate) fn not_a_map(alloc: Global) -> Error
    ensures { result ≡ ErrorKind.InvalidOperation ∷ [] }
{
    Error::new(
        alloc,
        ErrorKind::InvalidOperation,
        "a map, a module or a namespace of this state is needed",
    )
}

/// The law of `dict`: the map stays as it is, and the keyword arguments are added to it.
pub fn dict_law()
    ensures { IsMapWithKeywords }
{}
