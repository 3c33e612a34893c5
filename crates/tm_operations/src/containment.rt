//! The operator `in`.
ghost use Rattle.std.specs.Prelude.{◌≡◌, ◌∷◌, []};
ghost use Rattle.tm_definitions.specs.Containment.{has_part, found_in, contained};
ghost use Rattle.tm_values.specs.Answer.{IsAnswer};

use std::alloc::Global;
use tm_values::{
    Error, ErrorKind, Node, Records, UndefinedBehavior, UndefinedUse, Value, check_defined,
    find_namespace,
};

/// Whether `item in container`: an item of a list, a key of a map, keyword map, module or
/// namespace, or a text inside a text. An undefined container contains nothing. UndefinedError if a
/// side is undefined and the behaviour refuses that; the right side is checked first.
/// InvalidOperation for other pairs, and for a namespace that has no record. OutOfMemory if memory
/// runs out.
pub fn contains<R: Records>(
    alloc: Global,
    container: &Value,
    item: &Value,
    records: &R,
    behavior: UndefinedBehavior,
) -> Result<bool, Error>
    ensures { IsAnswer result (contained behavior (R.records records.now) container.now item.now) }
{
    check_defined(container, behavior, UndefinedUse::Containment)?;
    check_defined(item, behavior, UndefinedUse::Comparison)?;
    find_in(alloc, container, item, records)
}

fn find_in<R: Records>(
    alloc: Global,
    container: &Value,
    item: &Value,
    records: &R,
) -> Result<bool, Error>
    ensures { IsAnswer result (found_in (R.records records.now) container.now item.now) }
{
    match &container.node {
        Node::Undefined(_) => Ok(false),
        Node::Text(content, _) => match item.as_str() {
            Some(part) => Ok(has_part(content.as_str(), part)),
            None => Err(not_a_pair(alloc)),
        },
        Node::List(items, _) => Ok(items.as_slice().contains(item)),
        Node::Map(_, _) | Node::Keywords(_, _) | Node::Exports(_, _, _) => {
            Ok(container.at_key(item).is_some())
        }
        Node::Namespace(state, index) => match find_namespace(records, *state, *index) {
            Some(pairs) => Ok(pairs.get(item).is_some()),
            None => Err(not_a_pair(alloc)),
        },
        _ => Err(not_a_pair(alloc)),
    }
}

// Whether `part` occurs anywhere in `content`.
fn has_part(content: &str, part: &str) -> bool
    ensures { result ≡ has_part part.now content.now }
{
    content.contains(part)
}

#[cold]
#[inline(never)]
fn not_a_pair(alloc: Global) -> Error
    ensures { result ≡ ErrorKind.InvalidOperation ∷ [] }
{
    Error::new(
        alloc,
        ErrorKind::InvalidOperation,
        "`in` looks for an item of a list, a key of a map or a text in a text",
    )
}
