//! The order of values.
ghost use Rattle.std.specs.Cmp.{IsTotalOrder};
ghost use Rattle.std.specs.Prelude.{◌≡◌, Bool, false};
ghost use Rattle.tm_values.specs.Order.{val_cmp, vals_cmp, pairs_cmp, macro_against, record_cmp, function_in, state_in, record_in};
ghost use Rattle.std.specs.Ordering.{is_eq};
ghost use Rattle.tm_values.specs.Comparing.{pair_cmp};
ghost use Rattle.tm_values.specs.Equality.{same_value, same_values};
ghost use Rattle.tm_values.specs.Val.{Val, text, boolean, number, whole_of, vals_of, pairs_of};

use crate::comparing::compare_deep;
use crate::macros::MacroValue;
use crate::value::{Node, Value};
use std::cmp::Ordering;

// How many levels of lists and maps are compared by plain recursion.
const NATIVE_LEVELS: usize = 200;

impl Value {
    /// Compares two values, first by kind and then by content. The kinds in ascending order:
    /// undefined, none, numbers (with truth values as 0 and 1), texts, lists, maps, keyword maps,
    /// modules, functions, macros, loops, namespaces.
    pub fn compare(&self, other: &Value) -> Ordering
        ensures { result ≡ val_cmp self.now other.now }
    {
        self.compare_within(other, NATIVE_LEVELS)
    }

    // The same. Parts more than `levels` deep are compared by `compare_deep`.
    #[cycle(compare)]
    pub(crate) fn compare_within(&self, other: &Value, levels: usize) -> Ordering
        ensures { result ≡ val_cmp self.now other.now }
    {
        let Some(levels) = levels.checked_sub(1) else {
            return compare_deep(self, other);
        };
        let kinds = self.rank().cmp(&other.rank());
        if kinds != Ordering::Equal {
            return kinds;
        }
        match &self.node {
            Node::Undefined(_) | Node::None => Ordering::Equal,
            Node::Boolean(_) | Node::Number(_) => self.whole_or_zero().cmp(&other.whole_or_zero()),
            Node::Text(content, _) => content.as_str().cmp(other.text_or_empty()),
            Node::List(items, _) => compare_items(items.as_slice(), other.items(), levels),
            Node::Map(pairs, _) | Node::Keywords(pairs, _) => compare_pairs(
                pairs.as_slice(),
                other.pairs(),
                levels,
            ),
            Node::Exports(pairs, content, _) => {
                compare_pairs(pairs.as_slice(), other.pairs(), levels).then(
                    content.as_str().cmp(other.text_or_empty()),
                )
            }
            Node::Function(index) => index.cmp(&other.function_or_zero()),
            Node::Macro(declared) => compare_macro(declared, other),
            Node::Loop(_, _) | Node::Namespace(_, _) => self.compare_record(other),
        }
    }

    // Compares this value with a text.
    pub(crate) fn compare_text(&self, content: &str) -> Ordering
        ensures { result ≡ val_cmp self.now (text content.now false) }
    {
        match &self.node {
            Node::Text(own, _) => own.as_str().cmp(content),
            _ => self.rank().cmp(&3),
        }
    }

    // Whether this value is the text `content`, whether marked safe or not.
    #[inline(always)]
    pub(crate) fn is_text(&self, content: &str) -> bool
        ensures { result ≡ is_eq (val_cmp self.now (text content.now false)) }
    {
        match &self.node {
            Node::Text(own, _) => {
                let own = own.as_str();
                own.len() == content.len() && own == content
            }
            _ => false,
        }
    }

    // Compares this loop or namespace with another one.
    pub(crate) fn compare_record(&self, other: &Value) -> Ordering
        ensures { result ≡ record_cmp self.now other.now }
    {
        let (state, index) = self.record();
        let (other_state, other_index) = other.record();
        state.cmp(&other_state).then(index.cmp(&other_index))
    }

    // The id of the state and the number of a loop or a namespace.
    fn record(&self) -> (u64, usize)
        ensures { result ≡ (state_in self.now, record_in self.now) }
    {
        match &self.node {
            Node::Loop(state, index) | Node::Namespace(state, index) => (*state, *index),
            _ => (0, 0),
        }
    }

    // The number of a function, or 0.
    pub(crate) fn function_or_zero(&self) -> usize
        ensures { result ≡ function_in self.now }
    {
        match &self.node {
            Node::Function(index) => *index,
            _ => 0,
        }
    }
}

// Compares a macro with another macro; `Equal` if `right` isn't a macro.
pub(crate) fn compare_macro(left: &MacroValue, right: &Value) -> Ordering
    ensures { result ≡ macro_against left.now right.now }
{
    match &right.node {
        Node::Macro(declared) => left.compare(declared),
        _ => Ordering::Equal,
    }
}

/// Whether both lists have the same length and equal items.
pub fn same_items(left: &[Value], right: &[Value]) -> bool
    ensures { result ≡ same_values (vals_of left.now) (vals_of right.now) }
{
    compare_items(left, right, NATIVE_LEVELS) == Ordering::Equal
}

// Compares item by item; a prefix comes first.
#[cycle(compare)]
pub(crate) fn compare_items(left: &[Value], right: &[Value], levels: usize) -> Ordering
    ensures { result ≡ vals_cmp (vals_of left.now) (vals_of right.now) }
{
    for (i, item) in left.iter().enumerate() {
        if i >= right.len() {
            return Ordering::Greater;
        }
        let items = item.compare_within(&right[i], levels);
        if items != Ordering::Equal {
            return items;
        }
    }
    if left.len() < right.len() {
        Ordering::Less
    } else {
        Ordering::Equal
    }
}

// Compares pair by pair; a prefix comes first.
#[cycle(compare)]
pub(crate) fn compare_pairs(
    left: &[(Value, Value)],
    right: &[(Value, Value)],
    levels: usize,
) -> Ordering
    ensures { result ≡ pairs_cmp (pairs_of left.now) (pairs_of right.now) }
{
    for (i, pair) in left.iter().enumerate() {
        if i >= right.len() {
            return Ordering::Greater;
        }
        let pairs = compare_pair(pair, &right[i], levels);
        if pairs != Ordering::Equal {
            return pairs;
        }
    }
    if left.len() < right.len() {
        Ordering::Less
    } else {
        Ordering::Equal
    }
}

// Compares the keys, then the values.
#[cycle(compare)]
pub(crate) fn compare_pair(pair: &(Value, Value), other: &(Value, Value), levels: usize) -> Ordering
    ensures { result ≡ pair_cmp pair.now other.now }
{
    let keys = pair.0.compare_within(&other.0, levels);
    if keys != Ordering::Equal {
        return keys;
    }
    pair.1.compare_within(&other.1, levels)
}

impl PartialEq for Value {
    ghost use Rattle.tm_values.specs.Agreement.{same_value_partial};
    ghost use Rattle.tm_values.specs.Equality.{same_value};

    ghost eq = { same_value };

    ghost laws = { same_value_partial };

    fn eq(&self, other: &Value) -> bool {
        self.compare(other) == Ordering::Equal
    }
}

impl Eq for Value {
    ghost use Rattle.tm_values.specs.Agreement.{same_value_equiv};

    ghost laws = { same_value_equiv };
}

impl PartialOrd for Value {
    ghost use Rattle.std.specs.Ordering.{as_partial_cmp};
    ghost use Rattle.tm_values.specs.Agreement.{val_cmp_partial};
    ghost use Rattle.tm_values.specs.Order.{val_cmp};

    ghost partial_cmp = { as_partial_cmp val_cmp };

    ghost laws = { val_cmp_partial };

    fn partial_cmp(&self, other: &Value) -> Option<Ordering> {
        Some(self.compare(other))
    }
}

impl Ord for Value {
    ghost use Rattle.std.proofs.Common.{refl};
    ghost use Rattle.tm_values.specs.Agreement.{values_agree};
    ghost use Rattle.tm_values.specs.Order.{val_cmp};
    ghost use Rattle.tm_values.specs.Total.{val_cmp_total};

    ghost cmp = { val_cmp };

    ghost total = { val_cmp_total };

    ghost matches_partial_cmp = { λ x y. refl };

    ghost matches_eq = { values_agree };

    fn cmp(&self, other: &Value) -> Ordering {
        self.compare(other)
    }
}

/// The order of values is total, and agrees with equality. Truth values are ordered as 0 and 1.
pub fn order_law()
    ensures total { IsTotalOrder val_cmp }
    ensures equality { (a b : Val) → same_value a b ≡ is_eq (val_cmp a b) }
    ensures truth { (b : Bool) (v : Val) → val_cmp (boolean b) v ≡ val_cmp (number (whole_of b)) v }
    ensures truth_after { (b : Bool) (v : Val)
        → val_cmp v (boolean b) ≡ val_cmp v (number (whole_of b)) }
{}
