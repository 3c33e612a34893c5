//! Values. A contract sees plain data; sharing is invisible.
ghost use Rattle.std.specs.Prelude.{◌≡◌, ◌<◌, [], ◌∷◌, List, Some, None, true, false, IfOk, MatchResult, MatchOption, string_bytes};
ghost use Rattle.tm_values.specs.Map.{IsMap};
ghost use Rattle.tm_values.specs.Order.{rank, bytes_in, whole_or_zero};
ghost use Rattle.tm_values.specs.Answer.{OkOrOutOfMemory, IsLent};
ghost use Rattle.tm_values.specs.Held.{held_size};
ghost use Rattle.tm_values.specs.declared.error.ErrorKind.{ErrorKind};
ghost use Rattle.tm_values.specs.Val.{Val, undefined, none, boolean, number, text, list, function, macro, loop, namespace, val_size};
ghost use Rattle.tm_values.specs.Val.{vals_of, text_in, list_in, entries_in, items_in, whole_in, extended};

use crate::dropping::{Held, drop_owner};
use crate::error::Error;
use crate::macros::MacroValue;
use crate::parts::Parts;
use crate::shared_text::SharedText;
use crate::sharing::append_shared;
use std::alloc::Global;
use std::marker::Model;
use std::rc::Rc;

/// A value. Its contents are shared: sharing a value needs no memory, whatever its size.
#[cycle(value)]
pub struct Value {
    /// Its content, for the crates of the engine.
    pub node: Node,
}

/// The content of a value. The keys of maps, keyword maps and modules are ascending.
#[derive(Drop)]
#[cycle(value)]
pub enum Node {
    /// Undefined, and whether it is silent, as from an `if` expression without `else`.
    Undefined(bool),
    /// The value `none`.
    None,
    /// A truth value. It counts as 0 or 1 wherever a number is expected.
    Boolean(bool),
    /// A whole number.
    Number(i128),
    /// A text, and whether it is marked safe, so that it is never escaped.
    Text(SharedText, bool),
    /// The items, and what is stored about them.
    List(Rc<Vec<Value>>, Parts),
    /// The pairs in the order of their keys, and what is stored about them.
    Map(Rc<Vec<(Value, Value)>>, Parts),
    /// The keyword arguments of a call, and what is stored about them.
    Keywords(Rc<Vec<(Value, Value)>>, Parts),
    /// A module: the names that it exports, the text that it wrote, and its size.
    Exports(Rc<Vec<(Value, Value)>>, SharedText, u32),
    /// A function, by its number.
    Function(usize),
    /// A macro.
    Macro(Rc<MacroValue>),
    /// A loop: the id of its state, and the number of its record there.
    Loop(u64, usize),
    /// A namespace: the id of its state, and the number of its record there.
    Namespace(u64, usize),
}

impl Model for Value {
    ghost use Rattle.tm_values.specs.Val.{Val};
    ghost use Rattle.tm_values.specs.Code.{coded_Val};

    ghost Value = { Val };

    ghost coded = { coded_Val };

    ghost use Rattle.tm_values.specs.View.{node_view, IsWellMade};
    ghost use Rattle.tm_values.specs.Val.{val_size};

    ghost view = { λ a. node_view a.node };

    ghost invariant = { λ a. IsWellMade a.node };

    ghost size = { val_size };

    ghost use Rattle.tm_values.specs.Falls.{deep-le-size};

    ghost size_decreases = { λ a h. deep-le-size a.node };
}

impl Drop for Value {
    // Inline, since most values own nothing.
    #[inline(always)]
    #[cycle(dropping)]
    fn drop(self) {
        let Value { node } = self;
        match node {
            Node::Undefined(_)
            | Node::None
            | Node::Boolean(_)
            | Node::Number(_)
            | Node::Function(_)
            | Node::Loop(_, _)
            | Node::Namespace(_, _) => {}
            node => drop_owner(Value { node }),
        }
    }
}

impl Value {
    // Moves out the parts that this value owns alone. Inline, since each drop begins with it.
    #[inline(always)]
    pub(crate) fn into_held(self) -> Held
        ensures { held_size result < val_size self }
    {
        let Value { node } = self;
        match node {
            Node::List(items, _parts) => Held::items(items),
            Node::Map(pairs, _parts) => Held::pairs(pairs),
            Node::Keywords(pairs, _parts) => Held::pairs(pairs),
            Node::Exports(pairs, _content, _size) => Held::pairs(pairs),
            Node::Undefined(_silent) => Held::Nothing,
            Node::None => Held::Nothing,
            Node::Boolean(_truth) => Held::Nothing,
            Node::Number(_whole) => Held::Nothing,
            Node::Text(_content, _safe) => Held::Nothing,
            Node::Function(_index) => Held::Nothing,
            Node::Macro(_declared) => Held::Nothing,
            Node::Loop(_state, _index) => Held::Nothing,
            Node::Namespace(_state, _index) => Held::Nothing,
        }
    }

    /// The undefined value.
    pub fn undefined() -> Value
        ensures { result ≡ undefined false }
    {
        Value {
            node: Node::Undefined(false),
        }
    }

    /// The silent undefined value: emitting it and testing its truth never fail.
    pub fn silent_undefined() -> Value
        ensures { result ≡ undefined true }
    {
        Value {
            node: Node::Undefined(true),
        }
    }

    /// The value `none`.
    pub fn none() -> Value
        ensures { result ≡ none }
    {
        Value { node: Node::None }
    }

    /// A truth value.
    pub fn boolean(truth: bool) -> Value
        ensures { result ≡ boolean truth }
    {
        Value {
            node: Node::Boolean(truth),
        }
    }

    /// A whole number.
    pub fn number(whole: i128) -> Value
        ensures { result ≡ number whole }
    {
        Value {
            node: Node::Number(whole),
        }
    }

    /// A text, not marked safe. OutOfMemory if memory runs out.
    pub fn text(alloc: Global, content: &str) -> Result<Value, Error>
        ensures { OkOrOutOfMemory result (λ v. v ≡ text content.now false) }
    {
        let content = SharedText::from_str(alloc, content)?;
        Ok(Value::shared_text(content, false))
    }

    /// A text marked safe, so that it is never escaped. OutOfMemory if memory runs out.
    pub fn safe_text(alloc: Global, content: &str) -> Result<Value, Error>
        ensures { OkOrOutOfMemory result (λ v. v ≡ text content.now true) }
    {
        let content = SharedText::from_str(alloc, content)?;
        Ok(Value::shared_text(content, true))
    }

    /// A text value that shares `content`; `safe` marks it safe.
    pub fn shared_text(content: SharedText, safe: bool) -> Value
        ensures { result ≡ text content safe }
    {
        Value {
            node: Node::Text(content, safe),
        }
    }

    /// The list of these values. OutOfMemory if memory runs out or the size doesn't fit a `u32`.
    pub fn list(alloc: Global, items: Vec<Value>) -> Result<Value, Error>
        ensures { OkOrOutOfMemory result (λ v. v ≡ list (vals_of items.items)) }
    {
        let parts = Parts::of_values(&items)?;
        Ok(Value {
            node: Node::List(Rc::new(alloc, items)?, parts),
        })
    }

    /// The function with the number `index`.
    pub fn function(index: usize) -> Value
        ensures { result ≡ function index }
    {
        Value {
            node: Node::Function(index),
        }
    }

    /// A macro as a value. OutOfMemory if memory runs out.
    pub fn declared(alloc: Global, declared: MacroValue) -> Result<Value, Error>
        ensures { OkOrOutOfMemory result (λ v. v ≡ macro declared) }
    {
        Ok(Value {
            node: Node::Macro(Rc::new(alloc, declared)?),
        })
    }

    /// The loop number `index` in the state with the id `state`.
    pub fn loop_record(state: u64, index: usize) -> Value
        ensures { result ≡ loop state index }
    {
        Value {
            node: Node::Loop(state, index),
        }
    }

    /// The namespace number `index` in the state with the id `state`.
    pub fn namespace(state: u64, index: usize) -> Value
        ensures { result ≡ namespace state index }
    {
        Value {
            node: Node::Namespace(state, index),
        }
    }

    /// A second owner of the same contents. OutOfMemory only if the count of owners overflows.
    #[inline(always)]
    pub fn share(&self) -> Result<Value, Error>
        ensures { OkOrOutOfMemory result (λ v. v ≡ self.now) }
    {
        match &self.node {
            Node::Number(whole) => Ok(Value::number(*whole)),
            Node::Boolean(truth) => Ok(Value::boolean(*truth)),
            _ => self.share_contents(),
        }
    }

    // The same for values with shared contents, out of line.
    #[inline(never)]
    fn share_contents(&self) -> Result<Value, Error>
        ensures { OkOrOutOfMemory result (λ v. v ≡ self.now) }
    {
        let node = match &self.node {
            Node::Undefined(silent) => Node::Undefined(*silent),
            Node::None => Node::None,
            Node::Boolean(truth) => Node::Boolean(*truth),
            Node::Number(whole) => Node::Number(*whole),
            Node::Text(content, safe) => Node::Text(content.share()?, *safe),
            Node::List(items, parts) => Node::List(items.clone()?, *parts),
            Node::Map(pairs, parts) => Node::Map(pairs.clone()?, *parts),
            Node::Keywords(pairs, parts) => Node::Keywords(pairs.clone()?, *parts),
            Node::Exports(pairs, content, size) => {
                Node::Exports(pairs.clone()?, content.share()?, *size)
            }
            Node::Function(index) => Node::Function(*index),
            Node::Macro(declared) => Node::Macro(declared.clone()?),
            Node::Loop(state, index) => Node::Loop(*state, *index),
            Node::Namespace(state, index) => Node::Namespace(*state, *index),
        };
        Ok(Value { node })
    }

    /// The text and whether it is safe, if the value is a text; otherwise the value itself.
    pub fn into_text(self) -> Result<(SharedText, bool), Value>
        ensures { MatchResult result (λ x. self ≡ text x.0 x.1)
            (λ v. (v ≡ self) × (text_in self ≡ None)) }
    {
        let Value { node } = self;
        match node {
            Node::Text(content, safe) => Ok((content, safe)),
            node => Err(Value { node }),
        }
    }

    /// The list of its items and then of `more`, if the value is a list; otherwise the value
    /// itself. It shares the items of `more`, and appends them in place if the list has no other
    /// owner. Returns the value as it was if memory runs out or the size doesn't fit a `u32`.
    pub fn extended(self, alloc: Global, more: &[Value]) -> Result<Value, Value>
        ensures { MatchResult result (λ v. v ≡ extended self more.now) (λ v. v ≡ self) }
    {
        let Value { node } = self;
        match node {
            Node::List(items, parts) => match parts.extended(more) {
                Ok(all) => match append_shared(alloc, items, more) {
                    Ok(items) => Ok(Value {
                        node: Node::List(items, all),
                    }),
                    Err(items) => Err(Value {
                        node: Node::List(items, parts),
                    }),
                },
                Err(_) => Err(Value {
                    node: Node::List(items, parts),
                }),
            },
            node => Ok(Value { node }),
        }
    }

    /// Whether both share the items of one list or the bytes of one text. It says nothing of what
    /// the values are, only of memory.
    pub fn shares_with(&self, other: &Value) -> bool {
        match (&self.node, &other.node) {
            (Node::List(items, _), Node::List(of_other, _)) => Rc::ptr_eq(items, of_other),
            (Node::Text(content, _), Node::Text(of_other, _)) => content.shares_with(of_other),
            _ => false,
        }
    }

    /// The text, if the value is one.
    pub fn as_str(&self) -> Option<&str>
        ensures { IsLent result (text_in self.now) }
    {
        match &self.node {
            Node::Text(content, _) => Some(content.as_str()),
            _ => None,
        }
    }

    /// The whole number that the value counts as, if it is a number or a truth value.
    pub fn as_i128(&self) -> Option<i128>
        ensures { result ≡ whole_in self.now }
    {
        match &self.node {
            Node::Boolean(false) => Some(0),
            Node::Boolean(true) => Some(1),
            Node::Number(whole) => Some(*whole),
            _ => None,
        }
    }

    /// The items, if the value is a list.
    pub fn as_list(&self) -> Option<&[Value]>
        ensures { IsLent result (list_in self.now) }
    {
        match &self.node {
            Node::List(items, _) => Some(items.as_slice()),
            _ => None,
        }
    }

    /// The items of a list; empty for other values.
    pub fn items(&self) -> &[Value]
        ensures { result.now ≡ items_in self.now }
    {
        match &self.node {
            Node::List(items, _) => items.as_slice(),
            _ => &[],
        }
    }

    /// The pairs of a map, a keyword map or a module; empty for other values.
    pub fn pairs(&self) -> &[(Value, Value)]
        ensures pairs { result.now ≡ entries_in self.now }
        ensures ordered { IsMap result.now }
    {
        match &self.node {
            Node::Map(pairs, _) | Node::Keywords(pairs, _) | Node::Exports(pairs, _, _) => {
                pairs.as_slice()
            }
            _ => &[],
        }
    }

    // The rank of its kind in the order of kinds.
    pub(crate) fn rank(&self) -> u8
        ensures { result ≡ rank self.now }
    {
        match &self.node {
            Node::Undefined(_) => 0,
            Node::None => 1,
            Node::Boolean(_) | Node::Number(_) => 2,
            Node::Text(_, _) => 3,
            Node::List(_, _) => 4,
            Node::Map(_, _) => 5,
            Node::Keywords(_, _) => 6,
            Node::Exports(_, _, _) => 7,
            Node::Function(_) => 8,
            Node::Macro(_) => 9,
            Node::Loop(_, _) => 10,
            Node::Namespace(_, _) => 11,
        }
    }

    // The text of a text or a module; empty for other values.
    pub(crate) fn text_or_empty(&self) -> &str
        ensures { result.now ≡ bytes_in self.now }
    {
        match &self.node {
            Node::Text(content, _) | Node::Exports(_, content, _) => content.as_str(),
            _ => "",
        }
    }

    // The whole number of a number or a truth value; 0 for other values.
    pub(crate) fn whole_or_zero(&self) -> i128
        ensures { result ≡ whole_or_zero self.now }
    {
        match &self.node {
            Node::Boolean(true) => 1,
            Node::Number(whole) => *whole,
            _ => 0,
        }
    }
}
