//! The operand stack.
ghost use Rattle.std.specs.Prelude.{◌++◌, ◌≡◌, [], ◌∷◌, List, Some, None, drop, length, ◌↔◌, IsTrue, OnOk, OnErr, IfOk, IfErr, IfNone};
ghost use Rattle.std.specs.Prelude.{IfSome, MatchOption, MatchResult};
ghost use Rattle.tm_values.specs.Val.{Val, boolean};
ghost use Rattle.tm_values.specs.Answer.{OrStays};
ghost use Rattle.tm_parts.specs.Operate.{Doubles, Has, Negates, Operates, TakesMember, TestsUndefined};
ghost use Rattle.tm_meaning.specs.Machine.{onto, taken};

use crate::operators::{binary_at_once, compared_texts};
use std::alloc::Global;
use std::marker::Model;
use tm_syntax::BinaryOperator;
use tm_values::{Error, ErrorKind, Node, Value};

/// The operands. A contract sees a list, the topmost first.
#[derive(Drop)]
pub struct Stack {
    values: Vec<Value>,
}

impl Model for Stack {
    ghost use Rattle.std.specs.Prelude.{List, reverse};
    ghost use Rattle.std.specs.Coded.{coded_list};
    ghost use Rattle.tm_values.specs.Val.{Val};
    ghost use Rattle.tm_values.specs.Code.{coded_Val};

    ghost Value = { List Val };

    ghost coded = { coded_list coded_Val };

    ghost view = { λ s. reverse s.values.items };
}

/// The member of a map at a name, if there is one and its owners can be counted.
#[inline(always)]
fn member_at_once(value: &Value, name: &str) -> Option<Value>
    ensures { IfSome result (λ v. Has value.now name.now v) }
{
    let Node::Map(_, _) = &value.node else {
        return None;
    };
    value.member(name)?.share().ok()
}

impl Stack {
    /// An empty stack.
    pub fn new(alloc: Global) -> Stack
        ensures { result ≡ [] }
    {
        Stack {
            values: Vec::new(alloc),
        }
    }

    /// The values as operands, the last one topmost.
    pub fn of(values: Vec<Value>) -> Stack
        ensures { result ≡ onto values.items [] }
    {
        Stack { values }
    }

    /// The operands, as a vector whose capacity can be reused.
    pub fn into_values(self) -> Vec<Value> {
        let Stack { values } = self;
        values
    }

    /// The number of operands.
    pub fn len(&self) -> usize
        ensures { result ≡ length self.now }
    {
        self.values.len()
    }

    /// Whether the stack is empty.
    pub fn is_empty(&self) -> bool
        ensures { IsTrue result ↔ (self.now ≡ []) }
    {
        self.values.is_empty()
    }

    /// Pushes a value. OutOfMemory if memory runs out; then nothing changes.
    pub fn push(&mut self, value: Value) -> Result<(), Error>
        ensures ok { OnOk result (self.new ≡ value ∷ self.old) }
        ensures kind { IfErr result (λ e. e ≡ ErrorKind.OutOfMemory ∷ []) }
        ensures err { OnErr result (self.new ≡ self.old) }
    {
        self.values.push(value)?;
        Ok(())
    }

    /// Pushes a second owner of each value, the first one topmost. OutOfMemory is the only error.
    pub fn push_each(&mut self, values: &[Value]) -> Result<(), Error>
        ensures ok { OnOk result (self.new ≡ values.now ++ self.old) }
        ensures kind { IfErr result (λ e. e ≡ ErrorKind.OutOfMemory ∷ []) }
    {
        let mut left = values.len();
        while left > 0 {
            left -= 1;
            self.push(values[left].share()?)?;
        }
        Ok(())
    }

    /// Pushes values, the last one topmost. OutOfMemory is the only error.
    pub fn append(&mut self, values: Vec<Value>) -> Result<(), Error>
        ensures ok { OnOk result (self.new ≡ onto values.items self.old) }
        ensures kind { IfErr result (λ e. e ≡ ErrorKind.OutOfMemory ∷ []) }
    {
        for value in values {
            self.push(value)?;
        }
        Ok(())
    }

    /// Pushes a second owner of a value, if there is capacity. Otherwise returns false and changes
    /// nothing.
    #[inline(always)]
    pub fn push_shared(&mut self, value: &Value) -> bool
        ensures { OrStays result self.old self.new (self.new ≡ value.now ∷ self.old) }
    {
        if self.values.len() >= self.values.capacity() {
            return false;
        }
        if let Node::Number(whole) = &value.node {
            self.values.push_reserved(Value::number(*whole));
            return true;
        }
        match value.share() {
            Ok(value) => {
                self.values.push_reserved(value);
                true
            }
            Err(_) => false,
        }
    }

    /// Replaces the two topmost values by the result of an operator, if both are numbers and it
    /// depends on nothing else. Otherwise returns false and changes nothing.
    #[inline(always)]
    pub fn operate(&mut self, operator: BinaryOperator) -> bool
        ensures { OrStays result self.old self.new (Operates operator self.old self.new) }
    {
        if self.values.len() < 2 {
            return false;
        }
        let right = self.values.take_last();
        let left = self.values.take_last();
        // The pops left room for it.
        match binary_at_once(operator, &left, &right) {
            Some(given) => {
                self.values.push_reserved(given);
                true
            }
            None => {
                self.values.push_reserved(left);
                self.values.push_reserved(right);
                false
            }
        }
    }

    /// Replaces two texts on top by the result of a comparison. Otherwise returns false and changes
    /// nothing.
    pub fn compare_texts(&mut self, operator: BinaryOperator) -> bool
        ensures { OrStays result self.old self.new (Operates operator self.old self.new) }
    {
        if self.values.len() < 2 {
            return false;
        }
        let right = self.values.take_last();
        let left = self.values.take_last();
        match compared_texts(operator, &left, &right) {
            Some(truth) => {
                self.values.push_reserved(Value::boolean(truth));
                true
            }
            None => {
                self.values.push_reserved(left);
                self.values.push_reserved(right);
                false
            }
        }
    }

    /// Replaces the map on top by its member at a name, if there is one. Otherwise returns false
    /// and changes nothing.
    #[inline(never)]
    pub fn replace_by_member(&mut self, name: &str) -> bool
        ensures { OrStays result self.old self.new (TakesMember name.now self.old self.new) }
    {
        if self.values.is_empty() {
            return false;
        }
        let top = self.values.take_last();
        match member_at_once(&top, name) {
            Some(member) => {
                self.values.push_reserved(member);
                true
            }
            None => {
                self.values.push_reserved(top);
                false
            }
        }
    }

    /// Pops the truth value on top. None if there is none; then nothing changes.
    #[inline(always)]
    pub fn take_boolean(&mut self) -> Option<bool>
        ensures { MatchOption result (self.new ≡ self.old)
            (λ truth. self.old ≡ boolean truth ∷ self.new) }
    {
        if self.values.is_empty() {
            return None;
        }
        let top = self.values.take_last();
        match top.node {
            Node::Boolean(truth) => Some(truth),
            _ => {
                self.values.push_reserved(top);
                None
            }
        }
    }

    /// Replaces the topmost value by the negation of its truth, if there is one and it isn't
    /// undefined. Otherwise returns false and changes nothing.
    pub fn negate(&mut self) -> bool
        ensures { OrStays result self.old self.new (Negates self.old self.new) }
    {
        if self.values.is_empty() {
            return false;
        }
        let top = self.values.take_last();
        if top.is_undefined() {
            self.values.push_reserved(top);
            return false;
        }
        self.values.push_reserved(Value::boolean(!top.is_true()));
        true
    }

    /// Replaces the topmost value by whether it is undefined. If the stack is empty, returns false
    /// and changes nothing.
    #[inline(always)]
    pub fn test_undefined(&mut self) -> bool
        ensures { OrStays result self.old self.new (TestsUndefined self.old self.new) }
    {
        if self.values.is_empty() {
            return false;
        }
        let top = self.values.take_last();
        // The pop left room for it.
        self.values
            .push_reserved(Value::boolean(top.is_undefined()));
        true
    }

    /// Pushes a second owner of the topmost value, if there is one and there is capacity. Otherwise
    /// returns false and changes nothing.
    #[inline(always)]
    pub fn double_top(&mut self) -> bool
        ensures { OrStays result self.old self.new (Doubles self.old self.new) }
    {
        if self.values.len() >= self.values.capacity() {
            return false;
        }
        let Some(top) = self.values.last() else {
            return false;
        };
        match top.share() {
            Ok(second) => {
                self.values.push_reserved(second);
                true
            }
            Err(_) => false,
        }
    }

    /// Drops the topmost value, if there is one.
    #[inline(always)]
    pub fn drop_top(&mut self)
        ensures { self.new ≡ drop 1 self.old }
    {
        if !self.values.is_empty() {
            drop(self.values.take_last());
        }
    }

    /// Pops the topmost value, if there is one.
    pub fn pop(&mut self) -> Option<Value>
        ensures { MatchOption result ((self.old ≡ []) × (self.new ≡ []))
            (λ v. self.old ≡ v ∷ self.new) }
    {
        self.values.pop()
    }

    /// The topmost value, if there is one.
    pub fn peek(&self) -> Option<&Value>
        ensures { MatchOption result (self.now ≡ []) (λ v. (rest : _) × (self.now ≡ v.now ∷ rest)) }
    {
        self.values.last()
    }

    /// Replaces the topmost value and returns the old one. None if the stack is empty; then nothing
    /// changes.
    pub fn replace(&mut self, value: Value) -> Option<Value>
        ensures { MatchOption result ((self.old ≡ []) × (self.new ≡ []))
            (λ v. (rest : List Val) × (self.old ≡ v ∷ rest) × (self.new ≡ value ∷ rest)) }
    {
        let replaced = self.values.pop()?;
        // The pop left room for it.
        self.values.push_reserved(value);
        Some(replaced)
    }

    /// The `count` topmost values, the lowest first. None if there are fewer.
    pub fn args(&self, count: usize) -> Option<&[Value]>
        ensures { MatchOption result (taken count [] self.now ≡ None)
            (λ args. taken count [] self.now ≡ Some (args.now, drop count self.now)) }
    {
        let held = self.values.len();
        if held < count {
            return None;
        }
        Some(&self.values[held - count..])
    }

    /// Pops the `count` topmost values, the lowest first. None if there are fewer. OutOfMemory is
    /// the only error; then nothing changes.
    pub fn take(&mut self, count: usize) -> Result<Option<Vec<Value>>, Error>
        ensures taken { MatchResult result
            (λ values. MatchOption values (taken count [] self.old ≡ None)
            (λ vs. taken count [] self.old ≡ Some (vs.items, self.new)))
            (λ e. e ≡ ErrorKind.OutOfMemory ∷ []) }
        ensures few { IfOk result (λ values. IfNone values (self.new ≡ self.old)) }
        ensures err { OnErr result (self.new ≡ self.old) }
    {
        let held = self.values.len();
        if held < count {
            return Ok(None);
        }
        Ok(Some(self.values.split_off(held - count)?))
    }

    /// Replaces the `count` topmost values, or all if there are fewer, by a value. OutOfMemory is
    /// the only error.
    #[inline(always)]
    pub fn replace_topmost(&mut self, count: usize, value: Value) -> Result<(), Error>
        ensures ok { OnOk result (self.new ≡ value ∷ drop count self.old) }
        ensures kind { IfErr result (λ e. e ≡ ErrorKind.OutOfMemory ∷ []) }
    {
        if count == 1 && !self.values.is_empty() {
            let _replaced = self.values.take_last();
            // The pop left room for it.
            self.values.push_reserved(value);
            return Ok(());
        }
        self.remove(count);
        self.push(value)
    }

    /// Drops the `count` topmost values, or all if there are fewer.
    pub fn remove(&mut self, count: usize)
        ensures { self.new ≡ drop count self.old }
    {
        self.values
            .truncate(self.values.len().saturating_sub(count));
    }
}
