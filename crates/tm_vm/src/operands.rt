//! The instructions for operands, operators, lists and maps.
ghost use Rattle.std.specs.Prelude.{◌<◌, ◌∷◌, Some};
ghost use Rattle.tm_meaning.specs.Machine.{goes};
ghost use Rattle.tm_meaning.specs.Instructions.{lookup_of, load_const_of, get_attr_of, unary_of, binary_of};
ghost use Rattle.tm_meaning.specs.Instructions.{compare_and_preserve_of, swap_of, dup_top_of, discard_top_of};
ghost use Rattle.tm_meaning.specs.Instructions.{get_item_of, slice_instruction_of, build_list_of};
ghost use Rattle.tm_meaning.specs.Instructions.{build_map_of, build_kwargs_of, merge_kwargs_of};
ghost use Rattle.tm_meaning.specs.Instructions.{unpack_lists_of};
ghost use Rattle.tm_runs.specs.Runs.{CanGoOn};
ghost use Rattle.tm_vm.specs.Answers.{Silently};

use crate::flow::Flow;
use crate::machine::Machine;
use std::alloc::Global;
use tm_operations::{attribute, item, merge_maps, slice, spread_items};
use tm_parts::{Halt, binary, paired, unary};
use tm_syntax::{BinaryOperator, Name, UnaryOperator};
use tm_tables::Host;
use tm_values::{Value, ValueMap};

impl Machine {
    /// Pushes `value` and moves on.
    pub(crate) fn push_next(&mut self, value: Value) -> Result<Flow, Halt>
        requires { CanGoOn self.old.run }
        ensures { Silently (goes (value ∷ self.old.run.operands) self.old.world self.old)
            self.old self.new result }
    {
        self.run.advance();
        self.run.push(value)?;
        Ok(Flow::GoOn)
    }

    /// Pushes the value that `name` is bound to, or undefined.
    pub(crate) fn do_lookup<H: Host>(&mut self, host: &H, name: &Name) -> Result<Flow, Halt>
        requires { CanGoOn self.old.run }
        ensures { Silently (lookup_of (H.program host.now).host name.now self.old)
            self.old self.new result }
    {
        let value = match self.state.lookup(host, name)? {
            Some(value) => value,
            None => Value::undefined(),
        };
        self.push_next(value)
    }

    /// Pushes a literal.
    pub(crate) fn do_load_const(&mut self, value: &Value) -> Result<Flow, Halt>
        requires { CanGoOn self.old.run }
        ensures { Silently (load_const_of value.now self.old) self.old self.new result }
    {
        self.push_next(value.share()?)
    }

    /// Replaces a value by its attribute `name`.
    pub(crate) fn do_get_attr<H: Host>(
        &mut self,
        alloc: Global,
        host: &H,
        name: &Name,
    ) -> Result<Flow, Halt>
        requires { CanGoOn self.old.run }
        ensures { Silently (get_attr_of (H.program host.now).host name.now self.old)
            self.old self.new result }
    {
        let value = self.run.popped()?;
        let undefined = host.undefined_behavior();
        let found = attribute(alloc, &value, name.as_str(), &self.state, undefined)?;
        self.push_next(found)
    }

    /// Replaces a value by the result of a unary operator.
    pub(crate) fn do_unary<H: Host>(
        &mut self,
        alloc: Global,
        host: &H,
        operator: UnaryOperator,
    ) -> Result<Flow, Halt>
        requires { CanGoOn self.old.run }
        ensures { Silently (unary_of (H.program host.now).host operator self.old)
            self.old self.new result }
    {
        let value = self.run.popped()?;
        let given = unary(alloc, operator, &value, host.undefined_behavior())?;
        self.push_next(given)
    }

    /// Replaces two values by the result of a binary operator.
    #[inline(never)]
    pub(crate) fn do_binary<H: Host>(
        &mut self,
        alloc: Global,
        host: &H,
        operator: BinaryOperator,
    ) -> Result<Flow, Halt>
        requires { CanGoOn self.old.run }
        ensures { Silently (binary_of (H.program host.now).host operator self.old)
            self.old self.new result }
    {
        let right = self.run.popped()?;
        let left = self.run.popped()?;
        let behavior = host.undefined_behavior();
        let most = host.value_limit();
        let given = binary(alloc, operator, left, &right, most, &self.state, behavior)?;
        self.push_next(given)
    }

    /// Replaces two values by the second one and, on top, the result of a binary operator.
    pub(crate) fn do_compare_and_preserve<H: Host>(
        &mut self,
        alloc: Global,
        host: &H,
        operator: BinaryOperator,
    ) -> Result<Flow, Halt>
        requires { CanGoOn self.old.run }
        ensures { Silently (compare_and_preserve_of (H.program host.now).host operator self.old)
            self.old self.new result }
    {
        let right = self.run.popped()?;
        let left = self.run.popped()?;
        let undefined = host.undefined_behavior();
        let most = host.value_limit();
        let given = binary(alloc, operator, left, &right, most, &self.state, undefined)?;
        self.run.push(right)?;
        self.push_next(given)
    }

    /// Swaps the top two values.
    pub(crate) fn do_swap(&mut self) -> Result<Flow, Halt>
        requires { CanGoOn self.old.run }
        ensures { Silently (swap_of self.old) self.old self.new result }
    {
        let top = self.run.popped()?;
        let below = self.run.popped()?;
        self.run.push(top)?;
        self.push_next(below)
    }

    /// Pushes the top value again.
    pub(crate) fn do_dup_top(&mut self) -> Result<Flow, Halt>
        requires { CanGoOn self.old.run }
        ensures { Silently (dup_top_of self.old) self.old self.new result }
    {
        let value = match self.run.top() {
            Some(top) => top.share()?,
            None => return Err(Halt::Stuck),
        };
        self.push_next(value)
    }

    /// Drops the top value.
    pub(crate) fn do_discard_top(&mut self) -> Result<Flow, Halt>
        requires { CanGoOn self.old.run }
        ensures { Silently (discard_top_of self.old) self.old self.new result }
    {
        let _top = self.run.popped()?;
        self.run.advance();
        Ok(Flow::GoOn)
    }

    /// Replaces a value and a key by the value's item at this key.
    pub(crate) fn do_get_item<H: Host>(&mut self, alloc: Global, host: &H) -> Result<Flow, Halt>
        requires { CanGoOn self.old.run }
        ensures { Silently (get_item_of (H.program host.now).host self.old)
            self.old self.new result }
    {
        let key = self.run.popped()?;
        let value = self.run.popped()?;
        let undefined = host.undefined_behavior();
        let found = item(alloc, &value, &key, &self.state, undefined)?;
        self.push_next(found)
    }

    /// Replaces a value, a start, a stop and a step by the value's slice.
    pub(crate) fn do_slice<H: Host>(&mut self, alloc: Global, host: &H) -> Result<Flow, Halt>
        requires { CanGoOn self.old.run }
        ensures { Silently (slice_instruction_of (H.program host.now).host self.old)
            self.old self.new result }
    {
        let by = self.run.popped()?;
        let stop = self.run.popped()?;
        let start = self.run.popped()?;
        let value = self.run.popped()?;
        let undefined = host.undefined_behavior();
        let part = slice(alloc, &value, &start, &stop, &by, undefined)?;
        self.push_next(part)
    }

    /// Replaces the top `count` values by a list of them; without a count, the number on top tells
    /// how many.
    pub(crate) fn do_build_list(
        &mut self,
        alloc: Global,
        count: Option<usize>,
    ) -> Result<Flow, Halt>
        requires { CanGoOn self.old.run }
        ensures { Silently (build_list_of count self.old) self.old self.new result }
    {
        match self.run.take_count(count) {
            Some(count) => self.build_list(alloc, count),
            None => Err(Halt::Stuck),
        }
    }

    /// Replaces the top `count` values by a list of them.
    fn build_list(&mut self, alloc: Global, count: usize) -> Result<Flow, Halt>
        requires { CanGoOn self.old.run }
        ensures { Silently (build_list_of (Some count) self.old) self.old self.new result }
    {
        let Some(values) = self.run.take(count)? else {
            return Err(Halt::Stuck);
        };
        self.push_next(Value::list(alloc, values)?)
    }

    /// Replaces the top `count` pairs of a key and its value by a map.
    pub(crate) fn do_build_map(&mut self, alloc: Global, count: usize) -> Result<Flow, Halt>
        requires { CanGoOn self.old.run }
        ensures { Silently (build_map_of count self.old) self.old self.new result }
    {
        let Some(values) = self.run.take_pairs(count)? else {
            return Err(Halt::Stuck);
        };
        let pairs = ValueMap::from_pairs(paired(alloc, values)?)?;
        self.push_next(Value::from_map(alloc, pairs)?)
    }

    /// Replaces the top `count` pairs of a name and its value by a keyword map.
    pub(crate) fn do_build_kwargs(&mut self, alloc: Global, count: usize) -> Result<Flow, Halt>
        requires { CanGoOn self.old.run }
        ensures { Silently (build_kwargs_of count self.old) self.old self.new result }
    {
        let Some(values) = self.run.take_pairs(count)? else {
            return Err(Halt::Stuck);
        };
        let pairs = ValueMap::from_pairs(paired(alloc, values)?)?;
        self.push_next(Value::keywords(alloc, pairs)?)
    }

    /// Replaces the top `count` maps by a keyword map of their pairs. InvalidOperation or
    /// UndefinedError for a value that isn't a map.
    #[inline(never)]
    pub(crate) fn do_merge_kwargs<H: Host>(
        &mut self,
        alloc: Global,
        host: &H,
        count: usize,
    ) -> Result<Flow, Halt>
        requires { CanGoOn self.old.run }
        ensures { Silently (merge_kwargs_of (H.program host.now).host count self.old)
            self.old self.new result }
    {
        let Some(maps) = self.run.args(count) else {
            return Err(Halt::Stuck);
        };
        let most = host.value_limit();
        let pairs = merge_maps(alloc, maps, &self.state, host.undefined_behavior(), most)?;
        let keywords = Value::keywords(alloc, pairs)?;
        self.replace(count, keywords)
    }

    /// Replaces the top `count` values by their items and, on top, the number of these.
    /// InvalidOperation for a value without items.
    #[inline(never)]
    pub(crate) fn do_unpack_lists<H: Host>(
        &mut self,
        alloc: Global,
        host: &H,
        count: usize,
    ) -> Result<Flow, Halt>
        requires { CanGoOn self.old.run }
        ensures { Silently (unpack_lists_of (H.program host.now).host count self.old)
            self.old self.new result }
    {
        let Some(lists) = self.run.args(count) else {
            return Err(Halt::Stuck);
        };
        let most = host.value_limit();
        let items = spread_items(alloc, lists, &self.state, host.undefined_behavior(), most)?;
        let number = Value::number(items.len() as i128);
        self.run.drop_operands(count);
        self.run.append(items)?;
        self.push_next(number)
    }
}
