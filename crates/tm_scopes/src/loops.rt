//! The records of loops.
ghost use Rattle.std.specs.Prelude.{◌≡◌, ◌<◌, ◌^◌, ◌∷◌, ◌&&◌, [], None, Some, SomeIff, IfErr, IfOk, OnErr, OnOk, length, map};
ghost use Rattle.std.specs.Option.{option_copied};
ghost use Rattle.std.specs.Prelude.{nat_eq, option_and_then, option_map, slice_get};
ghost use Rattle.tm_values.specs.Answer.{IsLent, OkOrOutOfMemory};
ghost use Rattle.tm_values.specs.Position.{position_of};
ghost use Rattle.tm_values.specs.Val.{none};
ghost use Rattle.tm_meaning.specs.World.{turned, left_loop, loop_data, or_is, depth_inside, place_of, same_stream};
ghost use Rattle.tm_meaning.specs.Calls.{is_changed, keeping, cycled};
ghost use Rattle.tm_scopes.specs.LoopItems.{items_of};

use std::alloc::Global;
use std::marker::Model;
use std::rc::Rc;
use tm_meaning::StreamId;
use tm_values::{Error, ErrorKind, LoopPosition, Value, same_items, share_all};

/// The items of a loop. Its record has their number.
enum LoopItems {
    /// All items.
    All(Rc<Vec<Value>>),
    /// Those of a loop that was left after `turns` turns: `before` stands in place of each up to
    /// the current one, and `after` in place of each later one.
    Left {
        turns: usize,
        before: Value,
        after: Value,
    },
}

// Written by hand: one drop call per owner instead of dropping each part.
impl Drop for LoopItems {
    fn drop(self) {
        match self {
            LoopItems::All(_items) => {}
            LoopItems::Left {
                turns: _turns,
                before: _before,
                after: _after,
            } => {}
        }
    }
}

impl LoopItems {
    /// The item `index` of `count` items, if there are so many.
    fn get(&self, count: usize, index: usize) -> Option<&Value>
        requires { length (items_of count self.now) ≡ count }
        ensures { IsLent result (slice_get (items_of count self.now) index) }
    {
        match self {
            LoopItems::All(items) => items.get(index),
            LoopItems::Left {
                turns,
                before,
                after,
            } => {
                if index >= count {
                    None
                } else if index < *turns {
                    Some(before)
                } else {
                    Some(after)
                }
            }
        }
    }
}

/// A second owner of the item, or the value `none` if there is no item. Fails only with
/// OutOfMemory.
fn or_none(item: Option<&Value>) -> Result<Value, Error>
    ensures { OkOrOutOfMemory result (λ v. v ≡ or_is (option_copied item.entry) none) }
{
    match item {
        Some(item) => item.share(),
        None => Ok(Value::none()),
    }
}

/// A loop: its items, their number, how many times the next item was requested, how many callable
/// loops directly enclose it, its number in its stream, that stream, whether it can be called, and
/// the arguments that `changed` kept. A state has one for each of its loops, so it is kept small.
pub struct LoopState {
    items: LoopItems,
    count: usize,
    turns: usize,
    depth: usize,
    number: usize,
    stream: Rc<StreamId>,
    recursive: bool,
    kept: Option<Box<Vec<Value>>>,
}

// Written by hand: one drop call per owner instead of dropping each part.
impl Drop for LoopState {
    fn drop(self) {
        let LoopState {
            items: _items,
            count: _count,
            turns: _turns,
            depth: _depth,
            number: _number,
            stream: _stream,
            recursive: _recursive,
            kept: _kept,
        } = self;
    }
}

impl Model for LoopState {
    ghost use Rattle.std.specs.Prelude.{option_map};
    ghost use Rattle.std.specs.Coded.{codes};
    ghost use Rattle.tm_values.specs.Code.{coded_Val};
    ghost use Rattle.tm_meaning.specs.World.{Loop};
    ghost use Rattle.tm_scopes.specs.LoopItems.{HasTurns, items_of};

    ghost Value = { Loop };

    ghost coded = { Prim.hlevel (codes, coded_Val) };

    ghost view = { λ l. record {
      items = items_of l.count l.items;
      turns = l.turns;
      depth = l.depth;
      number = l.number;
      recursive = l.recursive;
      stream = l.stream.value;
      kept = option_map (λ v. v.value.items) l.kept;
    } };

    ghost invariant = { λ l. HasTurns (items_of l.count l.items) l.count l.turns };
}

impl LoopState {
    /// A loop over `items` that hasn't started.
    pub fn new(
        items: Rc<Vec<Value>>,
        depth: usize,
        number: usize,
        recursive: bool,
        stream: Rc<StreamId>,
    ) -> LoopState
        ensures { result ≡ record {
          items = items.value.items;
          turns = 0;
          depth = depth;
          number = number;
          recursive = recursive;
          stream = stream.value;
          kept = None;
        } }
    {
        LoopState {
            count: items.len(),
            items: LoopItems::All(items),
            turns: 0,
            depth,
            number,
            stream,
            recursive,
            kept: None,
        }
    }

    /// The next item, if one is left.
    pub fn next_item(&self) -> Option<&Value>
        ensures { IsLent result (slice_get self.now.items self.now.turns) }
    {
        self.items.get(self.count, self.turns)
    }

    /// Advances to the next item, or past the last one.
    pub fn turn(&mut self)
        ensures { self.new ≡ turned self.old }
    {
        if self.turns <= self.count {
            self.turns += 1;
        }
    }

    /// Forgets the items but the one before the current one and the one after it, when the loop is
    /// left. Fails only with OutOfMemory; then nothing changes.
    pub fn leave(&mut self) -> Result<(), Error>
        ensures ok { OnOk result (self.new ≡ left_loop self.old) }
        ensures kind { IfErr result (λ e. e ≡ ErrorKind.OutOfMemory ∷ []) }
        ensures err { OnErr result (self.new ≡ self.old) }
    {
        let before = or_none(self.previous_item())?;
        let after = or_none(self.following_item())?;
        self.items = LoopItems::Left {
            turns: self.turns,
            before,
            after,
        };
        Ok(())
    }

    /// Whether the loop has no items.
    pub fn did_not_iterate(&self) -> bool
        ensures { result ≡ nat_eq (length self.now.items) 0 }
    {
        self.count == 0
    }

    /// The loop's number in its stream.
    pub fn number(&self) -> usize
        ensures { result ≡ self.now.number }
    {
        self.number
    }

    /// The loop's stream, to be shared.
    pub fn stream(&self) -> &Rc<StreamId>
        ensures { result.now.value ≡ self.now.stream }
    {
        &self.stream
    }

    /// Whether the loop can be called from `stream`: it is callable, and `stream` is its own.
    pub fn can_be_called_in(&self, stream: &StreamId) -> bool
        ensures { result ≡ (self.now.recursive && same_stream self.now.stream stream.now) }
    {
        self.recursive && self.stream.is(stream)
    }

    /// The depth of a loop inside this one: one more if this one can be called, else 0. None if
    /// that overflows.
    pub fn depth_inside(&self) -> Option<usize>
        ensures { SomeIff result (depth_inside (Some self.now) < 2 ^ 64)
            (depth_inside (Some self.now)) }
    {
        if self.recursive {
            self.depth.checked_add(1)
        } else {
            Some(0)
        }
    }

    /// Whether `args` differ from the arguments kept last, or none were kept; then `args` are kept.
    /// Fails only with OutOfMemory; then nothing changes.
    pub fn changed(&mut self, alloc: Global, args: &[Value]) -> Result<bool, Error>
        ensures ok { IfOk result (λ changed. changed ≡ is_changed self.old.kept args.now) }
        ensures now { OnOk result (self.new ≡ keeping args.now self.old) }
        ensures kind { IfErr result (λ e. e ≡ ErrorKind.OutOfMemory ∷ []) }
        ensures err { OnErr result (self.new ≡ self.old) }
    {
        if let Some(before) = &self.kept {
            if same_items(before.as_slice(), args) {
                return Ok(false);
            }
        }
        let mut kept = Vec::new(alloc);
        share_all(args, &mut kept)?;
        self.kept = Some(Box::new(alloc, kept)?);
        Ok(true)
    }

    /// The argument for the current item; after the last argument the first follows again.
    /// Undefined before the first item, and if there are no arguments. Fails only with OutOfMemory.
    pub fn cycle(&self, args: &[Value]) -> Result<Value, Error>
        ensures { OkOrOutOfMemory result (λ v. v ≡ cycled (place_of self.now.turns) args.now) }
    {
        let Some(place) = self.turns.checked_sub(1) else {
            return Ok(Value::undefined());
        };
        if args.is_empty() {
            return Ok(Value::undefined());
        }
        args[place % args.len()].share()
    }

    /// The loop's position.
    pub fn position(&self) -> LoopPosition
        ensures { result ≡ position_of (loop_data self.now) }
    {
        LoopPosition {
            place: self.turns.checked_sub(1),
            count: self.count,
            depth: self.depth,
        }
    }

    /// The item before the current one, if any.
    pub fn previous_item(&self) -> Option<&Value>
        ensures { IsLent result (loop_data self.now).previous }
    {
        self.items.get(self.count, self.turns.checked_sub(2)?)
    }

    /// The item after the current one, if any.
    pub fn following_item(&self) -> Option<&Value>
        ensures { IsLent result (loop_data self.now).following }
    {
        if self.turns == 0 {
            return None;
        }
        self.items.get(self.count, self.turns)
    }
}

/// The position of the loop `index`.
pub fn position_at(loops: &[LoopState], index: usize) -> Option<LoopPosition>
    ensures { result ≡ option_map position_of (slice_get (map loop_data loops.now) index) }
{
    match loops.get(index) {
        Some(state) => Some(state.position()),
        None => None,
    }
}

/// The item before the current one of the loop `index`, if any.
pub fn previous_at(loops: &[LoopState], index: usize) -> Option<&Value>
    ensures { IsLent result
        (option_and_then (λ l. l.previous) (slice_get (map loop_data loops.now) index)) }
{
    match loops.get(index) {
        Some(state) => state.previous_item(),
        None => None,
    }
}

/// The item after the current one of the loop `index`, if any.
pub fn following_at(loops: &[LoopState], index: usize) -> Option<&Value>
    ensures { IsLent result
        (option_and_then (λ l. l.following) (slice_get (map loop_data loops.now) index)) }
{
    match loops.get(index) {
        Some(state) => state.following_item(),
        None => None,
    }
}
