//! Compares the scopes of a state with a plain model, a list of maps: over many random calls, and
//! with many names.
use crate::rows::expect;
use std::alloc::Global;
use std::collections::BTreeMap;
use std::test::Fail;
use tm_meaning::LoopMark;
use tm_syntax::Name;
use tm_tables::{Closures, Context, Found, Frame};
use tm_values::{Error, ErrorKind, NoRecords, Value};

/// The number of random calls.
const CALLS: usize = 6000;

/// The greatest depth of scopes in the random calls.
const LIMIT: usize = 12;

/// The number of names besides the few that occur again and again.
const MANY: usize = 120;

/// The number of names in the wide scope, and how many scopes are inside it.
const WIDE: usize = 3000;

const FURTHER_IN: usize = 20;

/// Names that occur again and again.
static FEW: [&str; 8] = ["a", "b", "_c", "row", "loop", "é", "_", "item"];

/// Numbers that look random and are the same in each run.
#[derive(Drop)]
struct Dice {
    seed: u64,
}

impl Dice {
    /// A number below `sides`, or 0 if `sides` is 0.
    fn roll(&mut self, sides: usize) -> usize {
        self.seed = self
            .seed
            .wrapping_mul(6_364_136_223_846_793_005)
            .wrapping_add(1_442_695_040_888_963_407);
        let high = (self.seed >> 33) as usize;
        match high.checked_rem(sides) {
            Some(number) => number,
            None => 0,
        }
    }

    /// The mark of the loop `number`, or none.
    fn mark(&mut self, number: usize) -> Option<LoopMark> {
        match self.roll(4) {
            0 => Some(LoopMark {
                number,
                variable: false,
            }),
            1 => Some(LoopMark {
                number,
                variable: true,
            }),
            _ => None,
        }
    }
}

/// One of many names; every fifth one isn't exported.
fn one_of_many(alloc: Global, number: usize) -> Result<String, Error> {
    let name = if number % 5 == 0 {
        format!(in alloc; "_name{number}")?
    } else {
        format!(in alloc; "name{number}")?
    };
    Ok(name)
}

/// The value of a number: the number itself or its text, so that values of both kinds are stored.
fn value_of(alloc: Global, number: i128) -> Result<Value, Error> {
    if number % 3 == 0 {
        let text = format!(in alloc; "{number}")?;
        return Value::text(alloc, text.as_str());
    }
    Ok(Value::number(number))
}

/// Whether the value found is that of the number, or both are missing.
fn is_value(alloc: Global, found: Option<&Value>, number: Option<i128>) -> Result<bool, Error> {
    match (found, number) {
        (Some(value), Some(number)) => Ok(*value == value_of(alloc, number)?),
        (None, None) => Ok(true),
        _ => Ok(false),
    }
}

/// What a name means in the model.
#[derive(Clone, Copy)]
enum Meant {
    /// A value, by its number.
    Number(i128),
    /// A scope's loop, by the number of its record.
    Loop(usize),
}

/// Whether what was found is what the model means.
fn is_meant(alloc: Global, found: &Option<Found<'_>>, meant: Option<Meant>) -> Result<bool, Error> {
    match (found, meant) {
        (Some(Found::Value(value)), Some(Meant::Number(number))) => {
            is_value(alloc, Some(*value), Some(number))
        }
        (Some(Found::Loop(number)), Some(Meant::Loop(wanted))) => Ok(*number == wanted),
        (None, None) => Ok(true),
        _ => Ok(false),
    }
}

/// Whether two marks are equal.
fn is_mark(found: Option<LoopMark>, wanted: Option<LoopMark>) -> bool {
    match (found, wanted) {
        (Some(found), Some(wanted)) => {
            found.number == wanted.number && found.variable == wanted.variable
        }
        (None, None) => true,
        _ => false,
    }
}

/// The scope of the marked loop, or a scope without a loop.
fn frame_of(mark: Option<LoopMark>) -> Frame {
    match mark {
        Some(mark) => Frame::of_loop(mark),
        None => Frame::new(Value::undefined()),
    }
}

/// A scope of the model.
#[derive(Drop)]
struct Scope {
    names: BTreeMap<String, i128>,
    mark: Option<LoopMark>,
}

impl Scope {
    /// What a name means in this scope alone.
    fn meant(&self, name: &str) -> Option<Meant> {
        if let Some(number) = self.names.get(name) {
            return Some(Meant::Number(*number));
        }
        match self.mark {
            Some(mark) if mark.variable && name == "loop" => Some(Meant::Loop(mark.number)),
            _ => None,
        }
    }
}

/// Scopes and their model, which has the outermost scope first.
#[derive(Drop)]
struct Pair {
    context: Context,
    closures: Closures,
    model: Vec<Scope>,
    outer: usize,
    /// The number of values and loops so far.
    count: usize,
    /// The number of refused scopes.
    refused: usize,
    /// The greatest number of names in a scope so far.
    widest: usize,
}

impl Pair {
    /// No scopes on either side.
    fn new(alloc: Global) -> Pair {
        Pair {
            context: Context::new(alloc),
            closures: Closures::new(alloc),
            model: Vec::new(alloc),
            outer: 0,
            count: 0,
            refused: 0,
            widest: 0,
        }
    }

    /// Pushes a scope on both sides. Returns whether it is refused exactly if it exceeds the limit.
    fn push(&mut self, alloc: Global, mark: Option<LoopMark>, limit: usize) -> Result<bool, Error> {
        let fits = self.model.len().saturating_add(self.outer) < limit;
        match self.context.push_frame(frame_of(mark), limit) {
            Ok(()) => {
                let names = BTreeMap::new(alloc);
                self.model.push(Scope { names, mark })?;
                Ok(fits)
            }
            Err(error) if error.kind() == ErrorKind::InvalidOperation => {
                self.refused = self.refused.wrapping_add(1);
                Ok(!fits)
            }
            Err(error) => Err(error),
        }
    }

    /// Binds a name to a new value in the innermost scope on both sides, by one of the two calls
    /// for that.
    fn store(&mut self, alloc: Global, text: String, is_shared: bool) -> Result<(), Error> {
        self.count = self.count.wrapping_add(1);
        let number = self.count as i128;
        let name = Name::new(alloc, text.as_str())?;
        let value = value_of(alloc, number)?;
        if !is_shared {
            self.context.store(name, value)?;
        } else if !self.context.store_at_once(&name, &value) {
            return Err(Error::from(ErrorKind::OutOfMemory));
        }
        if let Some(scope) = self.model.last_mut() {
            scope.names.insert(text, number)?;
            self.widest = self.widest.max(scope.names.len());
        }
        Ok(())
    }

    /// Stores the first `many` names.
    fn store_many(&mut self, alloc: Global, many: usize) -> Result<(), Error> {
        for number in 0..many {
            let text = one_of_many(alloc, number)?;
            self.store(alloc, text, number % 2 == 0)?;
        }
        Ok(())
    }

    /// Pops a scope on both sides, if there is one. Returns whether both agreed on a name before.
    fn pop(&mut self, alloc: Global, text: &str) -> Result<bool, Error> {
        let agrees = self.agrees_on(alloc, text)?;
        self.context.pop_frame();
        self.model.pop();
        Ok(agrees)
    }

    /// Drops the names of the innermost scope on both sides.
    fn clear(&mut self) {
        self.context.clear_locals();
        if let Some(scope) = self.model.last_mut() {
            scope.names.clear();
        }
    }

    /// Drops all but the `count` outermost scopes on both sides, and sets their depth.
    fn cut(&mut self, count: usize, outer: usize) {
        self.context.cut_to(count, outer);
        self.model.truncate(count);
        self.outer = outer;
    }

    /// What a name means in the model: in the innermost scope that has it.
    fn meant(&self, name: &str) -> Option<Meant> {
        for scope in self.model.iter().rev() {
            let meant = scope.meant(name);
            if meant.is_some() {
                return meant;
            }
        }
        None
    }

    /// The number of the model's innermost loop.
    fn innermost_loop(&self) -> Option<usize> {
        for scope in self.model.iter().rev() {
            if let Some(mark) = scope.mark {
                return Some(mark.number);
            }
        }
        None
    }

    /// Whether both sides agree on a name, in the innermost scope alone and in all scopes.
    fn agrees_on(&self, alloc: Global, text: &str) -> Result<bool, Error> {
        let name = Name::new(alloc, text)?;
        let own = match self.model.last() {
            Some(scope) => scope.names.get(text).copied(),
            None => None,
        };
        let found = self.context.find(&name, &self.closures, &NoRecords)?;
        Ok(
            is_value(alloc, self.context.local(&name), own)?
                && is_meant(alloc, &found, self.meant(text))?,
        )
    }

    /// Whether both sides agree on the first `many` names.
    fn agrees_on_many(&self, alloc: Global, many: usize) -> Result<bool, Error> {
        for number in 0..many {
            let text = one_of_many(alloc, number)?;
            if !self.agrees_on(alloc, text.as_str())? {
                return Ok(false);
            }
        }
        Ok(true)
    }

    /// Whether both sides export the same: the outermost scope's names in order, without those that
    /// begin with `_`.
    fn agrees_on_exports(&self, alloc: Global) -> Result<bool, Error> {
        let exports = self.context.exports(alloc)?;
        let mut rest = exports.iter();
        if let Some(outermost) = self.model.first() {
            for name in outermost.names.keys() {
                if name.as_str().starts_with('_') {
                    continue;
                }
                match rest.next() {
                    Some(found) if *found == name.as_str() => {}
                    _ => return Ok(false),
                }
            }
        }
        Ok(rest.next().is_none())
    }

    /// Whether both sides have as many scopes, at the same depth, and the same loops.
    fn agrees_on_scopes(&self) -> bool {
        let mark = match self.model.last() {
            Some(scope) => scope.mark,
            None => None,
        };
        self.context.height() == self.model.len()
            && self.context.outer() == self.outer
            && self.context.depth() == self.model.len().saturating_add(self.outer)
            && self.context.innermost_loop() == self.innermost_loop()
            && is_mark(self.context.top_mark(), mark)
    }

    /// Whether both sides agree on everything that is checked after each call, and on one of the
    /// many names.
    fn agrees(&self, alloc: Global, number: usize) -> Result<bool, Error> {
        for name in &FEW {
            if !self.agrees_on(alloc, name)? {
                return Ok(false);
            }
        }
        let text = one_of_many(alloc, number)?;
        Ok(
            self.agrees_on(alloc, text.as_str())?
                && self.agrees_on_exports(alloc)?
                && self.agrees_on_scopes(),
        )
    }
}

/// Mostly one of the few names, otherwise one of the many.
fn name_of(alloc: Global, dice: &mut Dice) -> Result<String, Error> {
    if dice.roll(4) == 0 {
        return one_of_many(alloc, dice.roll(MANY));
    }
    match FEW.get(dice.roll(FEW.len())) {
        Some(name) => Ok(String::from_str(alloc, name)?),
        None => Ok(String::new(alloc)),
    }
}

/// Makes one of the rarer calls on both sides. Returns whether both agree on the result.
fn call_seldom(alloc: Global, pair: &mut Pair, dice: &mut Dice) -> Result<bool, Error> {
    match dice.roll(8) {
        0 => {
            let many = dice.roll(MANY).saturating_add(1);
            pair.store_many(alloc, many)?;
            pair.agrees_on_many(alloc, MANY)
        }
        1 => {
            let count = dice.roll(pair.model.len().saturating_add(2));
            pair.cut(count, dice.roll(4));
            Ok(true)
        }
        _ => {
            pair.clear();
            Ok(true)
        }
    }
}

/// Makes a random call on both sides. Returns whether both agree on the result.
fn call(alloc: Global, pair: &mut Pair, dice: &mut Dice) -> Result<bool, Error> {
    match dice.roll(16) {
        0 | 1 | 2 | 3 => {
            let mark = dice.mark(pair.count);
            pair.push(alloc, mark, LIMIT)
        }
        4 | 5 => {
            let text = name_of(alloc, dice)?;
            pair.pop(alloc, text.as_str())
        }
        6 => call_seldom(alloc, pair, dice),
        _ => {
            let text = name_of(alloc, dice)?;
            pair.store(alloc, text, dice.roll(2) == 0)?;
            Ok(true)
        }
    }
}

/// The number of the first random call after which the sides don't agree, if any.
fn first_difference(alloc: Global, pair: &mut Pair) -> Result<Option<usize>, Error> {
    let mut dice = Dice { seed: 20 };
    for place in 0..CALLS {
        if !call(alloc, pair, &mut dice)? || !pair.agrees(alloc, dice.roll(MANY))? {
            return Ok(Some(place));
        }
    }
    Ok(None)
}

#[test]
fn scopes_are_a_list_of_maps(rt: HostRuntime) -> Result<(), Fail> {
    let mut pair = Pair::new(rt.alloc());
    let difference = first_difference(rt.alloc(), &mut pair)?;
    assert!(rt; difference.is_none(), "call {difference:?}");
    assert!(rt; pair.refused > CALLS / 50 && pair.widest >= 100);
    Ok(())
}

/// Whether both sides agree on a wide scope's names, on its exports, and on its size.
fn is_wide(alloc: Global, pair: &Pair) -> Result<bool, Error> {
    Ok(
        pair.widest == WIDE
            && pair.agrees_on_many(alloc, WIDE)?
            && pair.agrees_on_exports(alloc)?
            && pair.context.exports(alloc)?.len() == WIDE - WIDE / 5,
    )
}

/// Pushes more scopes inside, every third one a loop's. Returns whether none is refused.
fn pushes_further(alloc: Global, pair: &mut Pair) -> Result<bool, Error> {
    for number in 0..FURTHER_IN {
        let mark = if number % 3 == 0 {
            Some(LoopMark {
                number,
                variable: true,
            })
        } else {
            None
        };
        if !pair.push(alloc, mark, FURTHER_IN + 1)? {
            return Ok(false);
        }
    }
    Ok(pair.context.height() == FURTHER_IN + 1)
}

#[test]
fn a_wide_scope_has_all_its_names(rt: HostRuntime) -> Result<(), Fail> {
    let alloc = rt.alloc();
    let mut pair = Pair::new(alloc);
    expect(pair.push(alloc, None, 1)?, "one scope")?;
    pair.store_many(alloc, WIDE)?;
    expect(is_wide(alloc, &pair)?, "its names")?;
    pair.store_many(alloc, WIDE)?;
    expect(is_wide(alloc, &pair)?, "its names, stored again")?;
    expect(pushes_further(alloc, &mut pair)?, "scopes further in")?;
    expect(is_wide(alloc, &pair)?, "its names from further in")?;
    pair.store_many(alloc, MANY)?;
    expect(is_wide(alloc, &pair)?, "behind the same names")?;
    pair.cut(1, 0);
    expect(is_wide(alloc, &pair)?, "after a cut")?;
    pair.clear();
    expect(pair.agrees_on_many(alloc, WIDE)?, "no names")
}
