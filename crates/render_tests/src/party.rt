//! The functions of the rows.
ghost use Rattle.std.specs.Prelude.{◌≡◌, ◌-◌, ◌++◌, false, List, [], ◌∷◌, None, Some, codes, length, option_copied, pos, slice_get};
ghost use Rattle.std.specs.Prelude.{IfErr, IfOk, MatchOption};
ghost use Rattle.tm_values.specs.Answer.{OkOrOutOfMemory};
ghost use Rattle.tm_values.specs.declared.error.ErrorKind.TheVariants.{MissingArgument};
ghost use Rattle.tm_values.specs.Val.{number, text};
ghost use Rattle.tm_syntax.specs.Named.{find};
ghost use Rattle.tm_definitions.specs.Members.{or_undefined};
ghost use Rattle.tm_meaning.specs.World.{find_name};
ghost use Rattle.tm_meaning.specs.declared.reply.Reply.TheVariants.{Value as gives, Fault as faults};
ghost use Rattle.tm_tables.specs.Stated.{IsStated, just, keeping};
ghost use Rattle.render_tests.specs.Found.{as_safe, in_capitals, of_first, of_text, part_of, reply_of, reply_of_found};
ghost use Rattle.render_tests.specs.declared.party.Party.TheVariants.{Second, Last, Keeper, Reader, Title, Seen, Faulty};
ghost use Rattle.render_tests.specs.Found.{again_with, capitals_twice, first_text, found_at, further_with};
ghost use Rattle.render_tests.specs.Found.{block_named, macro_named, second_alone};
ghost use Rattle.render_tests.specs.declared.party.Party.TheVariants.{Upper, Safe, Substr};
ghost use Rattle.render_tests.specs.declared.party.Party.TheVariants.{Look, Kept, Capital, Twice, Again, Macro, Block};
ghost use Rattle.tm_values.specs.Val.{none, text_in};
ghost use Rattle.tm_values.specs.declared.undefined.UndefinedBehavior.TheVariants.{Lenient};
ghost use Rattle.tm_definitions.specs.Slices.{sliced};

use crate::callbacks::{Folder, Method, OfT, Style};
use std::alloc::Global;
use template_machine::*;

/// A function for the rows.
#[derive(Clone, Copy)]
pub(crate) enum Party {
    /// Returns its second argument.
    Second,
    /// Returns its last argument.
    Last,
    /// Keeps 1 under `k` and returns 2.
    Keeper,
    /// Returns the value kept under `k`.
    Reader,
    /// Returns the name of the running template.
    Title,
    /// Returns the value that `g` is bound to.
    Seen,
    /// Answers with a fault.
    Faulty(ErrorKind),
    /// Returns its first argument's text in ASCII upper case.
    Upper,
    /// Returns its first argument's text, marked safe.
    Safe,
    /// Returns the slice of its first argument from its second argument on, up to its third, if
    /// given.
    Substr,
    /// Returns the value that the name in its first argument is bound to.
    Look,
    /// Keeps 1 under `k` and answers with MissingArgument.
    Kept,
    /// Asks for the filter `upper` with `a`.
    Capital,
    /// Asks for the filter `upper` with its first argument's text doubled.
    Twice,
    /// Asks for the filter `again` with its first argument.
    Again,
    /// Asks for a call of the name in its first argument, with its second argument, if given.
    Macro,
    /// Asks for the block named by its first argument.
    Block,
}

impl Callable for Party {
    ghost answers = { elim [
      | Second ↦ λ args view. just (gives (or_undefined (slice_get args 1)))
      | Last ↦ λ args view. just (gives (or_undefined (slice_get args (length args - 1))))
      | Keeper ↦ λ args view.
          keeping (codes "k") (number (pos 1)) (just (gives (number (pos 2))))
      | Reader ↦ λ args view. just (gives (or_undefined (find (codes "k") view.temps)))
      | Title ↦ λ args view. just (gives (text view.name false))
      | Seen ↦ λ args view. just (reply_of_found (find_name view (codes "g")))
      | Faulty kind ↦ λ args view. just (faults (kind ∷ []))
      | Upper ↦ λ args view. just (gives (of_first in_capitals args))
      | Safe ↦ λ args view. just (gives (of_first as_safe args))
      | Substr ↦ λ args view. just (part_of args)
      | Look ↦ λ args view. just (found_at view (first_text args))
      | Kept ↦ λ args view. keeping (codes "k") (number (pos 1))
          (just (faults (MissingArgument ∷ [])))
      | Capital ↦ λ args view. just (further_with (codes "upper") (text (codes "a") false))
      | Twice ↦ λ args view. just (capitals_twice (first_text args))
      | Again ↦ λ args view. just (again_with args)
      | Macro ↦ λ args view. just (macro_named (first_text args) (second_alone args))
      | Block ↦ λ args view. just (block_named (first_text args))
    ] };

    fn call(&self, alloc: Global, args: &[Value], view: &View<'_>) -> CallableAnswer {
        match self {
            Party::Second => shared(alloc, args.get(1)),
            Party::Last => shared(alloc, args.last()),
            Party::Keeper => CallableAnswer::value(alloc, Value::number(2)).keep(
                alloc,
                "k",
                Value::number(1),
            ),
            Party::Reader => shared(alloc, view.get_temp("k")),
            Party::Title => match Value::text(alloc, view.name()) {
                Ok(name) => CallableAnswer::value(alloc, name),
                Err(error) => CallableAnswer::fault(alloc, error),
            },
            Party::Seen => match view.lookup("g") {
                Ok(Some(found)) => CallableAnswer::value(alloc, found),
                Ok(None) => CallableAnswer::value(alloc, Value::undefined()),
                Err(error) => CallableAnswer::fault(alloc, error),
            },
            Party::Faulty(kind) => CallableAnswer::fault(alloc, Error::from(*kind)),
            Party::Upper => upper(alloc, args),
            Party::Safe => safe(alloc, args),
            Party::Substr => substr(alloc, args),
            Party::Look => look(alloc, args, view),
            Party::Kept => CallableAnswer::fault(
                alloc,
                Error::from(ErrorKind::MissingArgument),
            ).keep(alloc, "k", Value::number(1)),
            Party::Capital => further(alloc, "upper", Value::text(alloc, "a")),
            Party::Twice => twice(alloc, args),
            Party::Again => again(alloc, args),
            Party::Macro => macro_named(alloc, args),
            Party::Block => block_named(alloc, args),
        }
    }
}

/// Returns a shared copy of a value; undefined if there is none.
fn shared(alloc: Global, found: Option<&Value>) -> CallableAnswer
    ensures { IsStated result (just (gives (or_undefined (option_copied found.entry)))) }
{
    match found {
        Some(value) => match value.share() {
            Ok(value) => CallableAnswer::value(alloc, value),
            Err(error) => CallableAnswer::fault(alloc, error),
        },
        None => CallableAnswer::value(alloc, Value::undefined()),
    }
}

/// Answers with the result of an operation.
fn answered(alloc: Global, given: Result<Value, Error>) -> CallableAnswer
    ensures { result ≡ just (reply_of given) }
{
    match given {
        Ok(value) => CallableAnswer::value(alloc, value),
        Err(error) => CallableAnswer::fault(alloc, error),
    }
}

/// Returns the first argument's text in ASCII upper case; undefined without an argument.
fn upper(alloc: Global, args: &[Value]) -> CallableAnswer
    ensures { IsStated result (just (gives (of_first in_capitals args.now))) }
{
    match args {
        [value, ..] => capitals(alloc, value),
        _ => CallableAnswer::value(alloc, Value::undefined()),
    }
}

/// Returns a text in ASCII upper case; undefined for any other value.
fn capitals(alloc: Global, value: &Value) -> CallableAnswer
    ensures { IsStated result (just (gives (of_text in_capitals (text_in value.now)))) }
{
    let Some(text) = value.as_str() else {
        return CallableAnswer::value(alloc, Value::undefined());
    };
    match text.to_ascii_uppercase(alloc) {
        Ok(capitals) => answered(alloc, Value::text(alloc, capitals.as_str())),
        Err(error) => CallableAnswer::fault(alloc, Error::from(error)),
    }
}

/// Returns the first argument's text, marked safe; undefined without an argument.
fn safe(alloc: Global, args: &[Value]) -> CallableAnswer
    ensures { IsStated result (just (gives (of_first as_safe args.now))) }
{
    match args {
        [value, ..] => marked(alloc, value),
        _ => CallableAnswer::value(alloc, Value::undefined()),
    }
}

/// Returns a text, marked safe; undefined for any other value.
fn marked(alloc: Global, value: &Value) -> CallableAnswer
    ensures { IsStated result (just (gives (of_text as_safe (text_in value.now)))) }
{
    match value.as_str() {
        Some(text) => answered(alloc, Value::safe_text(alloc, text)),
        None => CallableAnswer::value(alloc, Value::undefined()),
    }
}

/// Returns the slice of the first argument from the second on, up to the third, if given; undefined
/// for any other number of arguments.
fn substr(alloc: Global, args: &[Value]) -> CallableAnswer
    ensures { IsStated result (just (part_of args.now)) }
{
    match args {
        [value, from] => part(alloc, value, from, &Value::none()),
        [value, from, to] => part(alloc, value, from, to),
        _ => CallableAnswer::value(alloc, Value::undefined()),
    }
}

/// Returns the slice of a value between two places.
fn part(alloc: Global, value: &Value, from: &Value, to: &Value) -> CallableAnswer
    ensures { IsStated result (just (reply_of (sliced Lenient value.now from.now to.now none))) }
{
    let step = Value::none();
    let lenient = UndefinedBehavior::Lenient;
    answered(
        alloc,
        operations::slice(alloc, value, from, to, &step, lenient),
    )
}

/// The text of the first argument, if it is text.
fn first_text(args: &[Value]) -> Option<&str>
    ensures { MatchOption result (first_text args.now ≡ None)
        (λ text. first_text args.now ≡ Some text.now) }
{
    match args {
        [value, ..] => value.as_str(),
        _ => None,
    }
}

/// Returns the value that the name in the first argument is bound to; undefined if that isn't text.
fn look(alloc: Global, args: &[Value], view: &View<'_>) -> CallableAnswer
    ensures { IsStated result (just (found_at view.now (first_text args.now))) }
{
    let Some(name) = first_text(args) else {
        return CallableAnswer::value(alloc, Value::undefined());
    };
    match view.lookup(name) {
        Ok(Some(found)) => CallableAnswer::value(alloc, found),
        Ok(None) => CallableAnswer::value(alloc, Value::undefined()),
        Err(error) => CallableAnswer::fault(alloc, error),
    }
}

/// Asks for the filter `name` with the value `made`, or answers with its error.
fn further(alloc: Global, name: &str, made: Result<Value, Error>) -> CallableAnswer
    ensures ok { IfOk made (λ value. IsStated result (just (further_with name.now value))) }
    ensures err { IfErr made (λ chain. result ≡ just (faults chain)) }
{
    let value = match made {
        Ok(value) => value,
        Err(error) => return CallableAnswer::fault(alloc, error),
    };
    let mut args = Vec::new(alloc);
    match args.push(value) {
        Ok(()) => CallableAnswer::further_filter(alloc, name, args),
        Err(error) => CallableAnswer::fault(alloc, Error::from(error)),
    }
}

/// A text doubled. Fails only with OutOfMemory.
fn doubled(alloc: Global, word: &str) -> Result<Value, Error>
    ensures { OkOrOutOfMemory result (λ value. value ≡ text (word.now ++ word.now) false) }
{
    let mut both = String::from_str(alloc, word)?;
    both.push_str(word)?;
    Value::text(alloc, both.as_str())
}

/// Asks for the filter `upper` with the first argument's text doubled; undefined if it isn't text.
fn twice(alloc: Global, args: &[Value]) -> CallableAnswer
    ensures { IsStated result (just (capitals_twice (first_text args.now))) }
{
    match first_text(args) {
        Some(text) => further(alloc, "upper", doubled(alloc, text)),
        None => CallableAnswer::value(alloc, Value::undefined()),
    }
}

/// Asks for the filter `again` with the first argument; undefined without an argument.
fn again(alloc: Global, args: &[Value]) -> CallableAnswer
    ensures { IsStated result (just (again_with args.now)) }
{
    match args {
        [value, ..] => further(alloc, "again", value.share()),
        _ => CallableAnswer::value(alloc, Value::undefined()),
    }
}

/// Only the second argument, if given. Fails only with OutOfMemory.
fn second_alone(alloc: Global, args: &[Value]) -> Result<Vec<Value>, Error>
    ensures { OkOrOutOfMemory result (λ given. given.items ≡ second_alone args.now) }
{
    let mut given = Vec::new(alloc);
    if let [_, value, ..] = args {
        given.push(value.share()?)?;
    }
    Ok(given)
}

/// Asks for a call of the name in the first argument, with the second argument, if given; undefined
/// if the first isn't text.
fn macro_named(alloc: Global, args: &[Value]) -> CallableAnswer
    ensures { IsStated result (just (macro_named (first_text args.now) (second_alone args.now))) }
{
    let Some(name) = first_text(args) else {
        return CallableAnswer::value(alloc, Value::undefined());
    };
    match second_alone(alloc, args) {
        Ok(given) => CallableAnswer::further_macro(alloc, name, given),
        Err(error) => CallableAnswer::fault(alloc, error),
    }
}

/// Asks for the block named by the first argument; undefined if that isn't text.
fn block_named(alloc: Global, args: &[Value]) -> CallableAnswer
    ensures { IsStated result (just (block_named (first_text args.now))) }
{
    match first_text(args) {
        Some(name) => CallableAnswer::further_block(alloc, name),
        None => CallableAnswer::value(alloc, Value::undefined()),
    }
}

/// The objects of the rows.
type Parts = Objects<Party, Method, Style, EscapeSetting<OfT>, Folder>;

/// An environment of such objects.
pub(crate) type Rows<'source> = EnvironmentOf<'source, Parts>;

// The first one's number comes after those of the language's functions.
static FUNCTIONS: &[(&str, Party)] = &[
    ("f", Party::Last),
    ("second", Party::Second),
    ("keep", Party::Keeper),
    ("read", Party::Reader),
    ("title", Party::Title),
    ("seen", Party::Seen),
    ("missing", Party::Faulty(ErrorKind::MissingArgument)),
    ("failing", Party::Faulty(ErrorKind::WriteFailure)),
    ("stuck", Party::Faulty(ErrorKind::BadStream)),
    ("hungry", Party::Faulty(ErrorKind::OutOfMemory)),
    ("look", Party::Look),
    ("capital", Party::Capital),
    ("by_macro", Party::Macro),
    ("by_block", Party::Block),
];

static FILTERS: &[(&str, Party)] = &[
    ("f", Party::Last),
    ("second", Party::Second),
    ("my.second", Party::Second),
    ("gone", Party::Second),
    ("keep", Party::Keeper),
    ("missing", Party::Faulty(ErrorKind::MissingArgument)),
    ("upper", Party::Upper),
    ("my.upper", Party::Upper),
    ("safe", Party::Safe),
    ("substr", Party::Substr),
    ("kept", Party::Kept),
    ("twice", Party::Twice),
    ("again", Party::Again),
    ("block", Party::Block),
];

static TESTS: &[(&str, Party)] = &[
    ("in", Party::Last),
    ("second", Party::Second),
    ("my.second", Party::Second),
    ("gone", Party::Second),
    ("missing", Party::Faulty(ErrorKind::MissingArgument)),
    ("block", Party::Block),
];

/// Adds the functions of the rows.
fn add_functions(environment: &mut Rows<'_>) -> Result<(), Error> {
    for &(name, party) in FUNCTIONS {
        environment.add_function(name, party)?;
    }
    Ok(())
}

/// Adds the filters and tests of the rows.
pub(crate) fn add_filters(environment: &mut Rows<'_>) -> Result<(), Error> {
    for &(name, party) in FILTERS {
        environment.add_filter(name, party)?;
    }
    for &(name, party) in TESTS {
        environment.add_test(name, party)?;
    }
    environment.remove_filter("gone");
    environment.remove_test("gone");
    Ok(())
}

/// Adds the functions, filters and tests of the rows.
pub(crate) fn add_objects(environment: &mut Rows<'_>) -> Result<(), Error> {
    add_functions(environment)?;
    add_filters(environment)
}

/// Binds `name` to `value` in a map.
fn put(alloc: Global, map: &mut ValueMap, name: &str, value: Value) -> Result<(), Error> {
    map.insert(Value::text(alloc, name)?, value)
}

/// The context of the rows: a boolean, a text, an empty map, 7 under `g` and under a number, and
/// values whose records no state of a row has.
pub(crate) fn context(alloc: Global) -> Result<Value, Error> {
    let mut map = ValueMap::new(alloc);
    put(alloc, &mut map, "t", Value::boolean(true))?;
    put(alloc, &mut map, "w", Value::text(alloc, "World")?)?;
    put(alloc, &mut map, "g", Value::number(7))?;
    map.insert(Value::number(3), Value::number(7))?;
    put(alloc, &mut map, "lost", Value::namespace(9, 0))?;
    put(alloc, &mut map, "ended", Value::loop_record(9, 1))?;
    let empty = Value::from_map(alloc, ValueMap::new(alloc))?;
    put(alloc, &mut map, "m", empty)?;
    Value::from_map(alloc, map)
}
