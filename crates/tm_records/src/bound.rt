//! How calls bind the arguments of macros.
ghost use Rattle.std.specs.Prelude.{◌≡◌, [], IfOk, codes, false, map as each};
ghost use Rattle.std.specs.Option.{option_copied};
ghost use Rattle.std.specs.Rc.{rc_str_bytes};
ghost use Rattle.tm_definitions.specs.Maps.{keywords_of, plain_of};
ghost use Rattle.tm_definitions.specs.Members.{or_undefined};
ghost use Rattle.tm_meaning.specs.Calls.{all_used, bound, bound_to, first_locals, is_argument, is_used, takes_caller};
ghost use Rattle.tm_records.specs.Macros.{BindsTo, HoldsNames, IsBound, argument_of, called_locals, given_in};
ghost use Rattle.tm_values.specs.Answer.{IsLent, OkOrOutOfMemory};
ghost use Rattle.tm_values.specs.Map.{find as find_key};
ghost use Rattle.tm_values.specs.Val.{text, text_in};

use std::alloc::{AllocError, Global};
use std::collections::BTreeSet;
use std::rc::RcStr;
use tm_syntax::Name;
use tm_values::{Error, ErrorKind, MacroValue, Node, Value};

/// Binds the arguments of the macro `declared` to `args` and returns the values in `room`. A
/// keyword map at the end of `args` binds arguments by name. TooManyArguments if there are too many
/// values, if an argument has two, or if one isn't used; OutOfMemory.
pub fn bind(
    alloc: Global,
    declared: &MacroValue,
    args: &[Value],
    room: Vec<Value>,
) -> Result<Vec<Value>, Error>
    requires { room.items ≡ [] }
    ensures { BindsTo result (bound_to declared.now args.now) }
{
    let (plain, keywords) = split_keywords(args);
    if !all_used(alloc, declared, keywords)? {
        return Err(Error::from(ErrorKind::TooManyArguments));
    }
    match keywords {
        Some(keywords) => bind_each(declared.arguments(), plain, Some(keywords), room),
        None => bind_plain(declared.arguments(), plain, room),
    }
}

/// Binds `names` to the values in `plain`, without keyword arguments, and returns the values in
/// `room`. TooManyArguments; OutOfMemory.
fn bind_plain(names: &[RcStr], plain: &[Value], room: Vec<Value>) -> Result<Vec<Value>, Error>
    requires { room.items ≡ [] }
    ensures { BindsTo result (bound (each rc_str_bytes names.now) plain.now []) }
{
    if plain.len() > names.len() {
        return Err(Error::from(ErrorKind::TooManyArguments));
    }
    let mut given = room;
    given.reserve(names.len())?;
    let mut place = 0;
    while place < plain.len() {
        given.push(plain[place].share()?)?;
        place += 1;
    }
    while place < names.len() {
        given.push(Value::undefined())?;
        place += 1;
    }
    Ok(given)
}

/// Binds `names` to the values in `plain` and `keywords`, and returns the values in `room`.
/// TooManyArguments; OutOfMemory.
fn bind_each(
    names: &[RcStr],
    plain: &[Value],
    keywords: Option<&Value>,
    room: Vec<Value>,
) -> Result<Vec<Value>, Error>
    requires { room.items ≡ [] }
    ensures { BindsTo result
        (bound (each rc_str_bytes names.now) plain.now (given_in keywords.entry)) }
{
    if plain.len() > names.len() {
        return Err(Error::from(ErrorKind::TooManyArguments));
    }
    let mut given = room;
    given.reserve(names.len())?;
    let mut place = 0;
    while place < names.len() {
        let value = argument(names[place].as_str(), plain.get(place), keywords)?;
        given.push(value)?;
        place += 1;
    }
    Ok(given)
}

/// The value of the argument `name`: `value` is its positional value, if there is one.
/// TooManyArguments if `keywords` has the name too; OutOfMemory.
fn argument(name: &str, value: Option<&Value>, keywords: Option<&Value>) -> Result<Value, Error>
    ensures { IsBound result (argument_of (option_copied value.entry)
        (find_key (text name.now false) (given_in keywords.entry))) }
{
    let named = given_at(keywords, name);
    match value {
        Some(value) => {
            if named.is_some() {
                return Err(Error::from(ErrorKind::TooManyArguments));
            }
            value.share()
        }
        None => shared_or_undefined(named),
    }
}

/// A shared copy of `value`, or undefined. Fails only with OutOfMemory.
fn shared_or_undefined(value: Option<&Value>) -> Result<Value, Error>
    ensures { OkOrOutOfMemory result (λ v. v ≡ or_undefined (option_copied value.entry)) }
{
    match value {
        Some(value) => value.share(),
        None => Ok(Value::undefined()),
    }
}

/// The value of the keyword argument `name`, if there is one.
fn given_at<'a>(keywords: Option<&'a Value>, name: &str) -> Option<&'a Value>
    ensures { IsLent result (find_key (text name.now false) (given_in keywords.entry)) }
{
    keywords?.member(name)
}

/// The value of the keyword argument `caller`, or undefined. Fails only with OutOfMemory.
fn given_caller(args: &[Value]) -> Result<Value, Error>
    ensures { OkOrOutOfMemory result (λ v. v ≡ or_undefined
        (find_key (text (codes "caller") false) (keywords_of args.now))) }
{
    let (_plain, keywords) = split_keywords(args);
    shared_or_undefined(given_at(keywords, "caller"))
}

/// The name `caller` with its value in `args` if the macro takes a caller and has no argument of
/// that name. Fails only with OutOfMemory.
pub fn caller_of(
    alloc: Global,
    declared: &MacroValue,
    args: &[Value],
) -> Result<Option<(Name, Value)>, Error>
    ensures { OkOrOutOfMemory result
        (λ caller. called_locals caller ≡ first_locals declared.now args.now) }
{
    if !takes_caller(declared) {
        return Ok(None);
    }
    let name = Name::new(alloc, "caller")?;
    Ok(Some((name, given_caller(args)?)))
}

/// Splits `args` into the positional values and the keyword map, if the last value is one.
fn split_keywords(args: &[Value]) -> (&[Value], Option<&Value>)
    ensures plain { result.0.now ≡ plain_of args.now }
    ensures keywords { given_in result.1 ≡ keywords_of args.now }
{
    let Some((last, before)) = args.split_last() else {
        return (args, None);
    };
    match &last.node {
        Node::Keywords(_, _) => (before, Some(last)),
        _ => (args, None),
    }
}

/// Whether a macro takes `caller` and has no argument of that name.
fn takes_caller(declared: &MacroValue) -> bool
    ensures { result ≡ takes_caller declared.now }
{
    declared.takes_caller() && !is_argument(declared.arguments(), "caller")
}

/// Whether `name` is among `names`.
fn is_argument(names: &[RcStr], name: &str) -> bool
    ensures { result ≡ is_argument name.now (each rc_str_bytes names.now) }
{
    let mut place = 0;
    while place < names.len() {
        if name == names[place].as_str() {
            return true;
        }
        place += 1;
    }
    false
}

/// Up to how many names a linear search is used.
const FEW: usize = 16;

/// Whether the macro uses all keyword arguments. Fails only with OutOfMemory.
fn all_used(alloc: Global, declared: &MacroValue, keywords: Option<&Value>) -> Result<bool, Error>
    ensures { OkOrOutOfMemory result
        (λ used. used ≡ all_used declared.now (given_in keywords.entry)) }
{
    let Some(keywords) = keywords else {
        return Ok(true);
    };
    let pairs = keywords.pairs();
    if pairs.len() <= FEW || declared.arguments().len() <= FEW {
        return Ok(each_used(declared, pairs));
    }
    let names = name_set(alloc, declared.arguments())?;
    Ok(each_found(declared, &names, pairs))
}

/// Whether the macro uses all the keyword arguments `pairs`.
fn each_used(declared: &MacroValue, pairs: &[(Value, Value)]) -> bool
    ensures { result ≡ all_used declared.now pairs.now }
{
    let mut place = 0;
    while place < pairs.len() {
        if !is_used(declared, pairs[place].0.as_str()) {
            return false;
        }
        place += 1;
    }
    true
}

/// Whether the macro uses the keyword argument `key`; a key that isn't text counts as used.
fn is_used(declared: &MacroValue, key: Option<&str>) -> bool
    ensures { result ≡ is_used declared.now (option_copied key.entry) }
{
    match key {
        Some(name) => {
            is_argument(declared.arguments(), name) || (name == "caller" && takes_caller(declared))
        }
        None => true,
    }
}

/// The names as a set; AllocError if memory runs out.
fn name_set(alloc: Global, names: &[RcStr]) -> Result<BTreeSet<&str>, AllocError>
    ensures { IfOk result (λ set. HoldsNames set (each rc_str_bytes names.now)) }
{
    let mut set = BTreeSet::new(alloc);
    let mut place = 0;
    while place < names.len() {
        set.insert(names[place].as_str())?;
        place += 1;
    }
    Ok(set)
}

/// `each_used` with the macro's argument names in the set `names`.
fn each_found<'a>(
    declared: &MacroValue,
    names: &BTreeSet<&'a str>,
    pairs: &'a [(Value, Value)],
) -> bool
    requires { HoldsNames names.now declared.now.arguments }
    ensures { result ≡ all_used declared.now pairs.now }
{
    let mut place = 0;
    while place < pairs.len() {
        if !is_found(declared, names, pairs[place].0.as_str()) {
            return false;
        }
        place += 1;
    }
    true
}

/// `is_used` with the macro's argument names in the set `names`.
fn is_found<'a>(declared: &MacroValue, names: &BTreeSet<&'a str>, key: Option<&'a str>) -> bool
    requires { HoldsNames names.now declared.now.arguments }
    ensures { result ≡ is_used declared.now (option_copied key.entry) }
{
    match key {
        Some(name) => names.contains(name) || (name == "caller" && takes_caller(declared)),
        None => true,
    }
}
