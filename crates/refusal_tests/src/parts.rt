//! Values, errors and outputs, whichever growth is refused.

use crate::ends::{End, holds, told};
use crate::rows::last_kind;
use std::alloc::Global;
use std::test::Fail;
use template_machine::*;

/// What is made.
#[derive(Clone, Copy)]
enum Making {
    Texts,
    List,
    Pairs,
    Keywords,
    Module,
    Printed,
    Cause,
    Detail,
    Capture,
}

static MAKINGS: [Making; 9] = [
    Making::Texts,
    Making::List,
    Making::Pairs,
    Making::Keywords,
    Making::Module,
    Making::Printed,
    Making::Cause,
    Making::Detail,
    Making::Capture,
];

fn makes_texts(alloc: Global) -> Result<bool, Error> {
    let plain = Value::text(alloc, "<b>")?;
    let safe = Value::safe_text(alloc, "<b>")?;
    let shared = plain.share()?;
    Ok(!plain.is_safe() && safe.is_safe() && shared == safe && shared.as_str() == Some("<b>"))
}

fn list(alloc: Global) -> Result<Value, Error> {
    let mut items = Vec::new(alloc);
    items.push(Value::number(1))?;
    items.push(Value::text(alloc, "a")?)?;
    Value::list(alloc, items)
}

/// A map made of equal keys, of which the last one wins.
fn map(alloc: Global) -> Result<ValueMap, Error> {
    let mut pairs = Vec::new(alloc);
    pairs.push((Value::text(alloc, "k")?, Value::number(1)))?;
    pairs.push((Value::text(alloc, "k")?, list(alloc)?))?;
    ValueMap::from_pairs(pairs)
}

fn makes_pairs(alloc: Global) -> Result<bool, Error> {
    let value = Value::from_map(alloc, map(alloc)?)?;
    Ok(value.pairs().len() == 1 && value.member("k") == Some(&list(alloc)?))
}

fn makes_keywords(alloc: Global) -> Result<bool, Error> {
    let value = Value::keywords(alloc, map(alloc)?)?;
    Ok(value.is_true())
}

fn makes_modules(alloc: Global) -> Result<bool, Error> {
    let written = SharedText::from_str(alloc, "written")?;
    let module = Value::module(alloc, map(alloc)?, written)?;
    let text = printing::to_text(alloc, &module, &NoRecords)?;
    Ok(text.as_str() == "written")
}

fn prints(alloc: Global) -> Result<bool, Error> {
    let value = Value::from_map(alloc, map(alloc)?)?;
    let text = printing::to_text(alloc, &value, &NoRecords)?;
    Ok(text.as_str() == "{\"k\": [1, \"a\"]}")
}

fn has_cause(alloc: Global) -> Result<bool, Error> {
    let error = Error::from(ErrorKind::BadInclude);
    let wrapped = error.with_source(alloc, Error::from(ErrorKind::OutOfFuel))?;
    Ok(wrapped.kind() == ErrorKind::BadInclude && last_kind(&wrapped) == ErrorKind::OutOfFuel)
}

/// Whether an error has its kind; the detail may be missing.
fn has_detail(alloc: Global) -> bool {
    let error = Error::new(alloc, ErrorKind::BadInclude, "in the footer");
    let is_detail = match error.detail() {
        Some(detail) => detail == "in the footer",
        None => true,
    };
    is_detail && error.kind() == ErrorKind::BadInclude && error.cause().is_none()
}

fn captures(alloc: Global) -> Result<bool, Error> {
    let mut output = Output::new(alloc, NullWriter);
    output.begin_capture(CaptureMode::Capture)?;
    output.write_str("a<")?;
    output.write_str("b")?;
    let value = output.end_capture(AutoEscape::Html)?;
    Ok(value.is_safe() && value.as_str() == Some("a<b"))
}

fn makes(alloc: Global, making: Making) -> Result<bool, Error> {
    match making {
        Making::Texts => makes_texts(alloc),
        Making::List => Ok(list(alloc)?.items().len() == 2),
        Making::Pairs => makes_pairs(alloc),
        Making::Keywords => makes_keywords(alloc),
        Making::Module => makes_modules(alloc),
        Making::Printed => prints(alloc),
        Making::Cause => has_cause(alloc),
        Making::Detail => Ok(has_detail(alloc)),
        Making::Capture => captures(alloc),
    }
}

#[test]
fn values_answer_for_memory(rt: HostRuntime) -> Result<(), Fail> {
    for making in &MAKINGS {
        let first = told(makes(rt.alloc(), *making));
        assert!(rt; holds(first, told(makes(rt.alloc(), *making))));
    }
    Ok(())
}

/// How an insertion into a map ended; if it fails, the map is unchanged.
fn insertion_end(alloc: Global, map: &mut ValueMap, name: &str, number: i128) -> End {
    let before = map.len();
    let Ok(key) = Value::text(alloc, name) else {
        return End::Refused;
    };
    match map.insert(key, Value::number(number)) {
        Ok(()) => if map.member(name) == Some(&Value::number(number)) {
            End::Same
        } else {
            End::Wrong
        },
        Err(error) => {
            let is_refused = error.kind() == ErrorKind::OutOfMemory && map.len() == before;
            if is_refused && map.member(name).is_none() {
                End::Refused
            } else {
                End::Wrong
            }
        }
    }
}

/// The names of a map that grows.
static NAMES: [&str; 6] = ["b", "a", "c", "f", "e", "d"];

#[test]
fn insertions_answer_for_memory(rt: HostRuntime) -> Result<(), Fail> {
    let mut map = ValueMap::new(rt.alloc());
    for name in &NAMES {
        let first = insertion_end(rt.alloc(), &mut map, name, 1);
        if first == End::Refused {
            assert!(rt; insertion_end(rt.alloc(), &mut map, name, 1) == End::Same);
        }
    }
    assert!(rt; map.len() == NAMES.len());
    Ok(())
}
