//! Sizes of values, and values that no template makes.
use std::alloc::Global;
use std::rc::RcStr;
use std::test::Fail;
use tm_values::{
    Error, MacroValue, NoRecords, Records, SharedText, Value, ValueMap, find_loop, find_namespace,
};

fn has_no_records() -> bool {
    NoRecords.namespace_count() == 0
        && find_namespace(&NoRecords, NoRecords.state(), 0).is_none()
        && find_loop(&NoRecords, NoRecords.state(), 0).is_none()
}

#[test]
fn sizes_and_records(rt: HostRuntime) {
    assert!(rt; size_of::<Value>() <= 32);
    assert!(rt; size_of::<Result<Value, Error>>() <= 48);
    assert!(rt; has_no_records());
}

// Whether a module can be made, and has the member that it exports.
fn makes_a_module(alloc: Global) -> Result<bool, Error> {
    let mut exports = ValueMap::new(alloc);
    exports.insert(Value::text(alloc, "a")?, Value::number(1))?;
    let module = Value::module(alloc, exports, SharedText::from_str(alloc, "x")?)?;
    Ok(module.member("a") == Some(&Value::number(1)))
}

// Whether a macro can be made, equals itself and isn't none.
fn makes_a_macro(alloc: Global) -> Result<bool, Error> {
    let name = RcStr::from_str(alloc, "m")?;
    let declared = Value::declared(
        alloc,
        MacroValue::new(name, Vec::new(alloc), false, 1, 2, 3, None),
    )?;
    Ok(declared == declared.share()? && declared != Value::none())
}

#[test]
fn modules_and_macros_are_made(rt: HostRuntime) -> Result<(), Fail> {
    assert!(rt; makes_a_module(rt.alloc())?);
    assert!(rt; makes_a_macro(rt.alloc())?);
    Ok(())
}
