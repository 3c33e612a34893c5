//! Errors.
use std::alloc::Global;
use std::test::Fail;
use tm_values::{Error, ErrorKind};

fn is_bad_include(error: &Error) -> bool {
    error.kind() == ErrorKind::BadInclude && error.detail() == Some("in \"page\"")
}

fn is_caused_by(error: &Error, kind: ErrorKind) -> bool {
    match error.cause() {
        Some(cause) => cause.kind() == kind && cause.detail().is_none(),
        None => false,
    }
}

fn bad_include(alloc: Global) -> Error {
    Error::new(alloc, ErrorKind::BadInclude, "in \"page\"")
}

// Whether the later of two causes replaces the earlier one.
fn takes_a_cause(alloc: Global, error: Error) -> Result<bool, Error> {
    let error = error.with_source(alloc, Error::from(ErrorKind::UnknownTest))?;
    let error = error.with_source(alloc, Error::from(ErrorKind::OutOfFuel))?;
    Ok(
        is_bad_include(&error)
            && is_caused_by(&error, ErrorKind::OutOfFuel)
            && prints(alloc, &error, "BadInclude")?,
    )
}

fn prints(alloc: Global, error: &Error, wanted: &str) -> Result<bool, Error> {
    let text = format!(in alloc; "{error}")?;
    Ok(text.as_str() == wanted)
}

// Whether an error and its cause are formatted for debugging as Rust's derive does it.
fn is_spelled_out(alloc: Global) -> Result<bool, Error> {
    let error = bad_include(alloc).with_source(alloc, Error::from(ErrorKind::OutOfFuel))?;
    let text = format!(in alloc; "{error:?}")?;
    Ok(text.as_str() == SPELLED_OUT)
}

const SPELLED_OUT: &str =
    r#"Error { kind: BadInclude, more: Some(More { detail: Some("in \"page\""), cause: Some(Error { kind: OutOfFuel, more: None }) }) }"#;

// An error with a chain of `causes` causes.
fn with_causes(alloc: Global, causes: usize) -> Result<Error, Error> {
    let mut error = Error::from(ErrorKind::OutOfFuel);
    for _ in 0..causes {
        error = Error::from(ErrorKind::BadInclude).with_source(alloc, error)?;
    }
    Ok(error)
}

// Dropping a long chain of causes needs no deep stack.
fn drops_a_long_chain(alloc: Global) -> Result<bool, Error> {
    let error = with_causes(alloc, 1_000_000)?;
    Ok(is_caused_by(&error, ErrorKind::BadInclude))
}

fn is_bare(error: &Error) -> bool {
    is_bad_include(error) && error.cause().is_none()
}

#[test]
fn errors_have_a_kind_a_detail_and_a_cause(rt: HostRuntime) -> Result<(), Fail> {
    let alloc = rt.alloc();
    assert!(rt; is_bare(&bad_include(alloc)));
    assert!(rt; takes_a_cause(alloc, bad_include(alloc))?);
    assert!(rt; is_spelled_out(alloc)?);
    assert!(rt; drops_a_long_chain(alloc)?);
    Ok(())
}
