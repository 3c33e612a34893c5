//! Cache numbers of a stream with more names than there are caches.
use crate::sources::expect_codes;
use crate::syntax;
use std::alloc::Global;
use std::test::Fail;
use tm_syntax::CACHES;
use tm_values::Error;

static NAMES: &str = "abcdefghijklmnopqrstuvwxyzABCDEFGHIJKLMNOPQRSTUVWXYZ";

/// Writes the code of a filter with a cache number.
fn write_filter(alloc: Global, out: &mut String, name: char, cache: i128) -> Result<(), Error> {
    let words = format!(in alloc; " filter:{name}1@{cache}")?;
    out.push_str(words.as_str())?;
    Ok(())
}

/// Writes a source that applies filters of all names to a value, and then the last and the first
/// one again.
fn write_source(out: &mut String) -> Result<(), Error> {
    out.push_str("{{ x")?;
    for name in NAMES.chars() {
        out.push_str("|")?;
        out.push(name)?;
    }
    out.push_str("|Z|a }}")?;
    Ok(())
}

/// Writes its code: the first names have the numbers of caches, and the others 255.
fn write_code(alloc: Global, out: &mut String) -> Result<(), Error> {
    out.push_str(" => $x")?;
    let mut number = 0;
    for name in NAMES.chars() {
        let cache = if number < CACHES { number as i128 } else { 255 };
        write_filter(alloc, out, name, cache)?;
        number = number.saturating_add(1);
    }
    write_filter(alloc, out, 'Z', 255)?;
    write_filter(alloc, out, 'a', 0)?;
    out.push_str(" emit")?;
    Ok(())
}

/// The source with its code.
fn row(alloc: Global) -> Result<String, Error> {
    let mut row = String::new(alloc);
    write_source(&mut row)?;
    write_code(alloc, &mut row)?;
    Ok(row)
}

#[test]
fn the_first_names_have_caches(rt: HostRuntime) -> Result<(), Fail> {
    let syntax = syntax::usual(rt.alloc())?;
    let row = row(rt.alloc())?;
    expect_codes(rt.alloc(), &*syntax, &[row.as_str()])
}
