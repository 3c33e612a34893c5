//! Rows of tables, each one text: an array of texts is proved far faster than an array of pairs.
use std::alloc::Global;
use std::test::Fail;
use tm_values::Error;

/// Fails with this name unless `holds`.
pub(crate) fn expect(holds: bool, name: &str) -> Result<(), Fail> {
    if holds {
        return Ok(());
    }
    Err(Fail::new(name))
}

/// The parts of a row before and after its ` =>`.
pub(crate) fn halves(row: &str) -> (&str, &str) {
    row.split_once(" =>").unwrap_or((row, ""))
}

// How often a piece is repeated, and its words: once, or with a number before `*`, `count` times
// less that number.
fn repeated(piece: &str, count: usize) -> (usize, &str) {
    match piece.split_once('*') {
        Some((less, words)) if less.len() == 1 => (
            count.saturating_sub(less.parse().unwrap_or(0)),
            words,
        ),
        _ => (1, piece),
    }
}

/// The words with `|` for each `¦`.
fn with_bars(alloc: Global, words: &str) -> Result<String, Error> {
    let mut text = String::new(alloc);
    for (place, part) in words.split('¦').enumerate() {
        if place > 0 {
            text.push_str("|")?;
        }
        text.push_str(part)?;
    }
    Ok(text)
}

/// Joins the pieces between `|`, repeated, with blanks between them.
pub(crate) fn joined(alloc: Global, pieces: &str, count: usize) -> Result<String, Error> {
    let mut text = String::new(alloc);
    for piece in pieces.split('|') {
        let (times, words) = repeated(piece, count);
        let words = with_bars(alloc, words)?;
        for _ in 0..times {
            if !text.is_empty() {
                text.push_str(" ")?;
            }
            text.push_str(words.as_str())?;
        }
    }
    Ok(text)
}
