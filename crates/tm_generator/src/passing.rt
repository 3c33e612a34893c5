//! The number of values that a call is passed, and their rows. A spread argument ends a row.
ghost use Rattle.std.specs.Prelude.{◌≡◌, ◌+◌, [], ◌∷◌, OnOk, IfOk};
ghost use Rattle.tm_generator.specs.Building.{put};
ghost use Rattle.tm_generator.specs.Opened.{called_with_none, ending, ending_count, unpacked_code};
ghost use Rattle.tm_generator.specs.Opened.{with_name};
ghost use Rattle.tm_syntax.specs.Code as code;
ghost use Rattle.tm_syntax.specs.Code.{count_by, list_of_row, map_of_row, merged_code, merged_count};
ghost use Rattle.tm_syntax.specs.Code.{row_end};
ghost use Rattle.tm_syntax.specs.Fragments.{straight};
ghost use Rattle.tm_trees.specs.Trees.{arguments, keywords};

use crate::builder::Builder;
use std::alloc::AllocError;
use tm_syntax::{Argument, Instruction, Keyword};

/// Arguments in rows.
#[derive(Clone, Copy)]
pub(crate) struct Rows {
    /// The number of rows that have ended. A spread argument is a row of its own.
    pub(crate) ended: usize,
    /// The length of the open row.
    pub(crate) pending: usize,
}

/// The arguments of a call, with the last rows open.
#[derive(Clone, Copy)]
pub(crate) struct OpenCall {
    /// The values by position, with those below the arguments. If an argument is spread, each row
    /// becomes a list.
    pub(crate) lists: Rows,
    /// The keyword arguments. Each row becomes a map.
    pub(crate) maps: Rows,
    /// Whether a positional argument is spread.
    pub(crate) spreads: bool,
    /// Whether a keyword argument is spread.
    pub(crate) merges: bool,
}

impl OpenCall {
    /// A call of the topmost value without further arguments.
    pub(crate) fn with_none() -> OpenCall
        ensures { result ≡ called_with_none }
    {
        OpenCall {
            lists: Rows {
                ended: 0,
                pending: 1,
            },
            maps: Rows {
                ended: 0,
                pending: 0,
            },
            spreads: false,
            merges: false,
        }
    }

    /// Counts one more keyword argument. AllocError if the count overflows.
    pub(crate) fn add_name(&mut self) -> Result<(), AllocError>
        ensures { OnOk result (self.new ≡ with_name self.old) }
    {
        self.maps.pending = sum(self.maps.pending, 1)?;
        Ok(())
    }

    /// Emits the ends of the last rows. Returns the number of values passed, or None if it is on
    /// top of the stack. AllocError if memory runs out or a count overflows.
    #[inline(never)]
    pub(crate) fn end(&self, code: &mut Builder) -> Result<Option<usize>, AllocError>
        ensures ok { OnOk result (code.new ≡ put (ending row_end self.now) code.old) }
        ensures count { IfOk result (λ count. count ≡ ending_count row_end self.now) }
    {
        push_map_of_row(code, self.maps.pending)?;
        let maps = sum(self.maps.ended, rows_of(self.maps.pending))?;
        let named = push_merged(code, self.merges, maps)?;
        let values = sum(self.lists.pending, named)?;
        push_unpacked(code, self.spreads, self.lists.ended, values)
    }
}

/// If `merges`, emits the code that merges `maps` maps into one. Returns the number of maps after
/// that. AllocError if memory runs out.
fn push_merged(code: &mut Builder, merges: bool, maps: usize) -> Result<usize, AllocError>
    ensures ok { OnOk result (code.new ≡ put (straight (merged_code merges maps)) code.old) }
    ensures count { IfOk result (λ count. count ≡ merged_count merges maps) }
{
    if !merges {
        return Ok(maps);
    }
    code.emit(Instruction::MergeKwargs(maps))?;
    Ok(1)
}

/// If `spreads`, emits the code that unpacks `lists` lists and the `values` values after them.
/// Returns the number of values, or None if it is on top of the stack. AllocError if memory runs
/// out or a count overflows.
fn push_unpacked(
    code: &mut Builder,
    spreads: bool,
    lists: usize,
    values: usize,
) -> Result<Option<usize>, AllocError>
    ensures ok { OnOk result (code.new ≡ put (unpacked_code spreads lists values) code.old) }
    ensures count { IfOk result (λ count. count ≡ count_by spreads values) }
{
    if !spreads {
        return Ok(Some(values));
    }
    push_list_of_row(code, values)?;
    let all = sum(lists, rows_of(values))?;
    code.emit(Instruction::UnpackLists(all))?;
    Ok(None)
}

/// The sum of two numbers. AllocError if it overflows.
pub(crate) fn sum(one: usize, other: usize) -> Result<usize, AllocError>
    ensures { IfOk result (λ n. n ≡ one + other) }
{
    match one.checked_add(other) {
        Some(count) => Ok(count),
        None => Err(AllocError),
    }
}

/// The number of values that a row of `count` becomes: 0 if it is empty, and 1 otherwise.
#[tactic(auto, using(crate::proofs::Spreading::rows))]
pub(crate) fn rows_of(count: usize) -> usize
    ensures { result ≡ code.rows_of count }
{
    if count == 0 { 0 } else { 1 }
}

/// Emits the code that makes a list of a row of `count` values, unless it is empty. AllocError if
/// memory runs out.
#[tactic(auto, using(crate::proofs::Spreading::rows))]
pub(crate) fn push_list_of_row(code: &mut Builder, count: usize) -> Result<(), AllocError>
    ensures { OnOk result (code.new ≡ put (straight (list_of_row count)) code.old) }
{
    if count == 0 {
        return Ok(());
    }
    code.emit(Instruction::BuildList(Some(count)))
}

/// Emits the code that makes a map of a row of `count` keyword arguments, unless it is empty.
/// AllocError if memory runs out.
#[tactic(auto, using(crate::proofs::Spreading::rows))]
pub(crate) fn push_map_of_row(code: &mut Builder, count: usize) -> Result<(), AllocError>
    ensures { OnOk result (code.new ≡ put (straight (map_of_row count)) code.old) }
{
    if count == 0 {
        return Ok(());
    }
    code.emit(Instruction::BuildKwargs(count))
}

/// Whether an argument is spread.
fn is_spread(argument: &Argument) -> bool
    ensures { result ≡ code.is_spread argument.now }
{
    match argument {
        Argument::Plain(_) => false,
        Argument::Spread(_) => true,
    }
}

/// Whether one of these arguments is spread.
pub(crate) fn has_spread(given: &[Argument]) -> bool
    ensures { result ≡ code.has_spread (arguments given.now) }
{
    for argument in given {
        if is_spread(argument) {
            return true;
        }
    }
    false
}

/// The length of the open row after `argument`, if it was `row` before. AllocError if it overflows.
pub(crate) fn row_after(row: usize, argument: &Argument) -> Result<usize, AllocError>
    ensures { IfOk result (λ n. n ≡ code.row_after row argument.now) }
{
    match argument {
        Argument::Plain(_) => sum(row, 1),
        Argument::Spread(_) => Ok(0),
    }
}

/// The number of lists that `argument` adds after a row of `row` values.
pub(crate) fn lists_at(row: usize, argument: &Argument) -> usize
    ensures { result ≡ code.lists_at row argument.now }
{
    match argument {
        Argument::Plain(_) => 0,
        Argument::Spread(_) => rows_of(row) + 1,
    }
}

/// Whether a keyword argument is spread.
fn is_spread_keyword(keyword: &Keyword) -> bool
    ensures { result ≡ code.is_spread_keyword keyword.now }
{
    match keyword {
        Keyword::Named(_, _) => false,
        Keyword::Spread(_) => true,
    }
}

/// Whether one of these keyword arguments is spread.
pub(crate) fn has_spread_keyword(named: &[Keyword]) -> bool
    ensures { result ≡ code.has_spread_keyword (keywords named.now) }
{
    for keyword in named {
        if is_spread_keyword(keyword) {
            return true;
        }
    }
    false
}

/// The length of the open row after `keyword`, if it was `row` before. AllocError if it overflows.
pub(crate) fn keywords_after(row: usize, keyword: &Keyword) -> Result<usize, AllocError>
    ensures { IfOk result (λ n. n ≡ code.keywords_after row keyword.now) }
{
    match keyword {
        Keyword::Named(_, _) => sum(row, 1),
        Keyword::Spread(_) => Ok(0),
    }
}

/// The number of maps that `keyword` adds after a row of `row` keyword arguments.
pub(crate) fn maps_at(row: usize, keyword: &Keyword) -> usize
    ensures { result ≡ code.maps_at row keyword.now }
{
    match keyword {
        Keyword::Named(_, _) => 0,
        Keyword::Spread(_) => rows_of(row) + 1,
    }
}
