//! Long streams that would take minutes to verify if what several ways share were copied, or
//! compared one by one.
use crate::words::{Word, is_accepted};
use std::alloc::Global;
use std::test::Fail;
use tm_shapes::Form;
use tm_values::Error;

/// Pushes `count` pairs of values, followed by `count` branches, each of which takes all of them.
fn branches(alloc: Global, count: usize, first: Word, second: Word) -> Result<Vec<Word>, Error> {
    let all = count.saturating_mul(2);
    let mut words = Vec::new(alloc);
    for _ in 0..count {
        words.push(first)?;
        words.push(second)?;
    }
    for _ in 0..count {
        let next = words.len().saturating_add(5);
        words.push(Word::Number(1))?;
        words.push(Word::JumpIfFalse(next))?;
        words.push(Word::BuildTuple(all))?;
        words.push(Word::DiscardTop)?;
        words.push(Word::Return)?;
    }
    words.push(Word::BuildTuple(all))?;
    words.push(Word::DiscardTop)?;
    Ok(words)
}

/// Two ways to the same `count` scopes, and then `count` jumps from the second way into the first.
fn meetings(alloc: Global, count: usize) -> Result<Vec<Word>, Error> {
    let mut words = Vec::new(alloc);
    words.push(Word::Number(1))?;
    words.push(Word::JumpIfFalse(count.saturating_mul(4).saturating_add(3)))?;
    for _ in 0..count {
        words.push(Word::PushWith)?;
    }
    let first = words.len();
    for _ in 0..count {
        words.push(Word::Number(1))?;
        words.push(Word::DiscardTop)?;
        words.push(Word::BeginCapture(false))?;
    }
    words.push(Word::Jump(first.saturating_add(count.saturating_mul(3))))?;
    for _ in 0..count {
        words.push(Word::PushWith)?;
    }
    for number in 0..count {
        let place = first.saturating_add(number.saturating_mul(3));
        words.push(Word::Number(1))?;
        words.push(Word::JumpIfFalse(place))?;
        words.push(Word::BeginCapture(false))?;
    }
    words.push(Word::Jump(first.saturating_add(count.saturating_mul(3))))?;
    Ok(words)
}

#[test]
fn many_branches_take_many_values(rt: HostRuntime) -> Result<(), Fail> {
    let words = branches(rt.alloc(), 11000, Word::Number(0), Word::Number(1))?;
    let told = is_accepted(rt.alloc(), words.as_slice(), Form::Template)?;
    assert!(rt; told);
    Ok(())
}

#[test]
fn many_ways_meet_over_the_same(rt: HostRuntime) -> Result<(), Fail> {
    let words = meetings(rt.alloc(), 10000)?;
    let told = is_accepted(rt.alloc(), words.as_slice(), Form::Template)?;
    assert!(rt; told);
    Ok(())
}

#[test]
fn a_great_count_takes_no_time(rt: HostRuntime) -> Result<(), Fail> {
    let words = [
        Word::OneList,
        Word::UnpackList(4000000000000000000),
        Word::BuildTuple(4000000000000000000),
        Word::Emit,
    ];
    let told = is_accepted(rt.alloc(), &words, Form::Template)?;
    assert!(rt; told);
    Ok(())
}
