//! Streams, and whether they are accepted. `tools/refusals` refuses each growth of these tests, so
//! they ask again if one is refused.
use crate::words::{Word, is_accepted};
use std::alloc::Global;
use std::test::Fail;
use tm_shapes::Form;
use tm_values::{Error, ErrorKind};

/// Whether a stream is accepted; one growth may be refused.
fn is_of_form(alloc: Global, words: &[Word], form: Form) -> Result<bool, Error> {
    match is_accepted(alloc, words, form) {
        Err(error) if error.kind() == ErrorKind::OutOfMemory => is_accepted(alloc, words, form),
        told => told,
    }
}

/// Whether a stream is accepted as a template.
fn is_template(alloc: Global, words: &[Word]) -> Result<bool, Error> {
    is_of_form(alloc, words, Form::Template)
}

#[test]
fn a_jump_leads_to_a_place_or_the_end(rt: HostRuntime) -> Result<(), Fail> {
    let alloc = rt.alloc();
    assert!(rt; is_template(alloc, &[Word::Jump(1)])?);
    assert!(rt; !is_template(alloc, &[Word::Jump(5)])?);
    assert!(rt; is_template(alloc, &[Word::Jump(0)])?);
    assert!(rt; is_template(alloc, &[])?);
    Ok(())
}

#[test]
fn a_form_tells_what_is_left(rt: HostRuntime) -> Result<(), Fail> {
    let alloc = rt.alloc();
    assert!(rt; !is_template(alloc, &[Word::Number(1)])?);
    let told = is_of_form(alloc, &[Word::Number(1)], Form::Expression)?;
    assert!(rt; told);
    Ok(())
}

#[test]
fn what_is_closed_was_opened(rt: HostRuntime) -> Result<(), Fail> {
    let alloc = rt.alloc();
    assert!(rt; !is_template(alloc, &[Word::Emit])?);
    assert!(rt; !is_template(alloc, &[Word::PopAutoEscape])?);
    assert!(rt; !is_template(alloc, &[Word::Iterate(1)])?);
    assert!(rt; !is_template(alloc, &[Word::EndCapture])?);
    assert!(rt; !is_template(alloc, &[Word::PopFrame])?);
    let joined = [
        Word::Number(1),
        Word::JumpIfFalse(3),
        Word::BeginCapture(false),
    ];
    assert!(rt; !is_template(alloc, &joined)?);
    assert!(rt;
        !is_template(
            alloc,
            &[Word::Nothing, Word::PushLoop(false), Word::PopFrame]
        )?
    );
    Ok(())
}

fn taking_from_under(recursive: bool) -> [Word; 8] {
    [
        Word::Number(1),
        Word::OneList,
        Word::PushLoop(recursive),
        Word::Iterate(6),
        Word::StringConcat,
        Word::Jump(3),
        Word::PopLoopFrame,
        Word::Emit,
    ]
}

#[test]
fn a_loop_that_can_be_called_takes_nothing_from_under_it(rt: HostRuntime) -> Result<(), Fail> {
    let alloc = rt.alloc();
    assert!(rt; !is_template(alloc, &taking_from_under(true))?);
    assert!(rt; is_template(alloc, &taking_from_under(false))?);
    let called = [
        Word::OneList,
        Word::PushLoop(true),
        Word::Iterate(5),
        Word::FastRecurse,
        Word::Jump(2),
        Word::PopLoopFrame,
    ];
    assert!(rt; is_template(alloc, &called)?);
    Ok(())
}

#[test]
fn a_macro_is_looked_at_where_nothing_reaches_it(rt: HostRuntime) -> Result<(), Fail> {
    let alloc = rt.alloc();
    let unreached = [
        Word::Jump(4),
        Word::GetClosure,
        Word::Nothing,
        Word::BuildMacro(5),
        Word::Jump(6),
        Word::Emit,
    ];
    assert!(rt; !is_template(alloc, &unreached)?);
    let apart = [
        Word::GetClosure,
        Word::Nothing,
        Word::Number(1),
        Word::Emit,
        Word::BuildMacro(0),
        Word::DiscardTop,
    ];
    assert!(rt; !is_template(alloc, &apart)?);
    Ok(())
}

#[test]
fn a_cache_number_is_of_one_name(rt: HostRuntime) -> Result<(), Fail> {
    let alloc = rt.alloc();
    let one = Word::Number(1);
    let first = Word::Filter("a", 0);
    assert!(rt; !is_template(alloc, &[one, first, Word::Filter("b", 0), Word::Emit])?);
    assert!(rt; is_template(alloc, &[one, first, Word::Filter("b", 1), Word::Emit])?);
    assert!(rt; is_template(alloc, &[one, first, Word::Test("b", 0), Word::Emit])?);
    assert!(rt; !is_template(alloc, &[one, Word::Filter("a", 60), Word::Emit])?);
    assert!(rt; is_template(alloc, &[one, Word::Filter("a", 255), Word::Emit])?);
    Ok(())
}

#[test]
fn a_count_is_a_number_or_a_group(rt: HostRuntime) -> Result<(), Fail> {
    let alloc = rt.alloc();
    let added = [
        Word::Number(0),
        Word::Number(1),
        Word::Swap,
        Word::Number(1),
        Word::Add,
        Word::Emit,
        Word::Emit,
    ];
    assert!(rt; is_template(alloc, &added)?);
    let counted = [
        Word::Number(0),
        Word::Lookup,
        Word::Swap,
        Word::Number(1),
        Word::Add,
        Word::BuildList(None),
        Word::Emit,
    ];
    assert!(rt; is_template(alloc, &counted)?);
    assert!(rt;
        is_template(
            alloc,
            &[Word::Number(1), Word::ExportLocals, Word::DiscardTop]
        )?
    );
    assert!(rt; is_template(alloc, &[Word::Number(1), Word::IncludeModule])?);
    Ok(())
}
