//! The records of namespaces and loops by number, and values kept by name.
ghost use Rattle.std.specs.Prelude.{◌≡◌, [], ◌∷◌, ◌++◌, None, false, slice_get, OnOk, OnErr, IfErr, IfOk};
ghost use Rattle.tm_meaning.specs.Calls.{keeping_at};
ghost use Rattle.tm_meaning.specs.Memory.{is_want_of_memory};
ghost use Rattle.tm_meaning.specs.World.{leaving_at, turned_at, with_member};
ghost use Rattle.tm_records.specs.Records.{IsChangedAt, loop_record};
ghost use Rattle.tm_syntax.specs.Named.{put_each};
ghost use Rattle.tm_values.specs.Answer.{OkOrOutOfMemory};

use std::alloc::Global;
use std::rc::Rc;
use tm_meaning::StreamId;
use tm_syntax::{Name, NameMap};
use tm_tables::LoopState;
use tm_values::{Error, ErrorKind, Value, ValueMap};

/// Sets the attribute `name` of the namespace `index` to `value`, if there is such a namespace.
/// Fails only with OutOfMemory; then nothing changes.
#[tactic(auto, using(crate::proofs::Members::past, crate::proofs::Members::there))]
pub fn set_in(
    alloc: Global,
    namespaces: &mut Vec<ValueMap>,
    index: usize,
    name: &Name,
    value: Value,
) -> Result<(), Error>
    ensures ok { OnOk result
        (namespaces.new.items ≡ with_member index name.now value namespaces.old.items) }
    ensures kind { IfErr result (λ e. e ≡ ErrorKind.OutOfMemory ∷ []) }
    ensures err { OnErr result (namespaces.new.items ≡ namespaces.old.items) }
{
    if index >= namespaces.len() {
        return Ok(());
    }
    let key = Value::text(alloc, name.as_str())?;
    namespaces[index].insert(key, value)
}

/// `stream` with an owner more: that of one of the last two of `loops`, if its stream is the same,
/// so that the loops of a stream share it, and else a new one. Fails only with OutOfMemory.
#[tactic(auto, using(crate::proofs::Declared::streams_same))]
fn shared_stream(loops: &Vec<LoopState>, stream: &StreamId) -> Result<Rc<StreamId>, Error>
    ensures { OkOrOutOfMemory result (λ shared. shared.value ≡ stream.now) }
{
    for state in loops.iter().rev().take(2) {
        if state.stream().is(stream) {
            return Ok(state.stream().clone()?);
        }
    }
    Ok(Rc::new(*loops.allocator(), stream.share()?)?)
}

/// Appends the record of a loop over `items` with the depth `depth` and the number `number` in
/// `stream`; `recursive` tells whether it can be called. Fails only with OutOfMemory; then nothing
/// changes.
pub fn add_loop(
    loops: &mut Vec<LoopState>,
    stream: &StreamId,
    items: Rc<Vec<Value>>,
    depth: usize,
    number: usize,
    recursive: bool,
) -> Result<(), Error>
    ensures ok { OnOk result (loops.new.items ≡ loops.old.items
        ++ loop_record items.value.items depth number recursive stream.now ∷ []) }
    ensures kind { IfErr result (λ e. e ≡ ErrorKind.OutOfMemory ∷ []) }
    ensures err { OnErr result (loops.new.items ≡ loops.old.items) }
{
    let stream = shared_stream(loops, stream)?;
    loops.push(LoopState::new(items, depth, number, recursive, stream))?;
    Ok(())
}

/// Advances the loop `number` to its next item, if there is such a loop.
pub fn turn_at(loops: &mut Vec<LoopState>, number: usize)
    ensures { loops.new.items ≡ turned_at number loops.old.items }
{
    if number < loops.len() {
        loops[number].turn();
    }
}

/// Forgets the items of the loop `number`, if there is such a loop, but those beside the current one.
/// Fails only with OutOfMemory; then nothing changes.
pub fn leave_at(loops: &mut Vec<LoopState>, number: usize) -> Result<(), Error>
    ensures ok { OnOk result (loops.new.items ≡ leaving_at number loops.old.items) }
    ensures kind { IfErr result (λ e. e ≡ ErrorKind.OutOfMemory ∷ []) }
    ensures err { OnErr result (loops.new.items ≡ loops.old.items) }
{
    if number >= loops.len() {
        return Ok(());
    }
    loops[number].leave()
}

/// Whether `args` differ from the arguments that the loop `number` kept last; if so, it keeps
/// `args`. InvalidOperation if there is no such loop, OutOfMemory if memory runs out; then nothing
/// changes.
pub fn changed_at(
    loops: &mut Vec<LoopState>,
    alloc: Global,
    number: usize,
    args: &[Value],
) -> Result<bool, Error>
    ensures ok { IfOk result (λ changed.
        IsChangedAt changed args.now (slice_get loops.old.items number)) }
    ensures now { OnOk result (loops.new.items ≡ keeping_at number args.now loops.old.items) }
    ensures none { IfErr result (λ e. is_want_of_memory e ≡ false →
        (e ≡ ErrorKind.InvalidOperation ∷ []) × (slice_get loops.old.items number ≡ None)) }
    ensures err { OnErr result (loops.new.items ≡ loops.old.items) }
{
    if number >= loops.len() {
        return Err(Error::from(ErrorKind::InvalidOperation));
    }
    loops[number].changed(alloc, args)
}

/// Puts the values of `kept` into `temps` by their names, in order. Fails only with OutOfMemory.
pub fn keep_each(temps: &mut NameMap<Value>, kept: Vec<(Name, Value)>) -> Result<(), Error>
    ensures ok { OnOk result (temps.new ≡ put_each kept.items temps.old) }
    ensures kind { IfErr result (λ e. e ≡ ErrorKind.OutOfMemory ∷ []) }
{
    for (name, value) in kept {
        temps.insert(name, value)?;
    }
    Ok(())
}
