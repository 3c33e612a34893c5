//! The code of statements.
ghost use Rattle.std.specs.Prelude.{◌≡◌, [], ◌∷◌, OnOk, IfOk};
ghost use Rattle.tm_generator.specs.Building.{macro_code, put_in, rounds};
ghost use Rattle.tm_syntax.specs.Blocks.{blocks_of, blocks_in, body_of, found_block};
ghost use Rattle.tm_shapes.specs.BlockCodes.{block_code, compiled_blocks};
ghost use Rattle.tm_syntax.specs.Code.{for_flags, target_code, statement_code, statements_code};
ghost use Rattle.tm_syntax.specs.Code.{stream_code};
ghost use Rattle.tm_syntax.specs.Fragments.{◌⨾◌, over};
ghost use Rattle.tm_syntax.specs.Named.{put as put_named, put_each};
ghost use Rattle.tm_syntax.specs.declared.jump.JumpKind.TheVariants.{IfFalse};
ghost use Rattle.tm_trees.specs.Trees.{statements};
ghost use Rattle.tm_trees.specs.Trees.statement_forms.{AutoEscape, Block, Break};
ghost use Rattle.tm_trees.specs.Trees.statement_forms.{CallBlock as CallTag, CaptureBlock};
ghost use Rattle.tm_trees.specs.Trees.statement_forms.{Continue, Do, Extends, For, If, With};
ghost use Rattle.tm_trees.specs.Trees.statement_forms.{Macro as Declare};

use crate::builder::Builder;
use crate::caches::number_caches;
use crate::calls::{push_call_end, push_call_open};
use crate::enclosing::Enclosing;
use crate::expressions::{push_expr, push_filters};
use crate::imports::{push_from_import, push_import, push_include};
use crate::loops::push_iterable;
use crate::macros::{push_building, push_caller, push_parameters};
use crate::targets::{push_assignments, push_set, push_target, push_use};
use std::alloc::{AllocError, Global};
use std::mem;
use tm_accepted::the_code_of_trees_is_accepted;
use tm_items::Items;
use tm_names::macro_names;
use tm_shapes::{BlockCode, Form, Verified};
use tm_syntax::{
    Assignment, CallBlock, CaptureMode, CaptureUse, Expr, ForLoop, Instruction, JumpKind,
    LoopFlags, Macro, Name, NameMap, Opened, Parameter, Step, Stmt,
};

// A stack frame holds the locals of all inlined functions and clears them when it begins. So the
// rarer functions are not inlined.

/// A stream under construction: its code, what is open at the end of the code, and the blocks found
/// so far in this stream and in those around it.
#[derive(Drop)]
pub(crate) struct StreamBuilder {
    code: Builder,
    enclosing: Enclosing,
    blocks: NameMap<BlockCode>,
}

/// Emits the code of a statement, and adds the streams of the blocks in it. AllocError if memory
/// runs out.
#[cycle(statements)]
fn push_statement(stream: &mut StreamBuilder, statement: &Stmt) -> Result<(), AllocError>
    ensures { OnOk result (stream.new ≡ put_in
        (statement_code stream.old.enclosing statement.now)
        (blocks_of statement.now) stream.old) }
{
    match statement {
        Stmt::EmitRaw(text) => stream.code.emit(Instruction::EmitRaw(text.share()?)),
        Stmt::EmitExpr(expr) => {
            push_expr(&mut stream.code, expr.get())?;
            stream.code.emit(Instruction::Emit)
        }
        Stmt::EmitLoop(argument) => {
            push_expr(&mut stream.code, argument.get())?;
            stream.code.emit(Instruction::FastRecurse)
        }
        Stmt::EmitBlock(name) => stream.code.emit(Instruction::CallBlock(name.share()?)),
        Stmt::EmitSuper => stream.code.emit(Instruction::FastSuper),
        Stmt::If(condition, body, other) => {
            push_if(stream, condition.get(), body.as_slice(), other)
        }
        Stmt::For(for_loop) => push_for(stream, for_loop),
        Stmt::Break => push_break(stream),
        Stmt::Continue => push_continue(stream),
        Stmt::Block(name, required, body) => {
            push_call_of_block(stream, name, *required, body.as_slice())
        }
        Stmt::Extends(parent) => push_extends(stream, parent.get()),
        Stmt::Set(target, value) => push_set(&mut stream.code, target, value.get()),
        Stmt::CaptureBlock(becomes, filters, body) => {
            push_capture(stream, becomes, filters.as_slice(), body.as_slice())
        }
        Stmt::With(given, body) => push_with(stream, given.as_slice(), body.as_slice()),
        Stmt::Do(call) => push_do(stream, call.get()),
        Stmt::AutoEscape(value, body) => push_escaped(stream, value.get(), body.as_slice()),
        Stmt::Macro(declared) => push_macro(stream, declared),
        Stmt::CallBlock(tag) => push_call_block(stream, tag),
        Stmt::Include(template, missing) => {
            push_include(&mut stream.code, template.get(), *missing)
        }
        Stmt::Import(template, target) => push_import(&mut stream.code, template.get(), target),
        Stmt::FromImport(template, imports) => {
            push_from_import(&mut stream.code, template.get(), imports.as_slice())
        }
    }
}

/// Emits the code of a `break`. AllocError if memory runs out.
#[inline(never)]
fn push_break(stream: &mut StreamBuilder) -> Result<(), AllocError>
    ensures { OnOk result (stream.new ≡ put_in
        (statement_code stream.old.enclosing Break) [] stream.old) }
{
    stream.enclosing.close_all(&mut stream.code)?;
    stream.code.break_loop()
}

/// Emits the code of a `continue`. AllocError if memory runs out.
#[inline(never)]
fn push_continue(stream: &mut StreamBuilder) -> Result<(), AllocError>
    ensures { OnOk result (stream.new ≡ put_in
        (statement_code stream.old.enclosing Continue) [] stream.old) }
{
    stream.enclosing.close_all(&mut stream.code)?;
    stream.code.next_round()
}

/// Emits the code of an `extends`. AllocError if memory runs out.
#[inline(never)]
fn push_extends(stream: &mut StreamBuilder, parent: &Expr) -> Result<(), AllocError>
    ensures { OnOk result (stream.new ≡ put_in
        (statement_code stream.old.enclosing (Extends parent.now)) [] stream.old) }
{
    push_expr(&mut stream.code, parent)?;
    stream.code.emit(Instruction::LoadBlocks)
}

/// Emits the code of a `do`. AllocError if memory runs out.
#[inline(never)]
fn push_do(stream: &mut StreamBuilder, call: &Expr) -> Result<(), AllocError>
    ensures { OnOk result (stream.new ≡ put_in
        (statement_code stream.old.enclosing (Do call.now)) [] stream.old) }
{
    push_expr(&mut stream.code, call)?;
    stream.code.emit(Instruction::DiscardTop)
}

/// Emits the call of a block, and adds the block's own stream and those of the blocks in it.
/// AllocError if memory runs out.
#[cycle(statements)]
#[inline(never)]
fn push_call_of_block(
    stream: &mut StreamBuilder,
    name: &Name,
    required: bool,
    body: &[Stmt],
) -> Result<(), AllocError>
    ensures { OnOk result (stream.new ≡ put_in
        (statement_code stream.old.enclosing (Block name.now required body.now))
        (blocks_of (Block name.now required body.now)) stream.old) }
{
    push_block(stream, name, required, body)?;
    stream.code.emit(Instruction::CallBlock(name.share()?))
}

/// Emits the code of a set block or a filter block, and adds the streams of the blocks in it.
/// AllocError if memory runs out.
#[cycle(statements)]
#[inline(never)]
fn push_capture(
    stream: &mut StreamBuilder,
    becomes: &CaptureUse,
    filters: &[Step],
    body: &[Stmt],
) -> Result<(), AllocError>
    ensures { OnOk result (stream.new ≡ put_in
        (statement_code stream.old.enclosing (CaptureBlock becomes.now filters.now body.now))
        (blocks_of (CaptureBlock becomes.now filters.now body.now)) stream.old) }
{
    let capture = Instruction::BeginCapture(CaptureMode::Capture);
    stream.code.emit(capture)?;
    push_within(stream, Opened::Capture, body)?;
    stream.code.emit(Instruction::EndCapture)?;
    push_filters(&mut stream.code, filters)?;
    push_use(&mut stream.code, becomes)
}

/// Emits the code of a `with`, and adds the streams of the blocks in it. AllocError if memory runs
/// out.
#[cycle(statements)]
#[inline(never)]
fn push_with(
    stream: &mut StreamBuilder,
    given: &[Assignment],
    body: &[Stmt],
) -> Result<(), AllocError>
    ensures { OnOk result (stream.new ≡ put_in
        (statement_code stream.old.enclosing (With given.now body.now))
        (blocks_of (With given.now body.now)) stream.old) }
{
    stream.code.emit(Instruction::PushWith)?;
    push_assignments(&mut stream.code, given)?;
    push_within(stream, Opened::Scope, body)?;
    stream.code.emit(Instruction::PopFrame)
}

/// Emits the code of an `autoescape`, and adds the streams of the blocks in it. AllocError if
/// memory runs out.
#[cycle(statements)]
#[inline(never)]
fn push_escaped(stream: &mut StreamBuilder, value: &Expr, body: &[Stmt]) -> Result<(), AllocError>
    ensures { OnOk result (stream.new ≡ put_in
        (statement_code stream.old.enclosing (AutoEscape value.now body.now))
        (blocks_of (AutoEscape value.now body.now)) stream.old) }
{
    push_expr(&mut stream.code, value)?;
    stream.code.emit(Instruction::PushAutoEscape)?;
    push_within(stream, Opened::Escape, body)?;
    stream.code.emit(Instruction::PopAutoEscape)
}

/// Emits the code of an `if`, and adds the streams of the blocks in it. AllocError if memory runs
/// out.
#[cycle(statements)]
#[inline(never)]
fn push_if(
    stream: &mut StreamBuilder,
    condition: &Expr,
    body: &[Stmt],
    other: &Option<Items<Stmt>>,
) -> Result<(), AllocError>
    ensures { OnOk result (stream.new ≡ put_in
        (statement_code stream.old.enclosing (If condition.now body.now other.now))
        (blocks_of (If condition.now body.now other.now)) stream.old) }
{
    push_expr(&mut stream.code, condition)?;
    let Some(other) = other else {
        return push_if_true(stream, body);
    };
    let outer = stream.code.begin();
    stream.code.jump_out(JumpKind::IfFalse)?;
    push_statements(stream, body)?;
    let over = stream.code.second(outer)?;
    push_statements(stream, other.as_slice())?;
    stream.code.join(over);
    Ok(())
}

/// Emits the code of statements that run if the topmost value is true, and adds the streams of the
/// blocks in them. AllocError if memory runs out.
#[cycle(statements)]
fn push_if_true(stream: &mut StreamBuilder, body: &[Stmt]) -> Result<(), AllocError>
    ensures { OnOk result (stream.new ≡ put_in
        (over IfFalse (statements_code stream.old.enclosing (statements body.now)))
        (blocks_in (statements body.now)) stream.old) }
{
    let outer = stream.code.begin();
    stream.code.jump_out(JumpKind::IfFalse)?;
    push_statements(stream, body)?;
    stream.code.bound(outer);
    Ok(())
}

/// Emits the code of a loop, and adds the streams of the blocks in it. AllocError if memory runs
/// out.
#[cycle(statements)]
#[inline(never)]
fn push_for(stream: &mut StreamBuilder, for_loop: &ForLoop) -> Result<(), AllocError>
    ensures { OnOk result (stream.new ≡ put_in
        (statement_code stream.old.enclosing (For for_loop.now))
        (blocks_of (For for_loop.now)) stream.old) }
{
    let iterable = for_loop.iterable.get();
    push_iterable(
        &mut stream.code,
        &for_loop.target,
        iterable,
        &for_loop.condition,
    )?;
    push_rounds(stream, for_loop)?;
    let Some(other) = &for_loop.other else {
        return stream.code.emit(Instruction::PopLoopFrame);
    };
    stream.code.emit(Instruction::PushDidNotIterate)?;
    stream.code.emit(Instruction::PopLoopFrame)?;
    push_if_true(stream, other.as_slice())
}

/// Emits the code of a loop's rounds, and adds the streams of the blocks in them. AllocError if
/// memory runs out.
#[cycle(statements)]
#[inline(never)]
fn push_rounds(stream: &mut StreamBuilder, for_loop: &ForLoop) -> Result<(), AllocError>
    ensures { OnOk result (stream.new ≡ record stream.old {
      code = rounds (for_flags for_loop.now.recursive)
          (target_code for_loop.now.target ⨾ statements_code [] (statements for_loop.now.body))
          stream.old.code;
      blocks = put_each (compiled_blocks (blocks_in (statements for_loop.now.body)))
          stream.old.blocks;
    }) }
{
    let flags = LoopFlags {
        variable: true,
        recursive: for_loop.recursive,
    };
    let outer = stream.code.begin_loop(flags)?;
    push_target(&mut stream.code, &for_loop.target)?;
    push_alone(stream, for_loop.body.as_slice())?;
    stream.code.end_rounds(outer)
}

/// Emits the code of a macro's declaration, and adds the streams of the blocks in it. AllocError if
/// memory runs out.
#[cycle(statements)]
#[inline(never)]
fn push_macro(stream: &mut StreamBuilder, declared: &Macro) -> Result<(), AllocError>
    ensures { OnOk result (stream.new ≡ put_in
        (statement_code stream.old.enclosing (Declare declared.now))
        (blocks_of (Declare declared.now)) stream.old) }
{
    let parameters = declared.parameters.as_slice();
    push_declared(stream, &declared.name, parameters, declared.body.as_slice())?;
    let name = declared.name.share()?;
    stream.code.emit(Instruction::StoreLocal(name))
}

/// Emits the code of a `call` block, which writes the result of its call, and adds the streams of
/// the blocks in it. AllocError if memory runs out.
#[cycle(statements)]
#[inline(never)]
fn push_call_block(stream: &mut StreamBuilder, tag: &CallBlock) -> Result<(), AllocError>
    ensures { OnOk result (stream.new ≡ put_in
        (statement_code stream.old.enclosing (CallTag tag.now))
        (blocks_of (CallTag tag.now)) stream.old) }
{
    let call = tag.call.get();
    let mut open = push_call_open(&mut stream.code, call)?;
    let name = push_caller(&mut stream.code)?;
    let parameters = tag.parameters.as_slice();
    push_declared(stream, &name, parameters, tag.body.as_slice())?;
    open.add_name()?;
    push_call_end(&mut stream.code, call, &open)?;
    stream.code.emit(Instruction::Emit)
}

/// Emits the code that pushes a macro, and adds the streams of the blocks in its body. AllocError
/// if memory runs out.
#[cycle(statements)]
#[inline(never)]
fn push_declared(
    stream: &mut StreamBuilder,
    name: &Name,
    parameters: &[Parameter],
    body: &[Stmt],
) -> Result<(), AllocError>
    ensures { OnOk result (stream.new ≡ put_in
        (macro_code name.now parameters.now (statements body.now))
        (blocks_in (statements body.now)) stream.old) }
{
    let names = macro_names(stream.code.alloc(), parameters, body)?;
    let around = stream.code.begin_body()?;
    push_parameters(&mut stream.code, parameters)?;
    push_alone(stream, body)?;
    let entry = stream.code.end_body(around)?;
    push_building(&mut stream.code, name, parameters, &names, entry)
}

/// Emits the code of statements that don't close what is open around them, and adds the streams of
/// the blocks in them. AllocError if memory runs out.
#[cycle(statements)]
fn push_alone(stream: &mut StreamBuilder, body: &[Stmt]) -> Result<(), AllocError>
    ensures { OnOk result (stream.new ≡ put_in
        (statements_code [] (statements body.now))
        (blocks_in (statements body.now)) stream.old) }
{
    let inner = Enclosing::new(stream.code.alloc());
    let enclosing = mem::replace(&mut stream.enclosing, inner);
    push_statements(stream, body)?;
    stream.enclosing = enclosing;
    Ok(())
}

/// Emits the code of statements inside `opened`, and adds the streams of the blocks in them.
/// AllocError if memory runs out.
#[cycle(statements)]
#[inline(never)]
fn push_within(stream: &mut StreamBuilder, opened: Opened, body: &[Stmt]) -> Result<(), AllocError>
    ensures { OnOk result (stream.new ≡ put_in
        (statements_code (opened ∷ stream.old.enclosing) (statements body.now))
        (blocks_in (statements body.now)) stream.old) }
{
    stream.enclosing.begin(opened)?;
    push_statements(stream, body)?;
    stream.enclosing.end();
    Ok(())
}

/// Emits the code of statements, and adds the streams of the blocks in them. AllocError if memory
/// runs out.
#[cycle(statements)]
fn push_statements(stream: &mut StreamBuilder, body: &[Stmt]) -> Result<(), AllocError>
    ensures { OnOk result (stream.new ≡ put_in
        (statements_code stream.old.enclosing (statements body.now))
        (blocks_in (statements body.now)) stream.old) }
{
    for statement in body {
        push_statement(stream, statement)?;
    }
    Ok(())
}

/// Adds a block's own stream to the blocks, after those of the blocks in it. AllocError if memory
/// runs out.
#[cycle(statements)]
#[inline(never)]
fn push_block(
    stream: &mut StreamBuilder,
    name: &Name,
    required: bool,
    body: &[Stmt],
) -> Result<(), AllocError>
    ensures { OnOk result (stream.new ≡ record stream.old {
      blocks = put_named name.now
          (block_code (found_block required (body_of (statements body.now))))
          (put_each (compiled_blocks (blocks_in (statements body.now))) stream.old.blocks);
    }) }
{
    let code = self::stream(stream.code.alloc(), &mut stream.blocks, body)?;
    add_block(&mut stream.blocks, name, BlockCode { required, code })
}

/// Adds a block's own stream under the block's name. AllocError if memory runs out.
#[inline(never)]
fn add_block(
    blocks: &mut NameMap<BlockCode>,
    name: &Name,
    block: BlockCode,
) -> Result<(), AllocError>
    ensures { OnOk result (blocks.new ≡ put_named name.now block blocks.old) }
{
    blocks.insert(name.share()?, block)?;
    Ok(())
}

/// The stream of statements on their own. Adds the streams of their blocks to `blocks`. AllocError
/// if memory runs out; `blocks` may then be empty.
#[cycle(statements)]
pub fn stream(
    alloc: Global,
    blocks: &mut NameMap<BlockCode>,
    body: &[Stmt],
) -> Result<Verified, AllocError>
    ensures code { IfOk result (λ code. code ≡ stream_code (statements body.now)) }
    ensures blocks { OnOk result
        (blocks.new ≡ put_each (compiled_blocks (blocks_in (statements body.now))) blocks.old) }
{
    let mut stream = StreamBuilder {
        code: Builder::new(alloc),
        enclosing: Enclosing::new(alloc),
        blocks: mem::replace(blocks, NameMap::new(alloc)),
    };
    push_statements(&mut stream, body)?;
    let StreamBuilder {
        code,
        enclosing: _,
        blocks: found,
    } = stream;
    *blocks = found;
    let mut instructions = code.finish();
    number_caches(alloc, &mut instructions)?;
    the_code_of_trees_is_accepted();
    Verified::new(alloc, instructions, Form::Template)
}
