//! The code of expressions.
#![tactic(auto, using(crate::proofs::PutExpressions::expressions))]

ghost use Rattle.std.specs.Prelude.{◌≡◌, ◌++◌, OnOk, IfOk, Some, false, reverse};
ghost use Rattle.tm_generator.specs.Building.{put, asked, kept, answered, with_one};
ghost use Rattle.tm_values.specs.Val.{text};
ghost use Rattle.tm_syntax.specs.Code.{unary_code, binary_code, application_code, expr_code};
ghost use Rattle.tm_syntax.specs.Code.{exprs_code, pairs_code};
ghost use Rattle.tm_generator.specs.Opened.{listing_code, lists_of, maps_of, no_end, open_code};
ghost use Rattle.tm_generator.specs.Opened.{opened_call};
ghost use Rattle.tm_syntax.specs.Code.{listed_code, keyword_code, keywords_code};
ghost use Rattle.tm_syntax.specs.Code.{passing_code, passed_count, row_end};
ghost use Rattle.tm_syntax.specs.Code.{filters_code, step_code, steps_code, row_code, links_code};
ghost use Rattle.tm_syntax.specs.Fragments.{straight, over};
ghost use Rattle.tm_trees.specs.Trees.{exprs, pairs, arguments, keywords, steps, comparisons};
ghost use Rattle.tm_trees.specs.Instructions.instructions.{BuildList, BuildMap};
ghost use Rattle.tm_trees.specs.Instructions.instructions.{BuildTuple, GetAttr};
ghost use Rattle.tm_trees.specs.Instructions.instructions.{GetItem, LoadConst};
ghost use Rattle.tm_trees.specs.Instructions.instructions.{Lookup, Slice};
ghost use Rattle.tm_trees.specs.Trees.expr_forms.{Call, Conditional, SelfBlock};
ghost use Rattle.tm_trees.specs.Trees.step_forms.{Apply, Call as Called};

use crate::builder::{Builder, Out};
use crate::passing::{
    OpenCall, Rows, has_spread, has_spread_keyword, keywords_after, lists_at, maps_at,
    push_list_of_row, push_map_of_row, row_after, sum,
};
use std::alloc::AllocError;
use tm_items::Items;
use tm_syntax::{
    Application, Argument, BinaryOperator, CaptureMode, Comparison, Condition, Expr, Instruction,
    JumpKind, Keyword, NO_CACHE, Name, Pair, Step, UnaryOperator,
};
use tm_values::{SharedText, Value};

// A stack frame holds the locals of all inlined functions. The rarer functions are not inlined, so
// that deep trees need less stack.

/// Emits the code of a binary operator. AllocError if memory runs out.
#[inline(never)]
fn push_binary(code: &mut Builder, operator: BinaryOperator) -> Result<(), AllocError>
    ensures { OnOk result (code.new ≡ put (straight (binary_code operator)) code.old) }
{
    let instruction = match operator {
        BinaryOperator::Equal => Instruction::Eq,
        BinaryOperator::NotEqual => Instruction::Ne,
        BinaryOperator::Less => Instruction::Lt,
        BinaryOperator::LessOrEqual => Instruction::Lte,
        BinaryOperator::Greater => Instruction::Gt,
        BinaryOperator::GreaterOrEqual => Instruction::Gte,
        BinaryOperator::In => Instruction::In,
        BinaryOperator::NotIn => {
            code.emit(Instruction::In)?;
            Instruction::Not
        }
        BinaryOperator::Add => Instruction::Add,
        BinaryOperator::Subtract => Instruction::Sub,
        BinaryOperator::Concatenate => Instruction::StringConcat,
        BinaryOperator::Multiply => Instruction::Mul,
        BinaryOperator::Divide => Instruction::Div,
        BinaryOperator::FloorDivide => Instruction::IntDiv,
        BinaryOperator::Remainder => Instruction::Rem,
        BinaryOperator::Power => Instruction::Pow,
    };
    code.emit(instruction)
}

/// Emits the code that passes `count` values to the method, filter or test named `name`. AllocError
/// if memory runs out.
#[inline(never)]
pub(crate) fn push_application(
    code: &mut Builder,
    application: Application,
    name: &Name,
    count: Option<usize>,
) -> Result<(), AllocError>
    ensures { OnOk result
        (code.new ≡ put (straight (application_code application name.now count)) code.old) }
{
    let instruction = match application {
        Application::Method => Instruction::CallMethod(name.share()?, count),
        Application::Filter => Instruction::ApplyFilter(name.share()?, count, NO_CACHE),
        Application::Test => Instruction::PerformTest(name.share()?, count, NO_CACHE),
        Application::NegatedTest => {
            code.emit(Instruction::PerformTest(name.share()?, count, NO_CACHE))?;
            Instruction::Not
        }
    };
    code.emit(instruction)
}

/// Emits the code of a literal. AllocError if memory runs out.
#[inline(never)]
fn push_const(code: &mut Builder, value: &Value) -> Result<(), AllocError>
    ensures { OnOk result (code.new ≡ with_one (LoadConst value.now) code.old) }
{
    match value.share() {
        Ok(value) => code.emit(Instruction::LoadConst(value)),
        Err(_) => Err(AllocError),
    }
}

/// Emits the code that pushes a name as a text. AllocError if memory runs out.
#[inline(never)]
pub(crate) fn push_text(code: &mut Builder, name: &Name) -> Result<(), AllocError>
    ensures { OnOk result (code.new ≡ with_one (LoadConst (text name.now false)) code.old) }
{
    let content = SharedText::from_str(code.alloc(), name.as_str())?;
    code.emit(Instruction::LoadConst(Value::shared_text(content, false)))
}

/// Emits the code that captures what the block named `name` writes. AllocError if memory runs out.
#[inline(never)]
fn push_self_block(code: &mut Builder, name: &Name) -> Result<(), AllocError>
    ensures { OnOk result (code.new ≡ put (expr_code (SelfBlock name.now)) code.old) }
{
    code.emit(Instruction::BeginCapture(CaptureMode::Capture))?;
    code.emit(Instruction::CallBlock(name.share()?))?;
    code.emit(Instruction::EndCapture)
}

/// Emits the code that looks up `name`. AllocError if memory runs out.
#[inline(never)]
fn push_lookup(code: &mut Builder, name: &Name) -> Result<(), AllocError>
    ensures { OnOk result (code.new ≡ with_one (Lookup name.now) code.old) }
{
    code.emit(Instruction::Lookup(name.share()?))
}

/// Emits the instruction that builds a list of `count` values. AllocError if memory runs out.
#[inline(never)]
fn push_list_end(code: &mut Builder, count: usize) -> Result<(), AllocError>
    ensures { OnOk result (code.new ≡ with_one (BuildList (Some count)) code.old) }
{
    code.emit(Instruction::BuildList(Some(count)))
}

/// Emits the instruction that builds a tuple of `count` values. AllocError if memory runs out.
#[inline(never)]
fn push_tuple_end(code: &mut Builder, count: usize) -> Result<(), AllocError>
    ensures { OnOk result (code.new ≡ with_one (BuildTuple count) code.old) }
{
    code.emit(Instruction::BuildTuple(count))
}

/// Emits the instruction that builds a map of `count` pairs. AllocError if memory runs out.
#[inline(never)]
fn push_map_end(code: &mut Builder, count: usize) -> Result<(), AllocError>
    ensures { OnOk result (code.new ≡ with_one (BuildMap count) code.old) }
{
    code.emit(Instruction::BuildMap(count))
}

/// Emits a prefix operator. AllocError if memory runs out.
#[inline(never)]
fn push_unary(code: &mut Builder, operator: UnaryOperator) -> Result<(), AllocError>
    ensures { OnOk result (code.new ≡ with_one (unary_code operator) code.old) }
{
    let instruction = match operator {
        UnaryOperator::Not => Instruction::Not,
        UnaryOperator::Negate => Instruction::Neg,
    };
    code.emit(instruction)
}

/// Emits the instruction that reads the attribute named `name`. AllocError if memory runs out.
#[inline(never)]
fn push_attribute(code: &mut Builder, name: &Name) -> Result<(), AllocError>
    ensures { OnOk result (code.new ≡ with_one (GetAttr name.now) code.old) }
{
    code.emit(Instruction::GetAttr(name.share()?))
}

/// Emits the instruction that reads the item at a key. AllocError if memory runs out.
#[inline(never)]
fn push_get_item(code: &mut Builder) -> Result<(), AllocError>
    ensures { OnOk result (code.new ≡ with_one GetItem code.old) }
{
    code.emit(Instruction::GetItem)
}

/// Emits the instruction that makes a slice. AllocError if memory runs out.
#[inline(never)]
fn push_slice_end(code: &mut Builder) -> Result<(), AllocError>
    ensures { OnOk result (code.new ≡ with_one Slice code.old) }
{
    code.emit(Instruction::Slice)
}

/// Emits the code of an expression. AllocError if memory runs out.
#[cycle(expressions)]
pub(crate) fn push_expr(code: &mut Builder, expr: &Expr) -> Result<(), AllocError>
    ensures { OnOk result (code.new ≡ put (expr_code expr.now) code.old) }
{
    match expr {
        Expr::Var(name) => push_lookup(code, name),
        Expr::Const(value) => push_const(code, value),
        Expr::List(items) => {
            push_exprs(code, items.as_slice())?;
            push_list_end(code, items.len())
        }
        Expr::Tuple(items) => {
            push_exprs(code, items.as_slice())?;
            push_tuple_end(code, items.len())
        }
        Expr::Map(entries) => {
            push_pairs(code, entries.as_slice())?;
            push_map_end(code, entries.len())
        }
        Expr::Call(name, given, named) => {
            push_call(code, name, given.as_slice(), named.as_slice())
        }
        Expr::SelfBlock(name) => push_self_block(code, name),
        Expr::Unary(operator, operand) => {
            push_expr(code, operand.get())?;
            push_unary(code, *operator)
        }
        Expr::Chain(first, after) => {
            push_expr(code, first.get())?;
            push_steps(code, after.as_slice())
        }
        Expr::Conditional(value, conditions) => {
            push_conditional(code, value.get(), conditions.as_slice())
        }
    }
}

/// Emits the code of a value with conditions. AllocError if memory runs out.
#[cycle(expressions)]
#[inline(never)]
fn push_conditional(
    code: &mut Builder,
    value: &Expr,
    conditions: &[Condition],
) -> Result<(), AllocError>
    ensures { OnOk result
        (code.new ≡ put (expr_code (Conditional value.now conditions.now)) code.old) }
{
    let mut outers = Items::new(code.alloc());
    push_tests(code, conditions, &mut outers)?;
    push_expr(code, value)?;
    push_otherwise(code, conditions, outers)
}

/// Emits the code of expressions. AllocError if memory runs out.
#[cycle(expressions)]
#[inline(never)]
fn push_exprs(code: &mut Builder, items: &[Expr]) -> Result<(), AllocError>
    ensures { OnOk result (code.new ≡ put (exprs_code (exprs items.now)) code.old) }
{
    for item in items {
        push_expr(code, item)?;
    }
    Ok(())
}

/// Emits the code of pairs. AllocError if memory runs out.
#[cycle(expressions)]
#[inline(never)]
fn push_pairs(code: &mut Builder, entries: &[Pair]) -> Result<(), AllocError>
    ensures { OnOk result (code.new ≡ put (pairs_code (pairs entries.now)) code.old) }
{
    for entry in entries {
        push_expr(code, entry.key.get())?;
        push_expr(code, entry.value.get())?;
    }
    Ok(())
}

/// Emits the code of a positional argument after a row of `row` values. A spread argument ends the
/// row. AllocError if memory runs out.
#[cycle(expressions)]
fn push_listed(code: &mut Builder, row: usize, argument: &Argument) -> Result<(), AllocError>
    ensures { OnOk result (code.new ≡ put (listed_code row argument.now) code.old) }
{
    match argument {
        Argument::Plain(expr) => push_expr(code, expr.get()),
        Argument::Spread(expr) => {
            push_list_of_row(code, row)?;
            push_expr(code, expr.get())
        }
    }
}

/// Emits the code of positional arguments after a row of `before` values, without the end of the
/// last row. Returns their rows. AllocError if memory runs out or a count overflows.
#[cycle(expressions)]
#[inline(never)]
fn push_arguments(code: &mut Builder, before: usize, given: &[Argument]) -> Result<Rows, AllocError>
    ensures ok { OnOk result
        (code.new ≡ put (listing_code before (arguments given.now)) code.old) }
    ensures rows { IfOk result (λ rows. rows ≡ lists_of before (arguments given.now)) }
{
    let mut pending = before;
    let mut ended = 0;
    for argument in given {
        push_listed(code, pending, argument)?;
        ended = sum(ended, lists_at(pending, argument))?;
        pending = row_after(pending, argument)?;
    }
    Ok(Rows { ended, pending })
}

/// Emits the code of a keyword argument after a row of `row` keyword arguments. A spread argument
/// ends the row. AllocError if memory runs out.
#[cycle(expressions)]
fn push_keyword(code: &mut Builder, row: usize, keyword: &Keyword) -> Result<(), AllocError>
    ensures { OnOk result (code.new ≡ put (keyword_code row keyword.now) code.old) }
{
    match keyword {
        Keyword::Named(name, value) => {
            push_text(code, name)?;
            push_expr(code, value.get())
        }
        Keyword::Spread(value) => {
            push_map_of_row(code, row)?;
            push_expr(code, value.get())
        }
    }
}

/// Emits the code of keyword arguments, without the end of the last row. Returns their rows.
/// AllocError if memory runs out or a count overflows.
#[cycle(expressions)]
#[inline(never)]
fn push_keywords(code: &mut Builder, named: &[Keyword]) -> Result<Rows, AllocError>
    ensures ok { OnOk result
        (code.new ≡ put (keywords_code no_end 0 (keywords named.now)) code.old) }
    ensures rows { IfOk result (λ rows. rows ≡ maps_of 0 (keywords named.now)) }
{
    let mut pending = 0;
    let mut ended = 0;
    for keyword in named {
        push_keyword(code, pending, keyword)?;
        ended = sum(ended, maps_at(pending, keyword))?;
        pending = keywords_after(pending, keyword)?;
    }
    Ok(Rows { ended, pending })
}

/// Emits the code of a call's arguments above `before` values, without the ends of the last rows.
/// AllocError if memory runs out or a count overflows.
#[cycle(expressions)]
#[inline(never)]
pub(crate) fn push_open(
    code: &mut Builder,
    before: usize,
    given: &[Argument],
    named: &[Keyword],
) -> Result<OpenCall, AllocError>
    ensures ok { OnOk result (code.new ≡
        put (open_code before (arguments given.now) (keywords named.now)) code.old) }
    ensures call { IfOk result (λ call. call ≡
        opened_call before (arguments given.now) (keywords named.now)) }
{
    let lists = push_arguments(code, before, given)?;
    let maps = push_keywords(code, named)?;
    Ok(OpenCall {
        lists,
        maps,
        spreads: has_spread(given),
        merges: has_spread_keyword(named),
    })
}

/// Emits the code of a call's arguments above `before` values. Returns the number of values passed,
/// or None if it is on top of the stack. AllocError if memory runs out or a count overflows.
#[cycle(expressions)]
fn push_passed(
    code: &mut Builder,
    before: usize,
    given: &[Argument],
    named: &[Keyword],
) -> Result<Option<usize>, AllocError>
    ensures ok { OnOk result (code.new ≡
        put (passing_code row_end before (arguments given.now) (keywords named.now)) code.old) }
    ensures count { IfOk result (λ count. count ≡
        passed_count row_end before (arguments given.now) (keywords named.now)) }
{
    let call = push_open(code, before, given, named)?;
    call.end(code)
}

/// Emits the code that calls the function named `name`. AllocError if memory runs out or a count
/// overflows.
#[cycle(expressions)]
#[inline(never)]
fn push_call(
    code: &mut Builder,
    name: &Name,
    given: &[Argument],
    named: &[Keyword],
) -> Result<(), AllocError>
    ensures { OnOk result
        (code.new ≡ put (expr_code (Call name.now given.now named.now)) code.old) }
{
    let count = push_passed(code, 0, given, named)?;
    code.emit(Instruction::CallFunction(name.share()?, count))
}

/// Emits the code of a method, a filter or a test with its arguments. AllocError if memory runs out
/// or a count overflows.
#[cycle(expressions)]
#[inline(never)]
fn push_applied(
    code: &mut Builder,
    application: Application,
    name: &Name,
    given: &[Argument],
    named: &[Keyword],
) -> Result<(), AllocError>
    ensures { OnOk result (code.new
        ≡ put (step_code (Apply application name.now given.now named.now)) code.old) }
{
    let count = push_passed(code, 1, given, named)?;
    push_application(code, application, name, count)
}

/// Emits the code that calls the topmost value. AllocError if memory runs out or a count overflows.
#[cycle(expressions)]
#[inline(never)]
fn push_called(code: &mut Builder, given: &[Argument], named: &[Keyword]) -> Result<(), AllocError>
    ensures { OnOk result
        (code.new ≡ put (step_code (Called given.now named.now)) code.old) }
{
    let count = push_passed(code, 1, given, named)?;
    code.emit(Instruction::CallObject(count))
}

/// Emits the tests of conditions, from the last to the first, each with a jump out of what follows
/// it. Pushes the jumps out of the part around each onto `outers`. AllocError if memory runs out.
#[cycle(expressions)]
#[inline(never)]
fn push_tests(
    code: &mut Builder,
    conditions: &[Condition],
    outers: &mut Items<Items<Out>>,
) -> Result<(), AllocError>
    ensures ok { OnOk result (code.new ≡ asked conditions.now code.old) }
    ensures outers { OnOk result
        (outers.new ≡ outers.old ++ reverse (kept conditions.now code.old)) }
{
    let mut left = conditions.len();
    while left > 0 {
        left -= 1;
        push_expr(code, conditions[left].test.get())?;
        outers.push(code.begin())?;
        code.jump_out(JumpKind::IfFalse)?;
    }
    Ok(())
}

/// Emits the alternative of each condition, from the first to the last. Pops the jumps out of the
/// part around each from `outers`. AllocError if memory runs out.
#[cycle(expressions)]
#[inline(never)]
fn push_otherwise(
    code: &mut Builder,
    conditions: &[Condition],
    mut outers: Items<Items<Out>>,
) -> Result<(), AllocError>
    ensures { OnOk result (code.new ≡ answered (reverse outers) conditions.now code.old) }
{
    for condition in conditions {
        let Some(outer) = outers.pop() else {
            return Ok(());
        };
        let over = code.second(outer)?;
        push_expr(code, condition.otherwise.get())?;
        code.join(over);
    }
    Ok(())
}

/// Emits the code of a step. AllocError if memory runs out.
#[cycle(expressions)]
#[inline(never)]
pub(crate) fn push_step(code: &mut Builder, step: &Step) -> Result<(), AllocError>
    ensures { OnOk result (code.new ≡ put (step_code step.now) code.old) }
{
    match step {
        Step::Attribute(name) => push_attribute(code, name),
        Step::Apply(application, name, given, named) => {
            push_applied(code, *application, name, given.as_slice(), named.as_slice())
        }
        Step::Call(given, named) => push_called(code, given.as_slice(), named.as_slice()),
        Step::Item(key) => {
            push_expr(code, key.get())?;
            push_get_item(code)
        }
        Step::Slice(start, stop, step) => {
            push_expr(code, start.get())?;
            push_expr(code, stop.get())?;
            push_expr(code, step.get())?;
            push_slice_end(code)
        }
        Step::Binary(operator, operand) => {
            push_expr(code, operand.get())?;
            push_binary(code, *operator)
        }
        Step::Compare(operator, right, after) => {
            push_expr(code, right.get())?;
            push_comparisons(code, *operator, after.as_slice())
        }
        Step::And(operand) => push_over(code, JumpKind::IfFalseOrPop, operand.get()),
        Step::Or(operand) => push_over(code, JumpKind::IfTrueOrPop, operand.get()),
    }
}

/// Emits the code of an expression, with a jump over it. AllocError if memory runs out.
#[cycle(expressions)]
#[inline(never)]
fn push_over(code: &mut Builder, kind: JumpKind, expr: &Expr) -> Result<(), AllocError>
    ensures { OnOk result (code.new ≡ put (over kind (expr_code expr.now)) code.old) }
{
    let outer = code.begin();
    code.jump_out(kind)?;
    push_expr(code, expr)?;
    code.bound(outer);
    Ok(())
}

/// Emits the code of a comparison and those after it. AllocError if memory runs out.
#[cycle(expressions)]
#[inline(never)]
fn push_comparisons(
    code: &mut Builder,
    operator: BinaryOperator,
    after: &[Comparison],
) -> Result<(), AllocError>
    ensures { OnOk result (code.new ≡ put (row_code operator (comparisons after.now)) code.old) }
{
    let outer = code.begin();
    push_links(code, operator, after)?;
    let over = code.second(outer)?;
    code.emit(Instruction::Swap)?;
    code.emit(Instruction::DiscardTop)?;
    code.join(over);
    Ok(())
}

/// Emits comparisons, each with a jump out except the last. AllocError if memory runs out.
#[cycle(expressions)]
fn push_links(
    code: &mut Builder,
    first: BinaryOperator,
    after: &[Comparison],
) -> Result<(), AllocError>
    ensures { OnOk result (code.new ≡ put (links_code first (comparisons after.now)) code.old) }
{
    let mut operator = first;
    for comparison in after {
        code.emit(Instruction::CompareAndPreserve(operator))?;
        code.jump_out(JumpKind::IfFalseOrPop)?;
        push_expr(code, comparison.right.get())?;
        operator = comparison.operator;
    }
    push_binary(code, operator)
}

/// Emits the code of steps. AllocError if memory runs out.
#[cycle(expressions)]
pub(crate) fn push_steps(code: &mut Builder, after: &[Step]) -> Result<(), AllocError>
    ensures { OnOk result (code.new ≡ put (steps_code (steps after.now)) code.old) }
{
    for step in after {
        push_step(code, step)?;
    }
    Ok(())
}

/// Emits the code that applies filters to the topmost value, from left to right. AllocError if
/// memory runs out.
pub(crate) fn push_filters(code: &mut Builder, filters: &[Step]) -> Result<(), AllocError>
    ensures { OnOk result (code.new ≡ put (filters_code filters.now) code.old) }
{
    for filter in filters {
        push_step(code, filter)?;
    }
    Ok(())
}
