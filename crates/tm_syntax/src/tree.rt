//! Syntax trees. The steps after a value are a list. Within one nesting level of the source, the
//! lists of different operator levels contain one another, so the depth of a tree is at most that
//! of its source, times the number of operator levels.
ghost use Rattle.std.specs.Prelude.{◌≡◌, ◌+◌, ◌<◌, ◌≤◌, ◌↔◌, false, IsTrue, IsFalse, MatchOption};
ghost use Rattle.tm_syntax.specs.Dropping.{Exchanged, total, weight, pair_weight};
ghost use Rattle.tm_syntax.specs.Dropping.{argument_weight, keyword_weight, step_weight};
ghost use Rattle.tm_syntax.specs.Dropping.{condition_weight, comparison_weight};
ghost use Rattle.tm_syntax.specs.Forms.{is_named_call};
ghost use Rattle.tm_syntax.specs.declared.tree.Expr.TheVariants as exprs;

use crate::name::Name;
use crate::raw_text::RawText;
use std::mem;
use tm_items::{Boxed, Items};
use tm_values::Value;

/// A prefix operator.
#[derive(Clone, Copy, PartialEq, Eq)]
pub enum UnaryOperator {
    /// `not`
    Not,
    /// `-`
    Negate,
}

/// A binary operator whose operands are both evaluated.
#[derive(Clone, Copy, PartialEq, Eq)]
pub enum BinaryOperator {
    /// `==`
    Equal,
    /// `!=`
    NotEqual,
    /// `<`
    Less,
    /// `<=`
    LessOrEqual,
    /// `>`
    Greater,
    /// `>=`
    GreaterOrEqual,
    /// `in`
    In,
    /// `not in`
    NotIn,
    /// `+`
    Add,
    /// `-`
    Subtract,
    /// `~`
    Concatenate,
    /// `*`
    Multiply,
    /// `/`
    Divide,
    /// `//`
    FloorDivide,
    /// `%`
    Remainder,
    /// `**`
    Power,
}

/// What is applied to a value, with the value as the first argument.
#[derive(Clone, Copy, PartialEq, Eq)]
pub enum Application {
    /// A method of the value: `a.m(b)`.
    Method,
    /// A filter: `a|f(b)`.
    Filter,
    /// A test: `a is t(b)`.
    Test,
    /// A negated test: `a is not t(b)`.
    NegatedTest,
}

/// An expression. Dropping it needs no memory, and the same stack at all depths.
#[cycle(expr)]
pub enum Expr {
    /// A name.
    Var(Name),
    /// A literal.
    Const(Value),
    /// A list of expressions.
    List(Items<Expr>),
    /// A tuple of expressions.
    Tuple(Items<Expr>),
    /// A map of pairs.
    Map(Items<Pair>),
    /// A call of a function by name, with its positional and its keyword arguments.
    Call(Name, Items<Argument>, Items<Keyword>),
    /// The text of a block, `self.b()`.
    SelfBlock(Name),
    /// A prefix operator and its operand.
    Unary(UnaryOperator, Boxed<Expr>),
    /// A value and the steps after it, from left to right.
    Chain(Boxed<Expr>, Items<Step>),
    /// A value and its conditions; the last condition is evaluated first.
    Conditional(Boxed<Expr>, Items<Condition>),
}

/// A key of a map and its value.
#[cycle(expr)]
#[derive(Drop)]
pub struct Pair {
    /// The key.
    pub key: Boxed<Expr>,
    /// The value.
    pub value: Boxed<Expr>,
}

/// A positional argument of a call.
#[cycle(expr)]
#[derive(Drop)]
pub enum Argument {
    /// A value.
    Plain(Boxed<Expr>),
    /// The items of a value, `*e`.
    Spread(Boxed<Expr>),
}

/// A keyword argument of a call.
#[cycle(expr)]
#[derive(Drop)]
pub enum Keyword {
    /// A name and its value.
    Named(Name, Boxed<Expr>),
    /// The pairs of a map, `**e`.
    Spread(Boxed<Expr>),
}

/// A condition of a value: `.. if test else otherwise`.
#[cycle(expr)]
#[derive(Drop)]
pub struct Condition {
    /// The condition.
    pub test: Boxed<Expr>,
    /// The value if the condition is false: the literal silent undefined if there is no `else`.
    pub otherwise: Boxed<Expr>,
}

/// A chained comparison.
#[cycle(expr)]
#[derive(Drop)]
pub struct Comparison {
    /// The operator.
    pub operator: BinaryOperator,
    /// The right operand.
    pub right: Boxed<Expr>,
}

/// A step after a value.
#[cycle(expr)]
#[derive(Drop)]
pub enum Step {
    /// The attribute of that name.
    Attribute(Name),
    /// The item at a key.
    Item(Boxed<Expr>),
    /// A method, a filter or a test of that name, with its further positional and keyword
    /// arguments.
    Apply(Application, Name, Items<Argument>, Items<Keyword>),
    /// A call of the value, with positional and keyword arguments.
    Call(Items<Argument>, Items<Keyword>),
    /// The slice from a start to a stop by a step. A missing one is the literal none.
    Slice(Boxed<Expr>, Boxed<Expr>, Boxed<Expr>),
    /// A binary operator and its right operand.
    Binary(BinaryOperator, Boxed<Expr>),
    /// A comparison and its right operand, and the chained comparisons after it, whose left operand
    /// is the right operand before them.
    Compare(BinaryOperator, Boxed<Expr>, Items<Comparison>),
    /// `and`: the value if it is false, and otherwise this operand.
    And(Boxed<Expr>),
    /// `or`: the value if it is true, and otherwise this operand.
    Or(Boxed<Expr>),
}

/// The target of an assignment.
#[derive(Drop)]
pub enum AssignmentTarget {
    /// A name of the innermost scope.
    Name(Name),
    /// Several targets, one for each item of the value.
    Unpack(Items<AssignmentTarget>),
    /// An attribute of a namespace, which the expression yields.
    Attribute(Boxed<Expr>, Name),
}

/// A target and its value.
#[derive(Drop)]
pub struct Assignment {
    /// The target.
    pub target: AssignmentTarget,
    /// The value.
    pub value: Boxed<Expr>,
}

/// A parameter of a macro.
#[derive(Drop)]
pub struct Parameter {
    /// Its name.
    pub name: Name,
    /// The value used if the argument is undefined.
    pub default: Option<Boxed<Expr>>,
}

/// A name imported from a template, and the name that it is bound to.
#[derive(Drop)]
pub struct Imported {
    /// The name in the template.
    pub name: Name,
    /// The name that is bound in the innermost scope.
    pub target: Name,
}

/// What happens to the text of a capture.
#[derive(Drop)]
pub enum CaptureUse {
    /// It is emitted.
    Emit,
    /// It is assigned to a target.
    Assign(AssignmentTarget),
}

/// A statement.
#[cycle(stmt)]
#[derive(Drop)]
pub enum Stmt {
    /// Raw text.
    EmitRaw(RawText),
    /// An emission.
    EmitExpr(Boxed<Expr>),
    /// A condition, the body that runs if it is true, and the else part.
    If(Boxed<Expr>, Items<Stmt>, Option<Items<Stmt>>),
    /// Calls the innermost loop, which writes in place: `{{ loop(e) }}`.
    EmitLoop(Boxed<Expr>),
    /// A loop.
    For(ForLoop),
    /// Ends the innermost loop.
    Break,
    /// Continues the innermost loop with its next item.
    Continue,
    /// A block: its name, whether another template has to replace it, and its body.
    Block(Name, bool, Items<Stmt>),
    /// Runs a block in place, `{{ self.b() }}`.
    EmitBlock(Name),
    /// Runs the next block after the running one in place, `{{ super() }}`.
    EmitSuper,
    /// Names the parent template, which runs after the stream.
    Extends(Boxed<Expr>),
    /// Assigns a value to a target.
    Set(AssignmentTarget, Boxed<Expr>),
    /// A capture: what happens to its text, the filters applied to the text from left to right, and
    /// the body that writes it.
    CaptureBlock(CaptureUse, Items<Step>, Items<Stmt>),
    /// Assignments in a new scope, and the body that runs in it.
    With(Items<Assignment>, Items<Stmt>),
    /// Evaluates an expression and drops its value.
    Do(Boxed<Expr>),
    /// The escape, and the body that it applies to.
    AutoEscape(Boxed<Expr>, Items<Stmt>),
    /// A macro.
    Macro(Macro),
    /// A call with a macro of its own as `caller`.
    CallBlock(CallBlock),
    /// Runs the template that a value names, and whether it may be missing.
    Include(Boxed<Expr>, bool),
    /// Imports the module of a template and assigns it to a target.
    Import(Boxed<Expr>, AssignmentTarget),
    /// Imports names of a template into the innermost scope.
    FromImport(Boxed<Expr>, Items<Imported>),
}

/// A loop over items.
#[cycle(stmt)]
#[derive(Drop)]
pub struct ForLoop {
    /// The target that each item is assigned to.
    pub target: AssignmentTarget,
    /// The value that is iterated over.
    pub iterable: Boxed<Expr>,
    /// The condition that selects items.
    pub condition: Option<Boxed<Expr>>,
    /// Whether the loop can be called.
    pub recursive: bool,
    /// The body, which runs for each selected item.
    pub body: Items<Stmt>,
    /// The else part, which runs if no item is selected.
    pub other: Option<Items<Stmt>>,
}

/// A macro declaration.
#[cycle(stmt)]
#[derive(Drop)]
pub struct Macro {
    /// Its name.
    pub name: Name,
    /// Its parameters.
    pub parameters: Items<Parameter>,
    /// Its body.
    pub body: Items<Stmt>,
}

/// A call that is emitted, with a macro as its last keyword argument, `caller`.
#[cycle(stmt)]
#[derive(Drop)]
pub struct CallBlock {
    /// The call without `caller`.
    pub call: Boxed<Expr>,
    /// The parameters of `caller`.
    pub parameters: Items<Parameter>,
    /// The body of `caller`.
    pub body: Items<Stmt>,
}

/// The tree of a source.
pub enum Tree {
    /// The statements of a template.
    Statements(Items<Stmt>),
    /// An expression.
    Expression(Boxed<Expr>),
}

// By hand: one call for each owner, instead of a drop of each part.
impl Drop for Tree {
    fn drop(self) {
        match self {
            Tree::Statements(_) | Tree::Expression(_) => {}
        }
    }
}

// By hand: the parts of an expression are dropped by exchanging them within its own boxes and
// lists. So dropping needs no memory, which may be refused, and a deep expression needs no deep
// stack.
impl Drop for Expr {
    #[cycle(dropping)]
    fn drop(self) {
        match self {
            Expr::Var(_) | Expr::Const(_) | Expr::SelfBlock(_) => {}
            whole => drop_parts(whole),
        }
    }
}

impl Expr {
    /// The name and the arguments, if the expression is a call of a function by name.
    pub fn into_call(self) -> Option<(Name, Items<Argument>, Items<Keyword>)>
        ensures { MatchOption result
            (is_named_call self ≡ false)
            (λ call. self ≡ exprs.Call call.0 call.1 call.2) }
    {
        match self {
            Expr::Call(name, given, named) => Some((name, given, named)),
            Expr::Var(_)
            | Expr::Const(_)
            | Expr::List(_)
            | Expr::Tuple(_)
            | Expr::Map(_)
            | Expr::SelfBlock(_)
            | Expr::Unary(_, _)
            | Expr::Chain(_, _)
            | Expr::Conditional(_, _) => None,
        }
    }

    // Whether it may contain expressions. If not, it is a leaf.
    #[tactic(auto, using(crate::proofs::Dropping::of_expr))]
    fn may_hold(&self) -> bool
        ensures { IsTrue result ↔ (0 < weight self.now) }
    {
        match self {
            Expr::Var(_) | Expr::Const(_) | Expr::SelfBlock(_) => false,
            Expr::List(_)
            | Expr::Tuple(_)
            | Expr::Map(_)
            | Expr::Call(_, _, _)
            | Expr::Unary(_, _)
            | Expr::Chain(_, _)
            | Expr::Conditional(_, _) => true,
        }
    }

    // Exchanges the last part that isn't a leaf with `other`, and returns whether there was one.
    // Leaves in lists after that part are dropped, so that no list is searched twice.
    #[cycle(dropping)]
    #[tactic(auto, using(crate::proofs::Dropping::of_expr))]
    fn exchange(&mut self, other: &mut Expr) -> bool
        ensures no_more { weight self.new + weight other.new ≤ weight self.old + weight other.old }
        ensures taken { IsTrue result
            → (0 < weight other.new) × (weight other.new < weight self.old) }
        ensures left { IsFalse result → (weight self.new ≤ 1) × (other.new ≡ other.old) }
        ensures kept { 0 < weight self.old → 0 < weight self.new }
    {
        match self {
            Expr::Var(_) | Expr::Const(_) | Expr::SelfBlock(_) => false,
            Expr::List(items) => exchange_item(items, other),
            Expr::Tuple(items) => exchange_item(items, other),
            Expr::Map(pairs) => exchange_in_pairs(pairs, other),
            Expr::Call(_, given, named) => exchange_passed(given, named, other),
            Expr::Unary(_, operand) => exchange_boxed(operand, other),
            Expr::Chain(first, after) => exchange_in_steps(after, other)
                || exchange_boxed(first, other),
            Expr::Conditional(value, conditions) => {
                exchange_in_conditions(conditions, other) || exchange_boxed(value, other)
            }
        }
    }

    // Drops an expression whose parts are all leaves.
    #[cycle(dropping)]
    #[tactic(auto, using(crate::proofs::Dropping::of_expr, crate::proofs::Dropping::no_longer))]
    fn drop_shell(self)
        requires { weight self ≤ 1 }
    {
        match self {
            Expr::Var(_) | Expr::Const(_) | Expr::SelfBlock(_) => {}
            Expr::List(items) => items.destroy_empty(),
            Expr::Tuple(items) => items.destroy_empty(),
            Expr::Map(pairs) => pairs.destroy_empty(),
            Expr::Call(_, given, named) => {
                given.destroy_empty();
                named.destroy_empty();
            }
            Expr::Unary(_, operand) => drop(operand.into_inner()),
            Expr::Chain(first, after) => {
                drop(first.into_inner());
                after.destroy_empty();
            }
            Expr::Conditional(value, conditions) => {
                drop(value.into_inner());
                conditions.destroy_empty();
            }
        }
    }
}

// A leaf without content.
fn leaf() -> Expr
    ensures { weight result ≡ 0 }
{
    Expr::Const(Value::none())
}

// Drops an expression by exchanges. On the way down, each expression takes the place of its part
// that is worked on; on the way up it is exchanged back. So dropping needs no memory, and the same
// stack at all depths.
#[inline(never)]
#[cycle(dropping)]
fn drop_parts(whole: Expr) {
    let mut current = whole;
    let mut above = leaf();
    while current.may_hold() {
        while current.exchange(&mut above) {
            mem::swap(&mut current, &mut above);
        }
        let next = mem::replace(&mut above, leaf());
        mem::replace(&mut current, next).drop_shell();
        let _has_above = current.exchange(&mut above);
    }
    current.drop_shell();
    above.drop_shell();
}

// Drops a step whose parts are all leaves.
#[cycle(dropping)]
#[tactic(auto, using(crate::proofs::Dropping::of_step, crate::proofs::Dropping::no_longer))]
fn drop_step(shell: Step)
    requires { step_weight shell ≡ 0 }
{
    match shell {
        Step::Attribute(_name) => {}
        Step::Item(value) => drop(value.into_inner()),
        Step::Apply(_application, _name, given, named) => {
            given.destroy_empty();
            named.destroy_empty();
        }
        Step::Call(given, named) => {
            given.destroy_empty();
            named.destroy_empty();
        }
        Step::Slice(start, stop, step) => {
            drop(start.into_inner());
            drop(stop.into_inner());
            drop(step.into_inner());
        }
        Step::Binary(_operator, right) => drop(right.into_inner()),
        Step::Compare(_operator, right, comparisons) => {
            drop(right.into_inner());
            comparisons.destroy_empty();
        }
        Step::And(right) => drop(right.into_inner()),
        Step::Or(right) => drop(right.into_inner()),
    }
}

// Exchanges the expression in the box with `other`, unless it is a leaf.
fn exchange_boxed(operand: &mut Boxed<Expr>, other: &mut Expr) -> bool
    ensures { Exchanged result (weight operand.old) (weight operand.new) other.old other.new }
{
    let holds = operand.get().may_hold();
    if holds {
        operand.swap(other);
    }
    holds
}

// Exchanges the last item that isn't a leaf with `other`.
#[cycle(dropping)]
#[tactic(auto, using(crate::proofs::Dropping::in_lists, crate::proofs::Replaced::exprs))]
fn exchange_item(items: &mut Items<Expr>, other: &mut Expr) -> bool
    ensures { Exchanged result
        (total weight items.old) (total weight items.new) other.old other.new }
{
    while let Some(last) = items.get_mut(items.len().saturating_sub(1)) {
        if last.may_hold() {
            mem::swap(last, other);
            return true;
        }
        if let Some(last) = items.pop() {
            drop(last);
        }
    }
    false
}

// Exchanges the last part of the pairs that isn't a leaf with `other`.
#[cycle(dropping)]
#[tactic(auto, using(crate::proofs::Dropping::in_lists, crate::proofs::Replaced::pairs))]
fn exchange_in_pairs(pairs: &mut Items<Pair>, other: &mut Expr) -> bool
    ensures { Exchanged result
        (total pair_weight pairs.old) (total pair_weight pairs.new) other.old other.new }
{
    while let Some(last) = pairs.get_mut(pairs.len().saturating_sub(1)) {
        if exchange_boxed(&mut last.value, other) || exchange_boxed(&mut last.key, other) {
            return true;
        }
        if let Some(Pair { key, value }) = pairs.pop() {
            drop(key.into_inner());
            drop(value.into_inner());
        }
    }
    false
}

// Exchanges the last part of the arguments that isn't a leaf with `other`.
#[cycle(dropping)]
#[tactic(auto, using(crate::proofs::Dropping::in_lists, crate::proofs::Dropping::of_part))]
fn exchange_passed(
    given: &mut Items<Argument>,
    named: &mut Items<Keyword>,
    other: &mut Expr,
) -> bool
    ensures { Exchanged result
        (total argument_weight given.old + total keyword_weight named.old)
        (total argument_weight given.new + total keyword_weight named.new)
        other.old other.new }
{
    exchange_in_keywords(named, other) || exchange_in_arguments(given, other)
}

#[cycle(dropping)]
#[tactic(auto, using(crate::proofs::Dropping::in_lists, crate::proofs::Replaced::arguments, crate::proofs::Dropping::of_part))]
fn exchange_in_arguments(given: &mut Items<Argument>, other: &mut Expr) -> bool
    ensures { Exchanged result
        (total argument_weight given.old) (total argument_weight given.new) other.old other.new }
{
    while let Some(last) = given.get_mut(given.len().saturating_sub(1)) {
        if exchange_argument(last, other) {
            return true;
        }
        match given.pop() {
            Some(Argument::Plain(value)) => drop(value.into_inner()),
            Some(Argument::Spread(value)) => drop(value.into_inner()),
            None => {}
        }
    }
    false
}

#[tactic(auto, using(crate::proofs::Dropping::of_part))]
fn exchange_argument(argument: &mut Argument, other: &mut Expr) -> bool
    ensures { Exchanged result
        (argument_weight argument.old) (argument_weight argument.new) other.old other.new }
{
    match argument {
        Argument::Plain(value) => exchange_boxed(value, other),
        Argument::Spread(value) => exchange_boxed(value, other),
    }
}

#[cycle(dropping)]
#[tactic(auto, using(crate::proofs::Dropping::in_lists, crate::proofs::Replaced::keywords, crate::proofs::Dropping::of_part))]
fn exchange_in_keywords(named: &mut Items<Keyword>, other: &mut Expr) -> bool
    ensures { Exchanged result
        (total keyword_weight named.old) (total keyword_weight named.new) other.old other.new }
{
    while let Some(last) = named.get_mut(named.len().saturating_sub(1)) {
        if exchange_keyword(last, other) {
            return true;
        }
        match named.pop() {
            Some(Keyword::Named(_name, value)) => drop(value.into_inner()),
            Some(Keyword::Spread(value)) => drop(value.into_inner()),
            None => {}
        }
    }
    false
}

#[tactic(auto, using(crate::proofs::Dropping::of_part))]
fn exchange_keyword(keyword: &mut Keyword, other: &mut Expr) -> bool
    ensures { Exchanged result
        (keyword_weight keyword.old) (keyword_weight keyword.new) other.old other.new }
{
    match keyword {
        Keyword::Named(_, value) => exchange_boxed(value, other),
        Keyword::Spread(value) => exchange_boxed(value, other),
    }
}

#[cycle(dropping)]
#[tactic(auto, using(crate::proofs::Dropping::in_lists, crate::proofs::Replaced::conditions))]
fn exchange_in_conditions(conditions: &mut Items<Condition>, other: &mut Expr) -> bool
    ensures { Exchanged result
        (total condition_weight conditions.old) (total condition_weight conditions.new)
        other.old other.new }
{
    while let Some(last) = conditions.get_mut(conditions.len().saturating_sub(1)) {
        if exchange_boxed(&mut last.otherwise, other) || exchange_boxed(&mut last.test, other) {
            return true;
        }
        if let Some(Condition { test, otherwise }) = conditions.pop() {
            drop(test.into_inner());
            drop(otherwise.into_inner());
        }
    }
    false
}

#[cycle(dropping)]
#[tactic(auto, using(crate::proofs::Dropping::in_lists, crate::proofs::Replaced::comparisons))]
fn exchange_in_comparisons(comparisons: &mut Items<Comparison>, other: &mut Expr) -> bool
    ensures { Exchanged result
        (total comparison_weight comparisons.old) (total comparison_weight comparisons.new)
        other.old other.new }
{
    while let Some(last) = comparisons.get_mut(comparisons.len().saturating_sub(1)) {
        if exchange_boxed(&mut last.right, other) {
            return true;
        }
        if let Some(Comparison { operator: _, right }) = comparisons.pop() {
            drop(right.into_inner());
        }
    }
    false
}

#[cycle(dropping)]
#[tactic(auto, using(crate::proofs::Dropping::in_lists, crate::proofs::Replaced::steps))]
fn exchange_in_steps(steps: &mut Items<Step>, other: &mut Expr) -> bool
    ensures { Exchanged result
        (total step_weight steps.old) (total step_weight steps.new) other.old other.new }
{
    while let Some(last) = steps.get_mut(steps.len().saturating_sub(1)) {
        if exchange_in_step(last, other) {
            return true;
        }
        if let Some(step) = steps.pop() {
            drop_step(step);
        }
    }
    false
}

#[cycle(dropping)]
#[tactic(auto, using(crate::proofs::Dropping::of_step))]
fn exchange_in_step(step: &mut Step, other: &mut Expr) -> bool
    ensures { Exchanged result
        (step_weight step.old) (step_weight step.new) other.old other.new }
{
    match step {
        Step::Attribute(_) => false,
        Step::Item(value) => exchange_boxed(value, other),
        Step::Apply(_, _, given, named) => exchange_passed(given, named, other),
        Step::Call(given, named) => exchange_passed(given, named, other),
        Step::Slice(start, stop, step) => {
            exchange_boxed(step, other)
                || exchange_boxed(stop, other)
                || exchange_boxed(start, other)
        }
        Step::Binary(_, right) => exchange_boxed(right, other),
        Step::Compare(_, right, comparisons) => {
            exchange_in_comparisons(comparisons, other) || exchange_boxed(right, other)
        }
        Step::And(right) => exchange_boxed(right, other),
        Step::Or(right) => exchange_boxed(right, other),
    }
}
