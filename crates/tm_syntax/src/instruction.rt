//! Instructions.
use crate::name::Name;
use crate::raw_text::RawText;
use crate::tree::BinaryOperator;
use tm_values::Value;

/// The number of caches that a run has for filters, and likewise for tests, numbered from 0.
pub const CACHES: u8 = 50;

/// The cache number that means "no cache".
pub const NO_CACHE: u8 = 255;

/// What happens to the text of a capture.
#[derive(Clone, Copy, PartialEq, Eq)]
pub enum CaptureMode {
    /// It is pushed as a value.
    Capture,
    /// It is dropped.
    Discard,
}

/// The kind of a loop.
#[derive(Clone, Copy, PartialEq, Eq)]
pub struct LoopFlags {
    /// Whether the loop binds `loop` in its scope.
    pub variable: bool,
    /// Whether the loop can be called, as `loop(..)`.
    pub recursive: bool,
}

/// Where a loop begins, and its kind.
#[derive(Clone, Copy, PartialEq, Eq)]
pub struct LoopPlace {
    /// The place of its `PushLoop`.
    pub place: usize,
    /// Its kind.
    pub flags: LoopFlags,
}

/// One instruction. docs/MACHINE.md lists its operands, its results and its charge.
#[derive(Drop)]
pub enum Instruction {
    /// Writes a text unchanged.
    EmitRaw(RawText),
    /// Pops a value and emits it.
    Emit,
    /// Looks up a name and pushes its value, or undefined if it isn't bound.
    Lookup(Name),
    /// Pushes a literal.
    LoadConst(Value),
    /// Pops a value and pushes its attribute of that name.
    GetAttr(Name),
    /// Pops a key and the value below it, and pushes the value's item at that key.
    GetItem,
    /// Pops a step, a stop, a start and the value below them, and pushes the slice of the value.
    Slice,
    /// Pops that many values and pushes a list of them. Without a count, pops the count first.
    BuildList(Option<usize>),
    /// Pops that many values and pushes a tuple of them.
    BuildTuple(usize),
    /// Pops that many keys, each with its value, and pushes a map of them.
    BuildMap(usize),
    /// Pops that many names, each with its value, and pushes a keyword map of them.
    BuildKwargs(usize),
    /// Pops that many maps and pushes one keyword map with all their pairs.
    MergeKwargs(usize),
    /// Pops that many lists and pushes all their items, and then the number of these items.
    UnpackLists(usize),
    /// Pops two values and pushes whether they are equal.
    Eq,
    /// Pops two values and pushes whether they differ.
    Ne,
    /// Pops two values and pushes whether the first is less than the second.
    Lt,
    /// Pops two values and pushes whether the first is less than or equal to the second.
    Lte,
    /// Pops two values and pushes whether the first is greater than the second.
    Gt,
    /// Pops two values and pushes whether the first is greater than or equal to the second.
    Gte,
    /// Pops two values and pushes whether the first is in the second.
    In,
    /// Compares two values, and replaces them with the second value and, above it, the result.
    CompareAndPreserve(BinaryOperator),
    /// Pops two values and pushes their sum.
    Add,
    /// Pops two values and pushes their difference.
    Sub,
    /// Pops two values and pushes their printed texts, concatenated.
    StringConcat,
    /// Pops two values and pushes their product.
    Mul,
    /// The operator `/`, which always fails: there are no fractions.
    Div,
    /// Pops two values and pushes their integer quotient.
    IntDiv,
    /// Pops two values and pushes the remainder of their division.
    Rem,
    /// Pops two values and pushes the first raised to the power of the second.
    Pow,
    /// Pops a number and pushes its negation.
    Neg,
    /// Pops a value and pushes whether it is false.
    Not,
    /// Pops a value and pushes whether it is undefined.
    IsUndefined,
    /// Swaps the two topmost values.
    Swap,
    /// Pushes the topmost value again.
    DupTop,
    /// Pops a value and drops it.
    DiscardTop,
    /// Jumps to a place.
    Jump(usize),
    /// Pops a value, and jumps to a place if it is false.
    JumpIfFalse(usize),
    /// Jumps to a place if the topmost value is false, and pops it otherwise.
    JumpIfFalseOrPop(usize),
    /// Jumps to a place if the topmost value is true, and pops it otherwise.
    JumpIfTrueOrPop(usize),
    /// Pops that many arguments, calls the function of that name with them, and pushes the result.
    /// Here and below, without a count, the count is popped first.
    CallFunction(Name, Option<usize>),
    /// Pops that many values, calls the method of that name of the first one with the others, and
    /// pushes the result.
    CallMethod(Name, Option<usize>),
    /// Pops that many values, calls the first one with the others, and pushes the result.
    CallObject(Option<usize>),
    /// Pops that many values, applies the filter of that name to them, and pushes the result. The
    /// cache number is below `CACHES`, or `NO_CACHE`.
    ApplyFilter(Name, Option<usize>, u8),
    /// Pops that many values, applies the test of that name to them, and pushes whether the result
    /// is true. The cache number is like that of a filter.
    PerformTest(Name, Option<usize>, u8),
    /// Runs the block of that name.
    CallBlock(Name),
    /// Runs the next block after the running one, in place.
    FastSuper,
    /// Pops the name of the parent template, which runs after the stream.
    LoadBlocks,
    /// Pops the name of a template, or a list of names, and runs the first one that exists, in its
    /// own scope. The flag says whether they may all be missing.
    Include(bool),
    /// Like `Include`, but runs in the current scopes, and one of the templates must exist.
    IncludeModule,
    /// Pops the text of a capture, and pushes a module of the names of the innermost scope and that
    /// text.
    ExportLocals,
    /// Pops a value and binds the name to it in the innermost scope.
    StoreLocal(Name),
    /// Binds the name to its present value in the closure of the innermost scope, unless the
    /// closure has the name. Makes the closure if the scope has none.
    Enclose(Name),
    /// Pushes the number of the closure of the innermost scope, or `none` if it has no closure.
    GetClosure,
    /// Pops the names of the arguments and a closure, and pushes a macro of that name, whose entry
    /// is the given place. The flag says whether it takes `caller`.
    BuildMacro(Name, usize, bool),
    /// Ends the run of a macro.
    Return,
    /// Pops a value and pushes its items, the first on top. The value must have that many items.
    UnpackList(usize),
    /// Pops a namespace and the value below it, and sets the attribute of that name to the value.
    SetAttr(Name),
    /// Opens a scope.
    PushWith,
    /// Closes the innermost scope.
    PopFrame,
    /// Pops a value, and begins a loop over its items in a new scope.
    PushLoop(LoopFlags),
    /// Pushes the next item of the innermost loop, or jumps to a place if none is left.
    Iterate(usize),
    /// Pushes whether the innermost loop had no items.
    PushDidNotIterate,
    /// Ends the innermost loop.
    PopLoopFrame,
    /// Pops a value and calls the innermost loop with it. The loop writes in place.
    FastRecurse,
    /// Begins a capture of everything that is written from here on.
    BeginCapture(CaptureMode),
    /// Ends the innermost capture, and pushes its text, or undefined if the capture discards it.
    EndCapture,
    /// Pops a value, and sets the escape that it selects.
    PushAutoEscape,
    /// Restores the escape from before the last `PushAutoEscape`.
    PopAutoEscape,
}
