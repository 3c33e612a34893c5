//! Worked renders of pages with blocks that extend templates: their meaning, and the run of their
//! code on the machine.
ghost use Rattle.std.specs.Prelude.{◌≡◌, [], ◌∷◌, ◌++◌, codes};
ghost use Rattle.std.specs.Fmt.{decimal};
ghost use Rattle.tm_values.specs.declared.escape.AutoEscape.TheVariants as escapes;
ghost use Rattle.tm_values.specs.declared.error.ErrorKind.TheVariants.{EvalBlock, InvalidOperation, OutOfFuel, TemplateNotFound};
ghost use Rattle.tm_values.specs.declared.error.ErrorKind.TheVariants.{BadStream, UndefinedError, UnknownBlock, UnknownFunction, UnknownMethod};
ghost use Rattle.tm_trees.specs.Trees.{EmitBlock, EmitSuper};
ghost use Rattle.tm_trees.specs.Instructions.modes.{Capture};
ghost use Rattle.tm_syntax.specs.declared.instruction.Instruction.TheVariants as i;
ghost use Rattle.tm_rows.specs.BlockRows.{run_before, extending, capital, one_left};
ghost use Rattle.tm_rows.specs.Rows.{Charges, Fails, FailsAfter, Says, Shows, StopsAt, fuel_for, said, literal, literal_number, raw, one, x};
ghost use Rattle.tm_rows.specs.FilterRows.{with_limit};
ghost use Rattle.tm_rows.specs.MacroTrees.{called, m, paged};
ghost use Rattle.tm_rows.specs.BlockTrees.{PageEndsIn, AtChildren, of_base, of_mid, over_mid, over_mid_joined, mid_alone};
ghost use Rattle.tm_rows.specs.BlockTrees.{of_either, in_round, in_block_before, in_macro, after_macro, extends_only, two_parents};
ghost use Rattle.tm_rows.specs.BlockTrees.{in_capture, extends_itself, of_chain, of_supers, self_after, only_block, super_of_one};
ghost use Rattle.tm_rows.specs.BlockTrees.{super_member, self_of_one, self_as_value, self_while_waiting, super_as_value};
ghost use Rattle.tm_rows.specs.BlockTrees.{fault_in_super, while_waiting, divides_by_zero, required_itself, required_by_parent};
ghost use Rattle.tm_rows.specs.BlockTrees.{required_given, set_before_parent, in_scope_of_parent, in_loop_of_parent};
ghost use Rattle.tm_rows.specs.BlockTrees.{macro_of_child, escaped_by_child, calls_block, extends, GivesTwice, fault_in_hidden};

/// Blocks of a child in the layout of its parents, with their charges and with too little fuel. The
/// state after the render has the name of the last parent.
pub fn layout_rows()
    ensures base { Charges of_base (codes "B:[x" ++ decimal 1 ++ codes "]") 13 }
    ensures fuel_ends_in_the_block { StopsAt of_base 11 (codes "B:[x") }
    ensures fuel_ends_in_the_parent_block { Says of_base (fuel_for 9) (codes "B:[") 0 (EvalBlock ∷ OutOfFuel ∷ []) }
    ensures name { PageEndsIn of_base (codes "base") }
    ensures mid { Charges mid_alone (codes "B:mx") 8 }
    ensures over_mid { Charges over_mid (codes "B:cmx") 11 }
    ensures joined { Charges over_mid_joined (codes "B:cmx!") 14 }
    ensures twice { Charges (of_mid EmitSuper EmitSuper) (codes "B:mxmx") 14 }
    ensures within { Shows (with_limit 4 over_mid) (codes "B:cmx") }
    ensures too_deep { Fails (with_limit 3 over_mid) (codes "B:cm")
        (EvalBlock ∷ InvalidOperation ∷ []) }
{}

/// `extends` under a condition, in a loop, in a block, and in a macro, whose end runs no parent.
pub fn extends_rows()
    ensures condition { Charges of_either (codes "P") 5 }
    ensures round { Charges in_round (decimal 1 ++ decimal 2 ++ codes "P") 25 }
    ensures block { Charges (in_block_before (raw (codes "!"))) (codes "P!") 5 }
    ensures macro_end { Charges in_macro (codes "[]") 10 }
{}

/// What `extends` refuses: a value that isn't a text, a second parent, a capture around it, and a
/// name that was loaded before; and then a name that doesn't exist.
pub fn refused_extends_rows()
    ensures twice { FailsAfter two_parents [] (InvalidOperation ∷ []) 2 }
    ensures number { FailsAfter (extends_only (literal_number 1)) [] (InvalidOperation ∷ []) 1 }
    ensures undefined { FailsAfter (extends_only x) [] (InvalidOperation ∷ []) 1 }
    ensures missing { FailsAfter (extends_only (literal (codes "no"))) []
        (TemplateNotFound ∷ []) 1 }
    ensures second_missing { FailsAfter (while_waiting (extends (codes "no"))) []
        (InvalidOperation ∷ []) 2 }
    ensures capture { FailsAfter (in_capture (codes "no")) [] (InvalidOperation ∷ []) 1 }
    ensures itself { FailsAfter extends_itself [] (InvalidOperation ∷ []) 3 }
{}

/// `super()` and `self.a()` in place: alone, with arguments, and without such a block.
pub fn super_rows()
    ensures again { Charges self_after (codes "xx") 4 }
    ensures no_block { FailsAfter (paged (one (EmitBlock (codes "q")))) [] (UnknownBlock ∷ []) 1 }
    ensures nowhere { FailsAfter (paged (one EmitSuper)) [] (InvalidOperation ∷ []) 1 }
    ensures last { FailsAfter (only_block EmitSuper) [] (InvalidOperation ∷ []) 2 }
    ensures argument { FailsAfter (paged (one super_of_one)) [] (InvalidOperation ∷ []) 2 }
    ensures member { FailsAfter (paged (one super_member)) [] (InvalidOperation ∷ []) 1 }
    ensures method { FailsAfter (only_block self_of_one) [] (UnknownMethod ∷ []) 4 }
{}

/// Texts of blocks as values, escaped or not, and with a parent waiting.
pub fn block_value_rows()
    ensures escaped { Charges self_as_value (codes "<b><b>&lt;b&gt;") 14 }
    ensures waiting { Charges self_while_waiting (codes "B:c") 8 }
    ensures next { Charges super_as_value (codes "B:[x]") 11 }
{}

/// The state after a fault in a block or after `extends`: every list is at its child's place.
pub fn block_fault_rows()
    ensures fault { FailsAfter fault_in_super (codes "12") (EvalBlock ∷ UndefinedError ∷ []) 8 }
    ensures places { AtChildren fault_in_super (0 ∷ []) }
    ensures places_after { AtChildren over_mid (0 ∷ []) }
    ensures unknown { FailsAfter (while_waiting (called (codes "nope"))) []
        (UnknownFunction ∷ []) 2 }
    ensures zero { FailsAfter (while_waiting divides_by_zero) [] (InvalidOperation ∷ []) 4 }
{}

/// Blocks that another template has to replace.
pub fn required_rows()
    ensures itself { Fails required_itself [] (InvalidOperation ∷ []) }
    ensures by_parent { Fails required_by_parent [] (InvalidOperation ∷ []) }
    ensures given { Charges required_given (codes "ok") 4 }
{}

/// A parent runs in the scopes that its child left, with the child's escape.
pub fn parent_scope_rows()
    ensures set { Charges set_before_parent (decimal 2) 7 }
    ensures scope { Charges in_scope_of_parent (decimal 4 ++ decimal 5) 13 }
    ensures round { Charges in_loop_of_parent (decimal 1 ++ decimal 2) 18 }
    ensures of_child { Charges macro_of_child (codes "MM") 13 }
    ensures child_escapes { Charges (escaped_by_child escapes.None escapes.Html)
        (codes "&lt;&lt;") 7 }
    ensures parent_escapes { Charges (escaped_by_child escapes.Html escapes.None) (codes "<<") 7 }
{}

/// Blocks that a state is asked to render, twice: with a fault, a block of the child, and one that
/// doesn't exist.
pub fn state_block_rows()
    ensures shown { Shows fault_in_hidden (codes "ok") }
    ensures fault { GivesTwice fault_in_hidden (codes "b") [] (UndefinedError ∷ [])
        (codes "page") (0 ∷ []) }
    ensures missing { GivesTwice fault_in_hidden (codes "no") [] (UnknownBlock ∷ [])
        (codes "page") (0 ∷ []) }
    ensures child { GivesTwice over_mid (codes "a") (codes "cmx") [] (codes "base") (0 ∷ []) }
    ensures fault_in_next { GivesTwice fault_in_super (codes "a") (codes "12")
        (EvalBlock ∷ UndefinedError ∷ []) (codes "q") (0 ∷ []) }
{}

/// Streams that restart in their parent: with nothing open, and without the old operands and
/// caches. A stream that ends by a `Return` doesn't restart.
pub fn restart_rows()
    ensures writes { run_before (extending []) (i.EmitRaw (codes "x") ∷ []) ≡ said (codes "x") 998 [] }
    ensures no_name { run_before (i.LoadBlocks ∷ []) [] ≡ said [] 1000 (BadStream ∷ []) }
    ensures scope { run_before (extending (i.PushWith ∷ [])) [] ≡ said [] 999 (BadStream ∷ []) }
    ensures capture { run_before (extending (i.BeginCapture Capture ∷ [])) []
        ≡ said [] 999 (BadStream ∷ []) }
    ensures past { run_before (extending (i.Jump 9 ∷ [])) [] ≡ said [] 998 (BadStream ∷ []) }
    ensures operands { run_before (one_left (extending [])) (i.Emit ∷ [])
        ≡ said [] 997 (BadStream ∷ []) }
    ensures caches { run_before (capital (codes "upper") i.DiscardTop (extending []))
        (capital (codes "other") i.Emit []) ≡ said (codes "A") 994 [] }
    ensures over { run_before (extending (i.Return ∷ [])) (i.EmitRaw (codes "x") ∷ []) ≡ said [] 999 [] }
{}

/// Blocks by further calls, whose text isn't marked safe.
pub fn further_block_call_rows()
    ensures plain { Charges (calls_block escapes.None (codes "a")) (codes "<<") 6 }
    ensures escaped { Charges (calls_block escapes.Html (codes "a")) (codes "&lt;<") 6 }
    ensures missing { Fails (calls_block escapes.None (codes "no")) [] (UnknownBlock ∷ []) }
{}

/// The loaded names are restored after a macro, but not after a block.
pub fn loaded_rows()
    ensures again { Shows (after_macro (called m)) [] }
    ensures parent { Shows (after_macro (extends (codes "base"))) (codes "B:x") }
    ensures no_block { Fails (after_macro (EmitBlock (codes "a"))) [] (UnknownBlock ∷ []) }
    ensures block { Fails (in_block_before (EmitBlock (codes "a"))) (codes "P")
        (InvalidOperation ∷ []) }
{}

/// A chain of templates, each of which extends the next, and blocks that call `super()` under a
/// limit of depth.
pub fn parent_chain_rows()
    ensures parents { Charges (of_chain 100) (codes "x") 102 }
    ensures supers { Charges (of_supers 40) (codes "x") 123 }
    ensures within { Shows (with_limit 42 (of_supers 40)) (codes "x") }
    ensures too_deep { Fails (with_limit 4 (of_supers 40)) []
        (EvalBlock ∷ EvalBlock ∷ InvalidOperation ∷ []) }
{}
