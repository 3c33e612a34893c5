//! Further worked renders of what the meaning and the machine share: with several templates, macros
//! and escapes, and with loops before their first item.
ghost use Rattle.std.specs.Prelude.{◌≡◌, [], ◌∷◌, ◌++◌, codes};
ghost use Rattle.std.specs.Fmt.{decimal};
ghost use Rattle.tm_values.specs.declared.error.ErrorKind.TheVariants.{EvalBlock};
ghost use Rattle.tm_values.specs.declared.error.ErrorKind.TheVariants.{InvalidOperation};
ghost use Rattle.tm_values.specs.declared.error.ErrorKind.TheVariants.{UnknownFunction};
ghost use Rattle.tm_rows.specs.Rows.{Charges, Fails, FailsAfter, Shows, said};
ghost use Rattle.tm_rows.specs.GuardTrees.{included_by_super, super_after_include};
ghost use Rattle.tm_rows.specs.GuardTrees.{super_by_included, super_after_missing};
ghost use Rattle.tm_rows.specs.GuardTrees.{super_in_macro, super_in_macro_below};
ghost use Rattle.tm_rows.specs.GuardTrees.{super_after_macro, joined_in_included};
ghost use Rattle.tm_rows.specs.GuardTrees.{joined_in_block, joined_by_included, joined_in_macro};
ghost use Rattle.tm_rows.specs.GuardTrees.{captured_in_json, macro_in_json, true_in_json};
ghost use Rattle.tm_rows.specs.GuardTrees.{true_in_block, true_in_included, true_in_macro};
ghost use Rattle.tm_rows.specs.GuardTrees.{true_in_plain};
ghost use Rattle.tm_rows.specs.GuardTrees.{sees_context, sees_globals, sees_context_below};
ghost use Rattle.tm_rows.specs.GuardTrees.{sees_closure, calls_loop_around};
ghost use Rattle.tm_rows.specs.GuardTrees.{cycle_in_condition, asked_before_first};
ghost use Rattle.tm_rows.specs.GuardTrees.{is_no_turn, is_changed_first, is_no_attribute};

/// An include starts with its own places in lists of blocks, and the caller's are restored after
/// it. The running block is the same inside it, and if it is missing. In a macro no block is
/// running. A name is joined to that of the template that contains its tag.
pub fn inheritance_guards()
    ensures own_places { Charges included_by_super (codes "x[i]") 11 }
    ensures places_again { Charges super_after_include (codes "cmix") 14 }
    ensures block_stays { Charges super_by_included (codes "12") 9 }
    ensures block_after_missing { Charges super_after_missing (codes "B:x") 8 }
    ensures no_block_in_macro { FailsAfter super_in_macro (codes "B:")
        (InvalidOperation ∷ []) 10 }
    ensures no_block_below { FailsAfter super_in_macro_below (codes "cm")
        (EvalBlock ∷ InvalidOperation ∷ []) 14 }
    ensures block_after_macro { Charges super_after_macro (codes "B:Mx") 13 }
    ensures joined_in_included { Shows joined_in_included (codes "(I)T") }
    ensures joined_in_block { Shows joined_in_block (codes "[TJ]") }
    ensures joined_by_extends { Shows (joined_by_included (codes "e")) (codes "E") }
    ensures joined_by_import { Shows (joined_by_included (codes "n")) (codes "N") }
    ensures joined_in_macro { Shows joined_in_macro (codes "MT") }
{}

/// A text that was captured under Json is safe. `true` selects the escape with which the run of a
/// template, a block or a macro began, or Html if there was none.
pub fn escape_guards()
    ensures captured { Charges captured_in_json (codes "\"") 5 }
    ensures of_macro { Charges macro_in_json (codes "\"") 7 }
    ensures on_in_page { Charges true_in_json (codes "null") 4 }
    ensures on_in_plain_page { Charges true_in_plain (codes "&lt;") 4 }
    ensures on_in_included { Charges true_in_included (codes "&lt;") 5 }
    ensures on_in_block { Charges (true_in_block (codes "html")) (codes "&lt;") 5 }
    ensures on_in_plain_block { Charges (true_in_block (codes "none")) (codes "&lt;") 5 }
    ensures on_in_macro { Charges true_in_macro (codes "&lt;") 10 }
{}

/// A macro sees its closure, the context of the render and the globals, but neither the names nor
/// the loops around its call. In the condition of a loop, `loop` is the loop around it. Before its
/// first item, a loop has no turn and no index.
pub fn scope_guards()
    ensures context { Charges sees_context (decimal 5) 12 }
    ensures globals { Charges sees_globals (decimal 3) 12 }
    ensures context_below { Charges sees_context_below (decimal 5) 19 }
    ensures closure { Charges sees_closure (decimal 1 ++ decimal 1) 15 }
    ensures no_loop { Fails calls_loop_around [] (UnknownFunction ∷ []) }
    ensures loop_around { Shows cycle_in_condition (decimal 7 ++ codes ";;") }
    ensures no_turn { asked_before_first is_no_turn ≡ said (codes "true") 994 [] }
    ensures changed { asked_before_first is_changed_first ≡ said (codes "true") 995 [] }
    ensures no_index { asked_before_first (is_no_attribute (codes "index"))
        ≡ said (codes "true") 995 [] }
{}
