//! Worked examples: streams that the compiler didn't write, and whether they are accepted.
ghost use Rattle.std.specs.Prelude.{◌≡◌, [], ◌∷◌, None, codes, false, true};
ghost use Rattle.tm_values.specs.Val.{boolean, text};
ghost use Rattle.tm_trees.specs.Instructions.modes.{Capture, Discard};
ghost use Rattle.tm_syntax.specs.declared.instruction.Instruction.TheVariants as i;
ghost use Rattle.tm_shapes.specs.Accepts.{accepts};
ghost use Rattle.tm_shapes.specs.declared.kind.Form.TheVariants as forms;
ghost use Rattle.tm_shapes.specs.StreamRows.{added, called_again, counted, filter, filtered_loop, into_the_middle, loop_over_one_or_none};
ghost use Rattle.tm_shapes.specs.StreamRows.{left_by_loop, looping, macro_before, macro_value, nothing_in, one_value, one_way_or, parts_apart};
ghost use Rattle.tm_shapes.specs.StreamRows.{taking_from_under, test, through, unreached_macro, zero_or_value};

/// Ends and targets. A target is a place or the end, where everything is closed and the required
/// number of operands is left. A stream need not reach its end.
pub fn end_rows()
    ensures empty { accepts forms.Template [] ≡ true }
    ensures end { accepts forms.Template (i.Jump 1 ∷ []) ≡ true }
    ensures past { accepts forms.Template (i.Jump 5 ∷ []) ≡ false }
    ensures endless { accepts forms.Template (i.Jump 0 ∷ []) ≡ true }
    ensures left { accepts forms.Template (one_value ∷ []) ≡ false }
    ensures value { accepts forms.Expression (one_value ∷ []) ≡ true }
{}

/// The operands of an instruction exist, what it closes is open, and where paths meet, the shapes
/// are equal.
pub fn shape_rows()
    ensures emit { accepts forms.Template (i.Emit ∷ []) ≡ false }
    ensures escape { accepts forms.Template (i.PopAutoEscape ∷ []) ≡ false }
    ensures iterate { accepts forms.Template (i.Iterate 1 ∷ []) ≡ false }
    ensures capture { accepts forms.Template (i.EndCapture ∷ []) ≡ false }
    ensures frame { accepts forms.Template (i.PopFrame ∷ []) ≡ false }
    ensures joined { accepts forms.Template
        (i.LoadConst (boolean true) ∷ i.JumpIfFalse 3 ∷ i.BeginCapture Capture ∷ []) ≡ false }
    ensures frame_of_loop { accepts forms.Template
        (i.LoadConst nothing_in ∷ i.PushLoop (looping false) ∷ i.PopFrame ∷ []) ≡ false }
    ensures included { accepts forms.Template
        (i.LoadConst (text (codes "e") false) ∷ i.IncludeModule ∷ []) ≡ true }
    ensures exported { accepts forms.Template
        (one_value ∷ i.ExportLocals ∷ i.DiscardTop ∷ []) ≡ true }
{}

/// Captures are equal if their modes are, and loops if the stacks were equal at their `PushLoop`.
pub fn way_rows()
    ensures modes { accepts forms.Template
        (one_way_or (i.BeginCapture Capture) (i.BeginCapture Discard)) ≡ false }
    ensures mode { accepts forms.Template
        (one_way_or (i.BeginCapture Capture) (i.BeginCapture Capture)) ≡ true }
    ensures loops { accepts forms.Template loop_over_one_or_none ≡ false }
{}

/// A 0 is a value or an empty group. A value goes into a group by `Swap`, `LoadConst 1` and `Add`
/// in a row.
pub fn group_rows()
    ensures values { accepts forms.Template added ≡ true }
    ensures plain { accepts forms.Template (one_value ∷ i.BuildList None ∷ i.Emit ∷ []) ≡ false }
    ensures counted { accepts forms.Template (counted i.Add) ≡ true }
    ensures other { accepts forms.Template (counted i.Sub) ≡ false }
    ensures middle { accepts forms.Template (into_the_middle 3) ≡ false }
    ensures before { accepts forms.Template (into_the_middle 2) ≡ true }
    ensures filtered { accepts forms.Template filtered_loop ≡ true }
    ensures literal { accepts forms.Template zero_or_value ≡ true }
{}

/// A `Return` leaves what the form requires if the start reaches it, and nothing if a macro's entry
/// does.
pub fn form_rows()
    ensures start { accepts forms.Expression (one_value ∷ i.Return ∷ []) ≡ true }
    ensures none { accepts forms.Expression (i.Return ∷ []) ≡ false }
    ensures value { accepts forms.Template (one_value ∷ i.Return ∷ []) ≡ false }
    ensures entry { accepts forms.Expression (macro_value i.Return) ≡ true }
    ensures entered { accepts forms.Expression (macro_value one_value) ≡ false }
{}

/// A loop that can be called pops nothing from below itself; another one may.
pub fn loop_rows()
    ensures recursive { accepts forms.Template (taking_from_under true) ≡ false }
    ensures not_recursive { accepts forms.Template (taking_from_under false) ≡ true }
    ensures called { accepts forms.Template called_again ≡ true }
    ensures capture { accepts forms.Template (left_by_loop (i.BeginCapture Capture)) ≡ false }
    ensures nothing_open { accepts forms.Template (left_by_loop i.FastSuper) ≡ true }
{}

/// Targets, entries, the parts of macros, jumps between these, and cache numbers are checked even
/// if nothing reaches them.
pub fn placed_rows()
    ensures target { accepts forms.Template (i.Jump 2 ∷ i.Jump 9 ∷ []) ≡ false }
    ensures unreached { accepts forms.Template unreached_macro ≡ false }
    ensures parts { accepts forms.Template parts_apart ≡ false }
    ensures alone { accepts forms.Template
        (i.Jump 2 ∷ i.BuildMacro (codes "m") 2 false ∷ []) ≡ false }
    ensures together { accepts forms.Template (macro_before (i.Jump 5)) ≡ true }
    ensures middle { accepts forms.Template (macro_before (i.Jump 2)) ≡ false }
    ensures last { accepts forms.Template (macro_before (i.Jump 3)) ≡ false }
    ensures two_names { accepts forms.Template
        (through (filter (codes "a") 0) (filter (codes "b") 0)) ≡ false }
    ensures two_caches { accepts forms.Template
        (through (filter (codes "a") 0) (filter (codes "b") 1)) ≡ true }
    ensures tests_apart { accepts forms.Template
        (through (filter (codes "a") 0) (test (codes "b") 0)) ≡ true }
    ensures no_cache { accepts forms.Template
        (one_value ∷ filter (codes "a") 60 ∷ i.Emit ∷ []) ≡ false }
{}
