//! Worked renders of pages with includes and imports: their meaning, and the run of their code on
//! the machine.
ghost use Rattle.std.specs.Prelude.{◌≡◌, [], ◌∷◌, ◌++◌, Some, true, false, codes, pos};
ghost use Rattle.tm_values.specs.Val.{number};
ghost use Rattle.std.specs.Fmt.{decimal};
ghost use Rattle.tm_values.specs.declared.error.ErrorKind.TheVariants.{BadInclude};
ghost use Rattle.tm_values.specs.declared.error.ErrorKind.TheVariants.{BadSerialization, BadStream};
ghost use Rattle.tm_values.specs.declared.error.ErrorKind.TheVariants.{InvalidOperation, OutOfFuel};
ghost use Rattle.tm_values.specs.declared.error.ErrorKind.TheVariants.{TemplateNotFound};
ghost use Rattle.tm_values.specs.declared.error.ErrorKind.TheVariants.{UndefinedError};
ghost use Rattle.tm_values.specs.declared.error.ErrorKind.TheVariants.{UnknownFilter};
ghost use Rattle.tm_rows.specs.Rows.{Charges, Fails, FailsAfter, Restores, Says, Shows, fuel_for, literal};
ghost use Rattle.tm_rows.specs.Rows.{literal_number, said, x};
ghost use Rattle.tm_rows.specs.FilterRows.{with_limit};
ghost use Rattle.tm_syntax.specs.declared.instruction.Instruction.TheVariants as i;
ghost use Rattle.tm_rows.specs.BlockRows.{one_left, run_before, closures_before, own_before};
ghost use Rattle.tm_rows.specs.BlockRows.{stores_j, imports_under_closure, negated_text};
ghost use Rattle.tm_rows.specs.IncludeTrees.{includes_within, sets_apart, encloses_apart, sees_loop};
ghost use Rattle.tm_rows.specs.BlockTrees.{PageEndsIn, GivesTwice};
ghost use Rattle.tm_rows.specs.IncludeTrees.{ChargesOf, bad_includes, beside_itself};
ghost use Rattle.tm_rows.specs.IncludeTrees.{block_heard, block_unheard, blocks_apart};
ghost use Rattle.tm_rows.specs.IncludeTrees.{child_twice, closure_again, closure_apart};
ghost use Rattle.tm_rows.specs.IncludeTrees.{closure_of_module, escaped_around, escapes_apart};
ghost use Rattle.tm_rows.specs.IncludeTrees.{extends_what_includes, fault_in_parent};
ghost use Rattle.tm_rows.specs.IncludeTrees.{fault_in_scope, imported_over, imported_twice};
ghost use Rattle.tm_rows.specs.IncludeTrees.{importing, in_library, includes_itself, including};
ghost use Rattle.tm_rows.specs.IncludeTrees.{including_by, joined_by, joins_fail};
ghost use Rattle.tm_rows.specs.IncludeTrees.{loop_of_another, map_of_i, member_of_namespace};
ghost use Rattle.tm_rows.specs.IncludeTrees.{member_of_none, module_as_map, module_in_json};
ghost use Rattle.tm_rows.specs.IncludeTrees.{module_members, name_imported, names_imported};
ghost use Rattle.tm_rows.specs.IncludeTrees.{no_choices, no_or, nothing_imported};
ghost use Rattle.tm_rows.specs.IncludeTrees.{second_imported, sees_argument, sees_no_caller};
ghost use Rattle.tm_rows.specs.IncludeTrees.{sees_round, stores_in_scope, stores_within};
ghost use Rattle.tm_rows.specs.IncludeTrees.{super_of_another};

/// An included template, with too little fuel and depth, and one that fails. The page's scopes,
/// name and escape are restored after it.
pub fn include_rows()
    ensures text { Charges (including (codes "i")) (codes "ab" ++ decimal 1) 5 }
    ensures fuel_ends_inside { Says (including (codes "i")) (fuel_for 3) (codes "ab") 0 (BadInclude ∷ OutOfFuel ∷ []) }
    ensures within { Shows (with_limit 12 (including (codes "i"))) (codes "ab" ++ decimal 1) }
    ensures too_deep { Fails (with_limit 11 (including (codes "i"))) [] (InvalidOperation ∷ []) }
    ensures nested { Shows (with_limit 23 includes_within) (codes "ab" ++ decimal 1) }
    ensures nested_too_deep { Fails (with_limit 22 includes_within) []
        (BadInclude ∷ InvalidOperation ∷ []) }
    ensures fault { FailsAfter (including (codes "bad")) (codes "a")
        (BadInclude ∷ UndefinedError ∷ []) 5 }
    ensures not_ignored { FailsAfter (including_by true (literal (codes "bad"))) (codes "a")
        (BadInclude ∷ UndefinedError ∷ []) 5 }
    ensures restores { Restores (including (codes "bad")) }
    ensures scopes { Restores fault_in_scope }
    ensures name { PageEndsIn (including (codes "bad")) (codes "page") }
    ensures itself { FailsAfter includes_itself [] (bad_includes 45 (InvalidOperation ∷ [])) 92 }
{}

/// The names of a template: a text, the first existing one of a list, and values that are no names.
pub fn choice_rows()
    ensures second { Charges (including_by false (no_or (literal (codes "i"))))
        (codes "ab" ++ decimal 1) 7 }
    ensures map { Charges (including_by false map_of_i) (codes "ab" ++ decimal 1) 7 }
    ensures missing { FailsAfter (including (codes "no")) [] (TemplateNotFound ∷ []) 2 }
    ensures both_missing { FailsAfter (including_by false (no_or (literal (codes "no2")))) []
        (TemplateNotFound ∷ []) 4 }
    ensures ignored { Shows (including_by true (literal (codes "no"))) [] }
    ensures no_choice { Charges (including_by false no_choices) [] 2 }
    ensures number { FailsAfter (including_by false (literal_number 1)) []
        (InvalidOperation ∷ []) 2 }
    ensures undefined { FailsAfter (including_by false x) [] (InvalidOperation ∷ []) 2 }
    ensures no_text { FailsAfter (including_by false (no_or (literal_number 1))) []
        (InvalidOperation ∷ []) 4 }
    ensures ignored_number { FailsAfter (including_by true (literal_number 1)) []
        (InvalidOperation ∷ []) 2 }
    ensures ignored_undefined { FailsAfter (including_by true x) [] (InvalidOperation ∷ []) 2 }
    ensures ignored_no_text { FailsAfter (including_by true (no_or (literal_number 1))) []
        (InvalidOperation ∷ []) 4 }
{}

/// An included template runs in its own scope inside that of its tag: it sees the names there, but
/// binds none.
pub fn include_scope_rows()
    ensures store { Charges stores_in_scope [] 6 }
    ensures inner { Charges stores_within (codes "[]") 10 }
    ensures apart { Shows sets_apart (decimal 1 ++ decimal 2 ++ decimal 1) }
    ensures enclosed { Shows encloses_apart (decimal 2 ++ decimal 1) }
    ensures loop_around { Shows sees_loop (decimal 1 ++ decimal 1) }
    ensures rounds { Charges sees_round (decimal 1 ++ decimal 2) 18 }
    ensures argument { Charges sees_argument (decimal 4) 12 }
    ensures no_caller { Charges sees_no_caller [] 12 }
    ensures closure { Shows closure_apart (decimal 1) }
    ensures closure_again { Shows closure_again (decimal 3) }
{}

/// It has its own escape and its own blocks, and loads its own parents, besides those loaded
/// before.
pub fn include_run_rows()
    ensures blocks_twice { Charges child_twice (codes "BcBc") 14 }
    ensures blocks_apart { Charges blocks_apart (codes "mineBcmine") 11 }
    ensures own_escape { Charges escapes_apart (codes "&lt;<") 6 }
    ensures escape_around { Charges escaped_around (codes "<&lt;") 7 }
    ensures loaded { FailsAfter extends_what_includes (codes "B")
        (BadInclude ∷ InvalidOperation ∷ []) 5 }
    ensures no_super { Fails super_of_another [] (BadInclude ∷ InvalidOperation ∷ []) }
    ensures no_loop { FailsAfter loop_of_another [] (BadInclude ∷ InvalidOperation ∷ []) 8 }
    ensures shown { Shows fault_in_parent (codes "ok") }
    ensures parent { GivesTwice fault_in_parent (codes "b") [] (BadInclude ∷ UndefinedError ∷ [])
        (codes "page") (0 ∷ []) }
{}

/// A loop can be called if its template runs again. The rendered template isn't the same as the
/// environment's template of its name.
pub fn include_loop_rows()
    ensures same { ChargesOf beside_itself (codes "t")
        (codes "(" ++ decimal 1 ++ codes ")<(" ++ decimal 5 ++ codes ")>") 41 }
    ensures other { Fails beside_itself (codes "(" ++ decimal 1 ++ codes ")<")
        (BadInclude ∷ InvalidOperation ∷ []) }
{}

/// The exports of templates: their names without a leading underscore, and their text.
pub fn import_rows()
    ensures members { Charges module_members (codes "<" ++ decimal 5 ++ codes ">" ++ decimal 2) 28 }
    ensures text { Charges (importing (codes "f")) (codes "text") 15 }
    ensures json { Fails module_in_json [] (BadSerialization ∷ []) }
    ensures map { Charges module_as_map (codes "f q truetrue" ++ decimal 2) 39 }
    ensures empty { Charges nothing_imported [] 4 }
    ensures within { Shows (with_limit 12 nothing_imported) [] }
    ensures too_deep { Fails (with_limit 11 nothing_imported) [] (InvalidOperation ∷ []) }
    ensures second { Charges second_imported (decimal 2) 18 }
    ensures no_namespace { FailsAfter member_of_none [] (InvalidOperation ∷ []) 14 }
    ensures namespace { Charges member_of_namespace (decimal 2) 20 }
    ensures closure { Charges closure_of_module (decimal 1) 18 }
    ensures parent { Charges (importing (codes "child")) (codes "Bc") 11 }
    ensures block { FailsAfter block_heard [] (BadInclude ∷ UndefinedError ∷ []) 7 }
{}

/// Names that are imported under other names, from the last to the first. The text of the template
/// is dropped.
pub fn from_import_rows()
    ensures names { Charges names_imported (codes "<" ++ decimal 1 ++ codes ">" ++ decimal 2) 26 }
    ensures missing { Charges (name_imported (codes "f") (codes "nope")) (codes "[]") 18 }
    ensures underscore { Charges (name_imported (codes "f") (codes "_p"))
        (codes "[" ++ decimal 1 ++ codes "]") 18 }
    ensures twice { Charges imported_twice (decimal 2 ++ decimal 2) 20 }
    ensures last_first { Shows imported_over (decimal 2) }
    ensures block { Charges block_unheard (codes "[" ++ decimal 1 ++ codes "]") 12 }
    ensures parent { Charges (name_imported (codes "child") (codes "a")) (codes "[]") 13 }
{}

/// Instructions without their operand: any name; and a value, whose printed text is the text of a
/// module.
pub fn include_operand_rows()
    ensures name { run_before (i.Include false ∷ []) [] ≡ said [] 999 (BadStream ∷ []) }
    ensures module { run_before (i.IncludeModule ∷ []) [] ≡ said [] 999 (BadStream ∷ []) }
    ensures nothing { run_before (i.ExportLocals ∷ []) [] ≡ said [] 1000 (BadStream ∷ []) }
    ensures number { run_before (one_left (i.ExportLocals ∷ [])) [] ≡ said [] 999 [] }
    ensures printed { run_before (one_left (i.ExportLocals ∷ i.Emit ∷ [])) []
        ≡ said (decimal 1) 998 [] }
{}

/// The template of an import binds nothing in the closure of the scope in which it runs, and that
/// scope has its closure again afterwards, even after a fault.
pub fn module_closure_rows()
    ensures apart { closures_before (imports_under_closure []) (stores_j 2 [])
        ≡ ((codes "j", number (pos 1)) ∷ []) ∷ [] }
    ensures again { own_before (imports_under_closure []) (stores_j 2 []) ≡ Some 0 }
    ensures fault { own_before (imports_under_closure []) (negated_text []) ≡ Some 0 }
    ensures faulty { run_before (imports_under_closure []) (negated_text [])
        ≡ said [] 993 (BadInclude ∷ InvalidOperation ∷ []) }
{}

/// The name of a template is joined to that of the running one.
pub fn join_rows()
    ensures library { Shows (joined_by in_library) (codes "ok") }
    ensures fault { Fails (joined_by (joins_fail (UnknownFilter ∷ []))) [] (UnknownFilter ∷ []) }
{}
