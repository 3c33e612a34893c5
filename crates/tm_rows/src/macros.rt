//! Worked runs of streams with macros: each clause states the machine's result.
ghost use Rattle.std.specs.Prelude.{◌≡◌, [], ◌∷◌, ◌++◌, None, Some, true, false, codes};
ghost use Rattle.std.specs.Fmt.{decimal};
ghost use Rattle.tm_values.specs.Val.{undefined, keywords, no_pairs, pair};
ghost use Rattle.tm_values.specs.declared.escape.AutoEscape.TheVariants as escapes;
ghost use Rattle.tm_values.specs.declared.error.ErrorKind.TheVariants.{BadStream, InvalidOperation, TooManyArguments, UndefinedError};
ghost use Rattle.tm_syntax.specs.declared.instruction.Instruction.TheVariants as i;
ghost use Rattle.tm_meaning.specs.Calls.{bound_to};
ghost use Rattle.tm_rows.specs.Rows.{said};
ghost use Rattle.tm_rows.specs.MacroRows.{CodeWrites, FailsWith, StaysAfter, run_under, m, x, whole_number, load, names, given};
ghost use Rattle.tm_rows.specs.MacroRows.{one_text, two_arguments, named_caller, mentions_caller, calls_caller, reads_x};
ghost use Rattle.tm_rows.specs.MacroRows.{set_and_called, called_within, enclosed_twice, one_in_another, in_order, endless};
ghost use Rattle.tm_rows.specs.MacroRows.{escaped_text, by_function, macro_at, calls_macro, faults_within, a_macro};
ghost use Rattle.tm_rows.specs.MacroRows.{bound_in_order};

/// Macros: their text and charges, under limits of depth, with positional, keyword and default
/// arguments, and with `caller`.
pub fn macro_rows()
    ensures text { CodeWrites one_text (codes "x") 7 }
    ensures within { run_under 7 escapes.None one_text ≡ said (codes "x") 993 [] }
    ensures too_deep { run_under 6 escapes.None one_text ≡ said [] 995 (InvalidOperation ∷ []) }
    ensures place { CodeWrites (two_arguments (whole_number 1 ∷ [])) (decimal 1 ++ decimal 2) 16 }
    ensures name { CodeWrites (two_arguments (given ((codes "b", whole_number 5) ∷ []) ∷ [])) (decimal 5) 15 }
    ensures twice { FailsWith (two_arguments (whole_number 1
        ∷ given ((codes "a", whole_number 3) ∷ []) ∷ [])) TooManyArguments 7 }
    ensures too_many { FailsWith (two_arguments (whole_number 1 ∷ whole_number 2
        ∷ whole_number 3 ∷ [])) TooManyArguments 8 }
    ensures unused { FailsWith (two_arguments (given ((codes "z", whole_number 1) ∷ []) ∷ []))
        TooManyArguments 6 }
    ensures no_caller { FailsWith (two_arguments (given ((codes "caller", whole_number 1) ∷ []) ∷ []))
        TooManyArguments 6 }
    ensures caller_argument { CodeWrites named_caller (decimal 1) 10 }
    ensures caller_mentioned { CodeWrites (mentions_caller
        (given ((codes "caller", whole_number 1) ∷ []) ∷ [])) (decimal 1) 9 }
    ensures caller_missing { CodeWrites (mentions_caller []) [] 8 }
    ensures caller_called { FailsWith calls_caller InvalidOperation 6 }
{}

/// Closures: a name has its value at the call if its scope was closed or bound it again, and
/// otherwise that at the declaration; names in a closure stay. And macros inside macros, whose
/// entries are in the order of the source.
pub fn closure_rows()
    ensures stored { CodeWrites (reads_x (x ∷ []) set_and_called) (decimal 2) 13 }
    ensures within { CodeWrites (reads_x (x ∷ []) called_within) (decimal 1) 13 }
    ensures not_enclosed { CodeWrites (reads_x [] set_and_called) [] 12 }
    ensures once { CodeWrites enclosed_twice (decimal 1) 15 }
    ensures inner { CodeWrites one_in_another (decimal 5) 18 }
    ensures in_order { CodeWrites in_order (codes "true") 17 }
    ensures endless { run_under 31 escapes.None endless ≡ said [] 989 (InvalidOperation ∷ []) }
{}

/// The text of a macro is marked safe if an escape is in force, but not if a further call asked for
/// it. After its arguments, its state, stream, entry, closure and number of arguments are checked,
/// in this order. And the state after a fault in it.
pub fn macro_call_rows()
    ensures escaped { run_under 500 escapes.Html escaped_text ≡ said (codes "<&lt;") 991 [] }
    ensures further { CodeWrites by_function (codes "<" ++ decimal 5 ++ codes ">") 11 }
    ensures further_escaped { run_under 500 escapes.Html by_function
        ≡ said (codes "&lt;" ++ decimal 5 ++ codes "&gt;") 989 [] }
    ensures further_within { run_under 8 escapes.None by_function
        ≡ said (codes "<" ++ decimal 5 ++ codes ">") 989 [] }
    ensures further_too_deep { run_under 7 escapes.None by_function
        ≡ said [] 995 (InvalidOperation ∷ []) }
    ensures known { CodeWrites (calls_macro (macro_at 0 0 None) (whole_number 7 ∷ [])) (decimal 7) 11 }
    ensures state { FailsWith (calls_macro (record (macro_at 0 0 None) { state = 5 }) [])
        InvalidOperation 6 }
    ensures state_first { FailsWith (calls_macro (record (macro_at 0 0 None) { state = 5 })
        (whole_number 1 ∷ whole_number 2 ∷ [])) InvalidOperation 8 }
    ensures arguments_first { FailsWith (calls_macro (macro_at 9 9 (Some 9))
        (whole_number 1 ∷ whole_number 2 ∷ [])) TooManyArguments 8 }
    ensures stream { FailsWith (calls_macro (macro_at 1 0 None) []) InvalidOperation 6 }
    ensures entry { FailsWith (calls_macro (macro_at 0 1 None) []) InvalidOperation 6 }
    ensures closure { FailsWith (calls_macro (macro_at 0 0 (Some 0)) []) InvalidOperation 6 }
    ensures count { FailsWith (calls_macro (a_macro [] false) []) InvalidOperation 6 }
    ensures fault { FailsWith faults_within UndefinedError 7 }
    ensures put_back { StaysAfter faults_within }
{}

/// The arguments that parameters are bound to: positional, keyword, and undefined ones. Keys that
/// aren't texts are ignored.
pub fn binding_rows()
    ensures places { bound_in_order (whole_number 1 ∷ whole_number 2 ∷ [])
        ≡ Some (whole_number 1 ∷ whole_number 2 ∷ []) }
    ensures names { bound_in_order (given ((codes "a", whole_number 1) ∷ (codes "b", whole_number 2) ∷ []) ∷ [])
        ≡ Some (whole_number 1 ∷ whole_number 2 ∷ []) }
    ensures missing { bound_in_order (given ((codes "b", whole_number 2) ∷ []) ∷ [])
        ≡ Some (undefined false ∷ whole_number 2 ∷ []) }
    ensures not_last { bound_in_order (keywords no_pairs ∷ whole_number 2 ∷ [])
        ≡ Some (keywords no_pairs ∷ whole_number 2 ∷ []) }
    ensures no_text { bound_in_order (keywords (pair (whole_number 1) (whole_number 2) no_pairs) ∷ [])
        ≡ Some (undefined false ∷ undefined false ∷ []) }
    ensures twice { bound_in_order (whole_number 1
        ∷ given ((codes "a", whole_number 3) ∷ []) ∷ []) ≡ None }
    ensures caller { bound_to (a_macro [] true) (given ((codes "caller", whole_number 3) ∷ []) ∷ [])
        ≡ Some [] }
{}

/// Macro parts that don't fit, a run that ends while something of its own is open, and undefined
/// operands.
pub fn macro_part_rows()
    ensures no_names { FailsWith (i.GetClosure ∷ load 1 ∷ i.BuildMacro m 0 false ∷ []) BadStream 2 }
    ensures no_closure { FailsWith (i.LoadConst (names (m ∷ [])) ∷ i.LoadConst (names []) ∷ i.BuildMacro m 0 false ∷ [])
        BadStream 2 }
    ensures nothing { FailsWith (i.BuildMacro m 0 false ∷ []) BadStream 0 }
    ensures open { FailsWith (i.PushWith ∷ i.Return ∷ []) BadStream 0 }
    ensures over { CodeWrites (i.Return ∷ i.Emit ∷ []) [] 0 }
    ensures undefined { CodeWrites (i.LoadConst (undefined true) ∷ i.IsUndefined ∷ i.Emit ∷ []) (codes "true") 3 }
    ensures defined { CodeWrites (load 1 ∷ i.IsUndefined ∷ i.Emit ∷ []) (codes "false") 3 }
{}
