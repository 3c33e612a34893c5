//! Worked renders of trees with macros and call tags: their meaning, and the run of their code on
//! the machine.
ghost use Rattle.std.specs.Prelude.{[], ◌∷◌, ◌++◌, codes};
ghost use Rattle.std.specs.Fmt.{decimal};
ghost use Rattle.tm_values.specs.declared.undefined.UndefinedBehavior.TheVariants.{Strict};
ghost use Rattle.tm_values.specs.declared.error.ErrorKind.TheVariants.{InvalidOperation, TooManyArguments, UndefinedError};
ghost use Rattle.tm_values.specs.declared.error.ErrorKind.TheVariants.{UnknownFunction, UnknownMethod};
ghost use Rattle.tm_rows.specs.Rows.{Charges, Fails, Shows, literal, literal_number};
ghost use Rattle.tm_rows.specs.CallRows.{call_none, one_named};
ghost use Rattle.tm_rows.specs.FilterRows.{under, with_limit};
ghost use Rattle.tm_rows.specs.MacroTrees.{m, with_one, with_two, one_text, two_parameters, given_twice, list_and_name, from_map};
ghost use Rattle.tm_rows.specs.MacroTrees.{default_before, default_after, default_for_undefined, parameter_caller, no_caller};
ghost use Rattle.tm_rows.specs.MacroTrees.{caller_with_argument, called_in_loop, called_in_capture, called_unknown};
ghost use Rattle.tm_rows.specs.MacroTrees.{called_without_caller, called_function, called_by_value, macro_in_map};
ghost use Rattle.tm_rows.specs.MacroTrees.{stored_later, set_again, set_within, calls_itself, one_calls_other, one_in_another};
ghost use Rattle.tm_rows.specs.MacroTrees.{index_of_loop, loop_of_macro, fault_within, members, method_of_macro};

/// Macros with positional and keyword arguments, with defaults, and refused arguments.
pub fn parameter_rows()
    ensures text { Charges one_text (codes "x") 7 }
    ensures within { Shows (with_limit 7 one_text) (codes "x") }
    ensures too_deep { Fails (with_limit 6 one_text) [] (InvalidOperation ∷ []) }
    ensures place { Charges (two_parameters (with_one m (literal_number 1))) (decimal 1 ++ decimal 2) 16 }
    ensures name { Charges (two_parameters (one_named m (codes "b") (literal_number 5))) (decimal 5) 17 }
    ensures both { Charges (two_parameters (with_two m (literal_number 1) (literal_number 2)))
        (decimal 1 ++ decimal 2) 16 }
    ensures list { Charges (two_parameters list_and_name) (decimal 7 ++ decimal 8) 21 }
    ensures map { Charges (two_parameters (from_map (literal (codes "a")) (literal_number 1)))
        (decimal 1 ++ decimal 2) 19 }
    ensures no_text { Charges (two_parameters (from_map (literal_number 1) (literal_number 2))) (decimal 2) 19 }
    ensures twice { Fails (two_parameters given_twice) [] (TooManyArguments ∷ []) }
    ensures unused { Fails (two_parameters (one_named m (codes "z") (literal_number 1))) []
        (TooManyArguments ∷ []) }
    ensures before { Charges default_before [] 14 }
    ensures after { Charges default_after (decimal 1) 17 }
    ensures undefined { Charges default_for_undefined (decimal 1 ++ codes "none") 21 }
    ensures strict { Fails (under Strict (two_parameters (call_none m))) [] (UndefinedError ∷ []) }
{}

/// `caller` as a parameter, without a call tag, and as the macro of a call tag.
pub fn call_tag_rows()
    ensures parameter { Charges parameter_caller (decimal 1) 12 }
    ensures none { Fails no_caller [] (InvalidOperation ∷ []) }
    ensures argument { Charges caller_with_argument (codes "[" ++ decimal 3 ++ codes "]") 21 }
    ensures loop_around { Charges called_in_loop
        (codes "[" ++ decimal 1 ++ codes "][" ++ decimal 2 ++ codes "]") 42 }
    ensures capture { Charges called_in_capture (codes "[a]") 20 }
    ensures unknown { Fails called_unknown [] (UnknownFunction ∷ []) }
    ensures not_taken { Fails called_without_caller [] (TooManyArguments ∷ []) }
    ensures function { Charges called_function
        (codes "{\"b\": " ++ decimal 1 ++ codes ", \"caller\": <macro caller>}") 9 }
    ensures value { Shows called_by_value (codes "[a][b]") }
{}

/// What macros see: names with their values at the call, while their scope is open; other macros;
/// and the loops around them.
pub fn enclosed_rows()
    ensures later { Charges stored_later (decimal 1 ++ decimal 1 ++ decimal 2) 40 }
    ensures again { Charges set_again (decimal 2) 13 }
    ensures within { Charges set_within (decimal 1) 13 }
    ensures itself { Charges calls_itself (decimal 3 ++ decimal 2 ++ decimal 1 ++ decimal 0) 51 }
    ensures other { Charges one_calls_other (codes "B") 14 }
    ensures inner { Charges one_in_another (decimal 5) 18 }
    ensures index { Charges index_of_loop (decimal 1 ++ decimal 2) 30 }
    ensures called_loop { Charges loop_of_macro (decimal 7 ++ decimal 8) 42 }
    ensures fault { Fails fault_within (codes "a") (UndefinedError ∷ []) }
{}

/// Macros as values: their attributes, macros in a map, and their methods.
pub fn macro_value_rows()
    ensures members { Charges members (codes "<macro m> [\"a\"] false m ") 22 }
    ensures in_map { Charges macro_in_map (codes "xx") 18 }
    ensures name { Fails (method_of_macro (codes "name")) [] (InvalidOperation ∷ []) }
    ensures no_method { Fails (method_of_macro (codes "zz")) [] (UnknownMethod ∷ []) }
{}
