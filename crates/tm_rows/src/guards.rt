//! Worked renders of what the meaning and the machine share.
ghost use Rattle.std.specs.Prelude.{[], ◌∷◌, ◌++◌, Some, codes};
ghost use Rattle.std.specs.Fmt.{decimal};
ghost use Rattle.tm_values.specs.declared.error.ErrorKind.TheVariants.{InvalidOperation, UndefinedError};
ghost use Rattle.tm_values.specs.declared.undefined.UndefinedBehavior.TheVariants.{Lenient, Strict};
ghost use Rattle.tm_rows.specs.Rows.{Shows, Fails, Spends, hello, literal, literal_number, named};
ghost use Rattle.tm_rows.specs.GuardRows.{depth_inside_plain, changed_without, named_loop, each_of_loop};
ghost use Rattle.tm_rows.specs.GuardRows.{inner_before_outer, context_before_globals, of_globals, in_scope};
ghost use Rattle.tm_rows.specs.GuardRows.{scopes_seen, globals_seen, name_seen, called_in_block};
ghost use Rattle.tm_rows.specs.GuardRows.{block_under_escape, stored_in_block, escape_seen_under};
ghost use Rattle.tm_rows.specs.GuardRows.{foreign_changed, plain_inside_called, lost_context};
ghost use Rattle.tm_rows.specs.GuardRows.{undefined_under, formatted_under};

/// The attributes and methods of `loop`: its depth in a loop that can't be called, `changed()`
/// without arguments, `loop` as a target, and its indices.
pub fn loop_guards()
    ensures depth { Shows depth_inside_plain (decimal 1) }
    ensures changed { Shows changed_without (codes "truefalse") }
    ensures names_first { Shows named_loop (decimal 1) }
    ensures index0 { Shows (each_of_loop (codes "index0")) (decimal 0 ++ codes ";" ++ decimal 1 ++ codes ";") }
    ensures first { Shows (each_of_loop (codes "first")) (codes "true;false;") }
    ensures last { Shows (each_of_loop (codes "last")) (codes "false;true;") }
    ensures length { Shows (each_of_loop (codes "length")) (decimal 2 ++ codes ";" ++ decimal 2 ++ codes ";") }
    ensures previous { Shows (each_of_loop (codes "previtem")) (codes ";" ++ decimal 1 ++ codes ";") }
    ensures following { Shows (each_of_loop (codes "nextitem")) (decimal 2 ++ codes ";;") }
    ensures no_such { Shows (each_of_loop (codes "other")) (codes ";;") }
{}

/// The innermost scope's names are looked up first, then the context, then the globals.
pub fn look_up_guards()
    ensures inner { Shows inner_before_outer (decimal 1 ++ decimal 2) }
    ensures context { Shows context_before_globals (decimal 2) }
    ensures globals { Shows of_globals (decimal 3) }
    ensures lost { Fails lost_context [] (InvalidOperation ∷ []) }
{}

/// What a function sees of the state that calls it.
pub fn view_guards()
    ensures scopes { Shows (in_scope scopes_seen) (decimal 2) }
    ensures globals { Shows (in_scope globals_seen) (decimal 2) }
    ensures name { Shows (in_scope name_seen) (codes "page") }
    ensures html { Shows (escape_seen_under (literal (codes "html"))) (codes "html") }
    ensures json { Shows (escape_seen_under (literal (codes "json"))) (codes "json") }
    ensures none { Shows (escape_seen_under (literal (codes "none"))) (codes "none") }
{}

/// The text written for an undefined value, and what is refused before a formatter is called.
pub fn emission_guards()
    ensures lenient { Shows (undefined_under Lenient) [] }
    ensures strict { Fails (undefined_under Strict) [] (UndefinedError ∷ []) }
    ensures formatted { Shows (formatted_under Lenient (literal_number 1)) (codes "F") }
    ensures refused_first { Fails (formatted_under Strict (named (codes "a"))) [] (UndefinedError ∷ []) }
    ensures asked { Shows (formatted_under Lenient (named (codes "a"))) (codes "F") }
{}

/// `Hello {{ name }}!` takes 4 of 10 units of fuel; of 3 units none is left.
pub fn fuel_guards()
    ensures levels { Spends hello 10 (Some (4, 6)) }
    ensures none_left { Spends hello 3 (Some (3, 0)) }
{}

/// A loop can be called only in its own stream, and a block is another stream. The innermost loop
/// is called, which must be recursive. A loop of another state has no methods.
pub fn call_guards()
    ensures innermost { Fails plain_inside_called [] (InvalidOperation ∷ []) }
    ensures foreign { Fails foreign_changed [] (InvalidOperation ∷ []) }
    ensures in_block { Fails called_in_block [] (InvalidOperation ∷ []) }
{}

/// A block has the escape at its tag, and a scope of its own.
pub fn block_guards()
    ensures escape { Shows block_under_escape (codes "&lt;<") }
    ensures scope { Shows stored_in_block (decimal 2 ++ decimal 1) }
{}
