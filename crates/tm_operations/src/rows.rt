//! Worked examples: calls of `range`, `dict` and `namespace`, values with their namespaces replaced
//! by maps, and the order of values that no template can create.
ghost use Rattle.std.specs.Prelude.{[], ◌∷◌, pos, negsuc, true, Some, None, codes};
ghost use Rattle.tm_operations.specs.Rows.{RangeIs, RangeFails, DictIs, DictFails, NamespaceIs, numbers, letter, a_is, b_is, map_of};
ghost use Rattle.tm_operations.specs.Rows.{keywords_given, macro_at, IsBelow, MapsAre, MapsFail};
ghost use Rattle.tm_values.specs.Val.{none, boolean, number, list, exports, function, loop, namespace, pairs_of, vals_of};
ghost use Rattle.tm_values.specs.declared.error.ErrorKind.TheVariants.{InvalidOperation, MissingArgument, TooManyArguments};

/// `range(4)`, `range(0, 4, 1)`, `range(5, 0, -2)`, `range(2, none)`, `range(2, 0)`, and ranges at
/// the limits of 64-bit numbers.
pub fn range_rows()
    ensures one { RangeIs (numbers (4 ∷ [])) (pos 0 ∷ pos 1 ∷ pos 2 ∷ pos 3 ∷ []) }
    ensures three { RangeIs (numbers (0 ∷ 4 ∷ 1 ∷ [])) (pos 0 ∷ pos 1 ∷ pos 2 ∷ pos 3 ∷ []) }
    ensures down { RangeIs (number (pos 5) ∷ number (pos 0) ∷ number (negsuc 1) ∷ [])
        (pos 5 ∷ pos 3 ∷ pos 1 ∷ []) }
    ensures absent { RangeIs (number (pos 2) ∷ none ∷ []) (pos 0 ∷ pos 1 ∷ []) }
    ensures none { RangeIs (numbers (2 ∷ 0 ∷ [])) [] }
    ensures highest { RangeIs (numbers (9223372036854775806 ∷ 9223372036854775807 ∷ []))
        (pos 9223372036854775806 ∷ []) }
    ensures far { RangeIs (number (pos 0) ∷ number (negsuc 9223372036854775806)
        ∷ number (negsuc 9223372036854775806) ∷ []) (pos 0 ∷ []) }
{}

/// `range()`, `range("a")`, `range(true)`, a number of more than 64 bits, `range(1, 2, 0)`,
/// `range(100001)`, and four arguments with a text as the last or the first one.
pub fn range_faults()
    ensures missing { RangeFails [] MissingArgument }
    ensures text { RangeFails (letter ∷ []) InvalidOperation }
    ensures truth { RangeFails (boolean true ∷ []) InvalidOperation }
    ensures wide { RangeFails (numbers (9223372036854775808 ∷ [])) InvalidOperation }
    ensures no_step { RangeFails (numbers (1 ∷ 2 ∷ 0 ∷ [])) InvalidOperation }
    ensures long { RangeFails (numbers (100001 ∷ [])) InvalidOperation }
    ensures four { RangeFails (numbers (1 ∷ 2 ∷ 3 ∷ 4 ∷ [])) TooManyArguments }
    ensures last_text { RangeFails (number (pos 1) ∷ number (pos 2) ∷ number (pos 3) ∷ letter ∷ [])
        TooManyArguments }
    ensures keywords { RangeFails (number (pos 1) ∷ keywords_given [] ∷ []) InvalidOperation }
    ensures first_text { RangeFails (letter ∷ numbers (1 ∷ 1 ∷ 1 ∷ [])) InvalidOperation }
{}

/// `dict()`, `dict({"a": 1}, a=2, b=3)`, and refused calls: `dict(1)`, `dict({}, {})`,
/// `dict(1, {})`, and a keyword map before another argument.
pub fn dict_rows()
    ensures nothing { DictIs [] [] }
    ensures both { DictIs (map_of (a_is 1 ∷ []) ∷ keywords_given (a_is 2 ∷ b_is 3 ∷ []) ∷ [])
        (a_is 2 ∷ b_is 3 ∷ []) }
    ensures keywords { DictIs (keywords_given (a_is 2 ∷ []) ∷ []) (a_is 2 ∷ []) }
    ensures module { DictIs (exports (pairs_of (a_is 1 ∷ [])) [] ∷ []) (a_is 1 ∷ []) }
    ensures number { DictFails (numbers (1 ∷ [])) InvalidOperation }
    ensures two { DictFails (map_of [] ∷ map_of [] ∷ []) TooManyArguments }
    ensures first { DictFails (number (pos 1) ∷ map_of [] ∷ []) InvalidOperation }
    ensures early { DictFails (keywords_given [] ∷ number (pos 1) ∷ []) InvalidOperation }
{}

/// `namespace()`, `namespace({"a": 1}, b=2)` and `namespace({1: 2})`.
pub fn namespace_rows()
    ensures nothing { NamespaceIs [] [] }
    ensures both { NamespaceIs (map_of (a_is 1 ∷ []) ∷ keywords_given (b_is 2 ∷ []) ∷ [])
        (a_is 1 ∷ b_is 2 ∷ []) }
    ensures no_text { NamespaceIs (map_of ((number (pos 1), number (pos 2)) ∷ []) ∷ []) [] }
{}

/// `[namespace(a=1)]`, and a namespace in another one, in a map whose key is a namespace, and in a
/// module; a loop stays. A namespace that contains itself, has no record, or belongs to another
/// state has no map.
pub fn mapped_rows()
    ensures list { MapsAre ((a_is 1 ∷ []) ∷ []) (list (vals_of (namespace 0 0 ∷ [])))
        (list (vals_of (map_of (a_is 1 ∷ []) ∷ []))) }
    ensures nested { MapsAre (((letter, namespace 0 1) ∷ []) ∷ (b_is 2 ∷ []) ∷ []) (namespace 0 0)
        (map_of ((letter, map_of (b_is 2 ∷ [])) ∷ [])) }
    ensures key { MapsAre ([] ∷ []) (map_of ((namespace 0 0, namespace 0 0) ∷ []))
        (map_of ((namespace 0 0, map_of []) ∷ [])) }
    ensures module { MapsAre ([] ∷ []) (exports (pairs_of ((letter, namespace 0 0) ∷ [])) [])
        (exports (pairs_of ((letter, map_of []) ∷ [])) []) }
    ensures keywords { MapsAre ([] ∷ []) (keywords_given ((letter, namespace 0 0) ∷ []))
        (keywords_given ((letter, map_of []) ∷ [])) }
    ensures record { MapsAre [] (loop 0 0) (loop 0 0) }
    ensures itself { MapsFail (((letter, list (vals_of (namespace 0 0 ∷ []))) ∷ []) ∷ [])
        (namespace 0 0) }
    ensures missing { MapsFail [] (namespace 0 0) }
    ensures other { MapsFail ([] ∷ []) (namespace 1 0) }
{}

/// The order of keyword maps, modules, functions, macros, loops and namespaces.
pub fn order_rows()
    ensures keywords { IsBelow (map_of (a_is 1 ∷ [])) (keywords_given []) }
    ensures module { IsBelow (keywords_given []) (exports (pairs_of []) (codes "m")) }
    ensures function { IsBelow (exports (pairs_of []) (codes "m")) (function 0) }
    ensures functions { IsBelow (function 0) (function 3) }
    ensures declared { IsBelow (function 3) (macro_at 0 None (codes "n")) }
    ensures entries { IsBelow (macro_at 0 None (codes "n")) (macro_at 1 None (codes "m")) }
    ensures closures { IsBelow (macro_at 1 None (codes "m")) (macro_at 1 (Some 0) (codes "a")) }
    ensures record { IsBelow (macro_at 1 (Some 0) (codes "a")) (loop 1 5) }
    ensures states { IsBelow (loop 1 5) (loop 2 0) }
    ensures namespace { IsBelow (loop 2 0) (namespace 0 0) }
{}
