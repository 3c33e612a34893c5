//! Worked renders: each clause states what a page means, and the result of its code on the machine.
ghost use Rattle.std.specs.Prelude.{[], ◌∷◌, ◌++◌, true, false, codes, pos};
ghost use Rattle.std.specs.Fmt.{decimal};
ghost use Rattle.tm_values.specs.Val.{boolean, function, map, no_pairs, number};
ghost use Rattle.tm_values.specs.declared.error.ErrorKind.TheVariants.{CannotUnpack, InvalidOperation, MissingArgument, UndefinedError};
ghost use Rattle.tm_values.specs.declared.error.ErrorKind.TheVariants.{UnknownFunction, UnknownMethod, WriteFailure, BadStream};
ghost use Rattle.tm_values.specs.declared.error.ErrorKind.TheVariants.{OutOfMemory};
ghost use Rattle.tm_rows.specs.Rows.{Pays, StopsAt, StopsAtEach, Charges, Shows, Fails, FailsAfter, LeavesNames, Lacks, Restores, empty, text_alone, two_names};
ghost use Rattle.tm_rows.specs.Rows.{one_name, nothing, with_value, hello, either_text, of_three, empty_condition};
ghost use Rattle.tm_rows.specs.Rows.{shown, a, a_and_b_c, a_or_x, not_equal, a_b, literal_number, three_in_a_row};
ghost use Rattle.tm_rows.specs.Rows.{false_before_fault, no_value, one_condition, two_conditions, in_block};
ghost use Rattle.tm_rows.specs.Rows.{block_not_reached, fault_in_block, with_two, empty_with, set_two, set_two_of_one};
ghost use Rattle.tm_rows.specs.Rows.{set_attribute, literal, set_block, set_under, escaped_by, fault_in_capture};
ghost use Rattle.tm_rows.specs.Rows.{set_block_of_two, literal_truth};
ghost use Rattle.tm_rows.specs.LoopRows.{each_number, no_round, broken_round, break_in_capture, continue_in_scope};
ghost use Rattle.tm_rows.specs.LoopRows.{loop_members, set_in_round, chosen, chosen_alone, chosen_index};
ghost use Rattle.tm_rows.specs.LoopRows.{chosen_by_loop, over_a_number};
ghost use Rattle.tm_rows.specs.CallRows.{changed_or_not, by_turns, by_no_turns, no_method_of_loops, method_of_map};
ghost use Rattle.tm_rows.specs.CallRows.{method_of_undefined, called_in_place, called_over_a_number};
ghost use Rattle.tm_rows.specs.CallRows.{not_recursive, no_loop_to_call, called_with_too_many};
ghost use Rattle.tm_rows.specs.CallRows.{below, depth_inside_recursive, line_as_value, tree_in_place, tree_as_value};
ghost use Rattle.tm_rows.specs.CallRows.{called_after_its_end, range_of_three, range_by_name, dict_by_names};
ghost use Rattle.tm_rows.specs.CallRows.{summed, do_call, last_function, faulty, calling, keep_and_read};
ghost use Rattle.tm_rows.specs.CallRows.{unknown_after};
ghost use Rattle.tm_rows.specs.FilterRows.{in_capitals, one_after_the_other, not_odd, divided, not_divided};
ghost use Rattle.tm_rows.specs.Rows.{x};
ghost use Rattle.tm_rows.specs.SpreadRows.{sum_of_lists, sum_of_both, sum_of_items, spread_to_filter};
ghost use Rattle.tm_rows.specs.SpreadRows.{dict_of_maps, dict_between, dict_of_pairs, range_of_both};
ghost use Rattle.tm_rows.specs.SpreadRows.{namespace_of_one, called_item, called_number, called_text};
ghost use Rattle.tm_rows.specs.FilterRows.{is_unsure, under, unknown, filtered_by, tested_by};
ghost use Rattle.tm_rows.specs.FilterRows.{upper_by, second_by, odd_by, unsure_by, EndsIn};
ghost use Rattle.tm_rows.specs.FilterRows.{further_of, further_of_function, further_of_test};
ghost use Rattle.tm_rows.specs.FilterRows.{further_within, with_limit};
ghost use Rattle.tm_rows.specs.FurtherRows.{further_by, calling_escaped, calling_in_scope, calling_loop, calling_block};
ghost use Rattle.tm_rows.specs.FurtherRows.{block_again, calling_block_plain, fails, testing_block};
ghost use Rattle.tm_rows.specs.Rows.{raw};
ghost use Rattle.tm_rows.specs.FilterRows.{filter_block, two_filters, last_counts, set_filtered};
ghost use Rattle.tm_rows.specs.FilterRows.{capitals_in_html, safe_in_html, break_in_filter, fault_in_filter};
ghost use Rattle.tm_rows.specs.ObjectRows.{by_name, emitted_none, keeps_and_faults, method_of_function, no_zero};
ghost use Rattle.tm_rows.specs.ObjectRows.{none_as_undefined, with_formatter, with_methods, zero_between};
ghost use Rattle.tm_trees.specs.Trees.applications.{Filter, Test, NegatedTest};
ghost use Rattle.tm_values.specs.declared.undefined.UndefinedBehavior.TheVariants.{SemiStrict, Strict};
ghost use Rattle.tm_values.specs.declared.error.ErrorKind.TheVariants.{BadStream, UnknownBlock, UnknownFilter, UnknownTest};

/// `Hello {{ name }}!` with the name World takes 4 charges. With less fuel, it stops when the fuel
/// runs out.
pub fn hello_rows()
    ensures charges { Charges hello (codes "Hello World!") 4 }
    ensures paid { Pays hello 4 (codes "Hello World!") }
    ensures before_the_mark { StopsAt hello 3 (codes "Hello World") }
    ensures before_the_emission { StopsAt hello 2 (codes "Hello ") }
    ensures before_the_look_up { StopsAt hello 1 (codes "Hello ") }
    ensures before_the_text { StopsAt hello 0 [] }
    ensures no_fuel_set { Shows hello (codes "Hello World!") }
{}

/// An empty template, `x`, and `{{ "}}" }}`, whose tree is the same with brackets around the
/// literal.
pub fn text_rows()
    ensures empty { Pays empty 0 [] }
    ensures text { Charges (text_alone (codes "x")) (codes "x") 1 }
    ensures literal { Charges (shown (literal (codes "}}")) nothing) (codes "}}") 2 }
{}

/// `{{ a }}{{ b }}`, with A and B and with x and an undefined name, takes 4 charges. With less
/// fuel, it stops when the fuel runs out.
pub fn two_names_rows()
    ensures paid { Pays two_names 4 (codes "AB") }
    ensures after_the_first { StopsAtEach two_names (2 ∷ 3 ∷ []) (codes "A") }
    ensures before_the_first { StopsAt two_names 1 [] }
    ensures undefined_paid { Charges one_name (codes "x") 4 }
    ensures undefined_not_reached { StopsAtEach one_name (2 ∷ 3 ∷ []) (codes "x") }
    ensures before_the_only_text { StopsAt one_name 1 [] }
{}

/// `{% if a %}x{% else %}y{% endif %}`, `{% if a %}1{% elif b %}2{% else %}3{% endif %}` and
/// `{% if a %}{% endif %}`.
pub fn condition_rows()
    ensures other { Charges (either_text nothing) (codes "y") 3 }
    ensures first { Charges (either_text (with_value (codes "a") (boolean true))) (codes "x") 4 }
    ensures second { Charges (of_three (with_value (codes "b") (boolean true))) (codes "2") 6 }
    ensures empty { Charges empty_condition [] 2 }
{}

/// `{{ a and b.c }}`, `{{ a or "x" }}` and `{{ not a == b }}`, with undefined names.
pub fn operator_rows()
    ensures and { Charges (shown a_and_b_c nothing) [] 3 }
    ensures or { Charges (shown a_or_x nothing) (codes "x") 4 }
    ensures not { Charges (shown not_equal nothing) (codes "false") 5 }
{}

/// `{{ a.b }}`, with an undefined a, and with a map without b.
pub fn attribute_rows()
    ensures undefined { Fails (shown a_b nothing) [] (UndefinedError ∷ []) }
    ensures missing { Charges (shown a_b (with_value (codes "a") (map no_pairs))) [] 3 }
{}

/// `{{ 1 < 2 < 3 }}`, `{{ 3 < 2 < 1 }}` and `{{ 1 < 2 < 3 < 0 < nope.x }}`: what follows a false
/// comparison isn't evaluated.
pub fn chain_rows()
    ensures true_row { Charges (shown (three_in_a_row 1 2 3) nothing) (codes "true") 8 }
    ensures false_row { Charges (shown (three_in_a_row 3 2 1) nothing) (codes "false") 6 }
    ensures stops { Charges (shown false_before_fault nothing) (codes "false") 12 }
{}

/// `{{ 1 if false }}`, `{{ 1 if true else 2 }}`, `{{ 1 if true if false else 2 }}` and
/// `{{ 1 if false if true else 2 }}`: the last condition is evaluated first.
pub fn conditional_rows()
    ensures no_value { Charges (shown (one_condition false no_value) nothing) [] 4 }
    ensures value { Charges (shown (one_condition true (literal_number 2)) nothing) (decimal 1) 5 }
    ensures last_false { Charges (shown (two_conditions true false) nothing) (decimal 2) 4 }
    ensures first_false { Charges (shown (two_conditions false true) nothing) [] 7 }
{}

/// `{% block b %}x{{ a }}{% endblock %}y`; a block that isn't reached; and one that fails inside an
/// escape and a scope, after which everything that the run replaced is restored.
pub fn block_rows()
    ensures charges { Charges (in_block 500) (codes "xy") 5 }
    ensures deep_enough { Charges (in_block 2) (codes "xy") 5 }
    ensures too_deep { Fails (in_block 1) [] (InvalidOperation ∷ []) }
    ensures out_of_fuel { StopsAt (in_block 500) 2 (codes "x") }
    ensures not_reached { Charges block_not_reached (codes "[") 3 }
    ensures fault { Fails fault_in_block (codes "x") (UnknownFunction ∷ []) }
    ensures restores { Restores fault_in_block }
{}

/// `{% with a = 1, b = a %}{{ b }}{% endwith %}{{ b }}`, `{% with %}{% endwith %}`,
/// `{% set a, b = 1, 2 %}{{ a }}{{ b }}`, `{% set a, b = [1] %}`, `{% set a.b = 1 %}` and
/// `{% do f() %}x`.
pub fn scope_rows()
    ensures with_two { Charges with_two (decimal 1) 8 }
    ensures deep_enough { Charges (empty_with 2) [] 0 }
    ensures too_deep { Fails (empty_with 1) [] (InvalidOperation ∷ []) }
    ensures set_two { Charges set_two (decimal 1 ++ decimal 2) 10 }
    ensures set_two_of_one { Fails set_two_of_one [] (CannotUnpack ∷ []) }
    ensures set_attribute { Fails set_attribute [] (InvalidOperation ∷ []) }
    ensures do_call { Charges do_call (codes "x") 2 }
{}

/// `{% set x %}a{{ 1 }}{% endset %}{{ x }}`, `b{% set x %}a{{ nope() }}{% endset %}`,
/// `{% set a, b %}1{% endset %}`, and how texts are escaped in a set block or when emitted under
/// `{% autoescape e %}`.
pub fn capture_rows()
    ensures set_block { Charges set_block (codes "a" ++ decimal 1) 7 }
    ensures fuel_ends_inside { StopsAt set_block 2 [] }
    ensures fault_inside { Fails fault_in_capture (codes "b") (UnknownFunction ∷ []) }
    ensures not_unpacked { Fails set_block_of_two [] (CannotUnpack ∷ []) }
    ensures not_safe { Charges (set_under (literal_truth false)) (codes "&lt;") 7 }
    ensures safe { Charges (set_under (literal_truth true)) (codes "<") 7 }
    ensures named { Charges (escaped_by (literal (codes "html"))) (codes "&lt;<") 5 }
    ensures switched_on { Charges (escaped_by (literal_number 1)) (codes "&lt;<") 5 }
    ensures switched_off { Charges (escaped_by (literal_number 2)) (codes "<<") 5 }
    ensures no_such { Fails (escaped_by (literal (codes "xml"))) [] (InvalidOperation ∷ []) }
{}

/// `{% for x in [1,2] %}{{ x }}{% endfor %}` with each fuel up to 14; loops without items; loops
/// with `break` and `continue`; and `loop`.
pub fn loop_rows()
    ensures charges { Charges each_number (decimal 1 ++ decimal 2) 14 }
    ensures paid { Pays each_number 14 (decimal 1 ++ decimal 2) }
    ensures after_both { StopsAtEach each_number (12 ∷ 13 ∷ []) (decimal 1 ++ decimal 2) }
    ensures after_the_first { StopsAtEach each_number (7 ∷ 8 ∷ 9 ∷ 10 ∷ 11 ∷ []) (decimal 1) }
    ensures before_the_first { StopsAtEach each_number (below 7) [] }
    ensures no_round { Charges no_round (codes "E") 4 }
    ensures broken { Charges broken_round [] 6 }
    ensures capture { Charges break_in_capture (codes "[]") 11 }
    ensures scope { Charges continue_in_scope (decimal 1 ++ decimal 2) 14 }
    ensures members { Charges loop_members (decimal 2 ++ decimal 1 ++ decimal 1) 22 }
    ensures forgotten { Charges set_in_round [] 18 }
    ensures number { Fails over_a_number [] (InvalidOperation ∷ []) }
{}

/// `{% for x in [1,2] if x > 1 %}{{ x }}{% endfor %}`, with an else part, with a condition that
/// selects no item, and `loop` in the body and in the condition.
pub fn loop_condition_rows()
    ensures alone { Charges chosen_alone (decimal 2) 29 }
    ensures last { StopsAt chosen_alone 28 (decimal 2) }
    ensures chosen { Charges (chosen 1) (decimal 2) 30 }
    ensures none { Charges (chosen 2) (codes "E") 23 }
    ensures index { Charges chosen_index (decimal 1) 30 }
    ensures no_loop { Charges chosen_by_loop (codes "E") 19 }
{}

/// `{{ range(3) }}`, `{{ range(a=3) }}`, `{{ dict(m, a=2, b=3) }}` with a constant map, and `{% set
/// ns = namespace(n=0) %}{% for x in [1,2] %}{% set ns.n = ns.n + x %}{% endfor %}{{ ns.n }}`.
pub fn function_rows()
    ensures range { Charges range_of_three
        (codes "[" ++ decimal 0 ++ codes ", " ++ decimal 1
        ++ codes ", " ++ decimal 2 ++ codes "]") 3 }
    ensures by_name { Fails range_by_name [] (InvalidOperation ∷ []) }
    ensures dict { Charges dict_by_names
        (codes "{\"a\": " ++ decimal 2 ++ codes ", \"b\": " ++ decimal 3 ++ codes "}") 8 }
    ensures summed { Charges summed (decimal 3) 30 }
{}

/// `{% for x in [1,1,2] %}{{ loop.changed(x) }} {% endfor %}`, `loop.cycle("x", "y")` and
/// `loop.cycle()` in loops, `loop.index()`, `{{ m.f("a") }}` with a map m that has a function or a
/// number at f, and `{{ nope.m() }}`.
pub fn method_rows()
    ensures changed { Charges changed_or_not (codes "true false true ") 29 }
    ensures cycle { Charges by_turns (codes "xyx") 29 }
    ensures no_turns { Charges by_no_turns [] 16 }
    ensures index { Fails no_method_of_loops [] (UnknownMethod ∷ []) }
    ensures function { Charges (method_of_map (function 0)) (codes "a") 4 }
    ensures number { Fails (method_of_map (boolean true)) [] (InvalidOperation ∷ []) }
    ensures undefined { Fails method_of_undefined [] (UnknownMethod ∷ []) }
{}

/// `{{ f("a", 1) }}`, `{{ f() }}{{ g() }}` and `a{{ nope(f()) }}`, for different results of f.
pub fn call_rows()
    ensures last { Charges (calling last_function) (decimal 1) 4 }
    ensures fault { Fails (calling (faulty (MissingArgument ∷ []))) [] (MissingArgument ∷ []) }
    ensures write { Fails (calling (faulty (WriteFailure ∷ []))) [] (WriteFailure ∷ []) }
    ensures stream { Fails (calling (faulty (BadStream ∷ []))) [] (BadStream ∷ []) }
    ensures memory { Fails (calling (faulty (OutOfMemory ∷ []))) [] (OutOfMemory ∷ []) }
    ensures kept { Charges keep_and_read (decimal 2 ++ decimal 1) 4 }
    ensures left { LeavesNames keep_and_read ((codes "k", number (pos 1)) ∷ []) }
    ensures no_name { Lacks keep_and_read (codes "k") }
    ensures arguments_first { Fails (unknown_after (faulty (MissingArgument ∷ []))) (codes "a")
        (MissingArgument ∷ []) }
    ensures not_found { Fails (unknown_after last_function) (codes "a") (UnknownFunction ∷ []) }
{}

/// `{{ "a"|upper }}`, `{{ 1|second("b")|upper }}`, `{{ 1 is not odd }}`, `{{ 6 is divisible 3 }}`,
/// `{{ not 6 is divisible 3 }}`, a test that returns undefined, under Strict, and unknown filters
/// and tests.
pub fn filter_rows()
    ensures upper { Charges in_capitals (codes "A") 3 }
    ensures chain { Charges one_after_the_other (codes "B") 5 }
    ensures not_odd { Charges not_odd (codes "false") 4 }
    ensures divisible { Charges divided (codes "true") 4 }
    ensures negated { Charges not_divided (codes "false") 5 }
    ensures unsure { Charges (under Strict is_unsure) (codes "false") 3 }
    ensures no_filter { Fails (unknown Filter (codes "odd")) [] (UnknownFilter ∷ []) }
    ensures no_test { Fails (unknown Test (codes "upper")) [] (UnknownTest ∷ []) }
    ensures no_negated { Fails (unknown NegatedTest (codes "upper")) [] (UnknownTest ∷ []) }
{}

/// `{{ sum(*[1], 2, *[3, 4]) }}`, `{{ sum(1, *[2]) }}`, `{{ sum(*x) }}` with an undefined x, also
/// under Strict, `{{ sum(*5) }}`, and `{{ 1|second(*["b"]) }}`.
pub fn spread_rows()
    ensures lists { Charges sum_of_lists (decimal 10) 10 }
    ensures both { Charges sum_of_both (decimal 3) 7 }
    ensures undefined { Charges (sum_of_items x) (decimal 0) 4 }
    ensures strict { Charges (under Strict (sum_of_items x)) (decimal 0) 4 }
    ensures number { FailsAfter (sum_of_items (literal_number 5)) [] (InvalidOperation ∷ []) 2 }
    ensures filter { Charges spread_to_filter (codes "b") 7 }
{}

/// `{{ dict(**{"a": 1}, **{"a": 2}, b=3) }}`, `{{ dict(a=1, **{"b": 2}, c=3) }}`,
/// `{{ dict(**namespace(z=1)) }}`, `{{ dict(**x) }}` with an undefined x, `{{ dict(**1) }}` and
/// `{{ range(*[1], **{}) }}`.
pub fn spread_keyword_rows()
    ensures maps { Charges dict_of_maps
        (codes "{\"a\": " ++ decimal 2 ++ codes ", \"b\": " ++ decimal 3 ++ codes "}") 12 }
    ensures between { Charges dict_between (codes "{\"a\": " ++ decimal 1 ++ codes ", \"b\": "
        ++ decimal 2 ++ codes ", \"c\": " ++ decimal 3 ++ codes "}") 12 }
    ensures namespace { Charges (dict_of_pairs namespace_of_one)
        (codes "{\"z\": " ++ decimal 1 ++ codes "}") 7 }
    ensures undefined { Fails (dict_of_pairs x) [] (InvalidOperation ∷ []) }
    ensures semi_strict { Fails (under SemiStrict (dict_of_pairs x)) [] (UndefinedError ∷ []) }
    ensures number { Fails (dict_of_pairs (literal_number 1)) [] (InvalidOperation ∷ []) }
    ensures range { Fails range_of_both [] (InvalidOperation ∷ []) }
{}

/// `{{ [sum][0](1, 2) }}`, `{{ sum(1)(2) }}` and `{{ "x"() }}`.
pub fn callee_rows()
    ensures item { Charges called_item (decimal 3) 8 }
    ensures number { FailsAfter called_number [] (InvalidOperation ∷ []) 4 }
    ensures text { FailsAfter called_text [] (InvalidOperation ∷ []) 2 }
{}

/// `{% filter upper %}a{{ "1" }}b{% endfilter %}`, `{% filter upper|substr(1) %}ab{% endfilter %}`,
/// `{% filter upper|second("b") %}a{% endfilter %}`, how the texts of filter blocks are escaped,
/// `{% set x | upper | substr(1) %}ab{% endset %}{{ x }}`, and a filter block that ends by `break`,
/// when the fuel runs out, and by a fault.
pub fn filter_block_rows()
    ensures one_filter { Charges filter_block (codes "A1B") 7 }
    ensures two_filters { Charges two_filters (codes "B") 6 }
    ensures in_order { Charges last_counts (codes "b") 6 }
    ensures not_safe { Charges capitals_in_html (codes "&lt;B&gt;") 5 }
    ensures safe { Charges safe_in_html (codes "<b>&lt;i&gt;") 7 }
    ensures set_block { Charges set_filtered (codes "B") 8 }
    ensures broken { Charges break_in_filter (codes "!") 8 }
    ensures fuel_ends_inside { StopsAt two_filters 4 [] }
    ensures fault_inside { Fails fault_in_filter (codes "a") (UnknownFilter ∷ []) }
{}

/// Filters and tests with cache numbers: one name with one number, with two numbers, and without;
/// two names with one number; and numbers without a cache. The compiler writes only code like the
/// first.
pub fn cache_rows()
    ensures again { EndsIn (filtered_by (upper_by 3 ∷ upper_by 3 ∷ [])) (codes "A") [] }
    ensures two { EndsIn (filtered_by (upper_by 3 ∷ upper_by 0 ∷ [])) (codes "A") [] }
    ensures free { EndsIn (filtered_by (upper_by 255 ∷ second_by 255 ∷ [])) [] [] }
    ensures last { EndsIn (filtered_by (upper_by 49 ∷ [])) (codes "A") [] }
    ensures other { EndsIn (filtered_by (upper_by 3 ∷ second_by 3 ∷ [])) [] (BadStream ∷ []) }
    ensures past { EndsIn (filtered_by (upper_by 50 ∷ [])) [] (BadStream ∷ []) }
    ensures below { EndsIn (filtered_by (upper_by 254 ∷ [])) [] (BadStream ∷ []) }
    ensures test { EndsIn (tested_by (odd_by 0 ∷ odd_by 0 ∷ [])) (codes "false") [] }
    ensures other_test { EndsIn (tested_by (odd_by 0 ∷ unsure_by 0 ∷ [])) [] (BadStream ∷ []) }
    ensures past_tests { EndsIn (tested_by (odd_by 50 ∷ [])) [] (BadStream ∷ []) }
{}

/// Further calls of a filter. `{{ f() }}`, alone and in a scope, where f asks for `upper` of a, and
/// `{{ "a"|twice }}`, which asks for `upper` of its text doubled; each under a limit with room for
/// one more level, and without. `{{ "a"|again }}`, which asks for itself. Values kept before a
/// further call, which sees them. And a filter that doesn't exist.
pub fn further_rows()
    ensures function { Charges (with_limit 2 further_of_function) (codes "A") 2 }
    ensures too_deep { Fails (with_limit 1 further_of_function) [] (InvalidOperation ∷ []) }
    ensures scope { Shows (with_limit 3 further_within) (codes "A") }
    ensures scope_too_deep { Fails (with_limit 2 further_within) [] (InvalidOperation ∷ []) }
    ensures filter { Charges (with_limit 2 (further_of (codes "twice"))) (codes "AA") 3 }
    ensures filter_too_deep { Fails (with_limit 1 (further_of (codes "twice"))) []
        (InvalidOperation ∷ []) }
    ensures test { Shows (with_limit 2 further_of_test) (codes "true") }
    ensures endless { Fails (with_limit 5 (further_of (codes "again"))) [] (InvalidOperation ∷ []) }
    ensures fault { Fails (further_of (codes "kept")) [] (MissingArgument ∷ []) }
    ensures fault_kept { LeavesNames (further_of (codes "kept")) ((codes "k", number (pos 1)) ∷ []) }
    ensures sees { Shows (further_of (codes "with_k")) (decimal 1) }
    ensures unknown { Fails (further_of (codes "unknown")) [] (UnknownFilter ∷ []) }
    ensures kept { LeavesNames (further_of (codes "unknown")) ((codes "k", number (pos 1)) ∷ []) }
{}

/// Further calls of a name: their text isn't marked safe. A built-in function; a name in a scope,
/// and `loop`, which can't be called this way; a name that isn't found; and calls that are each one
/// level deeper than the last.
pub fn further_macro_rows()
    ensures text { Shows (calling_escaped (codes "by_macro")) (codes "&lt;") }
    ensures direct { Shows (calling_escaped (codes "tag")) (codes "<") }
    ensures charges { Charges (further_by (codes "by_macro")) (codes "<") 2 }
    ensures language { Shows (further_by (codes "by_range"))
        (codes "[" ++ decimal 0 ++ codes ", " ++ decimal 1 ++ codes "]") }
    ensures scope { Fails calling_in_scope [] (InvalidOperation ∷ []) }
    ensures of_loop { Fails calling_loop [] (InvalidOperation ∷ []) }
    ensures not_found { Fails (further_by (codes "by_none")) [] (UnknownFunction ∷ []) }
    ensures two { Shows (with_limit 3 (further_by (codes "by_both"))) (codes "<") }
    ensures too_deep { Fails (with_limit 2 (further_by (codes "by_both"))) [] (InvalidOperation ∷ []) }
{}

/// Further calls of a block, which is otherwise unreachable, or also runs in its place. Its text
/// isn't marked safe, and for a test only its truth counts. Its scope is one level deeper for each
/// call before it. Its fault isn't wrapped, and everything is restored after it. And a block that
/// doesn't exist.
pub fn further_block_rows()
    ensures text { Shows (calling_block (raw (codes "<")) (codes "by_block")) (codes "&lt;") }
    ensures fits { Shows (with_limit 3 (calling_block (raw (codes "x")) (codes "by_block")))
        (codes "x") }
    ensures too_deep { Fails (with_limit 2 (calling_block (raw (codes "x")) (codes "by_block"))) []
        (InvalidOperation ∷ []) }
    ensures two_fit { Shows (with_limit 4 (calling_block (raw (codes "x")) (codes "by_two")))
        (codes "x") }
    ensures two_too_deep { Fails (with_limit 3 (calling_block (raw (codes "x")) (codes "by_two")))
        [] (InvalidOperation ∷ []) }
    ensures holds { Shows (testing_block (raw (codes "x"))) (codes "true") }
    ensures empty { Shows (testing_block (raw [])) (codes "false") }
    ensures fault { Fails (calling_block fails (codes "by_block")) [] (UnknownFunction ∷ []) }
    ensures restores { Restores (calling_block (raw (codes "x")) (codes "by_block")) }
    ensures restores_at_fault { Restores (calling_block_plain fails (codes "by_block")) }
    ensures unknown { Fails (further_by (codes "by_block")) [] (UnknownBlock ∷ []) }
    ensures again { Charges (with_limit 3 block_again) (codes "xx") 5 }
    ensures again_too_deep { Fails (with_limit 2 block_again) (codes "x") (InvalidOperation ∷ []) }
{}

/// `{{ sum.x() }}` of a function, `{{ nope.m() }}` of an undefined name under Strict, and
/// `loop.index()`, without a method object and with one that returns the name of the method; a
/// map's own method; and an object that keeps a value and fails.
pub fn method_object_rows()
    ensures without { Fails method_of_function [] (UnknownMethod ∷ []) }
    ensures function { Charges (with_methods by_name method_of_function) (codes "x") 3 }
    ensures undefined_without { Fails (under Strict method_of_undefined) [] (UnknownMethod ∷ []) }
    ensures undefined { Shows (with_methods by_name (under Strict method_of_undefined)) (codes "m") }
    ensures of_loop { Shows (with_methods by_name no_method_of_loops) (codes "indexindex") }
    ensures own_of_loop { Charges (with_methods by_name by_turns) (codes "xyx") 29 }
    ensures own { Shows (with_methods by_name (method_of_map (function 0))) (codes "a") }
    ensures fault { Fails (with_methods keeps_and_faults method_of_function) [] (MissingArgument ∷ []) }
    ensures kept { LeavesNames (with_methods keeps_and_faults method_of_function)
        ((codes "k", number (pos 1)) ∷ []) }
{}

/// `a{{ 0 }}b` with a formatter that fails for 0; `{{ none }}` without a formatter, and with one
/// that writes none like undefined; and, under Strict, an undefined name and `{{ 1 if false }}`.
pub fn formatter_rows()
    ensures fault { Fails (with_formatter no_zero zero_between) (codes "a") (MissingArgument ∷ []) }
    ensures without { Charges emitted_none (codes "none") 2 }
    ensures none { Charges (with_formatter none_as_undefined emitted_none) [] 2 }
    ensures not_asked { Fails (with_formatter no_zero (under Strict (shown a nothing))) []
        (UndefinedError ∷ []) }
    ensures asked { Shows (with_formatter no_zero (under Strict (shown (one_condition false no_value) nothing)))
        (codes "F") }
{}

/// Calls of loops: `{{ loop(x) }}` in place, over `[[]]`, over a number, in a loop that can't be
/// called and outside of loops; `loop(x, 1)`; `loop.depth`; a tree in place and as values; a loop
/// that is called after its end; and a tree as values with each fuel up to its 24 charges.
pub fn recursion_rows()
    ensures in_place { Charges called_in_place (codes "a") 10 }
    ensures number { Fails called_over_a_number [] (InvalidOperation ∷ InvalidOperation ∷ []) }
    ensures not_recursive { Fails not_recursive [] (InvalidOperation ∷ []) }
    ensures no_loop { Fails no_loop_to_call [] (UnknownFunction ∷ []) }
    ensures too_many { Fails called_with_too_many [] (InvalidOperation ∷ []) }
    ensures depth { Shows depth_inside_recursive (decimal 2) }
    ensures tree { Shows tree_in_place (codes "1(2())3()") }
    ensures as_value { Shows tree_as_value (codes "1[2[]]3[]") }
    ensures after_its_end { Shows called_after_its_end (codes "123") }
    ensures unwritten { StopsAtEach line_as_value (below 22) [] }
    ensures written { StopsAtEach line_as_value (22 ∷ 23 ∷ []) (codes "12") }
    ensures paid { Pays line_as_value 24 (codes "12") }
{}
