//! Included and imported templates: their code, and sources that aren't templates.

/// Sources and their code.
pub(crate) static CODES: [&str; 16] = [
    "{% include \"a\" %} => #a include",
    "{% include [a, \"b\"] ignore missing %} => $a #b list:2 include?",
    "{% include a is b ignore missing %} => $a test:b1@0 include?",
    "{% include a if b %} => $b if-false:4 $a jump:5 #silent include",
    "{% include ignore ignore missing %} => $ignore include?",
    "{% for a in b %}{% include a %}{% endfor %} => $b loop iterate:7 store:a $a include jump:2 looped",
    "{% import \"a\" as b %} => capture with #a include! captured module leave store:b",
    "{% import a as b.c %} => capture with $a include! captured module leave $b set:c",
    "{% import a as b, (c) %} => capture with $a include! captured module leave unpack:2 store:b store:c",
    "{% import a is b as c %} => capture with $a test:b1@0 include! captured module leave store:c",
    "{% import as as as %} => capture with $as include! captured module leave store:as",
    "{% from \"a\" import b %} => discard with #a include! $b leave store:b captured drop",
    "{% from a import b as c, d, b as e, %} => discard with $a include! $b $d $b leave store:e store:d store:c captured drop",
    "{% from a is b import c %} => discard with $a test:b1@0 include! $c leave store:c captured drop",
    "{% from import import as as import, import %} => discard with $import include! $as $import leave store:import store:import captured drop",
    r#"{% macro m(a) %}{% import a as b %}{{ b }}{{ c }}{% endmacro %} => jump:15 store:a capture with $a include! captured module leave store:b $b emit $c emit return enclose:c closure #["a"] macro:m1 store:m"#,
];

/// Sources that spell no template.
pub(crate) static REFUSED: [&str; 22] = [
    "{% include %}",
    "{% include a ignore %}",
    "{% include a missing %}",
    "{% include a ignore missing missing %}",
    "{% include a, b %}",
    "{% include a %}{% endinclude %}",
    "{% import a %}",
    "{% import a as %}",
    "{% import a as 1 %}",
    "{% import a as b[c] %}",
    "{% import a as b = c %}",
    "{% import as b %}",
    "{% import a as b %}{% endimport %}",
    "{% from a %}",
    "{% from a import %}",
    "{% from a import , %}",
    "{% from a import b,, %}",
    "{% from a import b c %}",
    "{% from a import b as %}",
    "{% from a import b as c.d %}",
    "{% from a import b.c %}",
    "{% from a import b, if %}",
];
