//! Macros and call tags: their code, and sources that aren't templates.

/// Sources and their code.
pub(crate) static CODES: [&str; 18] = [
    "{% macro m() %}x{% endmacro %} => jump:3 raw:x return closure #[] macro:m1 store:m",
    r#"{% macro m(a, b=a) %}{{ b }}{{ c }}{% endmacro %} => jump:13 copy undefined if-false:6 drop $a store:b store:a $b emit $c emit return enclose:c closure #["a", "b"] macro:m1 store:m"#,
    r#"{% macro m(a=b, b=1) %}{% endmacro m %} => jump:14 copy undefined if-false:6 drop #1 store:b copy undefined if-false:12 drop $b store:a return enclose:b closure #["a", "b"] macro:m1 store:m"#,
    "{% macro m() %}{{ z }}{{ caller() }}{{ a }}{% endmacro %} => jump:8 $z emit call:caller0 emit $a emit return enclose:a enclose:z closure #[] macro!:m1 store:m",
    r#"x{% macro m(caller) %}{% endmacro %} => raw:x jump:4 store:caller return closure #["caller"] macro!:m2 store:m"#,
    r#"{% macro m(a) %}{% macro n(b=a) %}{{ c }}{% endmacro %}{% endmacro %} => jump:19 store:a jump:12 copy undefined if-false:8 drop $a store:b $c emit return enclose:a enclose:c closure #["b"] macro:n3 store:n return enclose:c closure #["a"] macro:m1 store:m"#,
    "{% for x in y %}{% macro m() %}{% for x in y %}{% break %}{% endfor %}{% endmacro %}{% endfor %} => $y loop iterate:19 store:x jump:13 $y loop iterate:11 store:x jump:11 jump:7 looped return enclose:y closure #[] macro:m5 store:m jump:2 looped",
    "{% macro m() %}{% block x %}{{ a }}{% endblock %}{% endmacro %} => jump:3 block:x return enclose:a closure #[] macro:m1 store:m | x $a emit",
    "{% with %}{% macro m() %}{% with %}{% endwith %}{% endmacro %}{% endwith %} => with jump:5 with leave return closure #[] macro:m2 store:m leave",
    "{{ a|f }}{% macro m() %}{{ b|f }}{{ c|g }}{% endmacro %} => $a filter:f1@0 emit jump:11 $b filter:f1@0 emit $c filter:g1@1 emit return enclose:b enclose:c closure #[] macro:m4 store:m",
    "{% call f() %}x{% endcall %} => #caller jump:4 raw:x return closure #[] macro:caller2 named:1 call:f1 emit",
    r#"{% call(n) a.m(b, k=1) %}{{ n }}{% endcall %} => $a $b #k #1 #caller jump:10 store:n $n emit return closure #["n"] macro:caller6 named:2 method:m3 emit"#,
    "{% call a.b()[0].m() %}{{ caller }}{% endcall %} => $a method:b1 #0 item #caller jump:9 $caller emit return closure #[] macro!:caller6 named:1 method:m2 emit",
    "{% call f()(1) %}{% endcall %} => call:f0 #1 #caller jump:5 return closure #[] macro:caller4 named:1 value:3 emit",
    "{% call f(*a, **b) %}{% endcall %} => $a $b #caller jump:5 return closure #[] macro:caller4 named:1 merge:2 list:1 lists:2 call:f* emit",
    "{% call f(1, k=2, **a) %}{% endcall %} => #1 #k #2 named:1 $a #caller jump:8 return closure #[] macro:caller7 named:1 merge:3 call:f2 emit",
    "{% call a.m(1, *b, 2) %}{% endcall %} => $a #1 list:2 $b #2 #caller jump:8 return closure #[] macro:caller7 named:1 list:2 lists:3 method:m* emit",
    "{% for x in y %}{% call f() %}{{ x }}{% endcall %}{% endfor %} => $y loop iterate:17 store:x #caller jump:9 $x emit return enclose:x closure #[] macro:caller6 named:1 call:f1 emit jump:2 looped",
];

/// Sources that spell no template.
pub(crate) static REFUSED: [&str; 10] = [
    "{% for x in [1] %}{% macro m() %}{% break %}{% endmacro %}{% endfor %}",
    "{% for x in [1] %}{% call m() %}{% continue %}{% endcall %}{% endfor %}",
    "{% macro m(a, a) %}{% endmacro %}",
    "{% macro m() %}{% endmacro n %}",
    "{% call 1 %}{% endcall %}",
    "{% call(a, a) m() %}{% endcall %}",
    "{% call(a=1) m() %}{% endcall %}",
    "{% call m() %}{% endcall m %}",
    "{% macro m %}{% endmacro %}",
    "{% call m %}{% endcall %}",
];
