//! Rows of loops and of their bodies.

/// Loops.
pub(crate) const LOOPS: &str = r#"Loops.
- {% for x in [1,2] %}{{ x }}{% endfor %}{{ x }} => 12 => 16
- {% for x in [] %}{% else %}E{% endfor %} => E => 4
- {% for x in [1] %}{% break %}{% else %}E{% endfor %} =>  => 6
- {% for x in [1] %}{% set y %}a{% break %}{% endset %}{% endfor %}[{{ y }}] => [] => 11
- {% for x in [1,2] %}{% with %}{{ x }}{% continue %}{% endwith %}{% endfor %} => 12 => 14
- {% for x in range(1000) %}{% set y = x %}{% endfor %}[{{ y }}] => [] => 5007
- {% for x in "ab" %}{{ loop.previtem }}{{ loop.revindex }}{{ loop.nextitem }}{% endfor %} => 2ba1 => 26
- {% for x in ["a","b","c"] %}{{ loop.previtem }}{{ loop.revindex }}{{ loop.nextitem }}{{ loop.cycle("x","y") }} {% endfor %} => 3bx a2cy b1x  => 59
- {% for x in [1,2] %}{% for y in [3] %}{{ x }}{{ y }}{{ loop.length }}{% endfor %}{% endfor %} => 131231 => 36
- a{% for x in 1 %}{% endfor %} => a => InvalidOperation
- a{% for x, y in [1] %}{% endfor %} => a => CannotUnpack
- {% for x in [1,2] if x > 1 %}{{ x }}{% endfor %} => 2 => 29
- {% for x in [1,2,3] if x > 1 %}{{ loop.index }}:{{ x }};{% endfor %} => 1:2;2:3; => 55
- {% for x in [1,1,2] %}{{ loop.changed(x) }} {% endfor %} => true false true  => 29
- {% for x in [1,1,2] %}{{ loop.cycle("x", "y") }}{{ loop.cycle() }}{% endfor %} => xyx => 38
- {% for x in [1,true] %}{% do loop.changed(x, a=x) %}{{ loop.changed(x, a=1) }}{% endfor %} => falsefalse => 36
- {% set ns = namespace() %}{% for x in ["a","b","c","d"] %}{% set ns.l = loop %}{% if x == "c" %}{% break %}{% endif %}{% endfor %}{% set l = ns.l %}{{ l.length }}{{ l.index }}{{ l.revindex }}{{ l.previtem }}{{ l.nextitem }} => 432bd => 55
- {% set ns = namespace() %}{% for x in ["a","b","c"] %}{% set ns.l = loop %}{% break %}{% endfor %}{% set l = ns.l %}{{ l.length }}{{ l.index }}{{ l.revindex }}{{ l.previtem }}{{ l.nextitem }} => 313b => 30
- {% set ns = namespace() %}{% for x in ["a","b"] %}{% set ns.l = loop %}{% endfor %}{% set l = ns.l %}{{ l.length }}{{ l.index }}{{ l.revindex }}{{ l.previtem }}{{ l.nextitem }} => 230b => 36"#;

/// Loops that are called.
pub(crate) const RECURSIONS: &str = r#"Loops that are called.
- {% for t in [{'v': 1, 'c': [{'v': 2, 'c': []}]}, {'v': 3, 'c': []}] recursive %}{{ t.v }}({{ loop(t.c) }}){% else %}E{% endfor %} => 1(2())3() => 54
- {% for t in [{'v': 1, 'c': [{'v': 2, 'c': []}]}, {'v': 3, 'c': []}] recursive %}{{ t.v ~ '[' ~ loop(t.c) ~ ']' }}{% endfor %} => 1[2[]]3[] => 62
- {% for x in [[]] recursive %}a{{ loop(x) }}{% endfor %} => a => 10
- {% for x in [[]] recursive %}{% set loop = 1 %}a{{ loop(x) }}{% endfor %} => a => 12
- {% for x in [[[]]] recursive %}{{ loop.depth }}{{ loop(x) }}{% endfor %} => 12 => 22
- {% set ns = namespace() %}{% for x in [1] recursive %}{{ x }}{% set ns.l = loop %}{% endfor %}{% set l = ns.l %}{{ l([2, 3]) }} => 123 => 38
- {% for x in [1] recursive %}{{ loop(x) }}{% endfor %} =>  => InvalidOperation
- {% for x in [[]] %}{{ loop(x) }}{% endfor %} =>  => InvalidOperation
- {% for x in [[]] recursive %}{{ loop(x, 1) }}{% endfor %} =>  => InvalidOperation
- {{ loop(1) }} =>  => UnknownFunction
- {% set ns = namespace(v=[]) %}{% for i in range(400) %}{% set ns.v = [ns.v] %}{% endfor %}{% for x in ns.v recursive %}{{ loop(x) }}{% endfor %} =>  => 5611
- {% set ns = namespace(v=[]) %}{% for i in range(600) %}{% set ns.v = [ns.v] %}{% endfor %}{% for x in ns.v recursive %}{{ loop(x) }}{% endfor %} =>  => InvalidOperation"#;

/// Methods, captures and escapes.
pub(crate) const METHODS: &str = r#"Methods, captures and escapes.
- {% for x in [1] %}{{ loop.index() }}{% endfor %} =>  => UnknownMethod
- {{ [].nope() }} =>  => UnknownMethod
- {{ nope.m(1) }} =>  => UnknownMethod
- {{ {"f": f}.f(0, 1) }} => 1 => 7
- {{ {"f": 1}.f() }} =>  => InvalidOperation
- {% for x in [1] if false %}a{% else %}E{% endfor %} => E => 13
- {% break %} =>  => SyntaxError
- {% set x %}{% block b %}q{% endblock %}{% endset %}[{{ x }}] => [q] => 8
- b{% set x %}a{{ nope() }}{% endset %} => b => UnknownFunction
- {% autoescape "html" %}{{ "<" }}{% endautoescape %}{{ "<" }} => &lt;< => 5
- {% autoescape 1 %}{% block b %}{{ "<" }}{% endblock %}{% endautoescape %} => &lt; => 4
- {% autoescape "xml" %}x{% endautoescape %} =>  => InvalidOperation"#;
