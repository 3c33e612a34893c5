//! Rows of expected renders: a source, its text and its charges. A row is proved as one text.

/// Texts, branches, names, and blanks beside tags.
pub(crate) const TEXTS: &str = r#"Texts, branches, names, and blanks beside tags.
- @fuel 10000
- Hello {{ w }}! => Hello World! => 4
-  =>  => 0
- {% if a %}x{% else %}y{% endif %} => y => 3
- {% if t %}x{% else %}y{% endif %} => x => 4
- {% if a %}1{% elif t %}2{% else %}3{% endif %} => 2 => 6
- {% if a %}{% endif %} =>  => 2
- {{ a and b.c }} =>  => 3
- {{ a or "x" }} => x => 4
- {{ not a == b }} => false => 5
- {{ a.b }} =>  => UndefinedError
- {{ m.b }} =>  => 3
- {% block b %}x{{ a }}{% endblock %}y => xy => 5
- {% if a %}{% block b %}x{% endblock %}{% endif %}[ => [ => 3
- a {%- if true -%} b {%- endif %} => ab => 4
- a
  {% if true %}
 b
{% endif %}
c => a
  
 b

c => 5
- {% raw -%} {{ x }} {%- endraw %} => {{ x }} => 1
- {% raw %}{% endif %}{% endraw %} => {% endif %} => 1
- {% raw %} =>  => SyntaxError
- {{ {"a": {"b": 1}}}} => {"a": {"b": 1}} => 6
- {{ "%}" ~ '}}' }} => %}}} => 4
-  =>  => 0 => first f
- x => x => 1 => name <string>"#;

/// Functions of the language and of the caller.
pub(crate) const CALLS: &str = r#"Functions of the language and of the caller.
- {{ second("a", 1) }} => 1 => 4
- {{ f("a", 1) }} => 1 => 4
- {{ f("a", k=1) }} => {"k": 1} => 6
- {{ range(4) }} => [0, 1, 2, 3] => 3
- {{ range(0, 4, 1) }} => [0, 1, 2, 3] => 5
- {{ range(5, 0, -2) }} => [5, 3, 1] => 6
- {{ range(9223372036854775806, 9223372036854775807) }} => [9223372036854775806] => 4
- {{ range(0, -9223372036854775807, -9223372036854775807) }} => [0] => 7
- {{ range() }} =>  => MissingArgument
- {{ range(1,2,3,4) }} =>  => TooManyArguments
- {{ range("a") }} =>  => InvalidOperation
- {{ range(100001) }} =>  => InvalidOperation
- {{ range(1, 2, 0) }} =>  => InvalidOperation
- {{ dict({"a": 1}, a=2, b=3) }} => {"a": 2, "b": 3} => 10
- {% set ns = namespace(n=0) %}{% for x in [1,2,3] %}{% set ns.n = ns.n + x %}{% endfor %}{{ ns.n }} => 6 => 40
- {% set ns = namespace() %}{% set ns.a = ns %}{{ ns }} =>  => InvalidOperation
- {{ nope() }} =>  => UnknownFunction
- {{ keep() }}{{ read() }} => 21 => 4 => keeps k
- a{{ nope(second()) }} => a => UnknownFunction
- a{{ nope(missing()) }} => a => MissingArgument
- a{{ w() }} => a => InvalidOperation
- a{{ missing() }} => a => MissingArgument
- a{{ failing() }} => a => WriteFailure
- a{{ stuck() }} => a => BadStream
- a{{ hungry() }} => a => OutOfMemory
- {# c #} =>  => 0
- {{ "}}" }} => }} => 2
- a{# =>  => SyntaxError
- {% if %} =>  => SyntaxError
- {{ 1_ }} =>  => SyntaxError"#;

/// Filters and tests of the caller.
pub(crate) const FILTERS: &str = r#"Filters and tests of the caller.
- {{ 1|second("b") }} => b => 4
- {{ 1|my . second(2)|f }} => 2 => 5
- {{ 1|f(2, k=3) }} => {"k": 3} => 7
- {{ [1, 2]|f[0] }} => 1 => 7
- {{ -2|second(3) ** 2 }} => 9 => 7
- {{ "a"|upper }} => A => 3
- {{ "a"|my . upper|substr(0) }} => A => 5
- {{ 1|nope }} =>  => UnknownFilter
- a{{ 1|gone }} => a => UnknownFilter
- a{{ 1|missing }} => a => MissingArgument
- {{ 1|keep }}{{ read() }} => 21 => 5 => keeps k
- {{ 6 is second 0 }} => false => 4
- {{ 6 is second(4) or 1 }} => true => 5
- {{ 6 is my.second "x" }} => true => 4
- {{ 1 is not second 0 }} => true => 5
- {{ not 6 is second 3 }} => false => 5
- {{ 1 is in }} => true => 3
- {{ 1 is in [1] }} =>  => 5
- {{ 1 is second none }} => false => 4
- {{ 1 is nope }} =>  => UnknownTest
- {{ "a" is upper }} =>  => UnknownTest
- {{ 1 is not nope }} =>  => UnknownTest
- {{ 1 is gone }} =>  => UnknownTest
- {{ 1 is missing }} =>  => MissingArgument
- {% for x in [1, 0, 2] if x is in %}{{ x }}{% endfor %} => 12 => 42
- {% if w is not in %}x{% endif %} =>  => 4
- {% do "a"|f %} =>  => SyntaxError
- {{ 1| }} =>  => SyntaxError
- {{ 1|f. }} =>  => SyntaxError
- {{ 1|in }} =>  => SyntaxError
- {{ 1 is }} =>  => SyntaxError
- {{ 1 is not not }} =>  => UnknownTest
- {{ 1 is in in [1] }} => true => 6"#;

/// Filter blocks.
pub(crate) const FILTER_BLOCKS: &str = r#"Filters of what bodies write.
- {% filter upper %}a{{ 1 }}b{% endfilter %} => A1B => 7
- {% filter upper|substr(1) %}ab{% endfilter %} => B => 6
- {% filter substr(1, 3) | upper %}ab{{ w }}{% endfilter %} => BW => 9
- {% filter my . second([1, 2]) %}a{% endfilter %}! => [1, 2]! => 8
- {% filter keep %}a{% endfilter %}{{ read() }} => 21 => 6 => keeps k
- {% filter upper %}{% filter substr(1) %}ab{% endfilter %}c{% endfilter %} => BC => 9
- {% filter upper %}{% block b %}q{% endblock %}{% endfilter %} => Q => 5
- {% set x | upper | substr(1) %}ab{% endset %}{{ x }} => B => 8
- {% set a, b | second([1, 2]) %}{% endset %}{{ b }}{{ a }} => 21 => 12
- {% set a, | second([1]) %}{% endset %}{{ a }} => 1 => 8
- {% set ns = namespace() %}{% set ns.x|upper %}a{% endset %}{{ ns.x }} => A => 10
- {% for x in [1,2] %}{% filter upper %}{% break %}{% endfilter %}{% endfor %}! => ! => 8
- {% for x in [1,2] %}{% filter nope %}{{ x }}{% continue %}{% endfilter %}{% endfor %}! => ! => 17
- {% for x in [1] %}{% set y | nope %}a{% break %}{% endset %}{% endfor %}[{{ y }}] => [] => 11
- a{% filter upper %}b{{ nope() }}{% endfilter %} => a => UnknownFunction
- a{% filter nope %}b{% endfilter %} => a => UnknownFilter
- a{% filter missing %}b{% endfilter %} => a => MissingArgument
- a{% set a, b | upper %}b{% endset %} => a => CannotUnpack
- {% filter %}a{% endfilter %} =>  => SyntaxError
- {% filter upper | %}a{% endfilter %} =>  => SyntaxError
- {% endfilter %} =>  => SyntaxError
- {% set x | %}a{% endset %} =>  => SyntaxError
- {% set a.b | upper = 1 %} =>  => SyntaxError"#;

/// Spread arguments, and calls of values.
pub(crate) const PASSING: &str = r#"Spread arguments, and calls of values.
- {{ f("a", *[1, 2]) }} => 2 => 8
- {{ f(*[]) }} =>  => 4
- {{ f(*[1], 2, *[3, 4], k=5) }} => {"k": 5} => 14
- {{ f(*"ab") }} => b => 4
- {{ f(*nope) }} =>  => 4
- {{ range(*[1], 3) }} => [1, 2] => 7
- {{ dict(**{"a": 1}, **{"a": 2}, b=3) }} => {"a": 2, "b": 3} => 12
- {{ dict(a=1, **{"b": 2}, c=3) }} => {"a": 1, "b": 2, "c": 3} => 12
- {{ dict(**namespace(z=1)) }} => {"z": 1} => 7
- {{ "a"|second(*["b"]) }} => b => 7
- {{ 1 is second(*[1]) }} => true => 7
- {{ {"f": f}.f(*[1, 2]) }} => 2 => 10
- {{ f(*5) }} =>  => InvalidOperation
- {{ dict(**nope) }} =>  => InvalidOperation
- {{ dict(**1) }} =>  => InvalidOperation
- {{ range(*[1], **{}) }} =>  => InvalidOperation
- {{ [f][0](1, 2) }} => 2 => 8
- {{ (f)(1, 2) }} => 2 => 4
- {{ {"f": f}.f(1, 2) }} => 2 => 7
- {{ f(f)(1) }} => 1 => 5
- {% set n = namespace() %}{% set f(f)(n).x = 3 %}{{ n.x }} => 3 => 11
- {% for x in [[]] recursive %}a{{ [loop][0](x) }}{% endfor %} => a => InvalidOperation
- {{ f(1)(2) }} =>  => InvalidOperation
- {{ "x"() }} =>  => InvalidOperation
- {{ f(a=1, 2) }} =>  => SyntaxError
- {{ f(**{}, *[1]) }} =>  => SyntaxError
- {{ f(**{}, 1) }} =>  => SyntaxError"#;

/// What objects see, and further calls.
pub(crate) const FURTHER: &str = r#"What objects see, and further calls.
- {% with x = 1 %}{{ look("x") }}{% endwith %} => 1 => 5
- {{ look("w") }}{{ look(1) }}{{ look("nope") }} => World => 9
- {{ capital() }} => A => 2
- {{ "a"|twice|twice }} => AAAA => 4
- a{{ "a"|kept }} => a => MissingArgument
- a{{ 1|again }} => a => InvalidOperation
- @limit 2
- {{ capital() }} => A => 2
- {{ "a"|twice }} => AA => 3
- {% with %}{{ capital() }}{% endwith %} =>  => InvalidOperation
- @limit 1
- {{ capital() }} =>  => InvalidOperation
- {{ "a"|twice }} =>  => InvalidOperation
- @limit 500
- {{ by_macro("capital") }} => A => 3
- {{ by_macro("w") }} =>  => InvalidOperation
- {{ by_macro("nope") }} =>  => UnknownFunction
- {% with w = capital %}{{ by_macro("w") }}{% endwith %} => A => 5
- {% block b %}x{% endblock %}{{ by_block("b") }} => xx => 6
- {% if false %}{% block b %}<{% endblock %}{% endif %}{% autoescape "html" %}{{ "b"|block }}{% endautoescape %} => &lt; => 7
- {% block b %}{{ w }}{% endblock %}{{ "b" is block }} => Worldtrue => 8
- {% block b %}{% endblock %}{{ "b" is block }} => false => 4
- a{{ by_block("c") }} => a => UnknownBlock
- {% if false %}{% block b %}a{{ nope.x }}{% endblock %}{% endif %}z{{ by_block("b") }} => z => UndefinedError
- @limit 3
- {% if false %}{% block b %}x{% endblock %}{% endif %}{{ by_block("b") }} => x => 6
- @limit 2
- {% if false %}{% block b %}x{% endblock %}{% endif %}{{ by_block("b") }} =>  => InvalidOperation
- @limit 500"#;

/// Operators, conditions and literals.
pub(crate) const EXPRESSIONS: &str = r#"Operators, conditions and literals.
- {{ 2 ** 3 ** 2 }} => 64 => 6
- {{ -2 ** 2 }} => 4 => 5
- {{ "a" ~ 1 + 2 }} =>  => InvalidOperation
- {{ 1 ~ 2 * 3 }} => 16 => 6
- {{ not 1 == 2 }} => true => 5
- {{ 7 // 2 - 5 % 3 }} => 1 => 8
- {{ 1 / 2 }} =>  => InvalidOperation
- {{ 1 not in [2] }} => true => 6
- {{ 1 < 2 < 3 }} => true => 8
- {{ 3 < 2 < 1 }} => false => 6
- {{ 1 < 2 < 3 < 0 < nope.x }} => false => 12
- {{ 1 < 2 not in [2] != 3 }} => false => 10
- {{ 1 if false }} =>  => 4
- {{ 1 if true else 2 }} => 1 => 5
- {{ 1 if a else 2 if b else 3 }} => 3 => 6
- {{ 1 if true if false else 2 }} => 2 => 4
- {{ 0 and y.z }} => 0 => 3
- {{ [] or {} or "x" }} => x => 6
- {{ 1 and 2 and 0 and y.z }} => 0 => 7
- {{ w[1:3] }} => or => 6
- {{ w[-1] ~ m[1] }} => d => 9
- {{ {"b": 1, "a": "x", "b": 2} }} => {"a": "x", "b": 2} => 8
- {{ (1,) }}{{ () }}{{ [1, 2,] }} => [1][][1, 2] => 9
- {{ {1: 2}[1] }} => 2 => 6
- {{ "\u00e9\ud83d\ude00\/" }} => é😀/ => 2
- {{ "\ud83d" }} =>  => SyntaxError
- {{ 0xff + 0o17 + 0b101 + 1_000 }} => 1275 => 8
- {{ 0xG }} =>  => SyntaxError
- {{ 1__0 }} =>  => SyntaxError
- {{ 1.x }}{{ 1 .x }} =>  => 6"#;

/// What is set, and where.
pub(crate) const SCOPES: &str = r#"What is set, and where.
- {% with a = 1, b = a %}{{ b }}{% endwith %}{{ b }} => 1 => 8
- {% with %}{% set w = 2 %}{{ w }}{% endwith %}{{ w }} => 2World => 6
- {% set a, b = 1, 2 %}{{ a }}{{ b }} => 12 => 10
- {% set a = 1 %}{% set b = 2 %}{% set c = 3 %}{% set d = 4 %}{% set e = 5 %}{% set f = 6 %}{% set g = 7 %}{% set h = 8 %}{% set i = 9 %}{% set j = 10 %}{% set a = 'A' %}{% set j = 'J' %}{{ a }}{{ b }}{{ h }}{{ i }}{{ j }}{{ k }} => A289J => 36
- {% set (a, (b, c)) = (1, (2, 3)) %}{{ c }}{{ b }}{{ a }} => 321 => 16
- x{% set a, b = [1] %} => x => CannotUnpack
- {% set a.b = 1 %} =>  => InvalidOperation
- {% do keep() %}{{ read() }} => 1 => 3
- {% do w %} =>  => SyntaxError
- {% set x %} =>  => SyntaxError
- {% set x %}a{{ 1 }}{% endset %}{{ x }} => a1 => 7
- {% set _x = 1 %}{% set y = 2 %}{% with z = 3 %}{% endwith %} =>  => 6 => exports y"#;
