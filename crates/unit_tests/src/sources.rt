//! Sources with their code, and sources that spell no template.
use crate::rows::{expect, halves, joined};
use crate::{blocks, code, imports, macros, syntax};
use std::alloc::Global;
use std::rc::RcStr;
use std::test::Fail;
use tm_compiler::{SyntaxConfig, Tree, parse};
use tm_values::{Error, ErrorKind};

/// Sources and their code.
static EXPRESSIONS_AND_STATEMENTS: [&str; 122] = [
    "{# c #} =>",
    "{{ \"}}\" }}\n => #}} emit",
    "{{ a == none }} => $a #none == emit",
    "{{ not a == b and c }} => $a $b == not and:6 $c emit",
    "{{ a and b or not c.d.e }} => $a and:3 $b or:8 $c .d .e not emit",
    "{{ f(1, (a),) }}x => #1 $a call:f2 emit raw:x",
    "{{ f() == true }} => call:f0 #true == emit",
    "{{ f(a, b=1) }} => $a #b #1 named:1 call:f2 emit",
    "{{ a.m() }} => $a method:m1 emit",
    "{{ f(*a) }} => $a lists:1 call:f* emit",
    "{{ f(1, *a, b, c=2,) }} => #1 list:1 $a $b #c #2 named:1 list:2 lists:3 call:f* emit",
    "{{ f(**a, b=1, **c) }} => $a #b #1 named:1 $c merge:3 call:f1 emit",
    "{{ f(*a, *b, **c) }} => $a $b $c merge:1 list:1 lists:3 call:f* emit",
    "{{ a.m(*b).n(**c) }} => $a list:1 $b lists:2 method:m* $c merge:1 method:n2 emit",
    "{{ a|f(*b) is g(*c, **d) }} => $a list:1 $b lists:2 filter:f*@0 list:1 $c $d merge:1 list:1 lists:3 test:g*@0 emit",
    "{{ [f][0](1, 2) }} => $f list:1 #0 item #1 #2 value:3 emit",
    "{{ (f)(1)(2) }} => #1 call:f1 #2 value:2 emit",
    "{{ (a.b)(1) }} => $a .b #1 value:2 emit",
    "{{ \"x\"(*a) }} => #x list:1 $a lists:2 value:* emit",
    "{% do f(1)() %} => #1 call:f1 value:1 drop",
    "{{ a.b.m(1, k=c)[0] }} => $a .b #1 #k $c named:1 method:m3 #0 item emit",
    "{{ a|f(b)|g|f is f }} => $a $b filter:f2@0 filter:g1@1 filter:f1@0 test:f1@0 emit",
    "{{ a is not f is g is f }} => $a test:f1@0 not test:g1@1 test:f1@0 emit",
    "{{ 1 is in }}{{ 1 is not in }} => #1 test:in1@0 emit #1 test:in1@0 not emit",
    "{{ 1 is not not }} => #1 test:not1@0 not emit",
    "{{ 1 is not not 3 }} => #1 #3 test:not2@0 not emit",
    "{{ 1 is not not not in a is not not }} => #1 test:not1@0 not $a test:not1@0 not in not emit",
    "{{ a|f|g }}{% block x %}{{ a|g }}{% endblock %} => $a filter:f1@0 filter:g1@1 emit block:x | x $a filter:g1@0 emit",
    "{% do a.m(1) %} => $a #1 method:m2 drop",
    "{{ f(b=1,) }} => #b #1 named:1 call:f1 emit",
    "{{ f(b=1, c=2) }} => #b #1 #c #2 named:2 call:f1 emit",
    "{{ 1 < a < 1 if b }} => $b if-false:12 #1 $a keep:< and:9 #1 < jump:11 swap drop jump:13 #silent emit",
    "{% if a %}x{% elif b %}{% else %}{% endif %} => $a if-false:4 raw:x jump:7 $b if-false:7 jump:7",
    "{% if a %}{% endif %} => $a if-false:2",
    "{% block x %}{% block y %}{% endblock y %}{% endblock %} => block:x | x block:y | y",
    "{% if a %}{% block y %}b{% endblock %}{% endif %} => $a if-false:3 block:y | y raw:b",
    "{% set do, b = 1, do %}{% do f(b) %} => #1 $do tuple:2 unpack:2 store:do store:b $b call:f1 drop",
    "{% with set = 1, x = set %}{{ x }}{% endwith %} => with #1 store:set $set store:x $x emit leave",
    "{% set x %}a{% endset %} => capture raw:a captured store:x",
    "{% set a, b %}{% endset %} => capture captured unpack:2 store:a store:b",
    "{% set (a) %}{% endset %} => capture captured store:a",
    "{% set a.b %}x{% endset %} => capture raw:x captured $a set:b",
    "{% set f(1)(2).n = 3 %} => #3 #1 call:f1 #2 value:2 set:n",
    "{% set a[0](1).n, b.m(1)(2).n = c %} => $c unpack:2 $a #0 item #1 value:2 set:n $b #1 method:m2 #2 value:2 set:n",
    "{% filter f %}a{% endfilter %} => capture raw:a captured filter:f1@0 emit",
    "{% filter f | g . h(1, k=a) %}{% endfilter %} => capture captured filter:f1@0 #1 #k $a named:1 filter:g.h3@1 emit",
    "{% set x | f | g(1) %}a{% endset %} => capture raw:a captured filter:f1@0 #1 filter:g2@1 store:x",
    "{% set a, | f %}{% endset %} => capture captured filter:f1@0 unpack:1 store:a",
    "{% set a.b|f.g %}{% endset %} => capture captured filter:f.g1@0 $a set:b",
    "{% autoescape false %}x{% endautoescape %} => #false escape raw:x escaped",
    "{% for x in y %}{% endfor %} => $y loop iterate:5 store:x jump:2 looped",
    "{% for a, b in c %}{{ a }}{% else %}e{% endfor %} => $c loop iterate:9 unpack:2 store:a store:b $a emit jump:2 empty looped if-false:13 raw:e",
    "{% for (a, b) in c, d %}{% endfor %} => $c $d tuple:2 loop iterate:9 unpack:2 store:a store:b jump:4 looped",
    "{% for x in a if x %}{% endfor %} => #0 $a pass iterate:14 copy store:x $x if-false:12 swap #1 + jump:3 drop jump:3 looped list loop iterate:20 store:x jump:17 looped",
    "{% for x in a, b if x %}{% endfor %} => #0 $a $b tuple:2 pass iterate:16 copy store:x $x if-false:14 swap #1 + jump:5 drop jump:5 looped list loop iterate:22 store:x jump:19 looped",
    "{% for x in y %}{% if x %}{% break %}{% endif %}{% continue %}{% endfor %} => $y loop iterate:9 store:x $x if-false:7 jump:9 jump:2 jump:2 looped",
    "{% for x in y %}{% with %}{% break %}{% endwith %}{% endfor %} => $y loop iterate:9 store:x with leave jump:9 leave jump:2 looped",
    "{% for x in y %}{% for x in y %}{% else %}{% break %}{% endfor %}{% endfor %} => $y loop iterate:14 store:x $y loop iterate:9 store:x jump:6 empty looped if-false:13 jump:14 jump:2 looped",
    "{% for x in y recursive %}{{ loop(x) }}{{ loop(x).a }}{{ loop(x, x) }}{% endfor %} => $y loop! iterate:15 store:x $x recurse $x call:loop1 .a emit $x $x call:loop2 emit jump:2 looped",
    "{% for x in a if x recursive %}{% endfor %} => #0 $a pass iterate:14 copy store:x $x if-false:12 swap #1 + jump:3 drop jump:3 looped list loop! iterate:20 store:x jump:17 looped",
    "{{ a ** b ** c }} => $a $b ** $c ** emit",
    "{{ - a ** b }} => $a - $b ** emit",
    "{{ a ~ b + c }} => $a $b ~ $c + emit",
    "{{ a ~ b * c }} => $a $b $c * ~ emit",
    "{{ not a == b }} => $a $b == not emit",
    "{{ a not in [ b ] }} => $a $b list:1 in not emit",
    "{{ a [ b : c ] }} => $a $b $c #none slice emit",
    "{{ a [ : ] }} => $a #none #none #none slice emit",
    "{{ a [ : : b ] }} => $a #none #none $b slice emit",
    "{{ a [ b ] . c }} => $a $b item .c emit",
    "{{ f ( a , b , c = d , c = e , ) }} => $a $b #c $d #c $e named:2 call:f3 emit",
    "{{ f ( a = b if c ) }} => #a $c if-false:5 $b jump:6 #silent named:1 call:f1 emit",
    "{{ f ( a == b ) }} => $a $b == call:f1 emit",
    "{{ ( a , ) }} => $a tuple:1 emit",
    "{{ ( ) }} => tuple:0 emit",
    "{{ ( a ) }} => $a emit",
    "{{ [ a , b , ] }} => $a $b list:2 emit",
    "{{ { a : b } [ c ] }} => $a $b map:1 $c item emit",
    "{{ { } }} => map:0 emit",
    "{{ a + b * - c ** d }} => $a $b $c - $d ** * + emit",
    "{{ a ~ b not in c }} => $a $b ~ $c in not emit",
    "{{ a // b % c - d / e }} => $a $b // $c % $d $e / minus emit",
    "{{ a < b }}{{ a > b }} => $a $b < emit $a $b > emit",
    "{{ a >= b }} => $a $b >= emit",
    "{{ a [ b ] [ c : ] }} => $a $b item $c #none #none slice emit",
    "{{ a <= [ b , ( c , ) ] }} => $a $b $c tuple:1 list:2 <= emit",
    "{{ { a : b , c : { } } != ( ) }} => $a $b $c map:0 map:2 tuple:0 != emit",
    "{{ a < b < c }} => $a $b keep:< and:7 $c < jump:9 swap drop emit",
    "{{ a <= b not in c + d == e }} => $a $b keep:<= and:12 $c $d + keep:not-in and:12 $e == jump:14 swap drop emit",
    "{{ a if b }} => $b if-false:4 $a jump:5 #silent emit",
    "{{ ( a if b else c ) }} => $b if-false:4 $a jump:5 $c emit",
    "{{ a if b else c if d else e }} => $b if-false:4 $a jump:9 $d if-false:8 $c jump:9 $e emit",
    "{{ a if b if c }} => $c if-false:8 $b if-false:6 $a jump:7 #silent jump:9 #silent emit",
    "{{ a if b if c else d }} => $c if-false:8 $b if-false:6 $a jump:7 #silent jump:9 $d emit",
    "{{ a or b if c and d else e or f }} => $c and:3 $d if-false:8 $a or:7 $b jump:11 $e or:11 $f emit",
    "{%if a if b %}{%endif %} => $b if-false:4 $a jump:5 #silent if-false:6",
    "{%set a = b %} => $b store:a",
    "{%set a , b = c , d %} => $c $d tuple:2 unpack:2 store:a store:b",
    "{%set ( a , ( b , c , ) ) = x %} => $x unpack:2 store:a unpack:2 store:b store:c",
    "{%set a , = x %} => $x unpack:1 store:a",
    "{%set ( a ) = x , %} => $x tuple:1 store:a",
    "{%set a . b . c = d %} => $d $a .b set:c",
    "{%set f ( x ) . n , a [ b ] . c = d if e %} => $e if-false:4 $d jump:5 #silent unpack:2 $x call:f1 set:n $a $b item set:c",
    "{%with a = b , c = a %}{{ c }}{%endwith %} => with $b store:a $a store:c $c emit leave",
    "{%with %}{%endwith %} => with leave",
    "{%with a , b = x , c = ( d , e ) , %}{%endwith %} => with $x unpack:2 store:a store:b $d $e tuple:2 store:c leave",
    "{%with %}{%block x %}{%endblock %}{%endwith %} => with block:x leave | x",
    "{%do f ( a ) %} => $a call:f1 drop",
    "{%set ( a , f ( b ) . c ) , %}{{ d }}{%endset %} => capture $d emit captured unpack:1 unpack:2 store:a $b call:f1 set:c",
    "{%set a %}{%block x %}{%endblock %}{%endset %} => capture block:x captured store:a | x",
    "{%autoescape a if b %}{{ c }}{%endautoescape %} => $b if-false:4 $a jump:5 #silent escape $c emit escaped",
    "{%autoescape a %}{%block x %}{%endblock %}{%endautoescape %} => $a escape block:x escaped | x",
    "{%for ( a ) , b . c , in d , %}{%endfor %} => $d tuple:1 loop iterate:9 unpack:2 store:a $b set:c jump:3 looped",
    "{%for a in b in c %}{%endfor %} => $b $c in loop iterate:7 store:a jump:4 looped",
    "{%for a in b , if c %}{%endfor %} => #0 $b tuple:1 pass iterate:15 copy store:a $c if-false:13 swap #1 + jump:4 drop jump:4 looped list loop iterate:21 store:a jump:18 looped",
    "{%for a in b if c or d %}{%endfor %} => #0 $b pass iterate:16 copy store:a $c or:9 $d if-false:14 swap #1 + jump:3 drop jump:3 looped list loop iterate:22 store:a jump:19 looped",
    "{%for a in b %}{%block x %}{%endblock %}{%else %}{%block y %}{%endblock %}{%endfor %} => $b loop iterate:6 store:a block:x jump:2 empty looped if-false:10 block:y | x | y",
    "{%for a in b %}{%block x %}{%for a in b %}{%break %}{%endfor %}{%endblock %}{%endfor %} => $b loop iterate:6 store:a block:x jump:2 looped | x $b loop iterate:6 store:a jump:6 jump:2 looped",
    "{%for a in b %}{%set c %}{%break %}{%endset %}{%endfor %} => $b loop iterate:11 store:a capture captured drop jump:11 captured store:c jump:2 looped",
    "{%for a in b %}{%filter c %}{%break %}{%endfilter %}{%endfor %} => $b loop iterate:12 store:a capture captured drop jump:12 captured filter:c1@0 emit jump:2 looped",
    "{%filter a %}{%block x %}{%endblock %}{%endfilter %} => capture block:x captured filter:a1@0 emit | x",
    "{%for a in b %}{%autoescape a %}{%continue %}{%endautoescape %}{%endfor %} => $b loop iterate:10 store:a $a escape escaped jump:2 escaped jump:2 looped",
];

/// Where tokens end and begin, what counts as blank, and what a mark trims.
static TOKENS: [&str; 36] = [
    " =>",
    "\r\n =>",
    "a\n\n => raw:a\n",
    "a{# {{ %} #}b => raw:a raw:b",
    "{ {{ größe_1 }} } => raw:{  $größe_1 emit raw: }",
    "{{a.b==c}} => $a .b $c == emit",
    "{{ f((1007),x) }} => #1007 $x call:f2 emit",
    "{{ True\u{c}and\tnot iffy\r}} => #true and:4 $iffy not emit",
    "{% if a or b %}{% endif %} => $a or:3 $b if-false:4",
    "{%if a%}{%elif None == x%}{%else%}{%endif%} => $a if-false:3 jump:8 #none $x == if-false:8 jump:8",
    "{% block x %}{% endblock %} => block:x | x",
    "{{ 170141183460469231731687303715884105727 }} => #170141183460469231731687303715884105727 emit",
    "{% set set=with==do %}{% do do() %} => $with $do == store:set call:do0 drop",
    "{% set autoescape%}{%endset%}{% autoescape endset %}{% endautoescape %} => capture captured store:autoescape $endset escape escaped",
    "{%filter filter%}{% set endfilter|set%}{%endset%}{% endfilter%} => capture capture captured filter:set1@0 store:endfilter captured filter:filter1@1 emit",
    "{% for for in break %}{%continue%}{% break%}{% endfor %} => $break loop iterate:7 store:for jump:2 jump:7 jump:2 looped",
    "{{ 007 }} => #7 emit",
    "{{ 7.a }} => #7 .a emit",
    "{{ 0xfF+0o17+0b101+1_000 }} => #255 #15 + #5 + #1000 + emit",
    "{{ 0x1e5 or 0or 1 }} => #485 or:3 #0 or:5 #1 emit",
    "{{ {a:b}**c//d*e/f+g-h~i%j }} => $a $b map:1 $c ** $d // $e * $f / $g + $h $i $j % ~ minus emit",
    "{{ a<=b>=c!=d==e<f>g }} => $a $b keep:<= and:19 $c keep:>= and:19 $d keep:!= and:19 $e keep:== and:19 $f keep:< and:19 $g > jump:21 swap drop emit",
    "{{ {\"a\": {\"b\": 1}}}} => #a #b #1 map:1 map:1 emit",
    "{{ \"%}\" ~ '}}' }} => #%} #}} ~ emit",
    r#"{{ "\u00e9\ud83d\ude00\/" }} => #é😀/ emit"#,
    "{{ 'a\"\\'\\\\\\n' ~ \"\" }} => #a\"'\\\n # ~ emit",
    "a {{- b -}} \u{a0}c => raw:a $b emit raw:c",
    "a {%- if b -%} {% endif %} => raw:a $b if-false:3",
    "a {#- c -#} b{#-#}{#+-#} {#+#} d => raw:a raw:b raw: d",
    "{{+ a - b + c +}}\n => $a $b minus $c + emit",
    "{% raw %}{% endif %}{% endraw %} => raw:{% endif %}",
    "{% raw -%} {{ x }} {%- endraw %} => raw:{{ x }}",
    "a {%- raw %} b {% endraw -%} c => raw:a raw: b  raw:c",
    "{%raw+%}{% endrawa %}{%{% endraw %} => raw:{% endrawa %}{%",
    "{% raw %}{% endraw %} =>",
    "{%-raw-%}\n{#{%+endraw+%} => raw:{#",
];

fn tree_of(alloc: Global, syntax: &SyntaxConfig, source: &str) -> Result<Tree, Error> {
    let source = RcStr::from_str(alloc, source)?;
    parse(alloc, &source, syntax)
}

/// Whether the source of a row has its code.
pub(crate) fn has_code(alloc: Global, syntax: &SyntaxConfig, row: &str) -> Result<bool, Error> {
    let (source, wanted) = halves(row);
    let tree = tree_of(alloc, syntax, source)?;
    code::has_code(alloc, &tree, wanted)
}

/// Expects that each row has its code.
pub(crate) fn expect_codes(
    alloc: Global,
    syntax: &SyntaxConfig,
    rows: &[&str],
) -> Result<(), Fail> {
    for row in rows {
        expect(has_code(alloc, syntax, row)?, row)?;
    }
    Ok(())
}

#[test]
fn sources_have_their_code(rt: HostRuntime) -> Result<(), Fail> {
    let syntax = syntax::usual(rt.alloc())?;
    for rows in [
        EXPRESSIONS_AND_STATEMENTS.as_slice(),
        TOKENS.as_slice(),
        macros::CODES.as_slice(),
        blocks::CODES.as_slice(),
        imports::CODES.as_slice(),
    ] {
        expect_codes(rt.alloc(), &*syntax, rows)?;
    }
    Ok(())
}

/// Sources that spell no template.
static REFUSED: [&str; 166] = [
    "a{#",
    "{{ \"a }}",
    "{{ 1.5 }}",
    "{{ 1_ }}",
    "{% if %}",
    "{% if a %}",
    "{% endif %}",
    "{% block b %}{% endblock c %}",
    "{% block b %}{% endblock %}{% block b %}{% endblock %}",
    "{% set 1 = 2 %}",
    "{% set x %}",
    "{% endset %}",
    "{% set x %}{% endwith %}",
    "{% set x %}{% endset x %}",
    "{% set 1 %}{% endset %}",
    "{% set %}{% endset %}",
    "{% filter %}a{% endfilter %}",
    "{% filter upper ¦ %}a{% endfilter %}",
    "{% filter ¦ upper %}a{% endfilter %}",
    "{% endfilter %}",
    "{% filter f %}",
    "{% filter f %}{% endset %}",
    "{% filter f %}{% endfilter f %}",
    "{% filter 1 %}{% endfilter %}",
    "{% filter in %}{% endfilter %}",
    "{% filter f. %}{% endfilter %}",
    "{% filter f(a %}{% endfilter %}",
    "{% filter f[1] %}{% endfilter %}",
    "{% filter f if a %}{% endfilter %}",
    "{% set x ¦ %}a{% endset %}",
    "{% set x ¦ f %}",
    "{% set ¦ f %}{% endset %}",
    "{% set a.b ¦ upper = 1 %}",
    "{% set a ¦ f(1).b = 2 %}",
    "{% set f(1)(2) = 3 %}",
    "{% set a.b(1)(2) %}{% endset %}",
    "{% for f(1)(2) in x %}{% endfor %}",
    "{% for x in y %}{% filter f %}{% block b %}{% break %}{% endblock %}{% endfilter %}{% endfor %}",
    "{% autoescape %}x{% endautoescape %}",
    "{% autoescape 1, 2 %}{% endautoescape %}",
    "{% autoescape true %}",
    "{% with a = 1 %}",
    "{% break %}",
    "{% continue %}",
    "{% for x in y %}",
    "{% endfor %}",
    "{% for x in y %}{% block b %}{% break %}{% endblock %}{% endfor %}",
    "{% for x in y %}{% else %}{% break %}{% endfor %}",
    "{% for x %}{% endfor %}",
    "{% for 1 in x %}{% endfor %}",
    "{% for x in y %}{% endfor x %}",
    "{% for x in y %}{% break 1 %}{% endfor %}",
    "{% for x in y %}{% else %}{% else %}{% endfor %}",
    "{% for x in y recursive recursive %}{% endfor %}",
    "{% for x in y recursive if x %}{% endfor %}",
    "{{ f(b=1, a) }}",
    "{{ f(**{}, *[1]) }}",
    "{{ f(**{}, 1) }}",
    "{{ f(a=1, *b) }}",
    "{{ f(*) }}",
    "{{ f(**) }}",
    "{{ *a }}",
    "{% do \"a\"¦upper %}",
    "{{ f(b=) }}",
    "{{ f(1=2) }}",
    "{{ f(b=1 c=2) }}",
    "{% for x in a if %}{% endfor %}",
    "{% for x in a if b if c %}{% endfor %}",
    "{% for x in a if b else c %}{% endfor %}",
    "{{ a == b == }}",
    "{{ f ( , ) }}",
    "{{ f ( a = b , c ) }}",
    "{{ f ( a = ) }}",
    "{{ f ( true = a ) }}",
    "{{ f ( a = b c = d ) }}",
    "{{ f ( a = b , , ) }}",
    "{{ f ( a . b = c ) }}",
    "{{ ( a }}",
    "{{ a [ ] }}",
    "{{ a [ : : : ] }}",
    "{{ ( , ) }}",
    "{{ [ , ] }}",
    "{{ a else b }}",
    "{{ a if }}",
    "{{ a if else b }}",
    "{{ a if b else c else d }}",
    "{{ if a }}",
    "{{ not in }}",
    "{{ 1 is not }}",
    "{{ a %}}",
    "{{ 1 is not not not }}",
    "{{ - }}",
    "{{ { a } }}",
    "{{ }}",
    "{%if a %}{%else %}{%elif b %}{%endif %}",
    "{%block x %}{%endblock y %}",
    "{%block x %}{%endblock %}{%if a %}{%else %}{%block x %}{%endblock %}{%endif %}",
    "{%block x %}{%block x %}{%endblock %}{%endblock %}",
    "{%with %}{%block x %}{%endblock %}{%endwith %}{%block x %}{%endblock %}",
    "{{ a = b }}",
    "{%set true = a %}",
    "{%set a [ b ] = c %}",
    "{%set f ( a ) = b %}",
    "{%set ( a ) . b = c %}",
    "{%set a %}",
    "{%set a %}{%endwith %}",
    "{%set a %}{%endset a %}",
    "{%set a ( %}{%endset %}",
    "{%set a , , %}{%endset %}",
    "{%set ( a %}{%endset %}",
    "{%set a %}{%endset %}{%endset %}",
    "{%set a %}{%block x %}{%endblock %}{%endset %}{%block x %}{%endblock %}",
    "{%set a = %}",
    "{%set a = b = c %}",
    "{%set = a %}",
    "{%set ( ) = a %}",
    "{%set a , , = b %}",
    "{%set ( a , b = c %}",
    "{%with a = b %}",
    "{%with a %}{%endwith %}",
    "{%with a = b , , c = d %}{%endwith %}",
    "{%autoescape %}{%endautoescape %}",
    "{%autoescape a , b %}{%endautoescape %}",
    "{%for a in %}{%endfor %}",
    "{%for in b %}{%endfor %}",
    "{%for a = b %}{%endfor %}",
    "{%for a in , %}{%endfor %}",
    "{%for a in b if %}{%endfor %}",
    "{%for a in b if c if d %}{%endfor %}",
    "{%for a in b if c else d %}{%endfor %}",
    "{%for a in b if c , d %}{%endfor %}",
    "{%for a in if b %}{%endfor %}",
    "{%for a in b %}{%block x %}{%endblock %}{%else %}{%block x %}{%endblock %}{%endfor %}",
    "{%do a %}",
    "{%do f ( a ) . x %}",
    "{% raw %}",
    "{% raw x %}{% endraw %}",
    "{% raw %}{% endraw x %}",
    "{% endraw %}",
    "{{ a",
    "{{ (a }}",
    "{{ a ; b }}",
    "{% %}",
    "{% macro x %}",
    "{{ 1e5 }}",
    "{{ 1_0E5 }}",
    "{{ a ! b }}",
    "{{ [a }}",
    "{{ {a }}",
    "{{ 170141183460469231731687303715884105728 }}",
    r#"{{ "\ud83d" }}"#,
    r#"{{ "\ud83d\u0041" }}"#,
    r#"{{ "\ude00" }}"#,
    r#"{{ "\x41" }}"#,
    r#"{{ "\u00g0" }}"#,
    "{% if a %}{% endif if %}",
    "{% with a===b %}{%endwith%}",
    "{% do do %}",
    "{% for x in y %}{% endfor endfor %}",
    "{{ 1__0 }}",
    "{{ 0xG }}",
    "{{ 0b2 }}",
    "{{ 1a }}",
    "{{ (a -}} ) - }}",
    "{{ [a:b] }}",
    "{{ 'a' \"\" }}",
];

/// What can be nested 150 levels deep, in pieces.
static NESTINGS: [&str; 35] = [
    "{{|0*(|a|0*)|}}",
    "{{|0*f (|a|0*)|}}",
    "{{|0*f ( a =|a|0*)|}}",
    "{{|0*[|0*]|}}",
    "{{|0*f (|0*)|}}",
    "{{|0*a [|0*: ]|}}",
    "{{|0*not|a }}",
    "{{|0*a if b else|a }}",
    "{{|1*a if b else|a if ( b ) else c }}",
    "0*{%if a %}|{{ a }}|0*{%endif %}",
    "{%if a %}|2*{%elif a %}|{%else %} {%endif %}",
    "1*{%if a %}|{{ ( a ) }}|1*{%endif %}",
    "2*{%if a %}|{%if ( a ) %} {%endif %}|2*{%endif %}",
    "{%set|0*(|a|0*)|= b %}",
    "1*{%with %}|{%set ( a ) , b = ( c ) , d %}|1*{%endwith %}",
    "2*{%with %}|{%with ( a ) = ( b ) %} {%endwith %}|2*{%endwith %}",
    "2*{%set a %}|{%autoescape ( b ) %} {%endautoescape %}|2*{%endset %}",
    "0*{%filter f %}|{{ a }}|0*{%endfilter %}",
    "2*{%filter f %}|{%filter f ( a ) %} {%endfilter %}|2*{%endfilter %}",
    "0*{%set a ¦ f %}|{{ a }}|0*{%endset %}",
    "2*{%with %}|{%set ( a ) ¦ f ¦ f ( b ) %} {%endset %}|2*{%endwith %}",
    "0*{%for a in b %}|{%break %}|0*{%endfor %}",
    "2*{%for a in b %}|{%for ( a ) in ( b ) , c if ( d ) %} {%endfor %}|2*{%endfor %}",
    "2*{%with %}|{%for a in b %} {%else %} {%endfor %}|2*{%endwith %}",
    "1*{%macro m ( ) %}|{{ a }}|1*{%endmacro %}",
    "2*{%with %}|{%macro m ( a , b = c ) %} {%endmacro %}|2*{%endwith %}",
    "3*{%with %}|{%macro m ( a = ( b ) ) %} {%endmacro %}|3*{%endwith %}",
    "1*{%call m ( ) %}|{{ a }}|1*{%endcall %}",
    "2*{%with %}|{%call ( a ) m ( b ) %} {%endcall %}|2*{%endwith %}",
    "0*{%with %}|{%include a %} {%import a as b %} {%from a import b %}|0*{%endwith %}",
    "1*{%with %}|{%include ( a ) %}|1*{%endwith %}",
    "1*{%with %}|{%import ( a ) as ( b ) %}|1*{%endwith %}",
    "1*{%with %}|{%from ( a ) import b %}|1*{%endwith %}",
    "{{|0*(|1|0*)|}}",
    "1*{% if a %}|{{ (1) }}|1*{% endif %}",
];

/// A long row isn't nested deeper than a short one.
static LONG: [&str; 11] = [
    "{{ a|0*and b . c|}}",
    "{{ a|0*+ b|}}",
    "{{ a|0*if c|}}",
    "{{ a|0*< b|}}",
    "{%set a|0*, b|= c , d %}",
    "{%set a|0*¦ f|%} {%endset %}",
    "{%for a in b|0*, c|if d %} {%endfor %}",
    "{{ f ( a|0*, b = c|) }}",
    "{%with a = b|0*, c = d|%} {%endwith %}",
    "{%import a as b|0*, c|%}",
    "{%from a import b|0*, c as d|, %}",
];

/// Whether the source spells a template; errors other than SyntaxError are passed on.
fn is_template(alloc: Global, syntax: &SyntaxConfig, source: &str) -> Result<bool, Error> {
    match tree_of(alloc, syntax, source) {
        Ok(_) => Ok(true),
        Err(error) => {
            if error.kind() == ErrorKind::SyntaxError {
                return Ok(false);
            }
            Err(error)
        }
    }
}

/// Whether a row's joined pieces spell a template.
fn is_joined(
    alloc: Global,
    syntax: &SyntaxConfig,
    pieces: &str,
    count: usize,
) -> Result<bool, Error> {
    let source = joined(alloc, pieces, count)?;
    is_template(alloc, syntax, source.as_str())
}

/// Expects that each row's joined pieces spell a template, or that none do.
fn expect_joined(alloc: Global, rows: &[&str], count: usize, wanted: bool) -> Result<(), Fail> {
    let syntax = syntax::usual(alloc)?;
    for pieces in rows {
        let is_template = is_joined(alloc, &*syntax, pieces, count)?;
        expect(is_template == wanted, pieces)?;
    }
    Ok(())
}

#[test]
fn what_is_no_template_is_refused(rt: HostRuntime) -> Result<(), Fail> {
    expect_joined(rt.alloc(), &REFUSED, 0, false)?;
    expect_joined(rt.alloc(), &macros::REFUSED, 0, false)?;
    expect_joined(rt.alloc(), &blocks::REFUSED, 0, false)?;
    expect_joined(rt.alloc(), &imports::REFUSED, 0, false)
}

#[test]
fn nestings_are_counted(rt: HostRuntime) -> Result<(), Fail> {
    expect_joined(rt.alloc(), &NESTINGS, 150, true)?;
    expect_joined(rt.alloc(), &NESTINGS, 151, false)?;
    expect_joined(rt.alloc(), &LONG, 1_000_000, true)
}
