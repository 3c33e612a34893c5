//! Rows with limits on fuel, scopes and writers, and long sources.

use crate::renders::{Row, expect_row, usual};
use std::alloc::{AllocError, Global};
use std::test::Fail;
use template_machine::{EnvironmentOf, Parties};

/// Limits on fuel, scopes and writers. No fuel is set after them.
pub(crate) const BOUNDS: &str = r#"Bounds of fuel, scopes and writers.
- @paid 4
- Hello {{ w }}! => Hello World! => 4 => fuel 0
- {{ w }}{{ t }} => Worldtrue => 4
- @paid 3
- Hello {{ w }}! => Hello World => OutOfFuel
- {{ w }}{{ t }} => World => OutOfFuel
- @paid 2
- {{ w }}{{ t }} => World => OutOfFuel
- @paid 1
- {{ w }}{{ t }} =>  => OutOfFuel
- @paid 0
-  =>  => 0
- @paid 8
- @room 0
-  =>  => 0
- Hello! =>  => WriteFailure
- @room 3
- Hello! => Hel => WriteFailure
- @room none
- @width 0
- Hello! =>  => WriteFailure
- @width 3
- Hello! => Hello! => 1
- @width 1000
- a{{ failing() }}b => a => WriteFailure
- @limit 2
- {% block b %}x{{ a }}{% endblock %}y => xy => 5
- @limit 1
- {% block b %}x{{ a }}{% endblock %}y =>  => InvalidOperation
- @limit 500
- @paid 2
- {% block b %}x{{ a }}{% endblock %}y => x => OutOfFuel
- @paid 28
- {% for x in [1,2] if x > 1 %}{{ x }}{% endfor %} => 2 => OutOfFuel
- @paid 29
- {% for x in [1,2] if x > 1 %}{{ x }}{% endfor %} => 2 => 29
- @fuel none
- {% set ns = namespace(v=[]) %}{% for i in range(100000) %}{% set ns.v = [ns.v] %}{% endfor %} =>  => ok
- {% set ns = namespace(v={}) %}{% for i in range(100000) %}{% set ns.v = {1: ns.v} %}{% endfor %} =>  => ok"#;

/// Values at the limit: a value has the size 1, the size of each part and 1, and 1 for each 16 bytes
/// of a text. What a template writes, its literals and the values that it is given may be larger.
pub(crate) const SIZES: &str = r#"Values at the limit of their size.
- @fuel none
- @text sixteen 0123456789abcdef
- @text big 0123456789abcdef0123456789abcdef
- @values 5
- {{ [1, 2] }} => [1, 2] => ok
- {{ [1, 2, 3] }} =>  => OutOfMemory
- {{ [[1]] }} => [[1]] => ok
- {{ [[1], 2] }} =>  => OutOfMemory
- {{ {1: 2} }} => {1: 2} => ok
- {{ {1: 2, 3: 4} }} =>  => OutOfMemory
- {{ dict(a=1) }} => {"a": 1} => ok
- {{ dict(a=1, b=2) }} =>  => OutOfMemory
- {{ [1] + [2] }} => [1, 2] => ok
- {{ [1, 2] + [3] }} =>  => OutOfMemory
- {{ [big] }} => ["0123456789abcdef0123456789abcdef"] => ok
- {{ [big, 1] }} =>  => OutOfMemory
- {{ [1, 2, 3][1] }} =>  => OutOfMemory
- {{ range(2) }} => [0, 1] => ok
- {{ range(3) }} =>  => OutOfMemory
- {% for c in "ab" %}{{ c }}{% endfor %} => ab => ok
- {% for c in "abc" %}{{ c }}{% endfor %} =>  => OutOfMemory
- {{ second(*"ab") }} => b => ok
- {{ second(*"abc") }} =>  => OutOfMemory
- {% set ns = namespace(a=1, b=2) %}{{ ns }} =>  => OutOfMemory
- {% set ns = namespace(a=1) %}{% set ns.b = 2 %}{{ ns }} => {"a": 1, "b": 2} => ok
- @values 2
- {{ "0123456789abcde" ~ "f" }} => 0123456789abcdef => ok
- {{ sixteen ~ sixteen }} =>  => OutOfMemory
- {{ big }} => 0123456789abcdef0123456789abcdef => ok
- {{ big[1:] }} => 123456789abcdef0123456789abcdef => ok
- {{ big[0:] }} =>  => OutOfMemory
- {{ second(1, sixteen) }} => 0123456789abcdef => ok
- {{ second(1, big) }} =>  => OutOfMemory
- {{ 1|second(big) }} =>  => OutOfMemory
- {{ big|upper }} =>  => OutOfMemory
- {% set x %}{{ sixteen }}0123456789abcde{% endset %}{{ x }} => 0123456789abcdef0123456789abcde => ok
- {% set x %}{{ sixteen }}0123456789abcdef{% endset %}{{ x }} =>  => OutOfMemory
- {% macro m() %}{{ big }}{% endmacro %}{{ m() }} =>  => OutOfMemory
- {% macro m() %}{% if true %}{{ big }}{% endif %}{% for x in [] %}{% endfor %}{% endmacro %}{{ m() }} =>  => OutOfMemory
- {% filter upper %}{{ big }}{% endfilter %} =>  => OutOfMemory
- {{ 1 + 1 }}{{ "a" ~ "b" }}{{ [] }} => 2ab[] => ok
- {{ big }}{{ big }}0123456789abcdef0123456789abcdef => 0123456789abcdef0123456789abcdef0123456789abcdef0123456789abcdef0123456789abcdef0123456789abcdef => ok
- @values 0
- {{ 1 + 1 }}{{ [] }} => 2[] => ok
- {{ [1] }} =>  => OutOfMemory
- @values 67108864
- @remove sixteen
- @remove big"#;

/// Texts and lists that grow where a name or an attribute binds them, shared or not.
pub(crate) const GROWTH: &str = r#"Texts and lists that grow.
- @fuel none
- {% set a = [1] %}{% set a = a + [2] %}{% set a = a + a %}{{ a }} => [1, 2, 1, 2] => ok
- {% set a = [1] %}{% set b = a %}{% set a = a + [2] %}{{ a }}{{ b }} => [1, 2][1] => ok
- {% set a = [1] %}{% set b = a + [2] %}{{ a }}{{ b }} => [1][1, 2] => ok
- {% set a = "x" %}{% set b = a %}{% set a = a ~ a %}{% set a = a + "y" %}{{ a }}{{ b }} => xxyx => ok
- {% set a = "x" %}{% set a = a ~ 1 %}{% set a = a ~ [2] %}{{ a }} => x1[2] => ok
- {% set a = [1] %}{% with %}{% set a = a + [2] %}{{ a }}{% endwith %}{{ a }} => [1, 2][1] => ok
- {% set a = [1] %}{% macro m() %}{{ a }}{% endmacro %}{% set a = a + [2] %}{{ m() }}{{ a }} => [1, 2][1, 2] => ok
- {% autoescape "html" %}{% set a %}<{% endset %}{% set a = a ~ "<" %}{{ a }}{% endautoescape %} => &lt;&lt; => ok
- {% set n = namespace(s="") %}{% for i in range(3) %}{% set n.s = n.s ~ "ab" %}{% endfor %}{{ n.s }} => ababab => ok
- {% set n = namespace(s="") %}{% for i in range(3) %}{% set n.s = n.s ~ i %}{% endfor %}{{ n.s }} => 012 => ok
- {% set n = namespace(s="x") %}{% set t = n.s %}{% set n.s = n.s ~ -12 %}{{ t }}{{ n.s }} => xx-12 => ok
- {% set n = namespace(s="x") %}{% set n.s = n.s ~ true %}{% set n.s = n.s ~ none %}{{ n.s }} => xtruenone => ok
- {% set n = namespace(s="x") %}{% set n.s = n.s ~ 1 %}{% set n.s = n.s + 1 %} =>  => InvalidOperation
- {% set n = namespace(v=[]) %}{% for i in range(3) %}{% set n.v = n.v + [i] %}{% endfor %}{{ n.v }} => [0, 1, 2] => ok
- {% set n = namespace(v=[1]) %}{% set k = n.v %}{% set n.v = n.v + [2] %}{{ k }}{{ n.v }} => [1][1, 2] => ok
- {% set n = namespace(v=[1], w=[2]) %}{% set n.w = n.v + [3] %}{{ n.v }}{{ n.w }} => [1][1, 3] => ok
- {% set n = namespace(v=[1]) %}{% set m = namespace(v=n.v) %}{% set n.v = n.v + [2] %}{{ n.v }}{{ m.v }} => [1, 2][1] => ok
- {% set n = namespace(v=[1]) %}{% set n.v = n.v + [n] %}{% set n.v = n.v + 1 %} =>  => InvalidOperation
- @values 5
- {% set a = [1] %}{% set a = a + [2] %}{{ a }} => [1, 2] => ok
- {% set a = [1, 2] %}{% set a = a + [3] %}{{ a }} =>  => OutOfMemory
- {% set n = namespace() %}{% set n.v = [1] %}{% set n.v = n.v + [2] %}{{ n.v }} => [1, 2] => ok
- {% set n = namespace() %}{% set n.v = [1, 2] %}{% set n.v = n.v + [3] %}{{ n.v }} =>  => OutOfMemory
- @values 67108864"#;

/// A long source: `start`, then `before` `count` times, `middle`, `after` `count` times, and `end`.
/// It writes `text` `times` times.
struct Long {
    start: &'static str,
    count: usize,
    before: &'static str,
    middle: &'static str,
    after: &'static str,
    end: &'static str,
    text: &'static str,
    times: usize,
}

static LONG: &[Long] = &[
    Long {
        start: "{% set a = 'b' %}",
        count: 2000,
        before: "{{ a }}x",
        middle: "",
        after: "",
        end: "",
        text: "bx",
        times: 2000,
    },
    Long {
        start: "",
        count: 100_000,
        before: "word ",
        middle: "",
        after: "",
        end: "",
        text: "word ",
        times: 100_000,
    },
    Long {
        start: "{{ 1",
        count: 999_999,
        before: " + 1",
        middle: " }}",
        after: "",
        end: "",
        text: "1000000",
        times: 1,
    },
    Long {
        start: "{{ ",
        count: 150,
        before: "(",
        middle: "7",
        after: ")",
        end: " }}",
        text: "7",
        times: 1,
    },
];

/// Appends `text` `times` times.
fn repeat(out: &mut String, text: &str, times: usize) -> Result<(), AllocError> {
    for _ in 0..times {
        out.push_str(text)?;
    }
    Ok(())
}

/// The source of a long row.
fn source_of(alloc: Global, long: &Long) -> Result<String, AllocError> {
    let mut source = String::from_str(alloc, long.start)?;
    repeat(&mut source, long.before, long.count)?;
    source.push_str(long.middle)?;
    repeat(&mut source, long.after, long.count)?;
    source.push_str(long.end)?;
    Ok(source)
}

/// Renders long rows without a limit on the fuel, so that no charges are counted.
pub(crate) fn expect_long<P: Parties>(
    alloc: Global,
    environment: &EnvironmentOf<'_, P>,
) -> Result<(), Fail> {
    for long in LONG {
        let source = source_of(alloc, long)?;
        let mut text = String::new(alloc);
        repeat(&mut text, long.text, long.times)?;
        let row = Row {
            source: source.as_str(),
            text: text.as_str(),
            end: "0",
            left: "",
        };
        expect_row(alloc, environment, &usual(), &row)?;
    }
    Ok(())
}
