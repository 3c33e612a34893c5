//! Rows of templates that include or import others, and states of such renders.

use crate::blocks::{expect, rendered};
use crate::guards::{ESCAPES, INHERITANCE, SCOPES};
use crate::party::{Rows, add_objects};
use crate::settings::{expect_table, fuel_for};
use std::alloc::Global;
use std::test::Fail;
use template_machine::*;

/// Templates that others include.
const INCLUDES: &str = r#"Templates that others include.
- @undefined-names
- @template i ab{{ 1 }}
- @template i2 {% set q = 7 %}
- @template e
- @template bad a{{ y.z }}
- @template base B{% block a %}x{% endblock %}
- @template child {% extends "base" %}{% block a %}c{% endblock %}
- @template u {{ x }}
- @short 4 {% include "i" %}
- @paid 5
- {% include "i" %} => ab1 => 5 => fuel 0
- @paid 3
- {% include "i" %} => ab => BadInclude>OutOfFuel
- @fuel 10000
- @limit 12
- {% include "i" %} => ab1 => 5
- @limit 11
- {% include "i" %} =>  => InvalidOperation
- @template within {% include "i" %}
- @limit 23
- {% include "within" %} => ab1 => 7
- @limit 22
- {% include "within" %} =>  => BadInclude>InvalidOperation
- @limit 500
- {% include ["no", "i"] %} => ab1 => 7
- {% include {"i": 1} %} => ab1 => 7
- @short 1 {% include "no" %}
- @paid 2
- {% include "no" %} =>  => TemplateNotFound
- @short 3 {% include ["no", "no2"] %}
- @paid 4
- {% include ["no", "no2"] %} =>  => TemplateNotFound
- @fuel 10000
- {% include "no" ignore missing %} =>  => 2
- {% include ["no", "no2"] ignore missing %} =>  => 4
- {% include [] %} =>  => 2
- {% include [] ignore missing %} =>  => 2
- {% include {} %} =>  => 2
- @short 1 {% include 1 %}
- @paid 2
- {% include 1 %} =>  => InvalidOperation
- {% include x %} =>  => InvalidOperation
- @short 1 {% include x %}
- @short 1 {% include 1 ignore missing %}
- @paid 2
- {% include 1 ignore missing %} =>  => InvalidOperation
- {% include x ignore missing %} =>  => InvalidOperation
- @short 1 {% include x ignore missing %}
- @short 3 {% include ["no", 1] %}
- @paid 4
- {% include ["no", 1] %} =>  => InvalidOperation
- @short 3 {% include ["no", 1] ignore missing %}
- @paid 4
- {% include ["no", 1] ignore missing %} =>  => InvalidOperation
- @fuel 10000
- {% include none %} =>  => InvalidOperation
- {% include title ignore missing %} =>  => InvalidOperation
- {% include ["no", x] ignore missing %} =>  => InvalidOperation
- {% include ["i", 1] %} => ab1 => 7
- @undefined chainable
- {% include x %} =>  => InvalidOperation
- {% include [x] ignore missing %} =>  => InvalidOperation
- @undefined semi-strict
- {% include x %} =>  => InvalidOperation
- {% include [x] ignore missing %} =>  => InvalidOperation
- @undefined strict
- {% include x %} =>  => InvalidOperation
- {% include x ignore missing %} =>  => InvalidOperation
- {% include [x] ignore missing %} =>  => InvalidOperation
- @undefined lenient
- @short 4 {% include "bad" %}
- @paid 5
- {% include "bad" %} => a => BadInclude>UndefinedError
- @short 4 {% include "bad" ignore missing %}
- @paid 5
- {% include "bad" ignore missing %} => a => BadInclude>UndefinedError
- @fuel 10000
- {% include "i2" %}{{ q }} =>  => 6 => exports
- {% with %}{% include "i2" %}{{ q }}{% endwith %}[{{ q }}] => [] => 10
- @template sets {{ x }}{% set x = 2 %}{{ x }}
- {% set x = 1 %}{% include "sets" %}{{ x }} => 121 => ok => exports x
- @template encloses {% set j = 2 %}{% macro k() %}{{ j }}{% endmacro %}{{ k() }}
- {% macro m() %}{{ j }}{% endmacro %}{% set j = 1 %}{% include "encloses" %}{{ m() }} => 21 => ok => exports j m
- {% macro m() %}{{ j }}{% endmacro %}{% set j = 1 %}{% include "encloses" %}{% set j = 3 %}{{ m() }} => 23 => ok
- {% include "encloses" %}{{ k() }} => 2 => UnknownFunction
- @template round {{ loop.index }}{{ x }}
- {% for x in [1] %}{% include "round" %}{% endfor %} => 11 => ok
- {% for x in [1,2] %}{% include "u" %}{% endfor %} => 12 => 18
- {% macro m(x) %}{% include "u" %}{% endmacro %}{{ m(4) }} => 4 => 12
- {% macro m() %}{% include "u" %}{% endmacro %}{% set x = 1 %}{{ m() }} =>  => 12
- {% include "child" %}{% include "child" %} => BcBc => 14 => name <string>
- {% block a %}mine{% endblock %}{% include "child" %}{{ self.a() }} => mineBcmine => 11 => name <string>
- @template p.html {{ "<" }}
- {% include "p.html" %}{{ "<" }} => &lt;< => 6
- @text x <
- {% autoescape true %}{% include "u" %}{{ x }}{% endautoescape %} => <&lt; => 7
- @remove x
- @template b2 B{% include "k" %}
- @template k {% extends "b2" %}
- @short 4 {% extends "b2" %}
- @paid 5
- {% extends "b2" %} => B => BadInclude>InvalidOperation
- @template s {{ super() }}
- @template l {{ loop([]) }}
- @fuel 10000
- {% block a %}{% include "s" %}{% endblock %} =>  => BadInclude>InvalidOperation
- @short 7 {% for x in [1] recursive %}{% include "l" %}{% endfor %}
- @paid 8
- {% for x in [1] recursive %}{% include "l" %}{% endfor %} =>  => BadInclude>InvalidOperation
- @fuel 10000
- @template t {% if l %}<{{ l([5]) }}>{% else %}{% for x in [1] recursive %}({{ x }}){% if x == 1 %}{% set l = loop %}{% include "t" %}{% endif %}{% endfor %}{% endif %}
- &t => (1)<(5)> => 41
- @name t
- {% if l %}<{{ l([5]) }}>{% else %}{% for x in [1] recursive %}({{ x }}){% if x == 1 %}{% set l = loop %}{% include "t" %}{% endif %}{% endfor %}{% endif %} => (1)< => BadInclude>InvalidOperation
- @name <string>
- @template base3 {{ y.z }}
- @template k3 {% extends "base3" %}
- {% if false %}{% block b %}{% include "k3" %}{% endblock %}{% endif %}ok => ok => ok
- {% include "k3" %} =>  => BadInclude>UndefinedError
- @template n {{ title() }}
- {% include "n" %}{{ title() }} => n<string> => 6
- {% block a %}{% include "n" %}{{ title() }}{% endblock %} => n<string> => 7
- @template own {% block a %}o{% endblock %}{{ by_block("a") }}
- {% block a %}r{% endblock %}{% include "own" %}{{ by_block("a") }} => roor => ok
- @template asks {{ self.a() }}
- {% block a %}r{% endblock %}{% include "asks" %} => r => BadInclude>UnknownBlock
- @template raised {% extends "base" %}{% block a %}c{{ super() }}{% endblock %}
- {% block a %}{% include "raised" %}{% endblock %} => Bcx => ok
- {% include "child" %}{% extends "base" %} => BcBx => 11 => name base
- {% extends "base" %}{% block a %}{% include "child" %}{% endblock %} => B => BadInclude>InvalidOperation
- @template z {% set z = 2 %}{% macro g() %}{{ z }}{% endmacro %}{{ g() }}
- {% macro f() %}{{ z }}{% endmacro %}{% set z = 1 %}{% include "z" %}{{ z }}{{ f() }}{% set z = 3 %}{{ f() }}{{ g() }} => 2113 => UnknownFunction
- {% set s %}[{% include "i" %}]{% endset %}{{ s }}{{ s }} => [ab1][ab1] => 13
- a{% set s %}b{% include "bad" %}{% endset %} => a => BadInclude>UndefinedError
- {% filter upper %}{% include "i" %}{% endfilter %} => AB1 => 8
- a{% filter upper %}b{% include "bad" %}{% endfilter %} => a => BadInclude>UndefinedError
- {% macro m() %}[{% include "i" %}]{% endmacro %}{{ m() ~ m() }} => [ab1][ab1] => ok
- {% macro m() %}{% include "bad" %}{% endmacro %}a{{ m() }} => a => BadInclude>UndefinedError
- {% macro m() %}[{{ caller() }}]{% endmacro %}{% call m() %}{% include "i" %}{% endcall %} => [ab1] => ok
- {% for x in [[[]],[]] recursive %}{% include "u" %}{{ loop(x) }};{% endfor %} => [[]][];;[]; => ok
- {% for x in [[1]] recursive %}{% include "u" %}{% include "bad" ignore missing %}{{ loop(x) }};{% endfor %} => [1]a => BadInclude>UndefinedError
- {% for x in ["no","i"] %}{% include x ignore missing %};{% endfor %} => ;ab1; => ok
- {% for x in [1] %}{% include loop %}{% endfor %} =>  => TemplateNotFound
- @template index {{ loop.index }}{{ x }}
- {% for x in [7,8] %}{% include loop %}{% endfor %} => 1728 => ok
- {% macro m() %}{% endmacro %}{% include m %} =>  => TemplateNotFound
- @template caller C
- {% macro m() %}{% endmacro %}{% include m %} => C => ok
- {% include f(i=1) %} => ab1 => ok
- {% include f() %} =>  => InvalidOperation
- {% set n = namespace(no=1, i=2) %}{% include n %} => ab1 => ok
- {% set n = namespace() %}{% include n %} =>  => ok
- @limit 17
- {% macro m() %}{% include "i" %}{% endmacro %}{{ m() }} =>  => InvalidOperation
- @limit 18
- {% macro m() %}{% include "i" %}{% endmacro %}{{ m() }} => ab1 => ok
- @template w {% with %}{{ 1 }}{% endwith %}
- @limit 12
- {% include "w" %} =>  => BadInclude>InvalidOperation
- @limit 13
- {% include "w" %} => 1 => 4
- {% include "w" %}{% with %}{% with %}{% with %}{{ 2 }}{% endwith %}{% endwith %}{% endwith %} => 12 => 6
- @limit 500
- @name p.html
- {% set s %}<b>{% include "i" %}{% endset %}{{ s }} => <b>ab1 => ok
- {% include "n" %}{{ "<" }} => n&lt; => 6
- @name <string>
- {% include %} =>  => SyntaxError
- {% include "i" ignore %} =>  => SyntaxError
- {% include "i" missing %} =>  => SyntaxError
- {% include "i" ignore missing x %} =>  => SyntaxError"#;

/// Templates that others import.
const IMPORTS: &str = r#"Templates that others import.
- @undefined-names
- @template f {% macro f(x) %}<{{ x }}>{% endmacro %}{% set _p = 1 %}{% set q = 2 %}text
- {% import "f" as m %}{{ m.f(5) }}{{ m.q }}{{ m._p }} => <5>2 => 28
- {% import "f" as m %}{{ m }} => text => 15
- @name c.json
- {% import "f" as m %}{{ m }} =>  => BadSerialization
- @name <string>
- {% import "f" as m %}{% for k in m %}{{ k }} {% endfor %}{{ m == m }}{{ "q" in m }}{{ m["q"] }} => f q truetrue2 => 39
- @short 3 {% import "e" as m %}
- @paid 4
- {% import "e" as m %} =>  => 4
- @fuel 10000
- @limit 12
- {% import "e" as m %} =>  => 4
- {% from "e" import e %} =>  => ok
- @limit 11
- {% import "e" as m %} =>  => InvalidOperation
- {% from "e" import e %} =>  => InvalidOperation
- @limit 500
- {% from "f" import f as g, q %}{{ g(1) }}{{ q }} => <1>2 => 26 => exports g q
- {% from "f" import nope %}[{{ nope }}] => [] => 18
- {% from "f" import _p %}[{{ _p }}] => [1] => 18
- {% from "f" import q as a, q as b %}{{ a }}{{ b }} => 22 => 20
- {% from "f" import %} =>  => SyntaxError
- @template d {% set q = 1 %}{% block a %}{{ x.y }}{% endblock %}
- {% from "d" import q %}[{{ q }}] => [1] => 12
- @short 6 {% import "d" as m %}
- @paid 7
- {% import "d" as m %} =>  => BadInclude>UndefinedError
- @fuel 10000
- {% import ["no","f"] as m %}{{ m.q }} => 2 => 18
- @short 13 {% import "f" as n.m %}
- @paid 14
- {% import "f" as n.m %} =>  => InvalidOperation
- @fuel 10000
- {% set n = namespace() %}{% import "f" as n.m %}{{ n.m.q }} => 2 => 20
- @template c {% macro f() %}{{ z }}{% endmacro %}
- {% set z = 1 %}{% import "c" as m %}{% set z = 2 %}{{ m.f() }} => 1 => 18
- {% import "child" as m %}{{ m }} => Bc => 11
- {% from "child" import a %}[{{ a }}] => [] => 13
- {% import "no" as m %} =>  => TemplateNotFound
- {% from ["no", 1] import q %} =>  => InvalidOperation
- a{% import "bad" as m %} => a => BadInclude>UndefinedError
- a{% from "bad" import q %} => a => BadInclude>UndefinedError
- {% import [] as m %}[{{ m }}] => [] => ok
- {% from "f" import q, %}{{ q }} => 2 => 16
- {% from "f" import q as a, _p as a %}{{ a }} => 2 => 18
- {% from "e" import title %}{{ title() }} => <string> => 7
- {% set v = 3 %}{% from "e" import v as w %}{{ w }} => 3 => 9
- {% from "f" import f as g %}{{ by_macro("g", 5) }} => <5> => ok
- {% for x in [1,2] %}{% from "f" import f %}{{ f(x) }}{% endfor %} => <1><2> => ok
- {% with %}{% import "f" as m %}{{ m.q }}{% endwith %}[{{ m }}] => 2[] => ok
- {% import "f" as m %}{% include m %} => text => ok
- @template box {% macro box() %}[{{ caller() }}]{% endmacro %}
- {% from "box" import box %}{% call box() %}x{% endcall %} => [x] => ok
- {% import "box" as m %}{% call m.box() %}x{% endcall %} => [x] => ok
- @template all {% import "f" as m %}{% from "f" import f, q as r %}{{ m }}
- {% import "all" as m %}{{ m }}{{ m.m.q }}{{ m.r }}{{ m.f(1) }} => text22<1> => ok
- @template values {% set a = 1 %}{% set b = [none] %}{% set _c = 2 %}
- {% import "values" as m %}{{ m.a ~ m.b }}{% for k in m %}{{ k }}{% endfor %} => 1[none]ab => ok
- @name c.json
- {% import "values" as m %}{{ m }} => {"a":1,"b":[null]} => ok
- @name p.html
- @template marked <b>
- {% import "marked" as m %}{{ m }} => &lt;b&gt; => ok
- {% import "p.html" as m %}{{ m }} => &amp;lt; => ok
- @name <string>
- {% import "f" %} =>  => SyntaxError
- {% import "f" as %} =>  => SyntaxError
- {% from "f" import q as %} =>  => SyntaxError
- {% from "f" import q as n.q %} =>  => SyntaxError
- {% from "f" %} =>  => SyntaxError"#;

/// What templates include and import with an object that joins names.
const JOINED: &str = r#"What templates include and import where an object joins names.
- @template lib/i ok
- @template lib/j [{% include "i" %}]
- @template lib/base B{% block a %}{% include "i" %}{% endblock %}
- {% include "lib/i" %} => ok => 3 => gets i i
- @joins lib
- {% include "i" %} => ok => 3 => gets i lib/i
- {% include "j" %} => [ok] => 7
- {% include ["no", "i"] %} => ok => 5
- {% include "lib/i" %} =>  => TemplateNotFound
- {% extends "base" %} => Bok => ok => name lib/base
- {% import "i" as m %}{{ m }} => ok => ok
- {% from "i" import q %}[{{ q }}] => [] => ok
- @joins missing
- a{% include "i" %} => a => MissingArgument
- {% include "i" ignore missing %} =>  => MissingArgument
- {% include ["no", "i"] ignore missing %} =>  => MissingArgument
- {% import "i" as m %} =>  => MissingArgument
- {% from "i" import m %} =>  => MissingArgument
- {% include [] %} =>  => 2 => gets i MissingArgument
- {% include 1 %} =>  => InvalidOperation
- @joins parent
- @template t/i ({% include "j" %})
- @template t/i/j {{ title() }}
- @template t/j T
- @template t/base [{% block a %}{% endblock %}{% include "j" %}]
- @template t/base/j J
- @name t
- {% include "i" %} => (t/i/j) => ok => gets i/j t/i/j
- {% import "i" as m %}{{ m }} => (t/i/j) => ok => name t
- {% extends "base" %}{% block a %}{% include "j" %}{% endblock %} => [TJ] => ok => gets j t/base/j
- @template t/e {% extends "b" %}
- @template t/e/b E
- @template t/m {% macro m() %}{% include "j" %}{% endmacro %}
- @template t/m/j M
- @template t/n {% import "o" as o %}{{ o }}
- @template t/n/o N
- {% include "i" %}{% include "j" %} => (t/i/j)T => ok => name t
- {% include "e" %} => E => ok => name t
- {% include "n" %} => N => ok => name t
- {% from "m" import m %}{{ m() }}{% include "j" %} => MT => ok => name t"#;

/// What states run after renders that include or import others, and macros that they call by
/// imported names.
const STATES: &str = r#"States of renders that include or import others.
- @template base3 {{ y.z }}
- @template k3 {% extends "base3" %}
- @template deep {% autoescape "html" %}{% with r = 2 %}{% set s %}{{ r }}{{ y.z }}{% endset %}{% endwith %}{% endautoescape %}
- @template looped {% for x in [1] %}{{ x }}{{ y.z }}{% endfor %}
- ?{% if false %}{% block b %}{% include "k3" %}{% endblock %}{% endif %}ok => <string> =>  => block b ! BadInclude>UndefinedError; block b ! BadInclude>UndefinedError
- ?{% if false %}{% block b %}{% with %}{% include "bad" %}{% endwith %}{% endblock %}{% block c %}{% include "i" %}{% endblock %}{% endif %} => <string> =>  => block c -> ab1; block b ! BadInclude>UndefinedError; block c -> ab1; block b ! BadInclude>UndefinedError
- ?{% if false %}{% block b %}{% include "deep" %}{% endblock %}{% block c %}{{ "<" }}{% endblock %}{% endif %} => <string> =>  => block c -> <; block b ! BadInclude>UndefinedError; block c -> <; block b ! BadInclude>UndefinedError
- ?{% if false %}{% block b %}{% for x in [1] recursive %}{% include "looped" %}{% endfor %}{% endblock %}{% endif %} => <string> =>  => block b ! BadInclude>UndefinedError; block b ! BadInclude>UndefinedError
- ?{% if false %}{% block a %}r{% include "child" %}{{ self.b() }}{% endblock %}{% block b %}s{% endblock %}{% endif %} => <string> =>  => block a -> rBcs; block b -> s; block a -> rBcs
- ?{% include "i2" %}{% if false %}{% block b %}{{ q }}{% endblock %}{% endif %} => <string> =>  => block b -> ; block b -> 
- ?{% import "f" as m %}{% if false %}{% block b %}{{ m.f(1) }}{% endblock %}{% endif %} => <string> => m => block b -> <1>; block b -> <1>
- ?{% if false %}{% block b %}{% include "no" %}{% endblock %}{% block c %}{% include 1 ignore missing %}{% endblock %}{% block d %}{% import "deep" as m %}{% endblock %}{% endif %} => <string> =>  => block b ! TemplateNotFound; block c ! InvalidOperation; block d ! BadInclude>UndefinedError; block b ! TemplateNotFound
- ?{% extends "base" %}{% block b %}{% include "child" %}{% endblock %}{% block c %}{% include "n" %}{% endblock %} => base =>  => block c -> n; block b ! BadInclude>InvalidOperation; block c -> n
- ?{% from "f" import f as g %}{% import "f" as m %} => <string> => g m => call g 5 -> <5>; call m ! InvalidOperation; call q ! UnknownFunction"#;

/// Whether an error is InvalidOperation without a cause, inside `includes` includes.
fn is_refused(error: &Error, includes: usize) -> bool {
    let mut fault = error;
    for _ in 0..includes {
        match fault.cause() {
            Some(cause) if fault.kind() == ErrorKind::BadInclude => fault = cause,
            _ => return false,
        }
    }
    fault.kind() == ErrorKind::InvalidOperation && fault.cause().is_none()
}

/// Whether a render is refused inside `includes` includes and writes nothing.
fn is_ended<P: Parties>(alloc: Global, template: &TemplateOf<'_, '_, P>, includes: usize) -> bool {
    let mut writer = Counted::new(Vec::new(alloc));
    let mut ids = StateIds::new();
    let is_refused = match template.render_captured_to(&mut ids, Value::undefined(), &mut writer) {
        Ok(_) => false,
        Err(error) => is_refused(&error, includes),
    };
    is_refused && writer.inner().is_empty()
}

/// The same for the template `name`.
fn ends<P: Parties>(
    alloc: Global,
    environment: &EnvironmentOf<'_, P>,
    name: &str,
    includes: usize,
) -> bool {
    match environment.get_template(name) {
        Ok(template) => is_ended(alloc, &template, includes),
        Err(_) => false,
    }
}

/// Whether the template `name` writes `x`.
fn gives<P: Parties>(environment: &EnvironmentOf<'_, P>, name: &str) -> bool {
    match rendered(environment, name) {
        Ok(text) => text.as_str() == "x",
        Err(_) => false,
    }
}

/// Adds 200 templates: c0 is `x`, and each later one includes the one before it.
fn add_chain<P: Parties>(
    alloc: Global,
    environment: &mut EnvironmentOf<'_, P>,
) -> Result<(), Error> {
    environment.add_template("c0", "x")?;
    for number in 1..200_usize {
        let name = format!(in alloc; "c{number}")?;
        let before = number - 1;
        let source = format!(in alloc; "{{% include 'c{before}' %}}")?;
        environment.add_template_owned(name.as_str(), source)?;
    }
    Ok(())
}

/// Renders templates that are nested deep, within the limit and beyond it, and one that includes
/// itself.
fn expect_chain<P: Parties>(
    alloc: Global,
    environment: &mut EnvironmentOf<'_, P>,
) -> Result<(), Fail> {
    add_chain(alloc, environment)?;
    expect(gives(environment, "c45"), "45 includes")?;
    expect(ends(alloc, environment, "c46", 45), "46 includes")?;
    expect(ends(alloc, environment, "c199", 45), "199 includes")?;
    environment.set_recursion_limit(100);
    expect(gives(environment, "c9"), "9 includes")?;
    expect(ends(alloc, environment, "c10", 9), "10 includes")?;
    environment.set_recursion_limit(500);
    environment.add_template("t", "{% include 't' %}")?;
    environment.set_fuel(Some(fuel_for(92)));
    expect(
        ends(alloc, environment, "t", 45),
        "one that includes itself",
    )
}

/// The charges of the template that includes itself.
const CHARGES: &str = "Its charges.
- @short 91 &t
- @fuel 10000";

/// Renders the tables.
pub(crate) fn expect_includes(alloc: Global, environment: &mut Rows<'_>) -> Result<(), Fail> {
    add_objects(environment)?;
    environment.set_fuel(Some(10000));
    expect_table(alloc, environment, INCLUDES)?;
    expect_table(alloc, environment, IMPORTS)?;
    expect_table(alloc, environment, STATES)?;
    expect_chain(alloc, environment)?;
    expect_table(alloc, environment, CHARGES)?;
    expect_table(alloc, environment, INHERITANCE)?;
    expect_table(alloc, environment, ESCAPES)?;
    expect_table(alloc, environment, SCOPES)?;
    expect_table(alloc, environment, JOINED)
}
