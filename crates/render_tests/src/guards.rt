//! Rows of what blocks, macros, escapes and loops keep separate: around includes and calls, with
//! joined names, and before a first item.

/// Blocks, the running one and the places in the lists, with includes and macros.
pub(crate) const INHERITANCE: &str =
    r#"Blocks, the one that runs and their places among includes and macros.
- @undefined-names
- @template gi {% block a %}i{% endblock %}
- @template gb {% block a %}[{% include "gi" %}]{% endblock %}
- {% extends "gb" %}{% block a %}x{{ super() }}{% endblock %} => x[i] => 11 => name gb
- @template gp {% block a %}x{% endblock %}
- @template gm {% extends "gp" %}{% block a %}m{% include "gi" %}{{ super() }}{% endblock %}
- {% extends "gm" %}{% block a %}c{{ super() }}{% endblock %} => cmix => 14 => name gp
- @template gl {% block a %}2{% endblock %}{{ super() }}
- @template gk {% extends "gl" %}{% block a %}1{% endblock %}
- {% block a %}{% include "gk" %}{% endblock %} => 12 => 9 => name <string>
- {% extends "gp" %}{% block a %}{% include "no" ignore missing %}{{ super() }}{% endblock %} => x => 7
- {% extends "gp" %}{% block a %}{% include ["no", "no2"] ignore missing %}{{ super() }}{% endblock %} => x => 9
- @short 8 {% extends "gp" %}{% macro m() %}{{ super() }}{% endmacro %}{% block a %}{{ m() }}{% endblock %}
- @paid 9
- {% extends "gp" %}{% macro m() %}{{ super() }}{% endmacro %}{% block a %}{{ m() }}{% endblock %} =>  => InvalidOperation
- @fuel 10000
- {% extends "gp" %}{% macro m() %}{{ super() ~ "" }}{% endmacro %}{% block a %}b{{ m() }}{% endblock %} => b => InvalidOperation
- @template gn {% extends "gp" %}{% macro m() %}{{ super() }}{% endmacro %}{% block a %}m{{ m() }}{% endblock %}
- @short 13 {% extends "gn" %}{% block a %}c{{ super() }}{% endblock %}
- @paid 14
- {% extends "gn" %}{% block a %}c{{ super() }}{% endblock %} => cm => EvalBlock>InvalidOperation
- @fuel 10000
- {% extends "gp" %}{% macro m() %}M{% endmacro %}{% block a %}{{ m() }}{{ super() }}{% endblock %} => Mx => 12"#;

/// Escapes of captures, and what `true` means for them.
pub(crate) const ESCAPES: &str = r#"Escapes of captures, and what `true` means to them.
- @undefined-names
- @name page.json
- {% set x %}"{% endset %}{{ x }} => " => 5
- {% macro m() %}"{% endmacro %}{{ m() }} => " => 7
- {% autoescape "html" %}{% autoescape true %}{{ "<" }}{% endautoescape %}{% endautoescape %} => "<" => 4
- {% autoescape "html" %}{% autoescape true %}{{ none }}{% endautoescape %}{% endautoescape %} => null => 4
- {% autoescape "html" %}{% block b %}{% autoescape true %}{{ "<" }}{% endautoescape %}{% endblock %}{% endautoescape %} => &lt; => 5
- {% autoescape "none" %}{% block b %}{% autoescape true %}{{ "<" }}{% endautoescape %}{% endblock %}{% endautoescape %} => &lt; => 5
- {% macro m() %}{% autoescape true %}{{ "<" }}{% endautoescape %}{% endmacro %}{% autoescape "html" %}{{ m() }}{% endautoescape %} => &lt; => 10
- @template inner {% autoescape true %}{{ "<" }}{% endautoescape %}
- {% include "inner" %}{{ "<" }} => &lt;"<" => 7
- @name <string>
- {% autoescape "json" %}{% autoescape true %}{{ "<" }}{% endautoescape %}{% endautoescape %} => &lt; => 4"#;

/// What macros see, and questions to loops in a condition.
pub(crate) const SCOPES: &str = r#"What macros see, and loops that are asked in a condition.
- @names
- @template shows {{ g }}
- {% macro m() %}{% include "shows" %}{% endmacro %}{% with g = 1 %}{{ m() }}{% endwith %} => 7 => 12
- {% macro m() %}{% include "shows" %}{% endmacro %}{% macro n(g) %}{{ m() }}{% endmacro %}{{ n(1) }} => 7 => 19
- {% set g = 1 %}{% macro m() %}{{ g }}{% include "shows" %}{% endmacro %}{{ m() }} => 11 => 15
- @undefined-names
- @global g 3
- {% macro m() %}{% include "shows" %}{% endmacro %}{% with g = 1 %}{{ m() }}{% endwith %} => 3 => 12
- {% for g in [1] %}{{ g }}{% endfor %}{% macro m() %}{% include "shows" %}{% endmacro %}{% for g in [1] %}{{ m() }}{% endfor %} => 13 => ok
- @remove g
- {% macro m() %}{{ loop([]) }}{% endmacro %}{% for x in [1] recursive %}{{ m() }}{% endfor %} =>  => UnknownFunction
- @template place {{ loop.index }}
- {% macro m() %}[{% include "place" %}]{% endmacro %}{% for x in [1] %}{{ m() }}{% endfor %} =>  => BadInclude>UndefinedError
- {% for y in [1,2] %}{% for x in [7] if loop.cycle(true, false) %}{{ x }}{% endfor %};{% endfor %} => 7;; => ok
- {% for y in [1,2] %}{% for x in [7] if loop.changed(1) %}{{ x }}{% endfor %};{% endfor %} => 7;; => ok
- {% for y in [1,2] %}{% for x in [7] if loop.previtem == 1 %}{{ x }}{% endfor %};{% endfor %} => ;7; => ok
- {% for x in [7] if loop.cycle(true) %}{{ x }}{% endfor %} =>  => UnknownMethod"#;
