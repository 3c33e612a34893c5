//! What states can be asked.
use crate::blocks::expect;
use crate::macros::are_bounded;
use crate::party::{Rows, add_filters};
use crate::settings::expect_table;
use std::alloc::Global;
use std::test::Fail;

/// Questions to states: that of a render, that of a template that hasn't run, and that without a
/// template. In `t` one macro has a fault inside nested scopes.
const SERVED: &str = r#"What states serve.
- {% set a = 1 %}{% set _b = 2 %} =>  => ok
- ?{% set a = 1 %}{% set _b = 2 %} => <string> => a => known _b a dict namespace range; find _b -> 2; find no -> nothing
- ?{% set b = 1 %}{% set a = 2 %}{% set b = 3 %} => <string> => a b => known a b dict namespace range; find b -> 3; find a -> 2
- @template t {% block b %}{% set z = 1 %}{{ z }}{% endblock %}{% set y = 2 %}{% macro m(a) %}{{ a }}{{ y }}{% endmacro %}{% macro _bad() %}{% with r = 1 %}{{ x.y }}{% endwith %}{% endmacro %}
- &t => 1 => ok
- ?&t => t => m y => call range 3 -> [0, 1, 2]; block b -> 1; call m 5 -> 52; call no ! UnknownFunction; block no ! UnknownBlock; filter no ! UnknownFilter; test no ! UnknownTest; gets no TemplateNotFound; filter kept ! MissingArgument; kept -> 1
- @times 100
- ?&t => t => m y => call _bad ! UndefinedError; block b -> 1; call m 5 -> 52
- @times 1
- @name u
- ?+{% block b %}x{% endblock %}{% macro m() %}M{% endmacro %} => u =>  => write b 9 x; call m ! UnknownFunction; keep 1 -> nothing; kept -> 1; call no ! UnknownFunction; block no ! UnknownBlock; filter no ! UnknownFilter; test no ! UnknownTest; gets no TemplateNotFound
- @name <string>
- ?- => <unknown> =>  => call range 2 -> [0, 1]; format 42 -> 42; gets t t; call no ! UnknownFunction; block no ! UnknownBlock; filter no ! UnknownFilter; test no ! UnknownTest; gets no TemplateNotFound; filter kept ! MissingArgument; kept -> 1
- ?{% macro m(a, b=2) %}{{ a }}{{ b }}{% endmacro %}{% macro bad(p) %}{% set q = 1 %}{% with r = 2 %}{% autoescape "html" %}{{ x.y }}{% endautoescape %}{% endwith %}{% endmacro %} => <string> => bad m => call m 1 -> 12; known bad dict m namespace range; call no ! UnknownFunction; known bad dict m namespace range; call bad ! UndefinedError; known bad dict m namespace range; keep 3 -> nothing; call bad ! UndefinedError; kept -> 3; call m 1 -> 12; known bad dict m namespace range
- ?{% macro m(a) %}{% if a %}{% set z = a %}{{ x.y }}{% endif %}[{{ z }}]{% endmacro %} => <string> => m => call m 1 ! UndefinedError; call m 0 -> []; call m 2 ! UndefinedError; call m -> []; known dict m namespace range
- ?{% macro m(n) %}{% set k = n %}{% if n %}{{ m(n - 1) }}{% endif %}{{ k }}{% endmacro %} => <string> => m => call m 3 -> 0123; call m 200 ! InvalidOperation; call m 3 -> 0123; known dict m namespace range
- @paid 2
- {% block b %}x{% endblock %} => x => 2 => fuel 0
- ?{% block b %}x{% endblock %} => <string> =>  => block b ! OutOfFuel; known dict namespace range; fuel 0
- @fuel none
- @undefined strict
- ?x => <string> =>  => keep 3 -> nothing; keep 2 -> 3; kept -> 2; filter second 1 0 -> 0; test second 1 0 -> false; filter no 1 0 ! UnknownFilter; block no ! UnknownBlock; filter upper hello -> HELLO; format 42 -> 42; format undefined ! UndefinedError; kept -> 2; filter kept ! MissingArgument; kept -> 1"#;

pub(crate) fn expect_states(alloc: Global, environment: &mut Rows<'_>) -> Result<(), Fail> {
    add_filters(environment)?;
    expect_table(alloc, environment, SERVED)?;
    expect(are_bounded(alloc, environment)?, "macros of other renders")
}
