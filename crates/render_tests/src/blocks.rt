//! Rows of blocks and of templates that extend others, and blocks that states run.
use crate::renders::fault_of;
use crate::verifying::verify_source;
use std::alloc::Global;
use std::test::Fail;
use template_machine::*;

/// The templates that rows extend, each with its name first.
static LAYOUTS: [&str; 5] = [
    "base B:{% block a %}x{% endblock %}",
    "base2 P",
    r#"mid {% extends "base" %}{% block a %}m{{ super() }}{% endblock %}"#,
    "req {% block a required %}{% endblock %}",
    "hidden {% if false %}{% block a %}2{{ y.z }}{% endblock %}{% endif %}",
];

/// Adds the layouts. BadStream if a stream of one is refused.
pub(crate) fn add_layouts<P: Parties>(
    alloc: Global,
    environment: &mut EnvironmentOf<'_, P>,
) -> Result<(), Error> {
    for layout in &LAYOUTS {
        let (name, source) = layout.split_once(' ').unwrap_or((layout, ""));
        verify_source(alloc, source, environment.syntax())?;
        environment.add_template(name, source)?;
    }
    Ok(())
}

/// Blocks, and templates that extend others.
pub(crate) const BLOCKS: &str = r#"Blocks, and templates that extend others.
- @undefined-names
- &base => B:x => ok => name base
- &mid => B:mx => ok => name base
- {% extends "base" %}{% set y = 1 %}ignored{% block a %}[{{ super() }}{{ y }}]{% endblock %} => B:[x1] => 13 => name base
- @paid 13
- {% extends "base" %}{% set y = 1 %}ignored{% block a %}[{{ super() }}{{ y }}]{% endblock %} => B:[x1] => 13 => fuel 0
- @paid 11
- {% extends "base" %}{% set y = 1 %}ignored{% block a %}[{{ super() }}{{ y }}]{% endblock %} => B:[x => OutOfFuel
- @paid 9
- {% extends "base" %}{% set y = 1 %}ignored{% block a %}[{{ super() }}{{ y }}]{% endblock %} => B:[ => EvalBlock>OutOfFuel
- @fuel 10000
- {% extends "mid" %}{% block a %}c{{ super() }}{% endblock %} => B:cmx => 11 => name base
- {% extends "mid" %}{% block a %}c{{ super() ~ "!" }}{% endblock %} => B:cmx! => 14
- @limit 4
- {% extends "mid" %}{% block a %}c{{ super() }}{% endblock %} => B:cmx => 11
- @limit 3
- {% extends "mid" %}{% block a %}c{{ super() }}{% endblock %} => B:cm => EvalBlock>InvalidOperation
- @limit 500
- {% extends "mid" %} => B:mx => 8
- {% extends "mid" %}{% block a %}{{ super() }}{{ super() }}{% endblock %} => B:mxmx => 14
- {% if x %}{% extends "base" %}{% else %}{% extends "base2" %}{% endif %}t => P => 5 => name base2
- {% for n in [1,2] %}{{ n }}{% if n == 2 %}{% extends "base2" %}{% endif %}{% endfor %}z => 12P => 25
- {% block a %}{% extends "base2" %}q{% endblock %}! => P! => 5 => name <string>
- {% macro m() %}{% extends "base2" %}q{% endmacro %}[{{ m() }}] => [] => 10 => name <string>
- @short 1 {% extends "base2" %}{% extends "base2" %}
- @paid 2
- {% extends "base2" %}{% extends "base2" %} =>  => InvalidOperation
- @short 0 {% extends 1 %}
- @paid 1
- {% extends 1 %} =>  => InvalidOperation
- @short 0 {% extends x %}
- @paid 1
- {% extends x %} =>  => InvalidOperation
- @short 0 {% extends "no" %}
- @paid 1
- {% extends "no" %} =>  => TemplateNotFound
- @short 0 {% set x %}{% extends "no" %}{% endset %}
- @paid 1
- {% set x %}{% extends "no" %}{% endset %} =>  => InvalidOperation
- @template t {% extends "t" %}x
- @short 2 &t
- @paid 3
- &t =>  => InvalidOperation
- @name t
- {% extends "t" %}x =>  => InvalidOperation
- @name <string>
- @fuel 10000
- {% block a %}x{% endblock %}{{ self.a() }} => xx => 4
- {{ self.q() }} =>  => UnknownBlock
- @short 0 {{ super() }}
- @paid 1
- {{ super() }} =>  => InvalidOperation
- @short 1 {% block a %}{{ super() }}{% endblock %}
- @paid 2
- {% block a %}{{ super() }}{% endblock %} =>  => InvalidOperation
- @short 1 {{ super(1) }}
- @paid 2
- {{ super(1) }} =>  => InvalidOperation
- @short 0 {{ super().x }}
- @paid 1
- {{ super().x }} =>  => InvalidOperation
- @short 3 {% block a %}{{ self.a(1) }}{% endblock %}
- @paid 4
- {% block a %}{{ self.a(1) }}{% endblock %} =>  => UnknownMethod
- @fuel 10000
- &req =>  => InvalidOperation
- {% block a required %}{% endblock %} =>  => InvalidOperation
- {% extends "req" %} =>  => InvalidOperation
- {% extends "req" %}{% block a %}ok{% endblock %} => ok => 4
- {% block a %}{% endblock %}{% block a %}{% endblock %} =>  => SyntaxError
- {% block a %}{% block a %}{% endblock %}{% endblock %} =>  => SyntaxError
- {% block a %}{% endblock b %} =>  => SyntaxError
- {% for x in [1] %}{% block a %}{% break %}{% endblock %}{% endfor %} =>  => SyntaxError
- @template q {{ x }}
- {% set x = 1 %}{% extends "q" %}{% set x = 2 %} => 2 => 7
- @template q {% set x = 4 %}{% block a %}{% endblock %}{% with x = 5 %}{% block b %}{% endblock %}{{ self.a() }}{% endwith %}
- {% extends "q" %}{% block a %}{{ x }}{% endblock %} => 45 => 13
- @owned q {% for n in [1,2] %}{% block a %}{% endblock %}{% endfor %}
- {% extends "q" %}{% block a %}{{ n }}{% endblock %} => 12 => 18
- @template q {% block a %}{% endblock %}{{ f() }}
- {% extends "q" %}{% macro f() %}M{% endmacro %}{% block a %}{{ f() }}{% endblock %} => MM => 13
- @name p.html
- {% block a %}<b>{% endblock %}{% set s = self.a() %}{{ s }}{{ self.a() ~ "" }} => <b><b>&lt;b&gt; => 14
- @name <string>
- {% extends "base" %}{% set s = self.a() %}{% block a %}c{% endblock %} => B:c => 8
- {% extends "base" %}{% block a %}{% set s = super() %}[{{ s }}]{% endblock %} => B:[x] => 11
- @template q {% block a %}2{{ y.z }}{% endblock %}
- @short 7 {% extends "q" %}{% block a %}1{{ super() }}{% endblock %}
- @paid 8
- {% extends "q" %}{% block a %}1{{ super() }}{% endblock %} => 12 => EvalBlock>UndefinedError
- @fuel 10000
- @template p {{ "<" }}{% block a %}{% endblock %}
- @name c.html
- {% extends "p" %}{% block a %}{{ "<" }}{% endblock %} => &lt;&lt; => 7
- @template p.html {{ "<" }}{% block a %}{% endblock %}
- @name t
- {% extends "p.html" %}{% block a %}{{ "<" }}{% endblock %} => << => 7 => name p.html
- @name <string>
- {{ by_block("a") }}{% block a %}<{% endblock %} => << => 6
- {{ by_block("no") }}{% block a %}<{% endblock %} =>  => UnknownBlock
- @name p.html
- {{ by_block("a") }}{% block a %}<{% endblock %} => &lt;< => 6
- @name <string>
- @short 1 {% extends "base" %}{{ nope() }}
- @paid 2
- {% extends "base" %}{{ nope() }} =>  => UnknownFunction
- @short 3 {% extends "base" %}{% set s = 1 // 0 %}
- @paid 4
- {% extends "base" %}{% set s = 1 // 0 %} =>  => InvalidOperation
- @fuel 10000
- {% for x in [[1]] recursive %}{% block b %}{{ loop(x) }}{% endblock %}{% endfor %} =>  => InvalidOperation
- {% if false %}{% block b %}{% for x in [1] %}{{ y.z }}{% endfor %}{% endblock %}{% endif %}ok => ok => ok"#;

/// Names of templates, as written and joined to the running template's name.
pub(crate) const JOINED: &str =
    r#"Names of templates, as they are written and joined to the running template's.
- @template base B
- @template lib/base L:{% block a %}x{% endblock %}
- @template lib/mid {% extends "base" %}{% block a %}m{{ super() }}{% endblock %}
- @template lib/own {% extends "own" %}
- @template lib/base/base P
- {% extends "base" %} => B => ok => gets lib/base lib/base
- {% extends "lib/own" %} =>  => TemplateNotFound
- a => a => ok => gets own TemplateNotFound
- @joins lib
- {% extends "base" %}{% block a %}c{% endblock %} => L:c => ok => name lib/base
- {% extends "mid" %}{% block a %}c{{ super() }}{% endblock %} => L:cmx => ok => gets own lib/own
- {% extends "lib/base" %} =>  => TemplateNotFound
- a => a => ok => gets lib/own TemplateNotFound
- &lib/own =>  => InvalidOperation
- {% extends "own" %} =>  => InvalidOperation
- @joins parent
- @name lib
- {% extends "base" %} => L:x => ok => gets base lib/base/base
- {% extends "mid" %} =>  => TemplateNotFound
- @name <string>
- {% extends "base" %} =>  => TemplateNotFound
- @joins missing
- a{% extends "base" %} => a => MissingArgument
- a => a => ok => gets base MissingArgument"#;

/// Blocks that states run, even after faults, and write as a whole or into a writer with a limit.
pub(crate) const STATES: &str = r#"Blocks that states run.
- ?{% if false %}{% block b %}{% for x in [1] %}{{ y.z }}{% endfor %}{% endblock %}{% endif %}ok => <string> =>  => block b ! UndefinedError; block b ! UndefinedError; block no ! UnknownBlock
- ?{% set v = 1 %}{% if false %}{% block b %}{% for x in [1] %}{% set w = 3 %}{{ y.z }}{% endfor %}{% endblock %}{% block c %}{% set w = 2 %}{{ v }}{{ w }}{% endblock %}{% endif %} => <string> => v => block c -> 12; block b ! UndefinedError; block c -> 12; block no ! UnknownBlock; block b ! UndefinedError; block c -> 12
- ?{% extends "mid" %}{% block a %}c{{ super() }}{% endblock %} => base =>  => block a -> cmx; block a -> cmx
- ?{% set v = 1 %}{% extends "hidden" %}{% block a %}1{{ super() }}{% endblock %}{% block c %}{{ v }}{% endblock %} => hidden => v => block a ! EvalBlock>UndefinedError; block c -> 1; block a ! EvalBlock>UndefinedError
- ?{% if false %}{% block a required %}{% endblock %}{% endif %} => <string> =>  => block a ! InvalidOperation; block a ! InvalidOperation
- ?{% if false %}{% block a %}{{ super() }}{% endblock %}{% endif %} => <string> =>  => block a ! InvalidOperation; block a ! InvalidOperation
- ?{% if false %}{% block a %}x{% endblock %}{% block b %}[{{ self.a() }}]{% endblock %}{% block c %}{{ self.b() }}{{ self.no() }}{% endblock %}{% endif %} => <string> =>  => block b -> [x]; block c ! UnknownBlock; block b -> [x]
- ?{% if false %}{% block a %}{% extends "base2" %}q{% endblock %}{% endif %} => <string> =>  => block a -> P
- ?{% if false %}{% block a %}{% autoescape "html" %}{{ y.z }}{% endautoescape %}{% endblock %}{% block b %}{{ "<" }}{% endblock %}{% endif %} => <string> =>  => block b -> <; block a ! UndefinedError; block b -> <
- ?{% if false %}{% block a %}{{ 1|kept }}{% endblock %}{% block b %}{{ read() }}{% endblock %}{% block c %}{{ keep() }}{% endblock %}{% endif %} => <string> =>  => block b -> ; block a ! MissingArgument; block b -> 1; block c -> 2; block b -> 1
- ?{% set n = namespace(v=0) %}{% if false %}{% block b %}{% set n.v = n.v + 1 %}{{ n.v }}{% endblock %}{% endif %} => <string> => n => block b -> 1; block b -> 2
- ?{% block b %}{{ title() }}{% endblock %} => <string> =>  => filter block c ! UnknownBlock; filter block b -> <string>; test block b -> true
- ?{% if false %}{% block b %}ab{{ 1 }}{% endblock %}{% block c %}d{{ y.z }}{% endblock %}{% endif %} => <string> =>  => write b 9 ab1; write b 1 a WriteFailure; write c 9 d UndefinedError; write no 9  UnknownBlock; write b 9 ab1"#;

/// The last template of a chain.
const LAST: &str = "t399";

/// Adds 400 templates: t0 is the source `first`; each later one extends the one before it and
/// continues with `rest`.
fn add_chain<P: Parties>(
    alloc: Global,
    environment: &mut EnvironmentOf<'_, P>,
    first: &str,
    rest: &str,
) -> Result<(), Error> {
    environment.add_template_owned("t0", String::from_str(alloc, first)?)?;
    for number in 1..400_usize {
        let name = format!(in alloc; "t{number}")?;
        let parent = number - 1;
        let source = format!(in alloc; "{{% extends 't{parent}' %}}{rest}")?;
        environment.add_template_owned(name.as_str(), source)?;
    }
    Ok(())
}

/// The text of the template `name`.
pub(crate) fn rendered<P: Parties>(
    environment: &EnvironmentOf<'_, P>,
    name: &str,
) -> Result<String, Error> {
    let template = environment.get_template(name)?;
    template.render(&mut StateIds::new(), Value::undefined())
}

/// Whether the text of the last template is that of the first one.
fn is_rendered<P: Parties>(environment: &EnvironmentOf<'_, P>) -> bool {
    match rendered(environment, LAST) {
        Ok(text) => text.as_str() == "x",
        Err(_) => false,
    }
}

/// Whether the last template is too deep, after `blocks` blocks.
fn is_too_deep<P: Parties>(environment: &EnvironmentOf<'_, P>, blocks: usize) -> bool {
    match rendered(environment, LAST) {
        Ok(_) => false,
        Err(error) => {
            let (depth, fault) = fault_of(&error);
            depth == blocks
                && fault.kind() == ErrorKind::InvalidOperation
                && fault.cause().is_none()
        }
    }
}

/// Fails with this name unless `holds`.
pub(crate) fn expect(holds: bool, name: &str) -> Result<(), Fail> {
    if holds {
        return Ok(());
    }
    Err(Fail::new(name))
}

/// Renders long chains of templates, with and without a block that runs the next one. A lower limit
/// makes the latter a fault after as many blocks as there are scopes, less those of the root and of
/// the first block.
pub(crate) fn expect_chains<P: Parties>(
    alloc: Global,
    environment: &mut EnvironmentOf<'_, P>,
) -> Result<(), Fail> {
    add_chain(alloc, environment, "x", "")?;
    expect(is_rendered(environment), "a chain of parents")?;
    let first = "{% block a %}x{% endblock %}";
    let rest = "{% block a %}{{ super() }}{% endblock %}";
    add_chain(alloc, environment, first, rest)?;
    expect(is_rendered(environment), "a chain of blocks")?;
    environment.set_recursion_limit(100);
    expect(is_too_deep(environment, 98), "a chain that is too deep")?;
    environment.set_recursion_limit(500);
    Ok(())
}
