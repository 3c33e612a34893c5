//! Tables of rows, with settings between them.

use crate::asking::expect_state;
use crate::callbacks::{folder_of, method_of, rule_of, style_of};
use crate::party::{Party, Rows, add_objects};
use crate::renders::{Given, Setup, are, expect_row, fault_of, row_of, template_of, usual};
use crate::verifying::verify_source;
use crate::{blocks, bounds, loops, macros, rows, values};
use std::alloc::Global;
use std::test::Fail;
use template_machine::*;

/// Other delimiters, with both trims of blocks and a kept final newline.
fn angles(alloc: Global) -> Result<SyntaxConfig, Error> {
    let block = String::from_str(alloc, "<%")?;
    let block_end = String::from_str(alloc, "%>")?;
    let comment = String::from_str(alloc, "<%#")?;
    let comment_end = String::from_str(alloc, "%>")?;
    let variable = String::from_str(alloc, "${")?;
    let variable_end = String::from_str(alloc, "}")?;
    SyntaxConfig::builder()
        .block_delimiters(block, block_end)
        .comment_delimiters(comment, comment_end)
        .variable_delimiters(variable, variable_end)
        .trim_blocks(true)
        .lstrip_blocks(true)
        .keep_trailing_newline(true)
        .build()
}

fn behavior(name: &str) -> UndefinedBehavior {
    match name {
        "chainable" => UndefinedBehavior::Chainable,
        "semi-strict" => UndefinedBehavior::SemiStrict,
        "strict" => UndefinedBehavior::Strict,
        _ => UndefinedBehavior::Lenient,
    }
}

/// Whether an environment has this fuel, limit, undefined behavior, and setting for the final
/// newline.
fn is_set<P: Parties>(environment: &EnvironmentOf<'_, P>, wanted: &str) -> bool {
    let mut fields = wanted.split(' ');
    let fuel = fields.next().unwrap_or("").parse().ok();
    let limit = fields.next().unwrap_or("").parse().unwrap_or(0);
    let undefined = behavior(fields.next().unwrap_or(""));
    environment.fuel() == fuel
        && environment.recursion_limit() == limit
        && environment.undefined_behavior() == undefined
        && environment.syntax().keeps_newline() == (fields.next() == Some("keeps"))
}

/// Whether the globals of an environment have these names.
fn has_globals<P: Parties>(
    alloc: Global,
    environment: &EnvironmentOf<'_, P>,
    wanted: &str,
) -> Result<bool, Error> {
    let mut names = Vec::new(alloc);
    for (name, _) in environment.globals() {
        names.push(name)?;
    }
    Ok(are(&names, wanted))
}

/// Whether a source that spells no template is refused under the name before it.
fn is_refused<'source, P: Parties>(
    environment: &mut EnvironmentOf<'source, P>,
    rest: &'source str,
) -> bool {
    let (name, source) = rest.split_once(' ').unwrap_or((rest, ""));
    match environment.add_template(name, source) {
        Ok(()) => false,
        Err(error) => error.kind() == ErrorKind::SyntaxError,
    }
}

/// The fuel that is just enough for `charges` charges.
pub(crate) fn fuel_for(charges: u64) -> u64 {
    charges
}

/// Whether a source, or the stored template after `&`, runs out of fuel with enough for 0, 1, and
/// so on up to the given number of charges. The fuel for the last of these stays set.
fn is_short<'source, P: Parties>(
    alloc: Global,
    environment: &mut EnvironmentOf<'source, P>,
    rest: &'source str,
) -> bool {
    let (most, source) = rest.split_once(' ').unwrap_or(("0", rest));
    let most: u64 = most.parse().unwrap_or(0);
    for charges in 0..=most {
        environment.set_fuel(Some(fuel_for(charges)));
        if !runs_out(alloc, environment, source) {
            return false;
        }
    }
    true
}

fn rendered<'source, P: Parties>(
    alloc: Global,
    environment: &EnvironmentOf<'source, P>,
    source: &'source str,
) -> Result<String, Error> {
    let template = template_of(alloc, environment, "<string>", source)?;
    template.render(&mut StateIds::new(), Value::undefined())
}

/// Whether it runs out of fuel, possibly in a block or template that it runs.
fn runs_out<'source, P: Parties>(
    alloc: Global,
    environment: &EnvironmentOf<'source, P>,
    source: &'source str,
) -> bool {
    match rendered(alloc, environment, source) {
        Ok(_) => false,
        Err(error) => fault_of(&error).1.kind() == ErrorKind::OutOfFuel,
    }
}

/// Changes a setting of an environment, or checks the settings; false if the check fails or the
/// word is unknown.
fn set<P: Parties>(environment: &mut EnvironmentOf<'_, P>, word: &str, rest: &str) -> bool {
    match word {
        "fuel" => environment.set_fuel(rest.parse().ok()),
        "paid" => environment.set_fuel(Some(fuel_for(rest.parse().unwrap_or(0)))),
        "limit" => environment.set_recursion_limit(rest.parse().unwrap_or(0)),
        "values" => environment.set_value_limit(rest.parse().unwrap_or(0)),
        "undefined" => environment.set_undefined_behavior(behavior(rest)),
        "remove" => environment.remove_global(rest),
        "set" => return is_set(environment, rest),
        _ => return false,
    }
    true
}

/// Sets an object of an environment; false if the word is unknown.
fn set_object(environment: &mut Rows<'_>, word: &str, rest: &str) -> bool {
    match word {
        "methods" => environment.set_unknown_method_callback(method_of(rest)),
        "formatter" => environment.set_formatter(style_of(rest)),
        "joins" => environment.set_path_join_callback(folder_of(rest)),
        "rule" => environment.set_auto_escape_callback(rule_of(rest)),
        _ => return false,
    }
    true
}

/// Adds to an environment what the word says, or sets other delimiters. BadStream if a stream of a
/// template's source is refused.
fn add<'source, P: Parties>(
    alloc: Global,
    environment: &mut EnvironmentOf<'source, P>,
    word: &str,
    rest: &'source str,
) -> Result<(), Error> {
    let (name, source) = rest.split_once(' ').unwrap_or((rest, ""));
    match word {
        "global" => environment.add_global(name, Value::number(source.parse().unwrap_or(0))),
        "text" => environment.add_global(name, Value::text(alloc, source)?),
        "template" => {
            verify_source(alloc, source, environment.syntax())?;
            environment.add_template(name, source)
        }
        "owned" => {
            verify_source(alloc, source, environment.syntax())?;
            environment.add_template_owned(name, String::from_str(alloc, source)?)
        }
        _ => Ok(environment.set_syntax(angles(alloc)?)),
    }
}

/// Changes or checks an environment; false if the check fails or the word is unknown.
fn change<'source>(
    alloc: Global,
    environment: &mut Rows<'source>,
    word: &str,
    rest: &'source str,
) -> Result<bool, Error> {
    match word {
        "global" | "text" | "template" | "owned" | "angles" => {
            add(alloc, environment, word, rest)?;
            Ok(true)
        }
        "second" => {
            environment.add_function(rest, Party::Second)?;
            Ok(true)
        }
        "refused" => Ok(is_refused(environment, rest)),
        "short" => Ok(is_short(alloc, environment, rest)),
        "globals" => has_globals(alloc, environment, rest),
        _ => Ok(set_object(environment, word, rest) || set(environment, word, rest)),
    }
}

/// Changes how rows are rendered; false if the word is unknown.
fn change_setup<'source>(setup: &mut Setup<'source>, word: &str, rest: &'source str) -> bool {
    match word {
        "name" => setup.name = rest,
        "width" => setup.width = rest.parse().unwrap_or(usize::MAX),
        "room" => setup.room = rest.parse().unwrap_or(usize::MAX),
        "times" => setup.times = rest.parse().unwrap_or(1),
        "names" => setup.given = Given::Names,
        "undefined-names" => setup.given = Given::Undefined,
        "lost-names" => setup.given = Given::Lost,
        _ => return false,
    }
    true
}

/// Performs the setting or check that a line with `@` names; false if that fails.
fn is_setting<'source>(
    alloc: Global,
    environment: &mut Rows<'source>,
    setup: &mut Setup<'source>,
    words: &'source str,
) -> Result<bool, Error> {
    let (word, rest) = words.split_once(' ').unwrap_or((words, ""));
    Ok(change_setup(setup, word, rest) || change(alloc, environment, word, rest)?)
}

/// Renders a table's rows after its heading. A row that begins with `@` is a setting, and one that
/// begins with `?` asks a state.
pub(crate) fn expect_table<'source>(
    alloc: Global,
    environment: &mut Rows<'source>,
    table: &'source str,
) -> Result<(), Fail> {
    let mut setup: Setup<'source> = usual();
    let mut lines = table.split("\n- ");
    let _heading = lines.next();
    for line in lines {
        if let Some(asked) = line.strip_prefix('?') {
            expect_state(alloc, environment, &setup, &row_of(asked))?;
        } else if let Some(words) = line.strip_prefix('@') {
            if !is_setting(alloc, environment, &mut setup, words)? {
                return Err(Fail::new(line));
            }
        } else {
            expect_row(alloc, environment, &setup, &row_of(line))?;
        }
    }
    Ok(())
}

static TABLES: [&str; 28] = [
    rows::TEXTS,
    rows::CALLS,
    rows::FILTERS,
    rows::FILTER_BLOCKS,
    rows::PASSING,
    rows::FURTHER,
    rows::EXPRESSIONS,
    rows::SCOPES,
    loops::LOOPS,
    loops::RECURSIONS,
    loops::METHODS,
    macros::MACROS,
    blocks::BLOCKS,
    values::OPERATIONS,
    values::WRITTEN,
    values::FUNCTIONS,
    values::UNDEFINED,
    "\n- @undefined chainable",
    values::UNDEFINED,
    "\n- @undefined semi-strict",
    values::UNDEFINED,
    "\n- @undefined strict",
    values::UNDEFINED,
    "\n- @undefined lenient",
    bounds::BOUNDS,
    bounds::SIZES,
    bounds::GROWTH,
    SETTINGS,
];

/// Renders all tables. A setting stays in force until the next one, even in later tables.
pub(crate) fn expect_tables(alloc: Global, environment: &mut Rows<'_>) -> Result<(), Fail> {
    add_objects(environment)?;
    blocks::add_layouts(alloc, environment)?;
    expect_table(alloc, environment, blocks::STATES)?;
    blocks::expect_chains(alloc, environment)?;
    for table in &TABLES {
        expect_table(alloc, environment, table)?;
    }
    Ok(())
}

// The test lends its environment, so that it is dropped in one place: each exit that drops one is
// expensive to prove.
/// Checks an environment without functions, and then sets an object that joins names, a method
/// object and formatters.
pub(crate) fn expect_empty(alloc: Global, environment: &mut Rows<'_>) -> Result<(), Fail> {
    expect_table(alloc, environment, EMPTY)?;
    expect_table(alloc, environment, blocks::JOINED)?;
    expect_table(alloc, environment, RULES)?;
    expect_table(alloc, environment, METHODS)?;
    expect_table(alloc, environment, FORMATTERS)
}

const EMPTY: &str = "An environment without functions, as it is at first.
- @set none 500 lenient drops
- @globals
- {{ range(1) }} =>  => UnknownFunction";

/// Escape rules.
const RULES: &str = r#"Escape rules.
- @template kept {{ 1 }}
- @rule custom
- {{ 1 }} => 1 => ok
- &kept => 1 => ok
- @name t
- a{{ 1 }} => a => InvalidOperation
- a{% autoescape false %}{{ 1 }}{% endautoescape %} => a1 => ok
- @rule html
- {{ "<" }} => &lt; => ok
- @name t.html
- {{ "<" }} => < => ok
- @template t {{ "<" }}
- &t => &lt; => ok"#;

/// Methods without and with a method object.
const METHODS: &str = r#"Methods without and with a method object.
- @second sum
- {{ sum.x() }} =>  => UnknownMethod
- @undefined strict
- {{ x.y() }} =>  => UnknownMethod
- @methods named
- {{ sum.x() }} => x => ok
- {{ x.y(1) }} => y => ok
- {{ {"f": sum}.f(1, 2) }} => 2 => ok
- {{ {"f": sum}.g(1, 2) }} => g => ok
- {{ {"f": 1}.f() }} =>  => InvalidOperation
- {% for a in [1] %}{{ loop.index() }}{{ loop.cycle(3) }}{% endfor %} => index3 => ok
- @methods keep
- {{ sum.x() }} => 2 => ok => keeps k
- @methods missing
- a{{ sum.x() }} => a => MissingArgument"#;

/// Formatters, under strict undefined values.
const FORMATTERS: &str = r#"Formatters, under strict undefined values.
- @formatter no-zero
- a{{ 0 }}b => a => MissingArgument
- a{{ 1 }}b{{ [2] }} => a1b[2] => ok
- a{% set t %}{{ 0 }}{% endset %} => a => MissingArgument
- @formatter swapped
- {{ none }} =>  => ok
- {{ 1 }} => 1 => ok
- @formatter marked
- {{ x }} =>  => UndefinedError
- {{ 1 if false }} => F => ok
- {{ "<" ~ 1 }}{% set t %}{{ 1 }}{% endset %}{{ t }} => FF => ok"#;

/// Settings, globals, known names, templates by name, and escapes by name.
const SETTINGS: &str =
    r#"Settings, globals, names that are known, templates by name, and escapes by names.
- @set none 500 lenient drops
- @fuel 10000
- @global g 1
- @undefined-names
- {{ g }} => 1 => 2
- {{ seen() }}{{ title() }} => 1<string> => 4
- @names
- {{ g }}{{ seen() }} => 77 => 4
- @globals by_block by_macro capital dict f failing g hungry keep look missing namespace range read second seen stuck title
- @global g 2
- @undefined-names
- {{ g }} => 2 => 2
- @remove g
- @remove second
- @remove nope
- [{{ g }}] => [] => 4
- {{ second(1, 2) }} =>  => UnknownFunction
- {{ f(1, 2, 3) }} => 3 => 5
- @second f
- {{ f(1, 2, 3) }} => 2 => 5
- @globals by_block by_macro capital dict f failing hungry keep look missing namespace range read seen stuck title
- {% set b = 1 %}{% set a = 1 %}{% set _b = 2 %} =>  => 6 => known _b a b by_block by_macro capital dict f failing hungry keep look missing namespace range read seen stuck title
- @names
- {% set b = 1 %}{% set a = 1 %}{% set _b = 2 %} =>  => 6 => known _b a b by_block by_macro capital dict ended f failing g hungry keep look lost m missing namespace range read seen stuck t title w
- @lost-names
-  =>  => 0 => known InvalidOperation
- @names
- @template page Hello {{ name }}!
- @owned own x
- &named =>  => TemplateNotFound
- &page => Hello ! => 4
- &own => x => 1
- @refused page {{
- &page => Hello ! => 4
- @name p.html
- {{ '<' }}{{ '<' ~ '>' }} => &lt;&lt;&gt; => ok
- {% set x %}<b>{% endset %}{{ x }} => <b> => ok
- {% filter upper %}<b>{% endfilter %} => &lt;B&gt; => 4
- {% filter safe %}<b>{{ "<i>" }}{% endfilter %} => <b>&lt;i&gt; => 6
- {% autoescape false %}{% set x %}<b>{% endset %}{% endautoescape %}{{ x }} => &lt;b&gt; => ok
- @name p.html.j2
- {{ '<' }} => &lt; => ok
- @name html
- {{ '<' }} => &lt; => ok
- @name p.txt
- {{ '<' }} => < => ok
- @name p.json
- {{ {'a': [1, none]} }} => {"a":[1,null]} => ok
- @undefined strict
- @angles
- a
  <% if 1 %>
 b<%# c %>
<% endif %>
${ 2 }
 => a
 b2
 => ok
- @paid 7
- @limit 40
- @set 7 40 strict keeps
- @limit 501
- @set 7 500 strict keeps"#;
