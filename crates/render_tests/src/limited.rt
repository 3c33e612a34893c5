//! Renders into a writer with a limit.

use crate::blocks::expect;
use std::alloc::Global;
use std::test::Fail;
use template_machine::*;

/// A list that holds the same list twice, which holds another one twice, and so on. Its text has
/// megabytes.
const DOUBLED: &str =
    "{% set n = namespace(s=[1]) %}{% for i in range(20) %}{% set n.s = [n.s, n.s] %}{% endfor %}{{ n.s }}";

/// A namespace that holds the same one twice, which holds another one twice, and so on, sixty deep.
/// Visiting each one as often as it is held would take a lifetime.
const DOUBLED_NAMESPACE: &str =
    "{% set n = namespace(s=1) %}{% for i in range(60) %}{% set n.s = namespace(a=n.s, b=n.s) %}{% endfor %}{{ n.s }}";

type Bytes = Limited<Counted<Vec<u8>>>;

/// A render into a writer with `limit` bytes: how much of the limit is left, and what the text
/// begins with.
struct Case {
    source: &'static str,
    limit: usize,
    left: usize,
    /// The start of the text.
    start: &'static str,
    /// Whether the render fails with WriteFailure.
    fails: bool,
}

static CASES: &[Case] = &[
    Case {
        source: "Hello {{ 'World' }}!",
        limit: 8,
        left: 0,
        start: "Hello Wo",
        fails: true,
    },
    Case {
        source: "Hello {{ 'World' }}!",
        limit: 11,
        left: 0,
        start: "Hello World",
        fails: true,
    },
    Case {
        source: "Hello {{ 'World' }}!",
        limit: 12,
        left: 0,
        start: "Hello World!",
        fails: false,
    },
    Case {
        source: "Hello {{ 'World' }}!",
        limit: 20,
        left: 8,
        start: "Hello World!",
        fails: false,
    },
    Case {
        source: "x",
        limit: 0,
        left: 0,
        start: "",
        fails: true,
    },
    Case {
        source: "\u{e9}",
        limit: 1,
        left: 0,
        start: "",
        fails: true,
    },
    Case {
        source: DOUBLED,
        limit: 1000,
        left: 0,
        start: "[[[[[[[[[[[[[[[[[[[[[1], [1]], [[1], [1]]], ",
        fails: true,
    },
    Case {
        source: DOUBLED_NAMESPACE,
        limit: 1000,
        left: 0,
        start: "{\"a\": {\"a\": {\"a\": ",
        fails: true,
    },
];

/// The kind of error that a render ends with, if any.
fn end_of<P: Parties>(template: &TemplateOf<'_, '_, P>, writer: &mut Bytes) -> Option<ErrorKind> {
    match template.render_captured_to(&mut StateIds::new(), Value::undefined(), writer) {
        Ok(_captured) => None,
        Err(error) => Some(error.kind()),
    }
}

/// Whether the writer received all but what is left of the limit, and a text with the expected
/// start.
fn took(writer: &Bytes, case: &Case) -> bool {
    let counted = writer.inner();
    let bytes = counted.inner().as_slice();
    writer.left() == case.left
        && writer.failures() == case.fails as u64
        && counted.failures() == 0
        && bytes.len() == case.limit.saturating_sub(case.left)
        && bytes.starts_with(case.start.as_bytes())
}

/// Whether a render ends as its case says.
fn ends<P: Parties>(
    alloc: Global,
    environment: &EnvironmentOf<'_, P>,
    case: &Case,
) -> Result<bool, Error> {
    let template = environment.template_from_str(case.source)?;
    let mut writer = Limited::new(Counted::new(Vec::new(alloc)), case.limit);
    let end = end_of(&template, &mut writer);
    let is_end = match end {
        Some(kind) => case.fails && kind == ErrorKind::WriteFailure,
        None => !case.fails,
    };
    Ok(is_end && took(&writer, case))
}

/// Each case ends as it says.
pub(crate) fn expect_ends<P: Parties>(
    alloc: Global,
    environment: &EnvironmentOf<'_, P>,
) -> Result<(), Fail> {
    for case in CASES {
        expect(ends(alloc, environment, case)?, case.source)?;
    }
    Ok(())
}
