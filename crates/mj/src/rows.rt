//! Worked examples of the command, run with files and streams in memory. `examples/command` reads
//! the same constants, and runs the program itself on real files.

use crate::program::{Texts, run};
use std::alloc::{AllocError, Global};
use std::io::{self, ErrorKind, Write};
use std::test::Fail;
use std::{mem, str};
use template_machine::Counted;

/// The usage line.
const USAGE: &str = r#"usage: mj [-D name=text].. [--json FILE] [--fuel N] [--limit N] FILE.."#;

/// The content of standard input.
const INPUT: &str = r#"Hello {{ name }}!"#;

/// The files: a name on a line, and its content on the next lines. In addition, `bytes.bin` isn't
/// UTF-8, and `vast.txt` is larger than memory.
const FILES: &str = r#"What files hold.
- hello.txt
Hello {{ name }}!

- empty.txt

- tag.txt
a{% x %}
- call.txt
a{{ nope() }}b
- block.txt
a{% block x %}b{% endblock %}
- layout.txt
<{% block x %}b{% endblock %}>
- child.txt
{% extends 'layout.txt' %}{% block x %}{{ who }}{% endblock %}
- over.txt
{% extends '-' %}
- mail.txt
{% include "part.txt" %}!
- part.txt
Hi {{ who }}
- -x
read
- --limit
as a file
- dash.txt
{% include "-x" %} {% include "--limit" %}
- main.txt
Hi {{ who }}!
- c.json
{"who":"A"}
- -
{"who":"C"}
- other.json
 { "other" : "A" }

- float.json
{"who":1.5}
- float_twice.json
{"x":1.5,"x":2}
- float_text.json
{"who":"1.5"}
- inner_float.json
{"who":"A","b":[{"c":1e0}]}
- minus_zero.json
{"who":-0}
- large.json
{"who":18446744073709551616}
- list.json
[]
- cut.json
{"who":
- items.txt
{% for item in who %}[{% for inner in item.list %}{{ inner }},{% endfor %}]{% endfor %}
- items.json
{
  "who": [
    {"list": [18446744073709551615, -9223372036854775808, true, null]},
    {"list": []},
    {"list": ["twice"], "list": ["l\u00e4st", "<"]}
  ]
}"#;

/// The rows: the exit status and the arguments, separated by spaces; the output; and the message:
/// the usage line, an error of a kind, or nothing.
const ROWS: &str = r#"Words with what comes of them.
- 0 -D name=World - => Hello World! => -
- 0 -D name=World hello.txt => Hello World! => -
- 0 --fuel 4 -D name=World hello.txt => Hello World! => -
- 0 --fuel 0 empty.txt =>  => -
- 0 -Dname=A -D name=B hello.txt => Hello B! => -
- 0 -D name=a=b=c hello.txt => Hello a=b=c! => -
- 0 -Dname= hello.txt => Hello ! => -
- 0 hello.txt => Hello ! => -
- 0 --limit 1 hello.txt => Hello ! => -
- 0 --limit 2 block.txt => ab => -
- 0 -Dname=x --fuel 1 --fuel 4 - => Hello x! => -
- 0 -Dname=x --fuel 18446744073709551615 - => Hello x! => -
- 2 =>  => usage
- 2 --json =>  => usage
- 2 --json c.json =>  => usage
- 2 main.txt --json c.json =>  => usage
- 2 --limit hello.txt =>  => usage
- 2 --limit -1 hello.txt =>  => usage
- 2 --other hello.txt =>  => usage
- 2 -x =>  => usage
- 2 -- hello.txt =>  => usage
- 0 -Dwho=A child.txt layout.txt => <A> => -
- 0 -Dwho=A layout.txt child.txt => <b> => -
- 0 -Dwho=A child.txt main.txt layout.txt => <A> => -
- 0 -Dname=A over.txt - => Hello A! => -
- 0 -Dname=A - over.txt => Hello A! => -
- 0 --json - over.txt - => Hello ! => -
- 0 -Dname=A hello.txt hello.txt => Hello A! => -
- 0 -Dwho=A child.txt layout.txt child.txt => <A> => -
- 0 --json c.json mail.txt part.txt => Hi A! => -
- 0 --json c.json -D who=B mail.txt part.txt => Hi B! => -
- 0 --limit 12 --json c.json mail.txt part.txt => Hi A! => -
- 1 --limit 11 mail.txt part.txt =>  => InvalidOperation
- 1 mail.txt =>  => TemplateNotFound
- 1 child.txt =>  => TemplateNotFound
- 1 child.txt main.txt =>  => TemplateNotFound
- 1 hello.txt tag.txt =>  => SyntaxError
- 1 tag.txt hello.txt =>  => SyntaxError
- 1 --fuel 1 hello.txt tag.txt =>  => SyntaxError
- 2 - - =>  => usage
- 2 hello.txt - main.txt - =>  => usage
- 0 -Dname=A hello.txt -x => Hello A! => -
- 0 dash.txt -x --limit => read as a file => -
- 0 -Dname=A over.txt -x - --limit => Hello A! => -
- 2 over.txt - -x - =>  => usage
- 2 hello.txt --fuel 3 =>  => usage
- 2 -x hello.txt =>  => usage
- 2 hello.txt missing.txt tag.txt =>  => usage
- 2 tag.txt bytes.bin =>  => usage
- 2 --json list.json hello.txt tag.txt =>  => usage
- 2 hello.txt -D name=World =>  => usage
- 2 -D x hello.txt =>  => usage
- 2 -Dx hello.txt =>  => usage
- 2 -D =>  => usage
- 2 -D name=World =>  => usage
- 2 --fuel =>  => usage
- 2 --fuel hello.txt =>  => usage
- 2 --fuel  hello.txt =>  => usage
- 2 --fuel -1 hello.txt =>  => usage
- 2 --fuel +1 hello.txt =>  => usage
- 2 --fuel 18446744073709551616 hello.txt =>  => usage
- 2 missing.txt =>  => usage
- 2 bytes.bin =>  => usage
- 0 --json c.json main.txt => Hi A! => -
- 0 --json c.json -D who=B main.txt => Hi B! => -
- 0 -Dwho=B --json c.json main.txt => Hi B! => -
- 0 --json missing.json --json c.json main.txt => Hi A! => -
- 0 --json - main.txt => Hi C! => -
- 0 --json c.json -Dname=B - => Hello B! => -
- 0 --json other.json main.txt => Hi ! => -
- 0 --json items.json items.txt => [18446744073709551615,-9223372036854775808,true,none,][][läst,<,] => -
- 0 --json float_text.json main.txt => Hi 1.5! => -
- 2 --json float.json main.txt =>  => usage
- 2 --json float_twice.json main.txt =>  => usage
- 2 --json inner_float.json main.txt =>  => usage
- 2 --json minus_zero.json main.txt =>  => usage
- 2 --json large.json main.txt =>  => usage
- 2 --json list.json main.txt =>  => usage
- 2 --json cut.json main.txt =>  => usage
- 2 --json bytes.bin main.txt =>  => usage
- 2 --json missing.json main.txt =>  => usage
- 2 --json missing.json tag.txt =>  => usage
- 2 --json c.json missing.txt =>  => usage
- 1 --fuel 3 -D name=World hello.txt => Hello World => OutOfFuel
- 1 --fuel 0 hello.txt =>  => OutOfFuel
- 1 tag.txt =>  => SyntaxError
- 1 --limit 1 block.txt => a => InvalidOperation
- 1 call.txt => a => UnknownFunction
- 1 --json c.json tag.txt =>  => SyntaxError
- 1 hello.txt vast.txt =>  => OutOfMemory
- 1 vast.txt =>  => OutOfMemory
- 1 --json vast.txt main.txt =>  => OutOfMemory"#;

/// Rows whose output goes to a full device.
const FULL: &str = r#"Words with what comes of them where nothing can be written.
- 1 -Dname=World hello.txt =>  => WriteFailure
- 1 --fuel 0 - =>  => OutOfFuel
- 2 -x =>  => usage"#;

/// The content of the file with this name.
fn text_of(name: &str) -> Option<&'static str> {
    for row in FILES.split("\n- ") {
        match row.split_once('\n') {
            Some((file, text)) if file == name => return Some(text),
            _ => {}
        }
    }
    None
}

/// The files, and a standard input that can be read once.
#[derive(Drop)]
struct Folder {
    alloc: Global,
    input: &'static str,
}

impl Texts for Folder {
    fn file(&mut self, path: &str) -> io::Result<Vec<u8>> {
        match path {
            "bytes.bin" => Ok([0xff, 0xfe].to_vec(self.alloc)?),
            "vast.txt" => Err(io::Error::from(ErrorKind::OutOfMemory)),
            _ => match text_of(path) {
                Some(text) => Ok(text.as_bytes().to_vec(self.alloc)?),
                None => Err(io::Error::from(ErrorKind::NotFound)),
            },
        }
    }

    fn standard_input(&mut self) -> io::Result<Vec<u8>> {
        let input = mem::replace(&mut self.input, "");
        Ok(input.as_bytes().to_vec(self.alloc)?)
    }
}

/// A writer that keeps its text, or accepts no bytes if it is full.
#[derive(Drop)]
struct Paper {
    bytes: Vec<u8>,
    is_full: bool,
}

impl Paper {
    fn new(alloc: Global, is_full: bool) -> Paper {
        Paper {
            bytes: Vec::new(alloc),
            is_full,
        }
    }

    /// Its text, if it is UTF-8.
    fn text(&self) -> Option<&str> {
        str::from_utf8(self.bytes.as_slice()).ok()
    }
}

impl Write for Paper {
    fn write(&mut self, bytes: &[u8]) -> io::Result<usize> {
        if self.is_full {
            return Err(io::Error::from(ErrorKind::StorageFull));
        }
        self.bytes.extend_from_slice(bytes)?;
        Ok(bytes.len())
    }

    fn flush(&mut self) -> io::Result<()> {
        Ok(())
    }
}

/// The result of a run: its exit status, its output and its message.
#[derive(Drop)]
struct Ended {
    status: u8,
    out: Paper,
    err: Paper,
}

/// The arguments, separated by spaces; none if the text is empty.
fn words_of(alloc: Global, text: &str) -> Result<Vec<String>, AllocError> {
    let mut words = Vec::new(alloc);
    if !text.is_empty() {
        for word in text.split(' ') {
            words.push(String::from_str(alloc, word)?)?;
        }
    }
    Ok(words)
}

/// The result for these arguments, with a full device or not.
fn run_words(alloc: Global, words: &str, is_full: bool) -> Result<Ended, AllocError> {
    let words = words_of(alloc, words)?;
    let mut folder = Folder {
        alloc,
        input: INPUT,
    };
    let mut out = Counted::new(Paper::new(alloc, is_full));
    let mut err = Counted::new(Paper::new(alloc, false));
    let status = run(alloc, &words, &mut folder, &mut out, &mut err);
    Ok(Ended {
        status,
        out: out.into_inner(),
        err: err.into_inner(),
    })
}

/// Whether the last field of a row describes the message.
fn is_told(told: &str, wanted: &str) -> bool {
    match told.strip_suffix('\n') {
        Some(line) if line == USAGE => wanted == "usage",
        Some(line) => line.strip_prefix("error: ") == Some(wanted),
        None => told.is_empty() && wanted == "-",
    }
}

/// Whether a run matches a row: the status, the output and the message.
fn is_as_said(end: &Ended, status: &str, rest: &str) -> bool {
    let (written, told) = rest.split_once(" => ").unwrap_or((rest, ""));
    status.parse::<u8>().ok() == Some(end.status)
        && end.out.text() == Some(written)
        && match end.err.text() {
            Some(text) => is_told(text, told),
            None => false,
        }
}

/// Whether a row holds.
fn holds(alloc: Global, row: &str, is_full: bool) -> Result<bool, AllocError> {
    let (asked, rest) = row.split_once(" => ").unwrap_or((row, ""));
    let (status, words) = asked.split_once(' ').unwrap_or((asked, ""));
    Ok(is_as_said(&run_words(alloc, words, is_full)?, status, rest))
}

/// Checks each row under a heading.
fn expect_rows(alloc: Global, table: &str, is_full: bool) -> Result<(), Fail> {
    let mut rows = table.split("\n- ");
    rows.next();
    for row in rows {
        if !holds(alloc, row, is_full)? {
            return Err(Fail::new(row));
        }
    }
    Ok(())
}

#[test]
fn words_come_to_what_rows_say(rt: HostRuntime) -> Result<(), Fail> {
    expect_rows(rt.alloc(), ROWS, false)
}

#[test]
fn words_come_to_what_rows_say_where_output_is_full(rt: HostRuntime) -> Result<(), Fail> {
    expect_rows(rt.alloc(), FULL, true)
}
