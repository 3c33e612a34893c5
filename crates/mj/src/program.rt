//! The program, run with the given arguments, files and streams.
ghost use Rattle.std.specs.Prelude.{◌≡◌, ◌≢◌, ◌≤◌, ◌⊎◌, List, [], ◌∷◌, ⊤, true, false, Option, None, Some, map, option_map, string_bytes};
ghost use Rattle.std.specs.Prelude.{MatchResult};
ghost use Rattle.tm_values.specs.declared.error.ErrorKind.{ErrorKind as Kind};
ghost use Rattle.tm_meaning.specs.Memory.{is_want_of_memory};
ghost use Rattle.mj_words.specs.CommandLine.{Text, are_files, asked, files_of, is_input};
ghost use Rattle.mj.specs.Program.{Input, IsRead, IsInput, IsUnread, IsMembers, IsNoObject, IsWrongUse, IsRendered, IsFault};
ghost use Rattle.mj.specs.Program.{AreRead, FilesStay, HaveUnread, InputStays, named};
ghost use Rattle.mj_words.specs.Told.{IsTold, message, usage};

use crate::render::render;
use mj_json::members;
use mj_words::{Arguments, Refusal, parse, tell_error, tell_refusal};
use std::alloc::Global;
use std::io::{self, Write};
use template_machine::{Counted, Value};

/// The exit status of success.
const SUCCESS: u8 = 0;

/// The source of templates and JSON.
pub trait Texts {
    // The possible results of reading a path: bytes, or None. The default says nothing.
    ghost of_file: { Self → Text → Option Text → Type 0 } = { λ _ _ _. ⊤ };

    // The same for standard input.
    ghost of_input: { Self → Option Text → Type 0 } = { λ _ _. ⊤ };

    /// The bytes of a file. Doesn't read standard input.
    fn file(&mut self, path: &str) -> io::Result<Vec<u8>>
        ensures read { MatchResult result (λ bytes. of_file self.old path.now (Some bytes.items))
            (λ _. of_file self.old path.now None) }
        ensures stay { FilesStay of_file self.old self.new }
        ensures left { InputStays of_input self.old self.new };

    /// The bytes of standard input.
    fn standard_input(&mut self) -> io::Result<Vec<u8>>
        ensures read { MatchResult result (λ bytes. of_input self.old (Some bytes.items))
            (λ _. of_input self.old None) }
        ensures stay { FilesStay of_file self.old self.new };
}

/// Renders the first file to `out` piece by piece, with all files as templates. Reports errors to
/// `err`. Returns the exit status: 0 if everything was written, 1 after a fault, 2 if the arguments
/// or the files can't be used.
pub fn run<T: Texts, O: Write + Drop, E: Write + Drop>(
    alloc: Global,
    words: &[String],
    texts: &mut T,
    out: &mut Counted<O>,
    err: &mut Counted<E>,
) -> u8
    ensures status { result ≤ 2 }
    ensures rendered { result ≡ 0 → (err.new ≡ err.old) × (input : Input)
        × IsInput T.of_file T.of_input texts.old (map string_bytes words.now) input
        × IsRendered O.contents input out.old out.new }
    ensures fault { result ≡ 1 → (kind : Kind) × (kinds : List Kind)
        × IsTold E.contents err.old err.new (message kind kinds)
        × (((is_want_of_memory (kind ∷ kinds) ≡ true) × (out.new ≡ out.old))
        ⊎ ((input : Input)
        × IsInput T.of_file T.of_input texts.old (map string_bytes words.now) input
        × IsFault O.contents input (kind ∷ kinds) out.old out.new)) }
    ensures wrong_use { result ≡ 2 → (out.new ≡ out.old)
        × IsTold E.contents err.old err.new usage
        × IsWrongUse T.of_file T.of_input texts.old (map string_bytes words.now) }
    ensures refused { asked [] None None None (map string_bytes words.now) ≡ None →
        (result ≢ 0) × (out.new ≡ out.old) }
{
    let arguments = match parse(alloc, words) {
        Ok(arguments) => arguments,
        Err(refusal) => return tell_refusal(err, refusal),
    };
    let sources = match read_sources(alloc, texts, &arguments) {
        Ok(sources) => sources,
        Err(refusal) => return tell_refusal(err, refusal),
    };
    let members = match read_members(alloc, texts, arguments.json) {
        Ok(members) => members,
        Err(refusal) => return tell_refusal(err, refusal),
    };
    match render(alloc, &arguments, members, sources, out) {
        Ok(()) => SUCCESS,
        Err(error) => tell_error(err, &error),
    }
}

/// The members of the object in the JSON file; empty without a file. OutOfMemory if memory runs
/// out. Usage if the file can't be read, or isn't an object without floats.
fn read_members<T: Texts>(
    alloc: Global,
    texts: &mut T,
    json: Option<&str>,
) -> Result<Vec<(Value, Value)>, Refusal>
    ensures { let file = option_map (λ path. path.now) json.entry in MatchResult result
        (λ members. IsMembers T.of_file texts.old file members.items)
        (λ e. (e ≡ Refusal.OutOfMemory) ⊎ IsNoObject T.of_file texts.old file) }
{
    match json {
        Some(path) => match texts.file(path) {
            Ok(bytes) => members(alloc, bytes.as_slice()),
            Err(error) => Err(Refusal::of_read(&error)),
        },
        None => Ok(Vec::new(alloc)),
    }
}

/// The files and their sources. OutOfMemory if memory runs out. Usage if a file can't be read, or
/// isn't UTF-8.
fn read_sources<'a, T: Texts>(
    alloc: Global,
    texts: &mut T,
    arguments: &Arguments<'a>,
) -> Result<Vec<(&'a str, String)>, Refusal>
    requires { are_files false (files_of arguments.now) ≡ true }
    ensures read { MatchResult result
        (λ sources. AreRead T.of_file T.of_input texts.old (files_of arguments.now)
        (map named sources.items))
        (λ e. (e ≡ Refusal.OutOfMemory)
        ⊎ HaveUnread T.of_file T.of_input texts.old (files_of arguments.now)) }
    ensures stay { FilesStay T.of_file texts.old texts.new }
{
    let mut sources = Vec::new(alloc);
    sources.push((arguments.file, read_source(texts, arguments.file)?))?;
    for file in arguments.others {
        let source = read_source(texts, file)?;
        sources.push((file.as_str(), source))?;
    }
    Ok(sources)
}

/// The source of a template. OutOfMemory if memory runs out. Usage if the file can't be read, or
/// isn't UTF-8.
fn read_source<T: Texts>(texts: &mut T, file: &str) -> Result<String, Refusal>
    ensures read { MatchResult result
        (λ source. IsRead T.of_file T.of_input texts.old file.now (Some (string_bytes source)))
        (λ _. IsUnread T.of_file T.of_input texts.old file.now) }
    ensures stay { FilesStay T.of_file texts.old texts.new }
    ensures left { is_input file.now ≡ false → InputStays T.of_input texts.old texts.new }
{
    match read_bytes(texts, file) {
        Ok(bytes) => match String::from_utf8(bytes) {
            Ok(source) => Ok(source),
            Err(_error) => Err(Refusal::Usage),
        },
        Err(error) => Err(Refusal::of_read(&error)),
    }
}

/// The bytes of a file; `-` means standard input.
fn read_bytes<T: Texts>(texts: &mut T, file: &str) -> io::Result<Vec<u8>>
    ensures read { MatchResult result
        (λ bytes. IsRead T.of_file T.of_input texts.old file.now (Some bytes.items))
        (λ _. IsRead T.of_file T.of_input texts.old file.now None) }
    ensures stay { FilesStay T.of_file texts.old texts.new }
    ensures left { is_input file.now ≡ false → InputStays T.of_input texts.old texts.new }
{
    if file == "-" {
        texts.standard_input()
    } else {
        texts.file(file)
    }
}
