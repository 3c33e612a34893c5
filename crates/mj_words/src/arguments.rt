//! Parsing the arguments of the command line.
ghost use Rattle.std.specs.Prelude.{◌≡◌, ◌<◌, ◌≤◌, ◌⊎◌, ◌↔◌, [], ◌∷◌, None, Some, false, true, drop, length, map, string_bytes};
ghost use Rattle.std.specs.Prelude.{IfOk, MatchOption, MatchResult};
ghost use Rattle.std.specs.IoError.{error_kind};
ghost use Rattle.mj_words.specs.CommandLine as spec;

use std::alloc::{AllocError, AllocFailed, Global};
use std::io::{self, ErrorKind};

/// The parsed command line.
#[derive(Drop)]
pub struct Arguments<'a> {
    /// The names in the context and their texts; of equal names, the last one counts.
    pub texts: Vec<(&'a str, &'a str)>,
    /// The path of the JSON file whose object the context begins with, if one is given. It is
    /// always a path, even if it is `-`.
    pub json: Option<&'a str>,
    /// The fuel of the render, if it is limited.
    pub fuel: Option<u64>,
    /// The recursion limit, if it is set.
    pub limit: Option<u64>,
    /// The file of the template that is rendered; `-` means standard input.
    pub file: &'a str,
    /// The files of the other templates, even if their names begin with `-`.
    pub others: &'a [String],
}

/// The reason why nothing can be run.
#[derive(Clone, Copy, Debug, PartialEq, Eq)]
pub enum Refusal {
    /// The arguments or a file can't be used.
    Usage,
    /// Memory ran out.
    OutOfMemory,
}

impl Refusal {
    /// The refusal for a failed read. Running out of memory says nothing about what was read.
    pub fn of_read(error: &io::Error) -> Refusal
        ensures { (result ≡ Refusal.OutOfMemory)
            ↔ (error_kind error.now ≡ ErrorKind.OutOfMemory) }
    {
        if error.kind() == ErrorKind::OutOfMemory {
            Refusal::OutOfMemory
        } else {
            Refusal::Usage
        }
    }
}

impl From<AllocError> for Refusal {
    ghost use Rattle.std.specs.Prelude.{◌≡◌};
    ghost use Rattle.mj_words.specs.declared.arguments.Refusal.TheVariants.{OutOfMemory};

    ghost from_gives = { λ _ e. e ≡ OutOfMemory };

    fn from(_error: AllocError) -> Refusal {
        Refusal::OutOfMemory
    }
}

impl<T: Drop> From<AllocFailed<T>> for Refusal {
    ghost use Rattle.std.specs.Prelude.{◌≡◌};
    ghost use Rattle.mj_words.specs.declared.arguments.Refusal.TheVariants.{OutOfMemory};

    ghost from_gives = { λ _ e. e ≡ OutOfMemory };

    fn from(_error: AllocFailed<T>) -> Refusal {
        Refusal::OutOfMemory
    }
}

/// Parses the words after the program's name: options, and then files. From the first file on, each
/// word is a file, even if it begins with `-`. Usage if an option is unknown or lacks its argument,
/// if there is no file, or if standard input is named twice. OutOfMemory if memory runs out.
pub fn parse(alloc: Global, words: &[String]) -> Result<Arguments<'_>, Refusal>
    ensures asked { let asked = spec.asked [] None None None (map string_bytes words.now) in
        MatchResult result
        (λ a. asked ≡ Some (spec.asked_of a))
        (λ e. (e ≡ Refusal.OutOfMemory) ⊎ ((e ≡ Refusal.Usage) × (asked ≡ None))) }
    ensures files { IfOk result (λ a. spec.are_files false (spec.files_of a) ≡ true) }
{
    let mut arguments = Arguments {
        texts: Vec::new(alloc),
        json: None,
        fuel: None,
        limit: None,
        file: "",
        others: &[],
    };
    let mut rest = words;
    while let Some((word, after)) = first(rest) {
        if is_option(word) {
            rest = take_option(&mut arguments, word, after)?;
        } else if are_files(rest) {
            arguments.file = word;
            arguments.others = after;
            return Ok(arguments);
        } else {
            return Err(Refusal::Usage);
        }
    }
    Err(Refusal::Usage)
}

/// Parses an option and its argument, if it has one, and returns the words after it. Usage if the
/// option is unknown or its argument is invalid. OutOfMemory if memory runs out.
fn take_option<'a>(
    arguments: &mut Arguments<'a>,
    option: &'a str,
    words: &'a [String],
) -> Result<&'a [String], Refusal>
    requires { spec.is_option option.now ≡ true }
    ensures { let all = spec.asked_after arguments.old (option.now ∷ map string_bytes words.now) in
        MatchResult result
        (λ rest. (all ≡ spec.asked_after arguments.new (map string_bytes rest.now))
        × (length rest.now ≤ length words.now))
        (λ e. (e ≡ Refusal.OutOfMemory) ⊎ ((e ≡ Refusal.Usage) × (all ≡ None))) }
{
    if option != "-D" {
        if let Some(word) = joined(option) {
            arguments
                .texts
                .push(definition(word).ok_or(Refusal::Usage)?)?;
            return Ok(words);
        }
    }
    let (word, rest) = first(words).ok_or(Refusal::Usage)?;
    if option == "--json" {
        arguments.json = Some(word);
    } else if option == "--fuel" {
        arguments.fuel = Some(number(word).ok_or(Refusal::Usage)?);
    } else if option == "--limit" {
        arguments.limit = Some(number(word).ok_or(Refusal::Usage)?);
    } else if option == "-D" {
        arguments
            .texts
            .push(definition(word).ok_or(Refusal::Usage)?)?;
    } else {
        return Err(Refusal::Usage);
    }
    Ok(rest)
}

/// The first word, and the words after it.
fn first(words: &[String]) -> Option<(&str, &[String])>
    ensures { MatchOption result (words.now ≡ []) (λ p. (length p.1.now < length words.now)
        × (map string_bytes words.now ≡ p.0.now ∷ map string_bytes p.1.now)) }
{
    match words.split_first() {
        Some((word, after)) => Some((word.as_str(), after)),
        None => None,
    }
}

/// Whether the files name standard input at most once.
fn are_files(words: &[String]) -> bool
    ensures { result ≡ spec.are_files false (map string_bytes words.now) }
{
    let mut named = false;
    for word in words {
        if word.as_str() == "-" {
            if named {
                return false;
            }
            named = true;
        }
    }
    true
}

/// Whether a word before the first file is an option: it begins with `-`, but isn't `-`.
fn is_option(word: &str) -> bool
    ensures { result ≡ spec.is_option word.now }
{
    word.len() > 1 && word.as_bytes()[0] == b'-'
}

/// The name before the first `=`, and the text after it.
fn definition(word: &str) -> Option<(&str, &str)>
    ensures { MatchOption result (spec.definition word.now ≡ None)
        (λ p. spec.definition word.now ≡ Some (spec.plain p)) }
{
    word.split_once('=')
}

/// The rest of a word after `-D`.
fn joined(word: &str) -> Option<&str>
    ensures { MatchOption result (spec.begins_definition word.now ≡ false)
        (λ t. (spec.begins_definition word.now ≡ true) × (t.now ≡ drop 2 word.now)) }
{
    let bytes = word.as_bytes();
    if bytes.len() > 1 && bytes[0] == b'-' && bytes[1] == b'D' {
        Some(&word[2..])
    } else {
        None
    }
}

/// The number, if the word consists of decimal digits and the number fits 64 bits.
fn number(word: &str) -> Option<u64>
    ensures { result ≡ spec.number word.now }
{
    // `parse` would accept a leading plus.
    if word.starts_with('+') {
        return None;
    }
    word.parse::<u64>().ok()
}
