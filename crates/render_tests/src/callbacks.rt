//! The method objects, formatters, escape rules and name joins of the rows.
ghost use Rattle.std.specs.Prelude.{[], ◌∷◌};
ghost use Rattle.tm_values.specs.Answer.{IsAnswer};
ghost use Rattle.render_tests.specs.Asked.{named, keeps, faulty, marked, no_zero, swapped, escape_of_t};
ghost use Rattle.render_tests.specs.Asked.{in_folder, in_lib, in_parent, nowhere};
ghost use Rattle.render_tests.specs.declared.callbacks.Method.TheVariants.{Named, Keeper, Lost};
ghost use Rattle.render_tests.specs.declared.callbacks.Style.TheVariants.{Marked, NoZero, Swapped};
ghost use Rattle.render_tests.specs.declared.callbacks.Folder.TheVariants.{InLib, InParent, Nowhere};

use std::alloc::Global;
use template_machine::*;

/// A method object for the rows.
#[derive(Clone, Copy)]
pub(crate) enum Method {
    /// Returns the method's name.
    Named,
    /// Keeps 1 under `k` and returns 2.
    Keeper,
    /// Answers with a fault.
    Lost(ErrorKind),
}

impl MethodFallback for Method {
    ghost answers = { elim [ Named ↦ named | Keeper ↦ keeps | Lost kind ↦ faulty kind ] };

    fn call(
        &self,
        alloc: Global,
        _value: &Value,
        name: &str,
        _args: &[Value],
        _view: &View<'_>,
    ) -> CallableAnswer {
        match self {
            Method::Named => match Value::text(alloc, name) {
                Ok(name) => CallableAnswer::value(alloc, name),
                Err(error) => CallableAnswer::fault(alloc, error),
            },
            Method::Keeper => CallableAnswer::value(alloc, Value::number(2)).keep(
                alloc,
                "k",
                Value::number(1),
            ),
            Method::Lost(kind) => CallableAnswer::fault(alloc, Error::from(*kind)),
        }
    }
}

/// A formatter for the rows.
#[derive(Clone, Copy)]
pub(crate) enum Style {
    /// Writes F for each value.
    Marked,
    /// Answers with a fault for 0.
    NoZero,
    /// Writes none like an undefined value.
    Swapped,
}

impl Formatter for Style {
    ghost formats = { elim [ Marked ↦ marked | NoZero ↦ no_zero | Swapped ↦ swapped ] };

    fn format(&self, alloc: Global, value: &Value, view: &View<'_>) -> Result<String, Error> {
        match self {
            Style::Marked => Ok(String::from_str(alloc, "F")?),
            Style::NoZero => {
                if *value == Value::number(0) {
                    return Err(Error::from(ErrorKind::MissingArgument));
                }
                escape_formatter(alloc, value, view)
            }
            Style::Swapped => {
                if *value == Value::none() {
                    return escape_formatter(alloc, &Value::undefined(), view);
                }
                escape_formatter(alloc, value, view)
            }
        }
    }
}

/// An escape rule for the rows: this escape, but only for the template `t`.
#[derive(Clone, Copy)]
pub(crate) struct OfT {
    escape: AutoEscape,
}

impl EscapeRule for OfT {
    ghost escapes = { λ rule name. escape_of_t rule.escape name };

    fn escape(&self, name: &str) -> AutoEscape {
        if name == "t" {
            self.escape
        } else {
            AutoEscape::None
        }
    }
}

/// A join of template names for the rows.
#[derive(Clone, Copy)]
pub(crate) enum Folder {
    /// Puts a name into the folder `lib`.
    InLib,
    /// Puts a name into a folder named like the running template.
    InParent,
    /// Answers with a fault.
    Nowhere(ErrorKind),
}

/// The path of a name in a folder.
fn in_folder(alloc: Global, folder: &str, name: &str) -> Result<Name, Error>
    ensures { IsAnswer result (in_folder folder.now name.now) }
{
    let mut text = String::from_str(alloc, folder)?;
    text.push_str("/")?;
    text.push_str(name)?;
    Ok(Name::new(alloc, text.as_str())?)
}

impl PathJoin for Folder {
    ghost joins = { elim [ InLib ↦ in_lib | InParent ↦ in_parent | Nowhere kind ↦ nowhere kind ] };

    fn join(&self, alloc: Global, name: &str, parent: &str) -> Result<Name, Error> {
        match self {
            Folder::InLib => in_folder(alloc, "lib", name),
            Folder::InParent => in_folder(alloc, parent, name),
            Folder::Nowhere(kind) => Err(Error::from(*kind)),
        }
    }
}

/// The join that a word names.
pub(crate) fn folder_of(word: &str) -> Folder {
    match word {
        "parent" => Folder::InParent,
        "missing" => Folder::Nowhere(ErrorKind::MissingArgument),
        _ => Folder::InLib,
    }
}

/// The escape rule that a word names.
pub(crate) fn rule_of(word: &str) -> OfT {
    let escape = match word {
        "html" => AutoEscape::Html,
        _ => AutoEscape::Custom("own"),
    };
    OfT { escape }
}

/// The method object that a word names.
pub(crate) fn method_of(word: &str) -> Method {
    match word {
        "keep" => Method::Keeper,
        "missing" => Method::Lost(ErrorKind::MissingArgument),
        _ => Method::Named,
    }
}

/// The formatter that a word names.
pub(crate) fn style_of(word: &str) -> Style {
    match word {
        "no-zero" => Style::NoZero,
        "swapped" => Style::Swapped,
        _ => Style::Marked,
    }
}
