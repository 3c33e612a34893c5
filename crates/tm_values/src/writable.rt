//! Values that are never refused, whatever the records are.
ghost use Rattle.std.specs.Prelude.{◌≡◌};
ghost use Rattle.tm_values.specs.Writable.{fits_json, in_all_forms, in_print_alone, in_no_form, both, as_key, writable_of};

use crate::value::{Node, Value};

/// The forms in which a value is never refused, whatever the records are. No form has values that
/// contain a loop or a namespace, at any depth. JSON also lacks functions, macros, large numbers
/// and keys that aren't texts. Modules aren't known to be accepted as JSON.
#[derive(Clone, Copy)]
pub struct Writable {
    /// As printed text.
    pub in_print: bool,
    /// As JSON.
    pub in_json: bool,
}

impl Writable {
    // Accepted in all forms.
    pub(crate) fn in_all_forms() -> Writable
        ensures { result ≡ in_all_forms }
    {
        Writable {
            in_print: true,
            in_json: true,
        }
    }

    // Accepted only as printed text.
    fn in_print_alone() -> Writable
        ensures { result ≡ in_print_alone }
    {
        Writable {
            in_print: true,
            in_json: false,
        }
    }

    // The forms in which both are accepted.
    pub(crate) fn both(self, other: Writable) -> Writable
        ensures { result ≡ both self other }
    {
        Writable {
            in_print: self.in_print && other.in_print,
            in_json: self.in_json && other.in_json,
        }
    }
}

impl Value {
    /// The forms in which the value is never refused, whatever the records are. Takes constant
    /// time.
    pub fn writable(&self) -> Writable
        ensures { result ≡ writable_of self.now }
    {
        match &self.node {
            Node::List(_, parts) | Node::Map(_, parts) | Node::Keywords(_, parts) => parts.writable,
            Node::Undefined(_) | Node::None | Node::Boolean(_) | Node::Text(_, _) => {
                Writable::in_all_forms()
            }
            Node::Number(whole) => Writable {
                in_print: true,
                in_json: fits_json(*whole),
            },
            Node::Exports(_, _, _) | Node::Function(_) | Node::Macro(_) =>
                Writable::in_print_alone(),
            Node::Loop(_, _) | Node::Namespace(_, _) => Writable {
                in_print: false,
                in_json: false,
            },
        }
    }

    // The forms in which the value is accepted as a key.
    fn as_key(&self) -> Writable
        ensures { result ≡ as_key self.now }
    {
        match &self.node {
            Node::Text(_, _) => Writable::in_all_forms(),
            _ => Writable::in_print_alone(),
        }
    }
}

// Whether JSON can hold the number.
fn fits_json(whole: i128) -> bool
    ensures { result ≡ fits_json whole }
{
    -0x8000_0000_0000_0000 <= whole && whole <= 0xffff_ffff_ffff_ffff
}

// The forms in which the key and the value are both accepted.
pub(crate) fn pair_writable(pair: &(Value, Value)) -> Writable
    ensures { result ≡ both (as_key pair.now.0) (both (writable_of pair.now.0) (writable_of pair.now.1)) }
{
    pair.0
        .as_key()
        .both(pair.0.writable().both(pair.1.writable()))
}
