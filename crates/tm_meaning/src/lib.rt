//! Definitions: what a state is, what trees mean, and what the machine does. The functions here are
//! laws: they run nothing, and their contracts state what is proved about the definitions.
#![tactic(auto)]

ghost use Rattle.std.specs.Prelude.{◌≡◌, ◌++◌, ℕ, List, Option};
ghost use Rattle.tm_values.specs.Answer.{Answer};
ghost use Rattle.tm_values.specs.Val.{Val};
ghost use Rattle.tm_meaning.specs.LookUp.{Finds};
ghost use Rattle.tm_meaning.specs.Machine.{Program, Base, Next};
ghost use Rattle.tm_meaning.specs.Steps.{Final, Leads};
ghost use Rattle.tm_meaning.specs.World.{Loop, View, find_name, left_loop, loop_data};

mod base;
mod function;
mod mark;
mod reply;
mod run_text;
mod stream;
mod wrapping;

pub use base::Base;
pub use function::GlobalFunction;
pub use mark::LoopMark;
pub use reply::{Call, Reply};
pub use run_text::RunText;
pub use stream::{StreamId, TemplateId};
pub use wrapping::Wrapping;

/// A run has only one end.
pub fn one_end()
    ensures { (p : Program) (f : Base) (t : List ℕ) (n : Next) (o q : Final) →
        Leads p f t n o → Leads p f t n q → o ≡ q }
{}

/// The text that the writer has received only grows.
pub fn text_grows()
    ensures { (p : Program) (f : Base) (t : List ℕ) (n : Next) (o : Final) →
        Leads p f t n o → (rest : List ℕ) × (o.text ≡ t ++ rest) }
{}

/// A look-up returns the first value bound to the name. Each scope, from the innermost outward, has
/// its locals, its loop, its closure and its context value; the globals come last. Every result of
/// a look-up is found this way.
pub fn look_up_order()
    ensures answers { (view : View) (x : List ℕ) (a : Answer (Option Val)) →
        Finds view x view.frames a → find_name view x ≡ a }
    ensures found { (view : View) (x : List ℕ) (a : Answer (Option Val)) →
        find_name view x ≡ a → Finds view x view.frames a }
{}

/// A loop that was left answers what it answered before, though its items are forgotten: its place,
/// its count, its depth, and the items before and after the current one.
pub fn left_loops_answer()
    ensures { (l : Loop) → loop_data (left_loop l) ≡ loop_data l }
{}
