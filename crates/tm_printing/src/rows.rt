//! Worked values that no template can create, each with its expected output.
ghost use Rattle.std.specs.Prelude.{codes};
ghost use Rattle.tm_printing.specs.Rows.{Thrice, NotInJson, Nowhere, macro_m};
ghost use Rattle.tm_values.specs.Val.{exports, no_pairs, loop, namespace};
ghost use Rattle.tm_values.specs.declared.error.ErrorKind.TheVariants.{BadSerialization, InvalidOperation};

/// A macro, a module, and records of another state.
pub fn written_rows()
    ensures declared { NotInJson macro_m (codes "<macro m>") (codes "&lt;macro m&gt;") }
    ensures module { Thrice (exports no_pairs (codes "<t>")) (codes "<t>") (codes "&lt;t&gt;")
        (codes "{}") }
    ensures foreign_loop { Nowhere (loop 8 0) BadSerialization }
    ensures foreign_namespace { Nowhere (namespace 8 0) InvalidOperation }
{}
