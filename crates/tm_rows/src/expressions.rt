//! Worked expressions, each a stream of its own: the value that it leaves, by its meaning and by
//! its code.
ghost use Rattle.std.specs.Prelude.{[], ◌∷◌, codes, pos, true, false};
ghost use Rattle.tm_values.specs.Val.{boolean, number, undefined};
ghost use Rattle.tm_values.specs.declared.error.ErrorKind.TheVariants.{InvalidOperation, OutOfFuel, UndefinedError};
ghost use Rattle.tm_values.specs.declared.error.ErrorKind.TheVariants.{UnknownBlock, UnknownFilter, UnknownFunction};
ghost use Rattle.tm_rows.specs.Rows.{Charges, fuel_for, x};
ghost use Rattle.tm_rows.specs.ExpressionRows.{Ends, EvaluatesTo, EvaluationFails, alone, sum, between, without_else, member_of_none};
ghost use Rattle.tm_rows.specs.ExpressionRows.{super_alone, self_alone, loop_alone, without_filter, including_one};

/// `a + 1` with a = 1, also with too little fuel; `number > 10 and number < 20` with 15; `x`; and
/// `a if b`, which is the silent undefined value.
pub fn expression_rows()
    ensures sum { EvaluatesTo sum (number (pos 2)) 3 }
    ensures paid { Ends sum (fuel_for 3) (number (pos 2) ∷ []) 0 [] }
    ensures before_the_sum { Ends sum (fuel_for 2) [] 0 (OutOfFuel ∷ []) }
    ensures between { EvaluatesTo between (boolean true) 7 }
    ensures name { EvaluatesTo (alone x) (undefined false) 1 }
    ensures without_else { EvaluatesTo without_else (undefined true) 3 }
{}

/// `x.y`, and what an expression can't use: `super()`, `self.b()`, `loop(1)`, and `a|upper` without
/// the filter.
pub fn refused_expression_rows()
    ensures member { EvaluationFails member_of_none (UndefinedError ∷ []) 2 }
    ensures parent { EvaluationFails super_alone (InvalidOperation ∷ []) 1 }
    ensures block { EvaluationFails self_alone (UnknownBlock ∷ []) 1 }
    ensures called { EvaluationFails loop_alone (UnknownFunction ∷ []) 2 }
    ensures filter { EvaluationFails without_filter (UnknownFilter ∷ []) 2 }
{}

/// If the stream of an expression runs inside another run, its value is dropped.
pub fn dropped_value_rows()
    ensures included { Charges including_one (codes "!") 4 }
{}
