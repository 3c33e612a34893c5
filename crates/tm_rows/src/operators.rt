//! Worked renders of operators, items and slices.
ghost use Rattle.std.specs.Prelude.{[], ◌∷◌, ◌++◌, codes};
ghost use Rattle.std.specs.Fmt.{decimal};
ghost use Rattle.tm_values.specs.declared.error.ErrorKind.TheVariants.{InvalidOperation};
ghost use Rattle.tm_trees.specs.Trees.binaries.{Equal, NotEqual, Less, LessOrEqual, Greater};
ghost use Rattle.tm_trees.specs.Trees.binaries.{GreaterOrEqual, In, NotIn, Add, Subtract};
ghost use Rattle.tm_trees.specs.Trees.binaries.{Concatenate, Multiply, Divide, FloorDivide};
ghost use Rattle.tm_trees.specs.Trees.binaries.{Remainder, Power};
ghost use Rattle.tm_rows.specs.Rows.{Charges, Fails, literal_number};
ghost use Rattle.tm_rows.specs.OperatorRows.{of_two, of_list, minus, negated, item_of_two, part_of_two};

/// `{{ m op n }}` with each comparison operator, for equal and for different numbers.
pub fn comparison_rows()
    ensures equal { Charges (of_two 2 Equal 2) (codes "true") 4 }
    ensures unequal { Charges (of_two 7 Equal 2) (codes "false") 4 }
    ensures differs { Charges (of_two 7 NotEqual 2) (codes "true") 4 }
    ensures less { Charges (of_two 2 Less 7) (codes "true") 4 }
    ensures not_less { Charges (of_two 2 Less 2) (codes "false") 4 }
    ensures at_most { Charges (of_two 2 LessOrEqual 2) (codes "true") 4 }
    ensures more_than_most { Charges (of_two 7 LessOrEqual 2) (codes "false") 4 }
    ensures greater { Charges (of_two 7 Greater 2) (codes "true") 4 }
    ensures not_greater { Charges (of_two 2 Greater 2) (codes "false") 4 }
    ensures at_least { Charges (of_two 2 GreaterOrEqual 2) (codes "true") 4 }
    ensures less_than_least { Charges (of_two 2 GreaterOrEqual 7) (codes "false") 4 }
{}

/// `{{ 7 op 2 }}` with each arithmetic operator, and `{{ -7 }}`. `/` is refused.
pub fn arithmetic_rows()
    ensures sum { Charges (of_two 7 Add 2) (decimal 9) 4 }
    ensures difference { Charges (of_two 7 Subtract 2) (decimal 5) 4 }
    ensures below_zero { Charges (of_two 2 Subtract 7) (codes "-" ++ decimal 5) 4 }
    ensures product { Charges (of_two 7 Multiply 2) (decimal 14) 4 }
    ensures quotient { Fails (of_two 7 Divide 2) [] (InvalidOperation ∷ []) }
    ensures floor { Charges (of_two 7 FloorDivide 2) (decimal 3) 4 }
    ensures remainder { Charges (of_two 7 Remainder 2) (decimal 1) 4 }
    ensures power { Charges (of_two 7 Power 2) (decimal 49) 4 }
    ensures texts { Charges (of_two 7 Concatenate 2) (decimal 7 ++ decimal 2) 4 }
    ensures negated { Charges (negated 7) (codes "-" ++ decimal 7) 3 }
{}

/// `{{ m in [1, 2] }}` and `{{ m not in [1, 2] }}`, which is charged as `in` and `not`.
pub fn membership_rows()
    ensures member { Charges (of_list 2 In) (codes "true") 6 }
    ensures no_member { Charges (of_list 3 In) (codes "false") 6 }
    ensures not_in { Charges (of_list 3 NotIn) (codes "true") 7 }
    ensures not_in_member { Charges (of_list 2 NotIn) (codes "false") 7 }
{}

/// `{{ [4, 5][k] }}`: from the front, from the back, and beyond the end, which is undefined.
pub fn item_rows()
    ensures first { Charges (item_of_two 4 5 (literal_number 0)) (decimal 4) 6 }
    ensures second { Charges (item_of_two 4 5 (literal_number 1)) (decimal 5) 6 }
    ensures last { Charges (item_of_two 4 5 (minus 1)) (decimal 5) 7 }
    ensures beyond { Charges (item_of_two 4 5 (literal_number 2)) [] 6 }
{}

/// `{{ [4, 5][1:2:1] }}`, with a step of 2, and with an end beyond the last item.
pub fn slice_rows()
    ensures part { Charges (part_of_two 4 5 1 2 1) (codes "[" ++ decimal 5 ++ codes "]") 8 }
    ensures each_second { Charges (part_of_two 4 5 0 2 2) (codes "[" ++ decimal 4 ++ codes "]") 8 }
    ensures beyond { Charges (part_of_two 4 5 1 9 1) (codes "[" ++ decimal 5 ++ codes "]") 8 }
    ensures empty { Charges (part_of_two 4 5 2 9 1) (codes "[]") 8 }
{}
