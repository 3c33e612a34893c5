//! Proofs about which streams are accepted: the search finds shapes if there are any, and the code
//! of every tree is accepted. The functions here are laws: they run nothing.
#![tactic(auto)]

ghost use Rattle.std.specs.Prelude.{◌≡◌, ◌⊎◌, ℕ, List, [], ◌∷◌, Some, is_some, length, slice_get, true};
ghost use Rattle.tm_accepted.specs.Laid.{Laid, form_of};
ghost use Rattle.tm_accepted.specs.Sites.{Piece, pieces, site_by};
ghost use Rattle.tm_shapes.specs.Accepts.{Asked, Fits, MeetsRules, Readings, accepts, all_seeds, all_values, ask_all};
ghost use Rattle.tm_shapes.specs.Accepts.{entry_seeds, found, groups_in, read_groups, site_of};
ghost use Rattle.tm_shapes.specs.Flows.{Site, flow_of, in_row};
ghost use Rattle.tm_shapes.specs.Placed.{is_placed};
ghost use Rattle.tm_shapes.specs.Shaped.{IsShaped};
ghost use Rattle.tm_shapes.specs.Shapes.{Shape, Shapes, shape_at};
ghost use Rattle.tm_shapes.specs.declared.kind.Form.{Form};
ghost use Rattle.tm_shapes.specs.declared.kind.Kind.{Kind};
ghost use Rattle.tm_shapes.specs.declared.kind.Kind.TheVariants.{Value as value};
ghost use Rattle.tm_shapes.specs.declared.kind.Reading.TheVariants as readings;
ghost use Rattle.tm_syntax.specs.Blocks.{StreamTree, fragment_of};
ghost use Rattle.tm_syntax.specs.CacheNumbers.{numbered};
ghost use Rattle.tm_syntax.specs.Fragments.{assembled};
ghost use Rattle.tm_trees.specs.Instructions.{Instruction};
ghost use Rattle.tm_trees.specs.Instructions.instructions.{Swap};

/// The code of every tree has shapes in which each `LoadConst 0` is read as a value or as a group,
/// and as a group only if no operand is below it. A value goes into a group only by `Swap`,
/// `LoadConst 1` and `Add`.
pub fn the_code_of_trees_has_shapes()
    ensures { (tree : StreamTree) → let code = assembled (fragment_of tree) in
        (read : Readings) × (shapes : Shapes)
        × ((n : ℕ) → (read n ≡ readings.Value) ⊎ (read n ≡ readings.Group))
        × ((n : ℕ) (s : Shape) → read n ≡ readings.Group → shape_at shapes n ≡ Some s →
        s.part.operands ≡ [])
        × Laid read (form_of tree) (fragment_of tree) code shapes }
{}

/// The checks of every instruction, reached or not, accept the code of trees.
pub fn the_code_of_trees_is_placed()
    ensures { (tree : StreamTree) → is_placed (numbered (assembled (fragment_of tree))) ≡ true }
{}

/// In the code of a tree, the surroundings of an instruction, as far as a flow depends on them,
/// follow from the piece of code that it belongs to.
pub fn the_code_of_trees_has_sites()
    ensures { (tree : StreamTree) (a : Asked) (n : ℕ) (x : Instruction) (p : Piece) (s : Shape) →
        let code = numbered (assembled (fragment_of tree)) in
        slice_get code n ≡ Some x → slice_get (pieces (fragment_of tree)) n ≡ Some p →
        a.enters ≡ true →
        flow_of (site_of a code n) x s ≡ flow_of (site_by p (a.read n) a.returned n) x s }
{}

/// Adding cache numbers to code changes neither where it leads, nor its length, nor the entries of
/// its macros.
pub fn numbers_change_no_flow()
    ensures flows { (code : List Instruction) (n : ℕ) (x y : Instruction) (at : Site) (s : Shape) →
        slice_get code n ≡ Some x → slice_get (numbered code) n ≡ Some y →
        flow_of at x s ≡ flow_of at y s }
    ensures places { (code : List Instruction) → length (numbered code) ≡ length code }
    ensures seeds { (code : List Instruction) → entry_seeds (numbered code) ≡ entry_seeds code }
{}

/// An accepted stream has shapes. A stream is accepted if it passes the checks of every instruction
/// and there are shapes that meet the rules with each `LoadConst 0` read as a value.
pub fn a_stream_is_accepted_where_shapes_fit()
    ensures shaped { (form : Form) (code : List Instruction) → accepts form code ≡ true →
        (shapes : Shapes) × IsShaped code shapes }
    ensures accepted { (form : Form) (code : List Instruction) → is_placed code ≡ true →
        MeetsRules all_values form code → accepts form code ≡ true }
{}

/// If shapes fit a stream with each 0 read as a value or as a group, the search finds shapes with
/// each 0 read as it is taken, under two conditions. A 0 read as a group is loaded with no operand
/// of its part below it. And if `Swap`, `LoadConst 1` and `Add` in a row add a value to the operand
/// below it, that operand isn't a value.
pub fn what_takes_a_group_is_found()
    ensures { (code : List Instruction) (read : Readings) (form : Form) (shapes : Shapes) →
        ((n : ℕ) → (read n ≡ readings.Value) ⊎ (read n ≡ readings.Group)) →
        ((n : ℕ) (s : Shape) → read n ≡ readings.Group → shape_at shapes n ≡ Some s →
        s.part.operands ≡ []) →
        ((n : ℕ) (s : Shape) (k : Kind) (ks : List Kind) → slice_get code n ≡ Some Swap →
        in_row (site_of (ask_all read form) code n) ≡ true → shape_at shapes n ≡ Some s →
        s.part.operands ≡ k ∷ value ∷ ks → ⊥) →
        Fits (ask_all read form) code (all_seeds code) shapes →
        is_some (found (ask_all (read_groups (groups_in code)) form) code (all_seeds code)) ≡ true }
{}

/// The code of every tree is accepted.
pub fn the_code_of_trees_is_accepted()
    ensures { (tree : StreamTree) →
        accepts (form_of tree) (numbered (assembled (fragment_of tree))) ≡ true }
{}
