//! Proofs that the code of trees does what the trees mean. The functions here are laws: they run
//! nothing, and their contracts state what is proved.
#![tactic(auto)]

ghost use Rattle.std.specs.Prelude.{◌≡◌, ◌≤◌, ◌++◌, ℕ, None, suc, List, [], ◌∷◌, Bool, true, false};
ghost use Rattle.tm_values.specs.declared.error.ErrorKind.{ErrorKind};
ghost use Rattle.tm_values.specs.declared.error.ErrorKind.TheVariants as kinds;
ghost use Rattle.std.specs.List.{All};
ghost use Rattle.tm_meaning.specs.Memory.{is_want_of_memory};
ghost use Rattle.tm_values.specs.Val.{Val};
ghost use Rattle.tm_meaning.specs.World.{Good, HostValue, World, emitted};
ghost use Rattle.tm_meaning.specs.declared.stream.StreamId.{StreamId};
ghost use Rattle.tm_meaning.specs.declared.stream.TemplateId.{TemplateId};
ghost use Rattle.tm_meaning.specs.Inheritance.{load, names_left};
ghost use Rattle.tm_trees.specs.Trees.{Expr, AssignmentTarget, Imported};
ghost use Rattle.tm_meaning.specs.Calls.{Callee, apply_filter, enter_include, enter_super, perform_test, whole};
ghost use Rattle.tm_meaning.specs.Tree.{StreamTree, Trees, expression};
ghost use Rattle.tm_meaning.specs.Meaning.{eval};
ghost use Rattle.tm_meaning.specs.Runs.{evaluated, leaving};
ghost use Rattle.tm_meaning.specs.Meaning.{Run, block_tag, import, import_names, in_place_of};
ghost use Rattle.tm_meaning.specs.Runs.{chain_of, nests_of, new_run, rendered, rendered_block, run_of, under};
ghost use Rattle.tm_simulation.specs.Called.{as_text, call_by_name, called, fault_of, maps_in, world_of};
ghost use Rattle.tm_meaning.specs.Machine.{Program, Capture, Stuck};
ghost use Rattle.tm_meaning.specs.Steps.{Final, final};
ghost use Rattle.tm_meaning.specs.Compiled.{IsCompiled};
ghost use Rattle.tm_simulation.specs.Kept.{Stays, OnlyAdds, EndsThere, GivesBack, LeavesScopes, PutsBack, Within};
ghost use Rattle.tm_simulation.specs.Chains.{Arises, IfAny, HasRaised, StatesOnly};
ghost use Rattle.tm_simulation.specs.Chains.{StatesNoMemory, ends_in_memory, MayWrap, is_foreign, HasNoForeign};
ghost use Rattle.tm_simulation.specs.Reached.{RunsTo, Renders, HasLevels};
ghost use Rattle.tm_simulation.specs.Uncached.{HasNoCaches, with_numbers};
ghost use Rattle.tm_simulation.specs.Reached.{text_in, final_in, final_of};

/// Running the code of trees, from any world, yields what the trees mean: the same text, world and
/// end.
pub fn code_comes_to_its_meaning()
    ensures { (trees : Trees) (p : Program) (w : World) → IsCompiled trees p →
        Renders p w (final_of (rendered p.host trees w)) }
{}

/// The same holds for the code of a stream in a run of its own: heard or not, from any world, over
/// any open captures, and whatever the writer has received, if there are enough levels. Of the
/// captures, only the text of the innermost one changes.
pub fn nested_code_comes_to_its_meaning()
    ensures { (trees : Trees) (p : Program) (n : ℕ) (k : Callee) (heard : Bool)
        (captures : List Capture) (told : List ℕ) (w : World) →
        IsCompiled trees p → HasLevels p.host (suc n) w →
        let meant = nests_of p.host trees (suc n) k heard (text_in captures told) w in
        RunsTo p k heard captures told w (final_in captures told meant) }
{}

/// A run has the same end and the same text if the names in its streams have their cache numbers.
pub fn cache_numbers_change_no_run()
    ensures { (p : Program) (k : Callee) (heard : Bool) (captures : List Capture) (told : List ℕ)
        (w : World) (end : Final) → HasNoCaches p →
        RunsTo p k heard captures told w end →
        RunsTo (with_numbers p) k heard captures told w end }
{}

/// The meaning of a run doesn't depend on the number of levels, if there are enough.
pub fn levels_change_no_meaning()
    ensures { (host : HostValue) (trees : Trees) (n m : ℕ) (k : Callee) (heard : Bool) (out : List ℕ)
        (w : World) → HasLevels host (suc n) w → HasLevels host (suc m) w →
        final_of (nests_of host trees (suc n) k heard out w) ≡
        final_of (nests_of host trees (suc m) k heard out w) }
{}

/// Nor does it depend on the limit on how many parents a stream may load, if that is at least the
/// number of names left to load.
pub fn names_change_no_meaning()
    ensures { (host : HostValue) (trees : Trees) (n m k : ℕ) (s : StreamId) (heard : Bool)
        (out : List ℕ) (w : World) → HasLevels host (suc n) w →
        names_left host w ≤ m → names_left host w ≤ k →
        let nests = nests_of host trees n in
        final_of (run_of host nests trees m s (new_run heard w) out w) ≡
        final_of (run_of host nests trees k s (new_run heard w) out w) }
{}

/// The run of an expression's stream evaluates the expression: it writes nothing, and leaves its
/// value alone, or ends in its fault. So the meaning of the stream that a world names is that
/// value.
pub fn an_expression_leaves_its_value()
    ensures run { (host : HostValue) (trees : Trees) (n : ℕ) (s : StreamId) (e : Expr)
        (heard : Bool) (out : List ℕ) (w : World) → trees s ≡ expression e →
        let run = new_run heard w in
        let u = under host (nests_of host trees n) (expression e) in
        nests_of host trees (suc n) (whole s) heard out w ≡ leaving (eval u run e w) run out }
    ensures value { (host : HostValue) (trees : Trees) (e : Expr) (w : World) →
        trees w.stream ≡ expression e →
        let u = under host (nests_of host trees host.limit) (expression e) in
        evaluated host trees w ≡ eval u (new_run true w) e w }
{}

/// Loading a parent leaves one name less to load, so every run ends.
pub fn a_parent_leaves_a_name_fewer()
    ensures { (host : HostValue) (v : Val) (inside : Bool) (w left : World) (t : TemplateId) →
        load host v None inside w ≡ Good t left → suc (names_left host left) ≤ names_left host w }
{}

/// The code of trees never gets stuck.
pub fn code_is_never_stuck()
    ensures { (trees : Trees) (p : Program) (w left : World) (got : List ℕ) → IsCompiled trees p →
        Renders p w (final got (Stuck left)) → ⊥ }
{}

/// A render keeps its state: the id is the same, fuel never increases, and the scopes from before
/// remain. If the render doesn't fail, there are no other scopes, and only the names of the
/// innermost one may differ.
pub fn a_render_keeps_its_state()
    ensures { (host : HostValue) (trees : Trees) (w : World) → Stays w (rendered host trees w) }
{}

/// The same holds for any run: the scopes below its own are unchanged.
pub fn a_run_keeps_its_state()
    ensures { (host : HostValue) (trees : Trees) (n : ℕ) (k : Callee) (heard : Bool) (out : List ℕ)
        (w : World) → Stays w (nests_of host trees n k heard out w) }
{}

/// A render loses nothing, even if it fails: no record, no kept value, no loaded name, and no
/// template in a block's list. The places in these lists and the block are as before, and so is the
/// escape, if the render doesn't fail.
pub fn a_render_loses_nothing()
    ensures { (host : HostValue) (trees : Trees) (w : World) → OnlyAdds w (rendered host trees w) }
{}

/// A render ends in the stream in which it began, or in the root of a parent, even if it fails.
pub fn a_render_ends_in_its_stream_or_a_root()
    ensures { (host : HostValue) (trees : Trees) (w : World) →
        EndsThere w.stream (rendered host trees w) }
{}

/// However its run ends, even by a fault, a block tag restores the scopes, the stream, the block,
/// the escape and the places in lists of blocks, and no list loses a template.
pub fn a_block_puts_back_what_it_replaced()
    ensures { (host : HostValue) (trees : Trees) (n : ℕ) (tree : StreamTree) (run : Run) (b : List ℕ)
        (out : List ℕ) (w : World) →
        PutsBack w (block_tag (under host (nests_of host trees n) tree) run b out w).world }
{}

/// So does `super()`.
pub fn a_super_puts_back_what_it_replaced()
    ensures { (host : HostValue) (trees : Trees) (n : ℕ) (tree : StreamTree) (run : Run) (out : List ℕ)
        (w : World) →
        let u = under host (nests_of host trees n) tree in
        PutsBack w (in_place_of u run out (enter_super host w)).world }
{}

/// An include restores all of this, and the lists of blocks and the loaded names too, however it
/// ends. The scopes are the same as before. If the template runs in the caller's own scopes, only
/// the names of the innermost one may differ.
pub fn an_include_gives_back_what_it_replaced()
    ensures back { (host : HostValue) (trees : Trees) (n : ℕ) (tree : StreamTree) (run : Run)
        (out : List ℕ) (apart : Bool) (v : Val) (missing : Bool) (w : World) →
        let u = under host (nests_of host trees n) tree in
        GivesBack w (in_place_of u run out (enter_include host apart v missing w)).world }
    ensures scopes { (host : HostValue) (trees : Trees) (n : ℕ) (tree : StreamTree) (run : Run)
        (out : List ℕ) (v : Val) (missing : Bool) (w : World) →
        let u = under host (nests_of host trees n) tree in
        (in_place_of u run out (enter_include host true v missing w)).world.scopes ≡ w.scopes }
{}

/// An import, of a module or of names, leaves the scopes as before, except for the names of the
/// innermost one; its closure is unchanged. If the import fails, there may be more scopes on top.
pub fn an_import_leaves_the_scopes()
    ensures module { (host : HostValue) (trees : Trees) (n : ℕ) (tree : StreamTree) (run : Run)
        (e : Expr) (t : AssignmentTarget) (w : World) →
        LeavesScopes w (import (under host (nests_of host trees n) tree) run e t w) }
    ensures names { (host : HostValue) (trees : Trees) (n : ℕ) (tree : StreamTree) (run : Run)
        (e : Expr) (xs : List Imported) (w : World) →
        LeavesScopes w (import_names (under host (nests_of host trees n) tree) run e xs w) }
{}

/// Depth never exceeds the recursion limit, or 1, the depth of a fresh state, if the limit is 0.
/// The scopes that a render or any run leaves, even if it fails, are no deeper than the limit, or
/// than those at its start if these are deeper. The same holds for the calls that a state is asked
/// for while no template runs: of a block, of a name, of a filter, of a test, of formatting a
/// value, and of an expression.
pub fn depth_never_passes_the_limit()
    ensures render { (host : HostValue) (trees : Trees) (w : World) →
        Within host w (rendered host trees w).world }
    ensures run { (host : HostValue) (trees : Trees) (n : ℕ) (k : Callee) (heard : Bool)
        (out : List ℕ) (w : World) → Within host w (nests_of host trees n k heard out w).world }
    ensures block { (host : HostValue) (trees : Trees) (b : List ℕ) (w : World) →
        Within host w (rendered_block host trees b w).world }
    ensures name { (host : HostValue) (trees : Trees) (x : List ℕ) (args : List Val) (w : World) →
        Within host w (world_of (as_text (called host trees (call_by_name host x args w)))) }
    ensures filter { (host : HostValue) (trees : Trees) (x : List ℕ) (args : List Val) (w : World) →
        Within host w (world_of (called host trees (apply_filter host x args w))) }
    ensures test { (host : HostValue) (trees : Trees) (x : List ℕ) (args : List Val) (w : World) →
        Within host w (world_of (called host trees (perform_test host x args w))) }
    ensures formatted { (host : HostValue) (v : Val) (w : World) →
        Within host w (world_of (emitted host v w)) }
    ensures value { (host : HostValue) (trees : Trees) (w : World) →
        Within host w (world_of (maps_in (evaluated host trees w))) }
{}

/// Each fault of a render arises in it. The chain ends in a kind that renders raise, or in a chain
/// that one of the caller's objects states. Before that there are only kinds that wrap.
pub fn a_fault_arises()
    ensures { (host : HostValue) (trees : Trees) (w : World) →
        IfAny (Arises host) (chain_of (rendered host trees w)) }
{}

/// The same holds for the calls that a state is asked for while no template runs: of a block, of a
/// name, of a filter, of a test, of formatting a value, and of an expression.
pub fn a_fault_of_a_call_arises()
    ensures block { (host : HostValue) (trees : Trees) (b : List ℕ) (w : World) →
        IfAny (Arises host) (chain_of (rendered_block host trees b w)) }
    ensures name { (host : HostValue) (trees : Trees) (x : List ℕ) (args : List Val) (w : World) →
        IfAny (Arises host)
        (fault_of (as_text (called host trees (call_by_name host x args w)))) }
    ensures filter { (host : HostValue) (trees : Trees) (x : List ℕ) (args : List Val) (w : World) →
        IfAny (Arises host) (fault_of (called host trees (apply_filter host x args w))) }
    ensures test { (host : HostValue) (trees : Trees) (x : List ℕ) (args : List Val) (w : World) →
        IfAny (Arises host) (fault_of (called host trees (perform_test host x args w))) }
    ensures formatted { (host : HostValue) (v : Val) (w : World) →
        IfAny (Arises host) (fault_of (emitted host v w)) }
    ensures value { (host : HostValue) (trees : Trees) (w : World) →
        IfAny (Arises host) (fault_of (maps_in (evaluated host trees w))) }
{}

/// So a fault has each property that the raised kinds have, that wrapping preserves, and that the
/// faults of the caller's objects have.
pub fn a_fault_has_what_is_raised_or_stated()
    ensures { (has : List ErrorKind → Bool) (host : HostValue) (trees : Trees) (w : World) →
        HasRaised (λ chain. has chain ≡ true) → StatesOnly (λ chain. has chain ≡ true) host →
        IfAny (λ chain. has chain ≡ true) (chain_of (rendered host trees w)) }
{}

/// A fault of a render ends in OutOfMemory only if one of the caller's objects states such a fault.
pub fn want_of_memory_is_stated()
    ensures { (host : HostValue) (trees : Trees) (w : World) → StatesNoMemory host →
        ends_in_memory (chain_of (rendered host trees w)) ≡ false }
{}

/// A chain whose last kind is OutOfMemory ends in OutOfMemory, whatever comes before it; a chain
/// with another last kind doesn't.
pub fn the_last_kind_counts()
    ensures memory { (ks : List ErrorKind) → ends_in_memory (ks ++ kinds.OutOfMemory ∷ []) ≡ true }
    ensures other { (ks : List ErrorKind) (kind : ErrorKind) → (kind ≡ kinds.OutOfMemory → ⊥) →
        ends_in_memory (ks ++ kind ∷ []) ≡ false }
{}

/// In public contracts, running out of memory is OutOfMemory, wrapped only by EvalBlock, BadInclude
/// and InvalidOperation.
pub fn want_of_memory_ends_in_memory()
    ensures wrapped { (ks : List ErrorKind) → All MayWrap ks → is_want_of_memory (ks ++ kinds.OutOfMemory ∷ []) ≡ true }
    ensures only { (ks : List ErrorKind) → is_want_of_memory (ks ++ kinds.OutOfMemory ∷ []) ≡ true → All MayWrap ks }
    ensures ends { (chain : List ErrorKind) → is_want_of_memory chain ≡ true → ends_in_memory chain ≡ true }
{}

/// A fault of a render contains SyntaxError, InvalidDelimiter, WriteFailure or BadStream only if
/// one of the caller's objects states a fault with that kind.
pub fn foreign_kinds_are_stated()
    ensures stated { (host : HostValue) (trees : Trees) (w : World) → StatesOnly HasNoForeign host →
        HasNoForeign (chain_of (rendered host trees w)) }
    ensures foreign { (is_foreign kinds.SyntaxError ≡ true) × (is_foreign kinds.InvalidDelimiter ≡ true)
        × (is_foreign kinds.WriteFailure ≡ true) × (is_foreign kinds.BadStream ≡ true) }
{}
