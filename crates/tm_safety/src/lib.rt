//! Proofs about streams that the compiler didn't write. The shape of a place says what is on the
//! stacks there, whatever ran before. A stream with shapes never gets stuck, and so an accepted
//! stream never does. For all streams, a fault in which a run ends arises as in a render, and a run
//! that is done has closed its captures. The functions here are laws: they run nothing.
#![tactic(auto)]

ghost use Rattle.std.specs.Prelude.{◌≡◌, ℕ, List, [], length, Bool, true};
ghost use Rattle.tm_values.specs.Val.{Val};
ghost use Rattle.tm_values.specs.declared.error.ErrorKind.{ErrorKind};
ghost use Rattle.tm_meaning.specs.Calls.{Callee};
ghost use Rattle.tm_meaning.specs.Machine.{Capture, Program, Finished, Failed, Stuck, base_of};
ghost use Rattle.tm_meaning.specs.Steps.{Final, final, Leads, begins};
ghost use Rattle.tm_meaning.specs.World.{World};
ghost use Rattle.tm_meaning.specs.declared.stream.StreamId.{StreamId};
ghost use Rattle.tm_shapes.specs.Accepts.{accepts};
ghost use Rattle.tm_shapes.specs.Placed.{is_placed};
ghost use Rattle.tm_shapes.specs.Shaped.{IsShaped};
ghost use Rattle.tm_shapes.specs.Shapes.{Shapes};
ghost use Rattle.tm_shapes.specs.declared.kind.Form.{Form};
ghost use Rattle.tm_simulation.specs.Chains.{Arises};
ghost use Rattle.tm_safety.specs.Fits.{AllEnter, ids_of};
ghost use Rattle.tm_safety.specs.Runs.{stream_of, EndsIn};

/// A run of a stream that has shapes, or of one of its macros, never gets stuck: whatever is open
/// below it, and in any world whose loop records belong to loops that are reached. And it leaves
/// such a world.
pub fn a_shaped_stream_is_never_stuck()
    ensures stuck { (p : Program) (shapes : StreamId → Shapes) (k : Callee) (heard : Bool)
        (captures : List Capture) (told got : List ℕ) (w left : World) →
        ((s : StreamId) → IsShaped (p.code s) (shapes s)) →
        w.stream ≡ stream_of k → AllEnter p.code shapes (ids_of w.loops) →
        let f = base_of heard captures w in
        Leads p f told (begins p f k captures w) (final got (Stuck left)) → ⊥ }
    ensures records { (p : Program) (shapes : StreamId → Shapes) (k : Callee) (heard : Bool)
        (captures : List Capture) (told : List ℕ) (w : World) (o : Final) →
        ((s : StreamId) → IsShaped (p.code s) (shapes s)) →
        w.stream ≡ stream_of k → AllEnter p.code shapes (ids_of w.loops) →
        let f = base_of heard captures w in
        Leads p f told (begins p f k captures w) o →
        EndsIn (λ left. AllEnter p.code shapes (ids_of left.loops)) o.end }
{}

/// If all streams of a program are accepted, none ever gets stuck, neither from its start nor from
/// the entry of a macro, from any world without loop records, such as the first world of a state.
pub fn accepted_streams_are_never_stuck()
    ensures { (p : Program) (form : StreamId → Form) (k : Callee) (heard : Bool)
        (captures : List Capture) (told got : List ℕ) (w left : World) →
        ((s : StreamId) → accepts (form s) (p.code s) ≡ true) →
        w.stream ≡ stream_of k → w.loops ≡ [] →
        let f = base_of heard captures w in
        Leads p f told (begins p f k captures w) (final got (Stuck left)) → ⊥ }
{}

/// Each fault in which a run of streams ends arises in it. The chain ends in a kind that renders
/// raise, or in a chain that one of the caller's objects states. Before that there are only kinds
/// that wrap.
pub fn a_fault_of_streams_arises()
    ensures { (p : Program) (k : Callee) (heard : Bool) (captures : List Capture)
        (told got : List ℕ) (w left : World) (chain : List ErrorKind) →
        let f = base_of heard captures w in
        Leads p f told (begins p f k captures w) (final got (Failed chain left)) →
        Arises p.host chain }
{}

/// A run that is done has closed all captures that it opened.
pub fn a_run_closes_its_captures()
    ensures { (p : Program) (k : Callee) (heard : Bool) (captures new : List Capture)
        (told got : List ℕ) (w left : World) (vs : List Val) →
        let f = base_of heard captures w in
        Leads p f told (begins p f k captures w) (final got (Finished vs new left)) →
        length new ≡ length captures }
{}
