//! Trials of streams: how the accepted ones are run, and what no run of one may answer.
use std::alloc::Global;
use std::collections::BTreeMap;
use template_machine::*;

/// How many streams a test tries.
pub(crate) const STREAMS: usize = 2000;

/// How a stream is run.
#[derive(Clone, Copy)]
pub(crate) enum Way {
    /// As the root of a template without blocks.
    Root,
    /// As the block `b` of an empty template.
    Block,
    /// In the place that it was taken from, together with the other streams there.
    Placed,
}

/// The outcome of a stream.
#[derive(Clone, Copy)]
pub(crate) enum Outcome {
    /// It isn't accepted.
    Refused,
    /// It is accepted, and no run of it fails with BadStream.
    Sound,
    /// It is accepted, and a run of it fails with BadStream.
    Stuck,
}

/// Whether neither the error nor one of its causes is BadStream, so that no wrapping error hides
/// it.
fn is_sound_fault(error: &Error) -> bool {
    let mut rest = Some(error);
    for _ in 0..usize::MAX {
        match rest {
            Some(found) if found.kind() == ErrorKind::BadStream => return false,
            Some(found) => rest = found.cause(),
            None => return true,
        }
    }
    false
}

/// Whether the answer is anything but BadStream, or an error that BadStream caused.
fn is_sound<T: Drop>(answer: Result<T, Error>) -> bool {
    match answer {
        Ok(_) => true,
        Err(error) => is_sound_fault(&error),
    }
}

/// Renders a template made of streams, and then its block `b`, if there is one, in the state after
/// the render.
pub(crate) fn outcome_of<P: Parties>(
    alloc: Global,
    environment: &EnvironmentOf<'_, P>,
    root: Verified,
    blocks: BTreeMap<&str, Verified>,
) -> Result<Outcome, Error> {
    let escape = AutoEscape::None;
    let compiled = CompiledTemplate::from_streams(alloc, "streams", root, blocks, escape)?;
    let template = environment.template_from_compiled(compiled)?;
    let is_well = match template.render_captured(&mut StateIds::new(), Value::undefined()) {
        Ok(captured) => {
            let (_text, mut state) = captured.into_parts();
            is_sound(state.render_block("b"))
        }
        Err(error) => is_sound_fault(&error),
    };
    Ok(if is_well {
        Outcome::Sound
    } else {
        Outcome::Stuck
    })
}

/// Runs a stream as the root.
pub(crate) fn as_root<P: Parties>(
    alloc: Global,
    environment: &EnvironmentOf<'_, P>,
    stream: Verified,
) -> Result<Outcome, Error> {
    outcome_of(alloc, environment, stream, BTreeMap::new(alloc))
}

/// Runs a stream as a block.
pub(crate) fn as_block<P: Parties>(
    alloc: Global,
    environment: &EnvironmentOf<'_, P>,
    stream: Verified,
) -> Result<Outcome, Error> {
    let mut blocks = BTreeMap::new(alloc);
    blocks.insert("b", stream)?;
    outcome_of(alloc, environment, Verified::empty(alloc), blocks)
}
