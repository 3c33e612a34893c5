//! Streams of random instructions: each is refused, or runs without getting stuck.
use crate::drawn::{Dice, any_instruction};
use crate::trials::{Outcome, STREAMS, Way, as_block, as_root};
use std::alloc::Global;
use std::test::Fail;
use template_machine::*;

/// The ways to run an accepted stream. An expression's runs too, and its value is dropped.
static WAYS: [Way; 2] = [Way::Root, Way::Block];

/// A stream of at most six random instructions.
fn stream(alloc: Global, dice: &mut Dice) -> Result<Vec<Instruction>, Error> {
    let size = dice.roll(7);
    let mut stream = Vec::new(alloc);
    for _ in 0..size {
        stream.push(any_instruction(alloc, dice, size)?)?;
    }
    Ok(stream)
}

/// The outcome of a random stream, of a random form, run in one way.
fn outcome<P: Parties>(
    alloc: Global,
    environment: &EnvironmentOf<'_, P>,
    dice: &mut Dice,
    way: Way,
) -> Result<Outcome, Error> {
    let form = if dice.roll(4) == 0 {
        Form::Expression
    } else {
        Form::Template
    };
    let Ok(verified) = verify(alloc, stream(alloc, dice)?, form) else {
        return Ok(Outcome::Refused);
    };
    match way {
        Way::Block => as_block(alloc, environment, verified),
        _ => as_root(alloc, environment, verified),
    }
}

/// The outcome of the same random stream in all ways. A run consumes the stream, so it is made
/// again for each way.
fn outcome_in_all<P: Parties>(
    alloc: Global,
    environment: &EnvironmentOf<'_, P>,
    dice: &mut Dice,
) -> Result<Outcome, Error> {
    let start = *dice;
    for way in &WAYS {
        *dice = start;
        match outcome(alloc, environment, dice, *way)? {
            Outcome::Sound => {}
            other => return Ok(other),
        }
    }
    Ok(Outcome::Sound)
}

/// The number of accepted streams; None if an accepted one gets stuck.
fn accepted<P: Parties>(
    alloc: Global,
    environment: &EnvironmentOf<'_, P>,
) -> Result<Option<usize>, Error> {
    let mut dice = Dice { seed: 20 };
    let mut count: usize = 0;
    for _ in 0..STREAMS {
        match outcome_in_all(alloc, environment, &mut dice)? {
            Outcome::Refused => {}
            Outcome::Sound => count = count.wrapping_add(1),
            Outcome::Stuck => return Ok(None),
        }
    }
    Ok(Some(count))
}

#[test]
fn random_streams_are_refused_or_run(rt: HostRuntime) -> Result<(), Fail> {
    let alloc = rt.alloc();
    let mut environment = Environment::new(alloc)?;
    environment.set_fuel(Some(50));
    let count = accepted(alloc, &environment)?;
    assert!(rt; count >= Some(STREAMS / 10));
    Ok(())
}
