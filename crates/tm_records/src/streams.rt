//! The streams that declared macros.
ghost use Rattle.std.specs.Prelude.{◌≡◌, ◌∷◌, [], IfErr, OnErr, OnOk, slice_get};
ghost use Rattle.tm_values.specs.Answer.{IsLent};
ghost use Rattle.tm_meaning.specs.World.{stream_from, with_stream};

use std::alloc::Global;
use std::marker::Model;
use tm_meaning::StreamId;
use tm_values::{Error, ErrorKind};

/// The streams that declared macros, each once. A contract sees them in the order of their numbers.
#[derive(Drop)]
pub struct Streams {
    all: Vec<StreamId>,
}

impl Model for Streams {
    ghost use Rattle.std.specs.Coded.{codes};
    ghost use Rattle.std.specs.Prelude.{List};
    ghost use Rattle.tm_meaning.specs.declared.stream.StreamId.{StreamId as Stream};
    ghost use Rattle.tm_records.specs.Streams.{AreDistinct};

    ghost Value = { List Stream };

    ghost coded = { Prim.hlevel codes };

    ghost view = { λ s. s.all.items };

    ghost invariant = { λ s. AreDistinct s.all.items };
}

impl Streams {
    /// No streams; allocates nothing.
    pub fn new(alloc: Global) -> Streams
        ensures { result ≡ [] }
    {
        Streams {
            all: Vec::new(alloc),
        }
    }

    /// The stream `number`, or None if there is none.
    pub fn get(&self, number: usize) -> Option<&StreamId>
        ensures { IsLent result (slice_get self.now number) }
    {
        self.all.get(number)
    }

    /// The number of `stream`, or the one it would get if it isn't there.
    pub fn number_of(&self, stream: &StreamId) -> usize
        ensures { result ≡ stream_from 0 stream.now self.now }
    {
        if let Some(last) = self.all.len().checked_sub(1) {
            if stream.is(&self.all[last]) {
                return last;
            }
        }
        self.place_of(stream)
    }

    /// Adds `stream` if it isn't there; `number` must be its number. Fails only with OutOfMemory;
    /// then nothing changes.
    pub fn add(&mut self, number: usize, stream: &StreamId) -> Result<(), Error>
        requires { number ≡ stream_from 0 stream.now self.old }
        ensures ok { OnOk result (self.new ≡ with_stream stream.now self.old) }
        ensures kind { IfErr result (λ e. e ≡ ErrorKind.OutOfMemory ∷ []) }
        ensures err { OnErr result (self.new ≡ self.old) }
    {
        if number < self.all.len() {
            return Ok(());
        }
        self.all.push(stream.share()?)?;
        Ok(())
    }

    /// The index of `stream`, or the number of streams if it isn't there.
    fn place_of(&self, stream: &StreamId) -> usize
        ensures { result ≡ stream_from 0 stream.now self.now }
    {
        let mut place = 0;
        while place < self.all.len() {
            if stream.is(&self.all[place]) {
                return place;
            }
            place += 1;
        }
        place
    }
}
