//! A sink with a limit.
ghost use Rattle.std.specs.Prelude.{◌≡◌, ◌<◌, ◌≤◌, length, IsErr, IfOk};
ghost use Rattle.std.specs.Io.{WritesAtMost};
ghost use Rattle.std.specs.Io.KnownBytes.{WriteAppends};
ghost use Rattle.tm_output.specs.Counts.{failure_count, left_after};

use crate::sink::Sink;
use std::cmp::min;
use std::io;
use std::marker::Model;

/// A sink that passes a limited number of bytes on to another one, and then fails. Bytes beyond the
/// limit aren't written.
#[derive(Drop)]
pub struct Limited<S: Sink + Drop> {
    inner: S,
    left: usize,
    failures: u64,
}

impl<S: Sink + Drop> Model for Limited<S> {
    ghost use Rattle.tm_output.specs.Counts.{Bounded};

    ghost Value = { Bounded S };

    ghost view = { λ limited. record {
      sink = limited.inner;
      left = limited.left;
      failures = limited.failures;
    } };
}

impl<S: Sink + Drop> Limited<S> {
    /// A sink that accepts up to `limit` bytes for `inner`.
    pub fn new(inner: S, limit: usize) -> Limited<S>
        ensures { result ≡ record { sink = inner; left = limit; failures = 0 } }
    {
        Limited {
            inner,
            left: limit,
            failures: 0,
        }
    }

    /// The inner sink.
    pub fn inner(&self) -> &S
        ensures { result.now ≡ self.now.sink }
    {
        &self.inner
    }

    /// The inner sink, without the limit.
    pub fn into_inner(self) -> S
        ensures { result ≡ self.sink }
    {
        let Limited { inner, .. } = self;
        inner
    }

    /// The number of bytes that it still accepts.
    pub fn left(&self) -> usize
        ensures { result ≡ self.now.left }
    {
        self.left
    }

    /// The number of calls that failed or accepted no bytes; it saturates at the largest u64.
    pub fn failures(&self) -> u64
        ensures { result ≡ self.now.failures }
    {
        self.failures
    }

    /// Passes on the bytes that fit, of which there is at least one, and returns how many the inner
    /// sink accepted; or the inner sink's error.
    fn pass(&mut self, bytes: &[u8]) -> io::Result<usize>
        requires some { 0 < length bytes.now }
        requires room { 0 < self.old.left }
        ensures bound { WritesAtMost result bytes.now }
        ensures bytes { WriteAppends (S.told self.old.sink).bytes (S.told self.new.sink).bytes
            result bytes.now }
        ensures left { self.new.left ≡ left_after result self.old.left }
        ensures fits { IfOk result (λ taken. taken ≤ self.old.left) }
        ensures sink { (S.told self.new.sink).failures
            ≡ failure_count result (S.told self.old.sink).failures }
        ensures failures { self.new.failures ≡ self.old.failures }
    {
        let fits = min(bytes.len(), self.left);
        let answer = self.inner.write(&bytes[..fits]);
        match &answer {
            Ok(taken) => self.left -= *taken,
            Err(_) => {}
        }
        answer
    }
}

impl<S: Sink + Drop> Sink for Limited<S> {
    ghost told = { λ limited. record {
      bytes = (S.told limited.sink).bytes;
      failures = limited.failures;
    } };

    /// Passes on the bytes that fit, and returns how many the inner sink accepted. StorageFull if
    /// no byte is left; the inner sink's error if it fails.
    fn write(&mut self, bytes: &[u8]) -> io::Result<usize>
        requires { 0 < length bytes.now }
        ensures bound { WritesAtMost result bytes.now }
        ensures bytes { WriteAppends (S.told self.old.sink).bytes (S.told self.new.sink).bytes
            result bytes.now }
        ensures failures { self.new.failures ≡ failure_count result self.old.failures }
        ensures left { self.new.left ≡ left_after result self.old.left }
        ensures fits { IfOk result (λ taken. taken ≤ self.old.left) }
        ensures sink { 0 < self.old.left →
            (S.told self.new.sink).failures ≡ failure_count result (S.told self.old.sink).failures }
        ensures full { self.old.left ≡ 0 → IsErr result × (self.new.sink ≡ self.old.sink) }
    {
        let answer = if self.left == 0 {
            Err(io::Error::from(io::ErrorKind::StorageFull))
        } else {
            self.pass(bytes)
        };
        match &answer {
            Ok(0) | Err(_) => self.failures = self.failures.saturating_add(1),
            Ok(_) => {}
        }
        answer
    }
}
