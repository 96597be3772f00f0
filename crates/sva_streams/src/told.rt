//! The one module that counts the calls of a stream: no other can reach the counters, so a failure that is counted is one
//! that the stream itself answered.

ghost use Rattle.std.specs.Prelude.{◌≡◌, ◌+◌, ◌^◌, ◌<◌, ◌≤◌, length, take, IfSome, IfNone};
ghost use Rattle.std.specs.Io.KnownBytes.{Appends, Consumes, IsAtEnd, Keeps};

use std::io::{Read, Write};
use std::marker::Model;

/// A reader or a writer that counts its calls. A turn is one call with room for a byte, or with a byte to write; a
/// failure is a turn that the stream answered with an error, or at a writer with 0.
#[derive(Drop)]
pub struct Told<T> {
    inner: T,
    calls: u64,
    failures: u64,
}

impl<T> Model for Told<T> {
    ghost use Rattle.std.specs.Prelude.{◌≤◌};
    ghost use Rattle.sva_streams.specs.Streams.{Stream};

    ghost Value = { Stream T };

    ghost view = { λ t. record { inner = t.inner; calls = t.calls; failures = t.failures } };

    ghost invariant = { λ t. t.failures ≤ t.calls };
}

impl<T> Told<T> {
    ghost use Rattle.sva_streams.specs.Streams.{IsNew};

    /// A reader or a writer of which no call was made yet.
    pub fn new(inner: T) -> Told<T>
        ensures inner { result.inner ≡ inner }
        ensures new { IsNew result }
    {
        Told {
            inner,
            calls: 0,
            failures: 0,
        }
    }

    /// The reader or writer.
    pub fn inner(&self) -> &T
        ensures { result.now ≡ self.now.inner }
    {
        &self.inner
    }

    /// The reader or writer, which isn't counted any more.
    pub fn into_inner(self) -> T
        ensures { result ≡ self.inner }
    {
        self.inner
    }

    /// How many calls were made.
    pub fn calls(&self) -> u64
        ensures { result ≡ self.now.calls }
    {
        self.calls
    }

    /// How many of them failed: an error, or at a writer 0. They are no more than the calls.
    pub fn failures(&self) -> u64
        ensures count { result ≡ self.now.failures }
        ensures bound { self.now.failures ≤ self.now.calls }
    {
        self.failures
    }
}

impl<R: Read> Told<R> {
    /// One call of `read`: how many bytes it gave, or `None` where it failed.
    pub fn read_once(&mut self, piece: &mut [u8]) -> Option<usize>
        requires room { 0 < length piece.old }
        requires calls { self.old.calls + 1 < 2 ^ 64 }
        ensures calls { self.new.calls ≡ self.old.calls + 1 }
        ensures read { IfSome result (λ count. (count ≤ length piece.new) × (self.new.failures ≡ self.old.failures)
            × Consumes (R.remaining self.old.inner) (R.remaining self.new.inner) (take count piece.new)) }
        ensures end { result ≡ Some 0 → IsAtEnd (R.remaining self.new.inner) }
        ensures failed { IfNone result ((self.new.failures ≡ self.old.failures + 1)
            × Keeps (R.remaining self.old.inner) (R.remaining self.new.inner)) }
    {
        self.calls += 1;
        match self.inner.read(piece) {
            Ok(count) => Some(count),
            Err(_) => {
                self.failures += 1;
                None
            }
        }
    }
}

impl<W: Write> Told<W> {
    /// One call of `write`: how many bytes it took, at least one, or `None` where it failed or took none.
    pub fn write_once(&mut self, bytes: &[u8]) -> Option<usize>
        requires some { 0 < length bytes.now }
        requires calls { self.old.calls + 1 < 2 ^ 64 }
        ensures calls { self.new.calls ≡ self.old.calls + 1 }
        ensures written { IfSome result (λ count. (0 < count) × (count ≤ length bytes.now) × (self.new.failures ≡ self.old.failures)
            × Appends (W.contents self.old.inner) (W.contents self.new.inner) (take count bytes.now)) }
        ensures failed { IfNone result ((self.new.failures ≡ self.old.failures + 1)
            × Keeps (W.contents self.old.inner) (W.contents self.new.inner)) }
    {
        self.calls += 1;
        match self.inner.write(bytes) {
            Ok(count) if count > 0 => Some(count),
            _ => {
                self.failures += 1;
                None
            }
        }
    }
}
