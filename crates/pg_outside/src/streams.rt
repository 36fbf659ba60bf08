ghost use Rattle.std.specs.Prelude.{◌≡◌, ◌<◌, length, OnErr};
ghost use Rattle.std.specs.Io.{ReadsAtMost};
ghost use Rattle.std.specs.Io.KnownBytes.{ReadConsumes, WriteAppends};
ghost use Rattle.pg_outside.specs.Causes.{HasCause, TakesSome, raised};

use crate::{Failed, Sink, Source};
use std::io::{Read, Write};
use std::marker::Model;

/// A reader of std as a source. It tells the bytes still to come only where the reader does.
#[derive(Drop)]
pub struct StdSource<R: Read> {
    inner: R,
    faults: u64,
}

impl<R: Read> Model for StdSource<R> {
    ghost use Rattle.pg_outside.specs.Streams.{StreamState};

    ghost Value = { StreamState };

    ghost view = { λ s. record { bytes = R.remaining s.inner; faults = s.faults } };
}

impl<R: Read> StdSource<R> {
    /// A source that reads from `inner`, with no fault so far.
    pub fn new(inner: R) -> StdSource<R>
        ensures { result ≡ record { bytes = R.remaining inner; faults = 0 } }
    {
        StdSource { inner, faults: 0 }
    }
}

impl<R: Read> Source for StdSource<R> {
    ghost left = { λ s. s.bytes };

    ghost faults = { λ s. s.faults };

    /// One `read` of the reader. Each error of it raises the count, and nothing else does.
    fn read(&mut self, into: &mut [u8]) -> Result<usize, Failed>
        requires { 0 < length into.old }
        ensures bound { ReadsAtMost result into.new }
        ensures bytes { ReadConsumes self.old.bytes self.new.bytes result into.new }
        ensures cause { HasCause self.old.faults self.new.faults result }
        ensures err { OnErr result (self.new.faults ≡ raised self.old.faults) }
    {
        match self.inner.read(into) {
            Ok(count) => Ok(count),
            Err(_) => {
                self.faults = self.faults.saturating_add(1);
                Err(Failed)
            }
        }
    }
}

/// A writer of std as a sink. It tells the bytes that it holds only where the writer does.
#[derive(Drop)]
pub struct StdSink<W: Write> {
    inner: W,
    faults: u64,
}

impl<W: Write> Model for StdSink<W> {
    ghost use Rattle.pg_outside.specs.Streams.{StreamState};

    ghost Value = { StreamState };

    ghost view = { λ s. record { bytes = W.contents s.inner; faults = s.faults } };
}

impl<W: Write> StdSink<W> {
    /// A sink that writes to `inner`, with no fault so far.
    pub fn new(inner: W) -> StdSink<W>
        ensures { result ≡ record { bytes = W.contents inner; faults = 0 } }
    {
        StdSink { inner, faults: 0 }
    }
}

impl<W: Write> Sink for StdSink<W> {
    ghost held = { λ s. s.bytes };

    ghost faults = { λ s. s.faults };

    /// One `write` of the writer. Each error of it, and each write that takes nothing, raises the count, and nothing else
    /// does.
    fn write(&mut self, piece: &[u8]) -> Result<usize, Failed>
        requires { 0 < length piece.now }
        ensures bound { TakesSome result piece.now }
        ensures bytes { WriteAppends self.old.bytes self.new.bytes result piece.now }
        ensures cause { HasCause self.old.faults self.new.faults result }
        ensures err { OnErr result (self.new.faults ≡ raised self.old.faults) }
    {
        match self.inner.write(piece) {
            Ok(count) if count > 0 => Ok(count),
            _ => {
                self.faults = self.faults.saturating_add(1);
                Err(Failed)
            }
        }
    }
}
