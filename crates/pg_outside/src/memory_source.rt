ghost use Rattle.std.specs.Prelude.{◌≡◌, ◌<◌, ◌≤◌, ◌↔◌, ◌++◌, [], length, take, drop, min, IfOk, OnErr, IsErr, Contains};
ghost use Rattle.std.specs.declared.option.Option.TheVariants.{Some};
ghost use Rattle.std.specs.Io.{ReadsAtMost};
ghost use Rattle.std.specs.Io.KnownBytes.{ReadConsumes};
ghost use Rattle.pg_outside.specs.Causes.{HasCause, raised};

use crate::{Failed, Source};
use pg_value::List;
use std::marker::Model;

/// Bytes in memory, read in pieces. It tells the bytes that are still to come. Its calls are counted from 1, the count
/// staying at 2^64 - 1, and exactly those whose numbers stand in a list fail.
#[derive(Drop)]
pub struct MemSource {
    bytes: List<u8>,
    at: usize,
    piece: usize,
    fails: List<u64>,
    calls: u64,
    faults: u64,
}

impl Model for MemSource {
    ghost use Rattle.std.specs.Prelude.{◌<◌, ◌≤◌, length, drop};
    ghost use Rattle.pg_outside.specs.Memory.{SourceState};

    ghost Value = { SourceState };

    ghost view = { λ m. record { left = drop m.at m.bytes; piece = m.piece; fails = m.fails; calls = m.calls; faults = m.faults } };

    ghost invariant = { λ m. (m.at ≤ length m.bytes) × (0 < m.piece) };
}

impl MemSource {
    /// A source of these bytes, of which a call gives at most `piece`, and whose calls with the numbers `fails` fail. It
    /// takes no memory.
    pub fn new(bytes: List<u8>, piece: usize, fails: List<u64>) -> MemSource
        requires { 0 < piece }
        ensures { result ≡ record { left = bytes; piece = piece; fails = fails; calls = 0; faults = 0 } }
    {
        MemSource {
            bytes,
            at: 0,
            piece,
            fails,
            calls: 0,
            faults: 0,
        }
    }
}

// Puts a front of `rest` at the front of `into`, `most` bytes of it where both have so many.
fn hand_over(rest: &[u8], most: usize, into: &mut [u8]) -> usize
    ensures count { result ≡ min most (min (length into.old) (length rest.now)) }
    ensures front { take result into.new ≡ take result rest.now }
{
    let count = most.min(into.len()).min(rest.len());
    let (front, _) = rest.split_at(count);
    into[..count].copy_from_slice(front);
    count
}

impl Source for MemSource {
    ghost left = { λ m. Some m.left };

    ghost faults = { λ m. m.faults };

    /// Fails exactly where the call's number stands in `fails`, which leaves the bytes as they are. Else it gives as many
    /// bytes as the piece, the room in `into` and the bytes still to come allow.
    fn read(&mut self, into: &mut [u8]) -> Result<usize, Failed>
        requires { 0 < length into.old }
        ensures bound { ReadsAtMost result into.new }
        ensures bytes { ReadConsumes (Some self.old.left) (Some self.new.left) result into.new }
        ensures cause { HasCause self.old.faults self.new.faults result }

        // When it fails, and how much it gives.
        ensures number { self.new.calls ≡ raised self.old.calls }
        ensures fails { IsErr result ↔ Contains self.old.fails self.new.calls }
        ensures count { IfOk result (λ n. n ≡ min self.old.piece (min (length into.old) (length self.old.left))) }

        // What else changes.
        ensures err { OnErr result (self.new.faults ≡ raised self.old.faults) }
        ensures piece { self.new.piece ≡ self.old.piece }
        ensures list { self.new.fails ≡ self.old.fails }
    {
        self.calls = self.calls.saturating_add(1);
        if self.fails.as_slice().contains(&self.calls) {
            self.faults = self.faults.saturating_add(1);
            return Err(Failed);
        }
        let rest = &self.bytes.as_slice()[self.at..];
        let count = hand_over(rest, self.piece, into);
        self.at += count;
        Ok(count)
    }
}
