ghost use Rattle.std.specs.Prelude.{◌≡◌, ◌<◌, ◌≤◌, ◌-◌, ◌↔◌, ◌⊎◌, ◌++◌, [], length, take, min, IfOk, OnErr, IsErr, Contains};
ghost use Rattle.std.specs.declared.option.Option.TheVariants.{Some};
ghost use Rattle.std.specs.Io.KnownBytes.{WriteAppends};
ghost use Rattle.pg_outside.specs.Causes.{HasCause, TakesSome, raised};

use crate::{Failed, Sink};
use pg_value::List;
use std::alloc::{AllocError, Global};
use std::marker::Model;

/// Memory for some bytes, written in pieces. It tells the bytes that it holds. Its calls are counted from 1, the count
/// staying at 2^64 - 1, and exactly those whose numbers stand in a list fail, and those that find no room.
#[derive(Drop)]
pub struct MemSink {
    bytes: Vec<u8>,
    room: usize,
    piece: usize,
    fails: List<u64>,
    calls: u64,
    faults: u64,
}

impl Model for MemSink {
    ghost use Rattle.std.specs.Prelude.{◌<◌, ◌≤◌, length, vec_capacity};
    ghost use Rattle.pg_outside.specs.Memory.{SinkState};

    ghost Value = { SinkState };

    ghost view = { λ m. record { held = m.bytes.items; room = m.room; piece = m.piece; fails = m.fails; calls = m.calls; faults = m.faults } };

    ghost invariant = { λ m. (length m.bytes.items ≤ m.room) × (m.room ≤ vec_capacity m.bytes) × (0 < m.piece) };
}

impl MemSink {
    /// An empty sink for at most `room` bytes, of which a call takes at most `piece`, and whose calls with the numbers
    /// `fails` fail. It takes memory for all of `room` here and none later, so that only this call may want memory.
    pub fn new(
        alloc: Global,
        room: usize,
        piece: usize,
        fails: List<u64>,
    ) -> Result<MemSink, AllocError>
        requires { 0 < piece }
        ensures { IfOk result (λ s. s ≡ record { held = []; room = room; piece = piece; fails = fails; calls = 0; faults = 0 }) }
    {
        Ok(MemSink {
            bytes: Vec::with_capacity(alloc, room)?,
            room,
            piece,
            fails,
            calls: 0,
            faults: 0,
        })
    }

    /// The bytes that it holds.
    pub fn bytes(&self) -> &[u8]
        ensures { result.now ≡ self.now.held }
    {
        self.bytes.as_slice()
    }
}

impl Sink for MemSink {
    ghost held = { λ m. Some m.held };

    ghost faults = { λ m. m.faults };

    /// Fails exactly where the call's number stands in `fails` or no room is left, which leaves the bytes as they are. Else
    /// it takes as many bytes as the piece, what it is given and the room left allow.
    fn write(&mut self, piece: &[u8]) -> Result<usize, Failed>
        requires { 0 < length piece.now }
        ensures bound { TakesSome result piece.now }
        ensures bytes { WriteAppends (Some self.old.held) (Some self.new.held) result piece.now }
        ensures cause { HasCause self.old.faults self.new.faults result }

        // When it fails, and how much it takes.
        ensures number { self.new.calls ≡ raised self.old.calls }
        ensures fails { IsErr result ↔ (Contains self.old.fails self.new.calls ⊎ (self.old.room ≤ length self.old.held)) }
        ensures count { IfOk result (λ n. n ≡ min self.old.piece (min (length piece.now) (self.old.room - length self.old.held))) }

        // What else changes.
        ensures err { OnErr result (self.new.faults ≡ raised self.old.faults) }
        ensures room { self.new.room ≡ self.old.room }
        ensures piece { self.new.piece ≡ self.old.piece }
        ensures list { self.new.fails ≡ self.old.fails }
    {
        self.calls = self.calls.saturating_add(1);
        let room = self.room - self.bytes.len();
        if room == 0 || self.fails.as_slice().contains(&self.calls) {
            self.faults = self.faults.saturating_add(1);
            return Err(Failed);
        }
        let count = self.piece.min(piece.len()).min(room);
        self.bytes.extend_from_slice(&piece[..count]).unwrap();
        Ok(count)
    }
}
