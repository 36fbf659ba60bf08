//! Writes: what becomes of rows, the writes of a transaction, and the commits of a log.
ghost use Rattle.std.specs.Prelude.{◌≡◌, ◌<◌, [], length, slice_get, slice_index_or, Err};
ghost use Rattle.std.specs.Option.{option_copied};
ghost use Rattle.pg_value.specs.Writes.{IsInOrder, Put, Sought, named};

use crate::{Key, Row, TableNo};
use pg_chunks::Chunks;
use std::alloc::Global;
use std::marker::Model;

/// What becomes of the row of a table with a key: the row that it then is, or none where it is gone.
#[derive(Drop)]
pub struct Write {
    pub table: TableNo,
    pub key: Key,
    pub row: Option<Row>,
}

/// A row that a table holds, beside its key.
#[derive(Drop)]
pub struct Stored {
    pub table: TableNo,
    pub key: Key,
    pub row: Row,
}

/// Why a write was not put. Either way it is handed back, and the writes are as before.
#[derive(Drop)]
pub enum PutFault {
    /// The key is new, and there are as many writes as the limit allows.
    Full(Write),
    /// Memory was wanted.
    Memory(Write),
}

/// The writes of a transaction or a commit, in order of table and key, no place twice, with a limit on their number.
#[derive(Drop)]
pub struct Writes {
    list: Chunks<Write>,
    limit: u64,
}

impl Model for Writes {
    ghost use Rattle.pg_value.specs.Writes.{Limited};

    ghost Value = { Limited };

    ghost view = { λ w. record { list = w.list; limit = w.limit } };
}

/// One commit of the log: the section that made it, by its number, the version that it had read, and what it wrote.
#[derive(Drop)]
pub struct Commit {
    pub session: u32,
    pub from: u64,
    pub writes: Writes,
}

impl Writes {
    /// No writes, of which there may be at most `limit`. It takes no memory.
    pub fn new(alloc: Global, limit: u64) -> Writes
        ensures list { result.list ≡ [] }
        ensures limit { result.limit ≡ limit }
    {
        Writes {
            list: Chunks::new(alloc),
            limit,
        }
    }

    /// How many writes there are, which stand in order of table and key.
    pub fn len(&self) -> u64
        ensures length { result ≡ length self.now.list }
        ensures in_order { IsInOrder self.now.list }
    {
        self.list.len() as u64
    }

    /// The write at a place in that order, from 0; None exactly where there are no more than `at`.
    pub fn get(&self, at: u64) -> Option<&Write>
        ensures { option_copied result ≡ slice_get self.now.list at }
    {
        self.list.get(at as usize)
    }

    /// The write at a place in that order, from 0, that is within the list.
    pub fn at(&self, at: u64) -> &Write
        requires { at < length self.now.list }
        ensures { result.now ≡ slice_index_or self.now.list at result.now }
    {
        self.list.at(at as usize)
    }

    /// Where the write of the same table and key stands, or, as an `Err`, where it would stand. A place behind all others is
    /// found at once, and any other by halving.
    pub fn place_of(&self, write: &Write) -> Result<usize, usize>
        ensures value { Sought (named write.now) self.now.list result }
        ensures in_order { IsInOrder self.now.list }
    {
        self.list.place_of(write)
    }

    /// Adds a write of a new place, by where it would stand. Full comes exactly where there are as many writes as the limit
    /// allows. A refused write is handed back, and the writes are as before.
    pub fn add(&mut self, at: usize, write: Write) -> Result<(), PutFault>
        requires { Sought (named write) self.old.list (Err at) }
        ensures { Put self.old self.new write result }
    {
        if self.list.len() as u64 >= self.limit {
            return Err(PutFault::Full(write));
        }
        match self.list.add(at, write) {
            Ok(()) => Ok(()),
            Err(failed) => Err(PutFault::Memory(failed.value)),
        }
    }

    /// Replaces the write of the same table and key, or adds this one. Full comes exactly where the place is new and there are
    /// as many writes as the limit allows. A refused write is handed back, and the writes are as before.
    pub fn put(&mut self, write: Write) -> Result<(), PutFault>
        ensures { Put self.old self.new write result }
    {
        match self.list.place_of(&write) {
            Ok(at) => {
                self.list.replace(at, write);
                Ok(())
            }
            Err(at) => self.add(at, write),
        }
    }
}
