//! A list that is being made, chunk by chunk.
ghost use Rattle.std.specs.Prelude.{◌≡◌, ◌<◌, ◌≤◌, ◌+◌, ◌++◌, [], ◌∷◌, IfOk, OnOk, length, min};
ghost use Rattle.pg_shared.specs.Parts.{joined, IsKept};
ghost use Rattle.pg_shared.specs.Made.{IsMade, items_of};

use crate::Copied;
use crate::part::{LEAST, MOST, MOST_BEFORE, Part, new_part};
use std::alloc::{AllocError, Global};
use std::mem;

/// The chunks of a list so far, how many items they have, and the items behind them that are in no chunk yet.
#[derive(Drop)]
pub struct Maker<T> {
    pub parts: Vec<Part<T>>,
    pub before: usize,
    pub pending: Vec<T>,
}

impl<T: Copied> Maker<T> {
    /// No items yet.
    pub fn new(alloc: Global) -> Maker<T>
        ensures made { IsMade result }
        ensures items { items_of result ≡ [] }
    {
        Maker {
            parts: Vec::new(alloc),
            before: 0,
            pending: Vec::new(alloc),
        }
    }

    /// Makes a chunk of the items that are in none, of which there are enough; `rest` are those in none from then on.
    pub fn close(&mut self, alloc: Global, rest: Vec<T>) -> Result<(), AllocError>
        requires made { IsMade self.old }
        requires long { 64 ≤ length self.old.pending.items }
        requires rest { length rest.items < 128 }
        ensures made { OnOk result (IsMade self.new) }
        ensures items { OnOk result (items_of self.new ≡ items_of self.old ++ rest.items) }
        ensures rest { OnOk result (self.new.pending.items ≡ rest.items) }
    {
        if self.before >= MOST_BEFORE {
            return Err(AllocError);
        }
        let items = mem::replace(&mut self.pending, rest);
        let count = items.len();
        let part = new_part(alloc, self.before, items)?;
        self.parts.push(part)?;
        self.before += count;
        Ok(())
    }

    /// Appends an item.
    pub fn push(&mut self, alloc: Global, item: T) -> Result<(), AllocError>
        requires made { IsMade self.old }
        ensures made { OnOk result (IsMade self.new) }
        ensures items { OnOk result (items_of self.new ≡ items_of self.old ++ item ∷ []) }
        ensures rest { OnOk result (min 64 (length self.old.pending.items + 1) ≤ length self.new.pending.items) }
    {
        if self.pending.len() < MOST {
            self.pending.push(item)?;
            return Ok(());
        }
        let mut rest = self.pending.split_off(LEAST)?;
        rest.push(item)?;
        self.close(alloc, rest)
    }

    /// Appends copies of items.
    pub fn push_copies(&mut self, alloc: Global, items: &[T]) -> Result<(), AllocError>
        requires made { IsMade self.old }
        ensures made { OnOk result (IsMade self.new) }
        ensures items { OnOk result (items_of self.new ≡ items_of self.old ++ items.now) }
        ensures rest { OnOk result (min 64 (length self.old.pending.items + length items.now) ≤ length self.new.pending.items) }
    {
        'items: for item in items {
            self.push(alloc, item.copied(alloc)?)?;
        }
        Ok(())
    }
}
