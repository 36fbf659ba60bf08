//! The end of a list that is being made.
ghost use Rattle.std.specs.Prelude.{◌≡◌, ◌<◌, ◌≤◌, ◌+◌, ◌++◌, [], ◌∷◌, IfOk, OnOk, length, min};
ghost use Rattle.pg_shared.specs.Parts.{joined, IsKept};
ghost use Rattle.pg_shared.specs.Made.{IsMade, items_of};

use crate::Copied;
use crate::maker::Maker;
use crate::part::{LEAST, Part, new_part};
use std::alloc::{AllocError, Global};

impl<T: Copied> Maker<T> {
    /// Appends items.
    pub fn push_items(&mut self, alloc: Global, items: Vec<T>) -> Result<(), AllocError>
        requires made { IsMade self.old }
        ensures made { OnOk result (IsMade self.new) }
        ensures items { OnOk result (items_of self.new ≡ items_of self.old ++ items.items) }
        ensures rest { OnOk result (min 64 (length self.old.pending.items + length items.items) ≤ length self.new.pending.items) }
    {
        'items: for item in items {
            self.push(alloc, item)?;
        }
        Ok(())
    }

    /// Joins the items that are in no chunk with those of the last chunk.
    fn reopen(self, alloc: Global) -> Result<Maker<T>, AllocError>
        requires made { IsMade self }
        requires some { 0 < length self.pending.items }
        ensures made { IfOk result IsMade }
        ensures items { IfOk result (λ opened. items_of opened ≡ items_of self) }
        ensures some { IfOk result (λ opened. 0 < length opened.pending.items) }
        ensures rest { IfOk result (λ opened. 0 < length opened.parts.items → 64 ≤ length opened.pending.items) }
    {
        let Maker {
            mut parts,
            before,
            pending,
        } = self;
        let Some(last) = parts.pop() else {
            return Ok(Maker {
                parts,
                before,
                pending,
            });
        };
        let mut opened = Maker {
            parts,
            before: last.before,
            pending: Vec::new(alloc),
        };
        opened.push_copies(alloc, last.items.as_slice())?;
        opened.push_items(alloc, pending)?;
        Ok(opened)
    }

    /// The chunks of a list whose items are all there, where those that are in no chunk yet are enough for one, or all.
    fn closed(self, alloc: Global) -> Result<Vec<Part<T>>, AllocError>
        requires made { IsMade self }
        requires some { 0 < length self.pending.items }
        requires long { 0 < length self.parts.items → 64 ≤ length self.pending.items }
        ensures kept { IfOk result (λ parts. IsKept parts.items) }
        ensures items { IfOk result (λ parts. joined parts.items ≡ items_of self) }
    {
        let Maker {
            mut parts,
            before,
            pending,
        } = self;
        let part = new_part(alloc, before, pending)?;
        parts.push(part)?;
        Ok(parts)
    }

    /// The chunks of a list whose items are all there.
    pub fn finish(self, alloc: Global) -> Result<Vec<Part<T>>, AllocError>
        requires made { IsMade self }
        ensures kept { IfOk result (λ parts. IsKept parts.items) }
        ensures items { IfOk result (λ parts. joined parts.items ≡ items_of self) }
    {
        if self.pending.is_empty() {
            return Ok(self.into_parts());
        }
        if self.pending.len() < LEAST {
            return self.reopen(alloc)?.closed(alloc);
        }
        self.closed(alloc)
    }

    /// The chunks, where all items are in one.
    fn into_parts(self) -> Vec<Part<T>>
        requires made { IsMade self }
        requires none { self.pending.items ≡ [] }
        ensures kept { IsKept result.items }
        ensures items { joined result.items ≡ items_of self }
    {
        let Maker { parts, .. } = self;
        parts
    }
}
