//! Items in order of their keys, in chunks that several lists share.
ghost use Rattle.std.specs.Prelude.{◌≡◌, ◌+◌, ◌<◌, ◌≤◌, length, get_or, slice_get, IfOk};
ghost use Rattle.std.specs.Option.{option_copied};
ghost use Rattle.pg_keyed.specs.Keyed.{Ascends, Sought, get, put};
ghost use Rattle.pg_chunks.specs.Digits.{digits};
ghost use Rattle.pg_chunks.specs.Parts.{IsRun};

use crate::maker::Maker;
use crate::part::{Part, part_at};
use crate::search::seek;
use crate::{Change, Copied};
use pg_chunks::{Keyed, Probe, Steps};
use pg_value::{List, Shared};
use std::alloc::{AllocError, Global};
use std::marker::Model;
use std::sync::ledger::Ledger;

/// Items in order of their keys, no key twice, in chunks of 64 to 127 items; a list of fewer is one chunk. None of them
/// changes, and a list shares its chunks with its copies.
#[derive(Drop)]
pub struct SharedChunks<T: Keyed> {
    parts: Shared<List<Part<T>>>,
}

impl<T: Keyed> Model for SharedChunks<T> {
    ghost use Rattle.std.specs.Prelude.{List};
    ghost use Rattle.std.specs.Coded.{coded_list};
    ghost use Rattle.pg_keyed.specs.Keyed.{Ascends};
    ghost use Rattle.pg_shared.specs.Parts.{joined, IsKept};

    ghost Value = { List T };

    ghost coded = { coded_list T.code };

    ghost view = { λ c. joined c.parts };

    ghost invariant = { λ c. IsKept c.parts × Ascends T.key_of T.key_cmp (joined c.parts) };
}

impl<T: Keyed> SharedChunks<T> {
    /// How many items there are.
    pub fn len(&self) -> usize
        ensures length { result ≡ length self.now }
        ensures in_order { Ascends T.key_of T.key_cmp self.now }
    {
        let parts = self.parts.as_slice();
        let count = parts.len();
        if count == 0 {
            return 0;
        }
        let last = &parts[count - 1];
        last.before + last.items.len()
    }

    /// Items that stand together from a place on, that is within the list: at least the one there. So a walk over all items
    /// takes a step for each chunk.
    pub fn run(&self, at: usize) -> &[T]
        requires { at < length self.now }
        ensures { IsRun at self.now result.now }
    {
        let parts = self.parts.as_slice();
        let part = &parts[part_at(parts, at)];
        let (_, run) = part.items.as_slice().split_at(at - part.before);
        run
    }

    /// The item at a place in that order, from 0, that is within the list.
    pub fn at(&self, at: usize) -> &T
        requires { at < length self.now }
        ensures { result.now ≡ get_or self.now at result.now }
    {
        &self.run(at)[0]
    }

    /// The item at a place in that order, from 0; None exactly where there are no more than `at`.
    pub fn get(&self, at: usize) -> Option<&T>
        ensures { option_copied result ≡ slice_get self.now at }
    {
        if at < self.len() {
            Some(self.at(at))
        } else {
            None
        }
    }

    /// The item of a key, if there is one. It reads no more than `seek` does, and the item.
    pub fn find<P: Probe<T>, L: Ledger>(&self, key: &P, steps: &mut Steps<L>) -> Option<&T>
        ensures value { option_copied result ≡ get T.key_of T.key_cmp (P.sought key.now) self.now }
        ensures cost { steps.new ≤ steps.old + 1 + digits (length self.now) }
        ensures counts { steps.old ≤ steps.new }
    {
        match self.seek(key, steps) {
            Ok(at) => Some(self.at(at)),
            Err(_) => None,
        }
    }

    /// Where the item of a key stands, or, as an `Err`, where it would stand. It reads at most one item more than the number
    /// of items has binary digits, and at least one where there is any.
    pub fn seek<P: Probe<T>, L: Ledger>(
        &self,
        key: &P,
        steps: &mut Steps<L>,
    ) -> Result<usize, usize>
        ensures value { Sought T.key_of T.key_cmp (P.sought key.now) self.now result }
        ensures cost { steps.new ≤ steps.old + 1 + digits (length self.now) }
        ensures counts { steps.old ≤ steps.new }
        ensures some { 0 < length self.now → steps.old + 1 ≤ steps.new }
    {
        seek(self.parts.as_slice(), key, steps)
    }

    /// The same list, which shares all chunks. It takes no memory, and is refused only where it has 2^63 copies.
    pub fn share(&self) -> Result<SharedChunks<T>, AllocError>
        ensures { IfOk result (λ same. same ≡ self.now) }
    {
        Ok(SharedChunks {
            parts: self.parts.share()?,
        })
    }
}

impl<T: Keyed + Copied> SharedChunks<T> {
    /// The list of items that are in order of their keys, no key twice. Only want of memory refuses it.
    pub fn build(alloc: Global, items: Vec<T>) -> Result<SharedChunks<T>, AllocError>
        requires { Ascends T.key_of T.key_cmp items.items }
        ensures { IfOk result (λ built. built ≡ items.items) }
    {
        let mut made = Maker::new(alloc);
        made.push_items(alloc, items)?;
        let parts = made.finish(alloc)?;
        Ok(SharedChunks {
            parts: Shared::new(alloc, List::from_vec(parts))?,
        })
    }

    /// The list with changes put on it, that are in order of the keys that they name, no key twice. Chunks that no change
    /// touches are shared, all but those behind a touched chunk that got too small. This list stays. Only want of memory
    /// refuses it.
    pub fn merged<C: Change<T>>(
        &self,
        alloc: Global,
        changes: &[C],
    ) -> Result<SharedChunks<T>, AllocError>
        requires { Ascends C.named T.key_cmp changes.now }
        ensures { IfOk result (λ merged. merged ≡ put T.key_of C.named C.given T.key_cmp self.now changes.now) }
    {
        if changes.is_empty() {
            return self.share();
        }
        let mut made = Maker::new(alloc);
        made.push_merged(alloc, self.parts.as_slice(), changes)?;
        let parts = made.finish(alloc)?;
        Ok(SharedChunks {
            parts: Shared::new(alloc, List::from_vec(parts))?,
        })
    }
}
