//! Changes put on the items of chunks: chunks that none of them touches are shared, and the others are made anew.
ghost use Rattle.std.specs.Prelude.{List, ◌≡◌, ◌<◌, ◌≤◌, ◌+◌, ◌++◌, [], ◌∷◌, IfOk, OnOk, length, min, drop};
ghost use Rattle.std.specs.List.{cons_option};
ghost use Rattle.pg_keyed.specs.Lists.{Each};
ghost use Rattle.pg_keyed.specs.Keyed.{Ascends, weave};
ghost use Rattle.pg_shared.specs.Parts.{joined, Leads, IsShort};
ghost use Rattle.pg_shared.specs.Made.{IsMade, items_of};
ghost use Rattle.pg_shared.specs.Changes as spec;
ghost use Rattle.pg_shared.specs.Changes.{leading, before_parts};

use crate::maker::Maker;
use crate::part::{LEAST, MOST_BEFORE, Part};
use crate::{Change, Copied};
use pg_chunks::Keyed;
use std::alloc::{AllocError, Global};
use std::cmp::Ordering;

/// Whether an item stands before the key that a change names.
fn is_before<T: Keyed, C: Change<T>>(change: &C, item: &T) -> bool
    ensures { result ≡ spec.is_before T.key_of C.named T.key_cmp change.now item.now }
{
    matches!(change.order(item), Ordering::Less)
}

/// Whether the key that a change names stands before an item.
fn is_named_before<T: Keyed, C: Change<T>>(item: &T, change: &C) -> bool
    ensures { result ≡ spec.is_named_before T.key_of C.named T.key_cmp item.now change.now }
{
    matches!(change.order(item), Ordering::Greater)
}

/// How many items, from the front on, stand before the key that a change names.
fn items_before<T: Keyed, C: Change<T>>(items: &[T], change: &C) -> usize
    ensures { result ≡ leading (spec.is_before T.key_of C.named T.key_cmp change.now) items.now }
{
    for (i, item) in items.iter().enumerate() {
        if !is_before(change, item) {
            return i;
        }
    }
    items.len()
}

/// How many changes, from the front on, name a key that stands before an item.
fn changes_before<T: Keyed, C: Change<T>>(item: &T, changes: &[C]) -> usize
    ensures { result ≡ leading (spec.is_named_before T.key_of C.named T.key_cmp item.now) changes.now }
{
    for (i, change) in changes.iter().enumerate() {
        if !is_named_before(item, change) {
            return i;
        }
    }
    changes.len()
}

/// How many changes stand before the chunks from a number on: all where there are no such chunks.
fn changes_here<T: Keyed, C: Change<T>>(parts: &[Part<T>], next: usize, changes: &[C]) -> usize
    ensures { result ≡ before_parts T.key_of C.named T.key_cmp (drop next parts.now) changes.now }
{
    match parts.get(next) {
        Some(part) => changes_before(&part.first, changes),
        None => changes.len(),
    }
}

/// The items without the first, where that has the key that a change names.
fn past<'s, T: Keyed, C: Change<T>>(items: &'s [T], change: &C) -> &'s [T]
    ensures { result.now ≡ spec.past T.key_of C.named T.key_cmp change.now items.now }
{
    match items {
        [] => items,
        [item, rest @ ..] => match change.order(item) {
            Ordering::Equal => rest,
            _ => items,
        },
    }
}

impl<T: Copied> Maker<T> {
    /// Appends a chunk that is long enough, where all items are in chunks. It is shared.
    fn push_shared(&mut self, alloc: Global, part: &Part<T>) -> Result<(), AllocError>
        requires made { IsMade self.old }
        requires none { self.old.pending.items ≡ [] }
        requires leads { Leads part.now }
        requires short { IsShort part.now }
        requires long { 64 ≤ length part.now.items }
        ensures made { OnOk result (IsMade self.new) }
        ensures items { OnOk result (items_of self.new ≡ items_of self.old ++ part.now.items) }
    {
        if self.before >= MOST_BEFORE {
            return Err(AllocError);
        }
        let count = part.items.len();
        let first = part.first.copied(alloc)?;
        let items = part.items.share()?;
        self.parts.push(Part {
            first,
            before: self.before,
            items,
        })?;
        self.before += count;
        Ok(())
    }

    /// Appends the items of a chunk. It is shared where it is long enough, and where those that are in no chunk yet are enough
    /// for one, or none.
    fn push_part(&mut self, alloc: Global, part: &Part<T>) -> Result<(), AllocError>
        requires made { IsMade self.old }
        requires leads { Leads part.now }
        requires short { IsShort part.now }
        ensures made { OnOk result (IsMade self.new) }
        ensures items { OnOk result (items_of self.new ≡ items_of self.old ++ part.now.items) }
    {
        if part.items.len() < LEAST {
            return self.push_copies(alloc, part.items.as_slice());
        }
        if self.pending.is_empty() {
            return self.push_shared(alloc, part);
        }
        if self.pending.len() < LEAST {
            return self.push_copies(alloc, part.items.as_slice());
        }
        self.close(alloc, Vec::new(alloc))?;
        self.push_shared(alloc, part)
    }

    /// Appends an item, if there is one.
    fn push_some(&mut self, alloc: Global, item: Option<T>) -> Result<(), AllocError>
        requires made { IsMade self.old }
        ensures made { OnOk result (IsMade self.new) }
        ensures items { OnOk result (items_of self.new ≡ items_of self.old ++ cons_option item []) }
    {
        match item {
            Some(item) => self.push(alloc, item),
            None => Ok(()),
        }
    }
}

impl<T: Keyed + Copied> Maker<T> {
    /// Appends copies of the items that stand before the key that a change names, and the item that it gives. From then on
    /// `left` are the items behind that key.
    fn push_change<'s, C: Change<T>>(
        &mut self,
        alloc: Global,
        left: &mut &'s [T],
        change: &C,
    ) -> Result<(), AllocError>
        requires made { IsMade self.old }
        ensures made { OnOk result (IsMade self.new) }
        ensures items { OnOk result ((more : List C) → items_of self.new ++ weave T.key_of C.named C.given T.key_cmp left.new.now more ≡ items_of self.old ++ weave T.key_of C.named C.given T.key_cmp left.old.now (change.now ∷ more)) }
    {
        let count = items_before(*left, change);
        let (front, back) = left.split_at(count);
        self.push_copies(alloc, front)?;
        *left = past(back, change);
        let given = change.item(alloc)?;
        self.push_some(alloc, given)
    }

    /// Appends copies of items, with changes put on them.
    fn push_changed<C: Change<T>>(
        &mut self,
        alloc: Global,
        items: &[T],
        changes: &[C],
    ) -> Result<(), AllocError>
        requires made { IsMade self.old }
        ensures made { OnOk result (IsMade self.new) }
        ensures items { OnOk result (items_of self.new ≡ items_of self.old ++ weave T.key_of C.named C.given T.key_cmp items.now changes.now) }
    {
        let mut left = items;
        'changes: for change in changes {
            self.push_change(alloc, &mut left, change)?;
        }
        self.push_copies(alloc, left)
    }

    /// Appends the items of a chunk, with changes put on them.
    fn push_under<C: Change<T>>(
        &mut self,
        alloc: Global,
        part: &Part<T>,
        changes: &[C],
    ) -> Result<(), AllocError>
        requires made { IsMade self.old }
        requires leads { Leads part.now }
        requires short { IsShort part.now }
        ensures made { OnOk result (IsMade self.new) }
        ensures items { OnOk result (items_of self.new ≡ items_of self.old ++ weave T.key_of C.named C.given T.key_cmp part.now.items changes.now) }
    {
        if changes.is_empty() {
            return self.push_part(alloc, part);
        }
        self.push_changed(alloc, part.items.as_slice(), changes)
    }

    /// Appends the items of chunks, with changes put on them.
    pub fn push_merged<C: Change<T>>(
        &mut self,
        alloc: Global,
        parts: &[Part<T>],
        changes: &[C],
    ) -> Result<(), AllocError>
        requires made { IsMade self.old }
        requires leads { Each Leads parts.now }
        requires short { Each IsShort parts.now }
        requires ascends { Ascends T.key_of T.key_cmp (joined parts.now) }
        requires in_order { Ascends C.named T.key_cmp changes.now }
        ensures made { OnOk result (IsMade self.new) }
        ensures items { OnOk result (items_of self.new ≡ items_of self.old ++ weave T.key_of C.named C.given T.key_cmp (joined parts.now) changes.now) }
    {
        let mut left = changes;
        'parts: for i in 0..parts.len() {
            let (here, later) = left.split_at(changes_here(parts, i + 1, left));
            self.push_under(alloc, &parts[i], here)?;
            left = later;
        }
        self.push_changed(alloc, &[], left)
    }
}
