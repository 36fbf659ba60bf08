//! A long list, kept in parts.
ghost use Rattle.std.specs.Prelude.{◌≡◌, ◌+◌, ◌<◌, ◌≤◌, length, [], insert, slice_get, slice_set, OnOk, OnErr, IfErr, IsTrue, ◌↔◌};
ghost use Rattle.std.specs.Option.{option_copied};
ghost use Rattle.pg_keyed.specs.Keyed.{Ascends, Sought};
ghost use Rattle.pg_chunks.specs.Digits.{digits};
ghost use Rattle.pg_chunks.specs.Parts.{IsRun};

use crate::last::insert_last;
use crate::part::{Chunk, get_at, insert_at, item_at, items_from, run_at, set_at};
use crate::search::seek_in;
use crate::{Keyed, Probe, Steps};
use std::alloc::{AllocFailed, Global};
use std::marker::Model;
use std::sync::ledger::Ledger;

/// A list of items that is kept in parts: all but the last have 64 to 127 items, and know how many stand before them; the
/// last has at most 127. So an item is put in by moving one part and counting up the parts behind it, and at the end by
/// moving nothing.
#[derive(Drop)]
pub struct Parts<T> {
    full: Vec<Chunk<T>>,
    before: usize,
    last: Vec<T>,
}

impl<T> Model for Parts<T> {
    ghost use Rattle.std.specs.Prelude.{List, ◌++◌};
    ghost use Rattle.std.specs.Coded.{coded_list};

    ghost Value = { List T };

    ghost coded = { coded_list T.code };

    ghost use Rattle.pg_chunks.specs.Parts.{joined, IsKept};

    ghost view = { λ p. joined p.full.items ++ p.last.items };

    ghost invariant = { λ p. IsKept p.full.items p.before p.last.items };
}

impl<T> Parts<T> {
    /// The empty list. It takes no memory.
    pub fn new(alloc: Global) -> Parts<T>
        ensures { result ≡ [] }
    {
        Parts {
            full: Vec::new(alloc),
            before: 0,
            last: Vec::new(alloc),
        }
    }

    /// How many items there are.
    pub fn len(&self) -> usize
        ensures { result ≡ length self.now }
    {
        self.before + self.last.len()
    }

    /// Whether there is no item.
    pub fn is_empty(&self) -> bool
        ensures { IsTrue result ↔ (self.now ≡ []) }
    {
        self.len() == 0
    }

    /// Items that stand together in the list from a place on, that is within it: at least the one there.
    pub fn run(&self, at: usize) -> &[T]
        requires { at < length self.now }
        ensures { IsRun at self.now result.now }
    {
        if at < self.before {
            run_at(self.full.as_slice(), at)
        } else {
            items_from(self.last.as_slice(), at - self.before)
        }
    }

    /// The item at a place, from 0; None exactly where there are no more than `at`.
    pub fn get(&self, at: usize) -> Option<&T>
        ensures { option_copied result ≡ slice_get self.now at }
    {
        if at < self.before {
            get_at(self.full.as_slice(), at)
        } else {
            item_at(self.last.as_slice(), at - self.before)
        }
    }
}

/// The most items of a list, beyond which there is no memory.
const MOST_ITEMS: usize = (1 << 62) - 256;

impl<T: Drop> Parts<T> {
    /// Puts an item in at a place, from 0, before those from there on. After want of memory the list is as before, and the
    /// item is handed back.
    pub fn insert(&mut self, at: usize, item: T) -> Result<(), AllocFailed<T>>
        requires { at ≤ length self.old }
        ensures ok { OnOk result (self.new ≡ insert self.old at item) }
        ensures err { OnErr result (self.new ≡ self.old) }
        ensures back { IfErr result (λ failed. failed.value ≡ item) }
    {
        if self.before >= MOST_ITEMS {
            return Err(AllocFailed { value: item });
        }
        if at < self.before {
            match insert_at(&mut self.full, at, item) {
                Ok(()) => {
                    self.before += 1;
                    Ok(())
                }
                Err(failed) => Err(failed),
            }
        } else {
            let within = at - self.before;
            insert_last(
                &mut self.full,
                &mut self.before,
                &mut self.last,
                within,
                item,
            )
        }
    }

    /// Replaces the item at a place, from 0, that is within the list.
    pub fn set(&mut self, at: usize, item: T)
        requires { at < length self.old }
        ensures { self.new ≡ slice_set self.old at item }
    {
        if at < self.before {
            set_at(&mut self.full, at, item);
        } else {
            let within = at - self.before;
            self.last[within] = item;
        }
    }
}

impl<T: Keyed> Parts<T> {
    /// Where the item of a key stands, or, as an `Err`, where it would stand.
    pub fn seek<P: Probe<T>, L: Ledger>(
        &self,
        key: &P,
        steps: &mut Steps<L>,
    ) -> Result<usize, usize>
        requires { Ascends T.key_of T.key_cmp self.now }
        ensures value { Sought T.key_of T.key_cmp (P.sought key.now) self.now result }
        ensures cost { steps.new ≤ steps.old + 1 + digits (length self.now) }
        ensures counts { steps.old ≤ steps.new }
        ensures some { 0 < length self.now → steps.old + 1 ≤ steps.new }
    {
        seek_in(
            self.full.as_slice(),
            self.before,
            self.last.as_slice(),
            key,
            steps,
        )
    }
}
