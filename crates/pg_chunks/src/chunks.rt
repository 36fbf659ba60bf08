//! Items in order of their keys, kept in chunks.
ghost use Rattle.std.specs.Prelude.{ℕ, ◌≡◌, ◌+◌, ◌-◌, ◌<◌, ◌≤◌, ◌∷◌, [], length, get_or, slice_get, IsTrue, ◌↔◌, OnOk, OnErr, IfErr, Ok, Err};
ghost use Rattle.std.specs.Option.{option_copied};
ghost use Rattle.std.specs.declared.cmp.Ordering.TheVariants.{Less};
ghost use Rattle.pg_keyed.specs.Keyed.{Ascends, Sought, get, merge};
ghost use Rattle.pg_chunks.specs.Digits.{digits};
ghost use Rattle.pg_chunks.specs.Parts.{IsRun};

use crate::{Keyed, Parts, Probe, Steps};
use std::alloc::{AllocFailed, Global};
use std::cmp::Ordering;
use std::marker::{Brand, Model};
use std::sync::ledger::{Blank, Ledger};

/// Items in order of their keys, no key twice.
#[derive(Drop)]
pub struct Chunks<T: Keyed> {
    parts: Parts<T>,
}

impl<T: Keyed> Model for Chunks<T> {
    ghost use Rattle.std.specs.Prelude.{List};
    ghost use Rattle.std.specs.Coded.{coded_list};
    ghost use Rattle.pg_keyed.specs.Keyed.{Ascends};

    ghost Value = { List T };

    ghost coded = { coded_list T.code };

    ghost view = { λ c. c.parts };

    ghost invariant = { λ c. Ascends T.key_of T.key_cmp c.parts };
}

/// Whether all items stand before the key.
fn are_before<T: Keyed, P: Probe<T>>(parts: &Parts<T>, key: &P) -> bool
    ensures { IsTrue result → (d : T) → 0 < length parts.now → T.key_cmp (T.key_of (get_or parts.now (length parts.now - 1) d)) (P.sought key.now) ≡ Less }
{
    let len = parts.len();
    if len == 0 {
        return true;
    }
    match parts.get(len - 1) {
        Some(item) => matches!(key.order(item), Ordering::Less),
        None => false,
    }
}

/// The same as `Parts::seek`, which counts, with a counter of its own.
fn uncounted<T: Keyed, P: Probe<T>, L: Ledger>(
    blank: Blank,
    parts: &Parts<T>,
    key: &P,
) -> Result<usize, usize>
    requires name { blank.name ≡ L.name }
    requires parts { blank.parts ≡ L.parts }
    requires one { blank.parts ≡ 1 }
    requires ascends { Ascends T.key_of T.key_cmp parts.now }
    ensures { Sought T.key_of T.key_cmp (P.sought key.now) parts.now result }
{
    let mut steps = Steps::<L>::start(blank);
    parts.seek(key, &mut steps)
}

impl<T: Keyed> Chunks<T> {
    /// No items. It takes no memory.
    pub fn new(alloc: Global) -> Chunks<T>
        ensures { result ≡ [] }
    {
        Chunks {
            parts: Parts::new(alloc),
        }
    }

    /// How many items there are.
    pub fn len(&self) -> usize
        ensures length { result ≡ length self.now }
        ensures in_order { Ascends T.key_of T.key_cmp self.now }
    {
        self.parts.len()
    }

    /// The item at a place in that order, from 0; None exactly where there are no more than `at`.
    pub fn get(&self, at: usize) -> Option<&T>
        ensures { option_copied result ≡ slice_get self.now at }
    {
        self.parts.get(at)
    }

    /// Whether there is no item.
    pub fn is_empty(&self) -> bool
        ensures { IsTrue result ↔ (self.now ≡ []) }
    {
        self.parts.is_empty()
    }

    /// The item at a place in that order, from 0, that is within the list.
    pub fn at(&self, at: usize) -> &T
        requires { at < length self.now }
        ensures { result.now ≡ get_or self.now at result.now }
    {
        match self.parts.get(at) {
            Some(item) => item,
            None => unreachable!(),
        }
    }

    /// Items that stand together from a place on, that is within the list: at least the one there. So a walk over all items
    /// takes a step for each chunk.
    pub fn run(&self, at: usize) -> &[T]
        requires { at < length self.now }
        ensures { IsRun at self.now result.now }
    {
        self.parts.run(at)
    }

    /// The item of a key, if there is one.
    pub fn find<P: Probe<T>>(&self, key: &P) -> Option<&T>
        ensures { option_copied result ≡ get T.key_of T.key_cmp (P.sought key.now) self.now }
    {
        match self.place_of(key) {
            Ok(at) => self.get(at),
            Err(_) => None,
        }
    }

    /// Where the item of a key stands, or, as an `Err`, where it would stand. It reads at most one item more than the number
    /// of items has binary digits, and at least one where there is any.
    pub fn seek<P: Probe<T>, L: Ledger>(
        &self,
        key: &P,
        steps: &mut Steps<L>,
    ) -> Result<usize, usize>
        ensures value { Sought T.key_of T.key_cmp (P.sought key.now) self.now result }
        ensures cost { steps.new ≤ steps.old + 1 + digits (length self.now) }
        ensures counts { steps.old ≤ steps.new }
        ensures some { 0 < length self.now → steps.old + 1 ≤ steps.new }
    {
        self.parts.seek(key, steps)
    }

    /// The same, not counted; a key behind all others is found at once.
    pub fn place_of<P: Probe<T>>(&self, key: &P) -> Result<usize, usize>
        ensures value { Sought T.key_of T.key_cmp (P.sought key.now) self.now result }
        ensures in_order { Ascends T.key_of T.key_cmp self.now }
    {
        if are_before(&self.parts, key) {
            return Err(self.parts.len());
        }
        uncounted::<T, P, Brand>(Blank::new(1), &self.parts, key)
    }

    /// Replaces the item of the same key, by the place at which it was found.
    pub fn replace(&mut self, at: usize, item: T)
        requires { Sought T.key_of T.key_cmp (T.key_of item) self.old (Ok at) }
        ensures { self.new ≡ merge T.key_of T.key_cmp self.old (item ∷ []) }
    {
        self.parts.set(at, item);
    }

    /// Adds an item of a new key, by the place at which it would stand. After want of memory the items are as before, and the
    /// item is handed back.
    pub fn add(&mut self, at: usize, item: T) -> Result<(), AllocFailed<T>>
        requires { Sought T.key_of T.key_cmp (T.key_of item) self.old (Err at) }
        ensures ok { OnOk result (self.new ≡ merge T.key_of T.key_cmp self.old (item ∷ [])) }
        ensures err { OnErr result (self.new ≡ self.old) }
        ensures back { IfErr result (λ failed. failed.value ≡ item) }
    {
        self.parts.insert(at, item)
    }

    /// Replaces the item of the same key, or adds this one. After want of memory the items are as before, and the item is
    /// handed back.
    pub fn put(&mut self, item: T) -> Result<(), AllocFailed<T>>
        ensures ok { OnOk result (self.new ≡ merge T.key_of T.key_cmp self.old (item ∷ [])) }
        ensures err { OnErr result (self.new ≡ self.old) }
        ensures back { IfErr result (λ failed. failed.value ≡ item) }
    {
        match self.place_of(&item) {
            Ok(at) => {
                self.replace(at, item);
                Ok(())
            }
            Err(at) => self.add(at, item),
        }
    }
}
