//! Items by numbers, each once.
ghost use Rattle.std.specs.Prelude.{◌≡◌, ◌≤◌, ◌<◌, ◌↔◌, ◌++◌, [], length, slice_get, true, false, Some, IsSome, IfOk, IfSome, IfNone, OnOk, OnErr};
ghost use Rattle.std.specs.List.{list_any};
ghost use Rattle.std.specs.Option.{option_copied};
ghost use Rattle.indexmap.specs.IndexSet.{insert_key};

use indexmap::IndexSet;
use std::alloc::{AllocError, Global};
use std::hash::Hash;
use std::marker::Model;

/// How many items are gone through. As many are compared sooner than one is hashed.
const FEW: usize = 8;

/// Items, each once, in the order in which they were put. The first few are found by going through them, and the others by
/// their hashes.
#[derive(Drop)]
pub struct Numbering<K: Eq + Hash> {
    few: Vec<K>,
    many: IndexSet<K>,
}

impl<K: Eq + Hash> Model for Numbering<K> {
    ghost use Rattle.std.specs.Prelude.{List, ◌++◌, ◌≤◌, length};
    ghost use Rattle.std.specs.Coded.{coded_list};

    ghost Value = { List K };

    ghost coded = { coded_list K.code };

    ghost view = { λ n. n.few.items ++ n.many.keys };

    ghost invariant = { λ n. length n.few.items ≤ 8 };
}

/// A place of an equal item, None exactly where there is none.
fn place_of<K: Eq>(items: &[K], item: &K) -> Option<usize>
    ensures none { IfNone result (list_any (K.eq item.now) items.now ≡ false) }
    ensures some { IfSome result (λ n. (k : K) × (slice_get items.now n ≡ Some k) × (K.eq item.now k ≡ true)) }
{
    for (at, own) in items.iter().enumerate() {
        if item == own {
            return Some(at);
        }
    }
    None
}

/// The number of an item that is not among the few, and stands among the many or behind all from now on.
fn put<K: Eq + Hash + Drop>(
    few: &mut Vec<K>,
    many: &mut IndexSet<K>,
    item: K,
) -> Result<usize, AllocError>
    requires new { list_any (K.eq item) few.old.items ≡ false }
    requires few { length few.old.items ≤ 8 }
    ensures few { length few.new.items ≤ 8 }
    ensures keys { OnOk result (few.new.items ++ many.new.keys ≡ insert_key K.eq (few.old.items ++ many.old.keys) item) }
    ensures stored { IfOk result (λ n. (k : K) × (slice_get (few.new.items ++ many.new.keys) n ≡ Some k) × (K.eq item k ≡ true)) }
    ensures err { OnErr result (few.new.items ++ many.new.keys ≡ few.old.items ++ many.old.keys) }
{
    let count = few.len();
    let rest = many.len();
    if rest == 0 && count < FEW {
        few.push(item)?;
        return Ok(count);
    }
    let (place, _) = many.insert_full(item)?;
    Ok(count + place)
}

impl<K: Eq + Hash + Drop> Numbering<K> {
    /// No items. It takes no memory.
    pub fn new(alloc: Global) -> Numbering<K>
        ensures { result ≡ [] }
    {
        Numbering {
            few: Vec::new(alloc),
            many: IndexSet::new(alloc),
        }
    }

    /// How many items there are.
    pub fn len(&self) -> usize
        ensures { result ≡ length self.now }
    {
        self.few.len() + self.many.len()
    }

    /// The item of a number, from 0; None exactly where there are no more.
    pub fn get(&self, number: usize) -> Option<&K>
        ensures key { option_copied result ≡ slice_get self.now number }
        ensures found { IsSome result ↔ (number < length self.now) }
    {
        match self.few.get(number) {
            Some(item) => Some(item),
            None => self.many.get_index(number - self.few.len()),
        }
    }

    /// The number of an item, which is among them from now on. After want of memory they are as before.
    pub fn insert(&mut self, item: K) -> Result<usize, AllocError>
        ensures keys { OnOk result (self.new ≡ insert_key K.eq self.old item) }
        ensures stored { IfOk result (λ n. (k : K) × (slice_get self.new n ≡ Some k) × (K.eq item k ≡ true)) }
        ensures err { OnErr result (self.new ≡ self.old) }
    {
        match place_of(self.few.as_slice(), &item) {
            Some(number) => Ok(number),
            None => put(&mut self.few, &mut self.many, item),
        }
    }
}
