//! One chunk of a list, as its directory has it.
ghost use Rattle.std.specs.Prelude.{◌≡◌, ◌<◌, ◌≤◌, ◌+◌, IfOk, length};
ghost use Rattle.pg_shared.specs.Parts.{joined, Starts, IsPartOf, IsPart};

use crate::Copied;
use pg_value::{List, Shared};
use std::alloc::{AllocError, Global};

/// The least items of a chunk, unless it is the only one.
pub const LEAST: usize = 64;

/// The most items of a chunk.
pub const MOST: usize = 127;

/// The most items of all chunks but the last, beyond which there is no memory.
pub const MOST_BEFORE: usize = (1 << 62) - 256;

/// A chunk: some items that stand together, which lists share; how many stand before them; and a copy of the first, so that a
/// search for a chunk reads none of them.
#[derive(Drop)]
pub struct Part<T> {
    pub first: T,
    pub before: usize,
    pub items: Shared<List<T>>,
}

/// A chunk of new items. Only want of memory refuses it.
pub fn new_part<T: Copied>(
    alloc: Global,
    before: usize,
    items: Vec<T>,
) -> Result<Part<T>, AllocError>
    requires { 0 < length items.items }
    ensures { IfOk result (IsPart before items.items) }
{
    let first = items[0].copied(alloc)?;
    let items = List::from_vec(items).without_room();
    Ok(Part {
        first,
        before,
        items: Shared::new(alloc, items)?,
    })
}

/// The chunk that holds the item at a place.
pub fn part_at<T>(parts: &[Part<T>], at: usize) -> usize
    requires starts { Starts 0 parts.now }
    requires within { at < length (joined parts.now) }
    ensures { IsPartOf result at parts.now }
{
    let mut low = 0;
    let mut high = parts.len();
    'halves: while high - low > 1 {
        let middle = low + (high - low) / 2;
        if parts[middle].before <= at {
            low = middle;
        } else {
            high = middle;
        }
    }
    low
}
