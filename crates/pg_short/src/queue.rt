//! The steps that wait, least hops first.
ghost use Rattle.std.specs.Prelude.{ℕ, ◌≡◌, ◌≤◌, ◌++◌, List, map, length, Contains, IfOk, OnOk, IfSome, IfNone, []};
ghost use Rattle.std.specs.BinaryHeap.{heap_items, IsHeap};
ghost use Rattle.std.specs.Ordering.{nat_cmp, ordering_then};
ghost use Rattle.pg_short.specs.Steps.{step_view};
ghost use Rattle.pg_short.specs.Searches.{IsMore, IsOut};

use crate::steps::Step;
use std::alloc::{AllocError, Global};
use std::cmp::Reverse;
use std::collections::BinaryHeap;
use std::marker::Model;

/// The numbers of the steps that wait, each behind the count of hops that lead to where its step does. Contracts see them as
/// a list, in some order.
#[derive(Drop)]
pub struct Queue {
    heap: BinaryHeap<Reverse<(usize, usize)>>,
}

impl Model for Queue {
    ghost use Rattle.std.specs.Prelude.{ℕ, List, map};
    ghost use Rattle.std.specs.BinaryHeap.{heap_items, IsHeap};
    ghost use Rattle.std.specs.Ordering.{nat_cmp, ordering_then};

    ghost Value = { List (ℕ × ℕ) };

    ghost view = { λ q. map (λ r. r.0) (heap_items q.heap) };

    ghost invariant = { λ q. IsHeap (λ x y. ordering_then (nat_cmp y.0.0 x.0.0) (nat_cmp y.0.1 x.0.1)) (heap_items q.heap) };
}

impl Queue {
    /// Nothing waits. It takes no memory.
    pub fn new(alloc: Global) -> Queue
        ensures { result ≡ [] }
    {
        Queue {
            heap: BinaryHeap::new(alloc),
        }
    }

    /// Adds the number of a step behind its count of hops. After want of memory the same wait as before.
    pub fn push(&mut self, long: usize, number: usize) -> Result<(), AllocError>
        ensures { OnOk result (IsOut (long, number) self.new self.old) }
    {
        self.heap.push(Reverse((long, number)))?;
        Ok(())
    }

    /// Takes out one of the least counts, with its number; None exactly where nothing waits.
    pub fn pop(&mut self) -> Option<(usize, usize)>
        ensures out { IfSome result (λ e. IsOut e self.old self.new) }
        ensures least { IfSome result (λ e. (x : ℕ × ℕ) → Contains self.old x → e.0 ≤ x.0) }
        ensures none { IfNone result (self.old ≡ []) }
    {
        match self.heap.pop() {
            Some(Reverse(least)) => Some(least),
            None => None,
        }
    }
}
