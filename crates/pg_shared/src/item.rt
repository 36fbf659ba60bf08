//! What is kept.
ghost use Rattle.std.specs.Prelude.{◌≡◌, IfOk};

use std::alloc::{AllocError, Global};

/// An item of which copies are made where its chunk is made anew.
pub trait Copied: Drop {
    /// An equal item. Only want of memory refuses it.
    fn copied(&self, alloc: Global) -> Result<Self, AllocError>
        ensures { IfOk result (λ copy. copy ≡ self.now) };
}
