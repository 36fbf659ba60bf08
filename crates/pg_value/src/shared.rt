//! Values with several owners, in any threads, which contracts see as the values themselves.
ghost use Rattle.std.specs.Prelude.{◌≡◌, length, IfOk};

use crate::List;
use std::alloc::{AllocError, Global};
use std::marker::Model;
use std::sync::Arc;

/// A value that its owners share and none of them changes: 8 bytes for each owner, and once, on the heap, the value and 8 bytes
/// for the count of its owners. Contracts see the value.
#[derive(Drop)]
pub struct Shared<T> {
    inner: Arc<T>,
}

impl<T> Model for Shared<T> {
    ghost use Rattle.std.specs.Arc.{arc_value};

    ghost Value = { T };

    ghost coded = { T.code };

    ghost view = { λ s. arc_value s.inner };
}

impl<T: Drop> Shared<T> {
    /// A value that may be shared from now on. After want of memory it is dropped.
    pub fn new(alloc: Global, value: T) -> Result<Shared<T>, AllocError>
        ensures { IfOk result (λ shared. shared ≡ value) }
    {
        Ok(Shared {
            inner: Arc::new(alloc, value)?,
        })
    }

    /// The value.
    pub fn get(&self) -> &T
        ensures { result.now ≡ self.now }
    {
        &*self.inner
    }

    /// One more owner of the same value. It takes no memory, and is refused only where there are 2^63 of them.
    pub fn share(&self) -> Result<Shared<T>, AllocError>
        ensures { IfOk result (λ shared. shared ≡ self.now) }
    {
        Ok(Shared {
            inner: Arc::try_clone(&self.inner)?,
        })
    }
}

impl<T: Drop> Shared<List<T>> {
    /// The elements of a shared list, in order.
    pub fn as_slice(&self) -> &[T]
        ensures { result.now ≡ self.now }
    {
        self.get().as_slice()
    }

    /// How many elements a shared list has.
    pub fn len(&self) -> usize
        ensures { result ≡ length self.now }
    {
        self.get().len()
    }
}
