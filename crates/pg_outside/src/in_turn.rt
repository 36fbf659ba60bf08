//! Tasks one after another.
ghost use Rattle.std.specs.Prelude.{◌≡◌};
ghost use Rattle.std.specs.Option.{option_copied};
ghost use Rattle.std.specs.declared.option.Option.TheVariants.{None};

use crate::Spawner;
use std::marker::PhantomData;
use std::thread::Threads;

/// Runs the front task and then the back one, and a list of tasks in its order, all in the caller's thread. `R` is a type of
/// handles for threads, of which it has none.
#[derive(Drop)]
pub struct InTurn<R> {
    handles: PhantomData<R>,
}

impl<R> InTurn<R> {
    /// A spawner that starts no thread.
    pub fn new() -> InTurn<R> {
        InTurn {
            handles: PhantomData,
        }
    }
}

impl<R: Threads> Spawner for InTurn<R> {
    type Handle = R;

    /// It has none.
    fn handle(&self) -> Option<&R>
        ensures { option_copied result ≡ None }
    {
        None
    }
}
