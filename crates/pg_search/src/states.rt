//! The states that a search keeps, each once, in the order in which they are found.
ghost use Rattle.std.specs.Prelude.{◌≡◌, [], length, slice_get, OnOk, OnErr};
ghost use Rattle.pg_meaning.specs.Bindings.{Distinct};
ghost use Rattle.pg_search.specs.Puts.{IsPut};

use crate::numbering::Numbering;
use std::alloc::{AllocError, Global};
use std::marker::Model;

/// A state by numbers: its stage, how many of the stage's rounds are done, and the numbers of its walk, of what the parts
/// that stand once have named, and of what the quantified parts have.
#[derive(Clone, Copy, PartialEq, Eq, Hash)]
pub struct Kept {
    pub stage: usize,
    pub done: u32,
    pub walk: usize,
    pub singles: usize,
    pub groups: usize,
}

/// States, each once, in the order in which they were put.
#[derive(Drop)]
pub struct States {
    kept: Numbering<Kept>,
}

impl Model for States {
    ghost use Rattle.std.specs.Prelude.{List};
    ghost use Rattle.pg_meaning.specs.Bindings.{Distinct};
    ghost use Rattle.pg_search.specs.declared.states.Kept.{Kept};

    ghost Value = { List Kept };

    ghost view = { λ s. s.kept };

    ghost invariant = { λ s. Distinct s.kept };
}

impl States {
    /// No states. It takes no memory.
    pub fn new(alloc: Global) -> States
        ensures { result ≡ [] }
    {
        States {
            kept: Numbering::new(alloc),
        }
    }

    /// How many states there are.
    pub fn len(&self) -> usize
        ensures { result ≡ length self.now }
    {
        self.kept.len()
    }

    /// The state at a place, from 0; None exactly where there are no more.
    pub fn get(&self, at: usize) -> Option<Kept>
        ensures { result ≡ slice_get self.now at }
    {
        self.kept.get(at).copied()
    }

    /// Puts a state behind the others, where it is not among them. After want of memory they are as before.
    pub fn put(&mut self, state: Kept) -> Result<(), AllocError>
        ensures ok { OnOk result (IsPut self.old state self.new) }
        ensures err { OnErr result (self.new ≡ self.old) }
    {
        insert(&mut self.kept, state)
    }

    /// That no state stands twice. It does nothing.
    pub fn are_distinct(&self)
        ensures { Distinct self.now }
    {
        let _ = &self.kept;
    }
}

/// Puts a state among some.
fn insert(kept: &mut Numbering<Kept>, state: Kept) -> Result<(), AllocError>
    ensures ok { OnOk result (IsPut kept.old state kept.new) }
    ensures err { OnErr result (kept.new ≡ kept.old) }
{
    kept.insert(state)?;
    Ok(())
}
