//! Runs as the core keeps them.
use crate::Run;
use pg_value::{Shapes, Shared, Writes};
use std::alloc::{AllocError, Global};

impl pg_core::Run for Run {
    ghost use Rattle.pg_run.specs.Kept.{kept_run};

    ghost run = { kept_run };

    fn of(
        alloc: Global,
        writes: &Writes,
        at: u64,
        shapes: &Shared<Shapes>,
    ) -> Result<Run, AllocError> {
        Run::of(alloc, writes, at, shapes)
    }

    fn merge(alloc: Global, older: &Run, newer: &Run) -> Result<Run, AllocError> {
        Run::merge(alloc, older, newer)
    }

    fn after(&self) -> u64 {
        self.after()
    }

    fn last(&self) -> u64 {
        self.last()
    }
}
