//! The search from each start, as work that any thread may do.
use pg_meaning::PathBinding;
use pg_value::{ElemId, List};
use pg_work::StartJob;
use std::alloc::AllocError;

/// The search from a start, as a closure makes it.
#[derive(Drop)]
pub struct Search<F> {
    pub from: F,
}

/// It may begin at any start, and promises what the closure does.
impl<F: Fn(&ElemId) -> Result<List<PathBinding>, AllocError> + Sync> StartJob for Search<F> {
    type Out = List<PathBinding>;

    ghost use Rattle.std.specs.Fn.{FnReturnsAt};
    ghost use Rattle.std.specs.Prelude.{Ok};

    ghost accepts = { λ job start. F.IsAlwaysCallable job.from };

    ghost promise = { λ job start kept. FnReturnsAt F.Fn job.from start (Ok kept) };

    fn run(&self, start: &ElemId) -> Result<List<PathBinding>, AllocError> {
        (self.from)(start)
    }
}
