//! What is done for each start.
ghost use Rattle.std.specs.Prelude.{IfOk};
ghost use Rattle.pg_value.specs.declared.shape.ElemId.{ElemId as Start};

use pg_value::ElemId;
use std::alloc::AllocError;

/// Work that is done for a start, an element of a graph, by any thread, and for several starts at once.
pub trait StartJob: Sync {
    type Out: Send + Drop;

    /// What is to hold of a start for the work to be done for it.
    ghost accepts: { Self → Start → Type 0 };

    /// What the job promises of what it gives for a start.
    ghost promise: { Self → Start → Self.Out → Type 0 };

    /// Does the work for a start. Only want of memory refuses it.
    fn run(&self, start: &ElemId) -> Result<Self::Out, AllocError>
        requires { accepts self.now start.now }
        ensures { IfOk result (promise self.now start.now) };
}
