//! Tasks.

/// Work that one thread does: any thread, and once. It may need something to be ready, and promises something of what it gives.
pub trait Task: Send + Drop {
    type Out: Send + Drop;

    /// What is to hold of the task for it to run.
    ghost ready: { Self → Type 0 };

    /// What the task promises of what it gives.
    ghost promise: { Self → Self.Out → Type 0 };

    /// Does the work.
    fn run(self) -> Self::Out
        requires { ready self }
        ensures { promise self result };
}
