//! Why a commit is refused, and how far a session has come.
use pg_value::{Key, TableNo};
use std::alloc::AllocError;

/// Why a commit is refused. Everything is then as before.
#[derive(Drop)]
pub enum CommitFault {
    /// The commit of number `at` wrote the row of this table and key after the version that was read. It is the first of the
    /// writes, and the first commit, of which that is so.
    Conflict { table: TableNo, key: Key, at: u64 },
    /// There is no conflict, but the log holds so many writes, and has no room for these.
    LogFull { held: u64 },
    /// Memory was wanted.
    Memory,
}

impl From<AllocError> for CommitFault {
    ghost use Rattle.std.specs.Prelude.{◌≡◌};
    ghost use Rattle.pg_core.specs.declared.fault.CommitFault.TheVariants.{Memory};

    ghost from_gives = { λ _ f. f ≡ Memory };

    fn from(_error: AllocError) -> CommitFault {
        CommitFault::Memory
    }
}

/// How far a session has come.
#[derive(Drop)]
pub enum Marked {
    /// It has finished so many items, and the log has this length.
    At(u64),
    /// It has not, and has not ended.
    NotYet,
    /// It has not, and has ended.
    Ended,
}
