//! The events of the core, and its replies.
use pg_value::{Key, TableNo, Writes};

/// What is asked of the core. A seat is whoever may hold a pin, by its number; a session is a section of the script, by its.
#[derive(Drop)]
pub enum Event {
    /// The seat pins the current base.
    Pin {
        seat: u32,
    },
    /// The seat's pin goes.
    Release {
        seat: u32,
    },
    /// The seat, which had read version `from`, commits these writes.
    Commit {
        seat: u32,
        from: u64,
        writes: Writes,
    },
    /// The seat begins to build a base of the whole log.
    BeginFold {
        seat: u32,
    },
    /// What was built becomes the current base.
    Install,
    /// The open build is given up.
    Abandon,
    /// The session has finished one item more.
    Mark {
        session: u32,
    },
    /// The session has ended.
    EndSession {
        session: u32,
    },
    /// No build begins from now on.
    Stop,
}

/// What the core answers. `at` is a length of the log, and `base` the version of a base.
#[derive(Drop)]
pub enum Reply {
    /// The seat has pinned this base, at this length of the log.
    Pinned { at: u64, base: u64 },
    /// Whether the seat had a pin.
    Released(bool),
    /// The writes are the commit of this number.
    Committed(u64),
    /// The commit of number `at` wrote the row of this table and key.
    Conflict { table: TableNo, key: Key, at: u64 },
    /// The log holds so many writes, and has no room for these.
    LogFull { held: u64 },
    /// A build of this length has begun.
    Job { at: u64 },
    /// There is nothing to build, or a build is open.
    NotYet,
    /// No build begins any more.
    Stopped,
    /// What was built is the current base.
    Installed,
    /// It is not, since this base has come to be the current one.
    Stale { base: u64 },
    Done,
    /// The event may not come now, and has changed nothing.
    Refused,
}

/// An open build: the seat that opened it, the base from which it began, and the version that it builds.
#[derive(Clone, Copy)]
pub struct Build {
    pub seat: u32,
    pub base: u64,
    pub at: u64,
}
