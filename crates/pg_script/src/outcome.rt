//! How the items of a section come out, and why a statement is refused.
ghost use Rattle.std.specs.Prelude.{◌≡◌};
ghost use Rattle.pg_script.specs.Text as spec;

use pg_value::{Key, List, Row, Text};

/// Why a statement was refused at a byte of the script, before it read anything.
#[derive(Clone, Copy)]
pub enum FaultKind {
    Syntax,
    NameTaken,
    NoTable,
    NoColumn,
    KeyMismatch,
    LabelMismatch,
    TypeMismatch,
    Limit,
    ColumnTwice,
    Count,
    KeyUpdate,
    Types,
    Wide,
    NoGraph,
    NoLabel,
    NoProperty,
    Unbounded,
    Bounds,
    BadVariable,
    GroupUse,
    DefinitionInSession,
    DefinitionInTransaction,
    /// A statement of the grammar that is not run yet.
    NotYet,
}

impl FaultKind {
    /// What the kind is called in a transcript.
    pub fn word(self) -> &'static str
        ensures { result.now ≡ spec.fault_word self }
    {
        match self {
            FaultKind::Syntax => "Syntax",
            FaultKind::NameTaken => "NameTaken",
            FaultKind::NoTable => "NoTable",
            FaultKind::NoColumn => "NoColumn",
            FaultKind::KeyMismatch => "KeyMismatch",
            FaultKind::LabelMismatch => "LabelMismatch",
            FaultKind::TypeMismatch => "TypeMismatch",
            FaultKind::Limit => "Limit",
            FaultKind::ColumnTwice => "ColumnTwice",
            FaultKind::Count => "Count",
            FaultKind::KeyUpdate => "KeyUpdate",
            FaultKind::Types => "Types",
            FaultKind::Wide => "Wide",
            FaultKind::NoGraph => "NoGraph",
            FaultKind::NoLabel => "NoLabel",
            FaultKind::NoProperty => "NoProperty",
            FaultKind::Unbounded => "Unbounded",
            FaultKind::Bounds => "Bounds",
            FaultKind::BadVariable => "BadVariable",
            FaultKind::GroupUse => "GroupUse",
            FaultKind::DefinitionInSession => "DefinitionInSession",
            FaultKind::DefinitionInTransaction => "DefinitionInTransaction",
            FaultKind::NotYet => "NotYet",
        }
    }
}

/// Why a row of a change was refused at one of its columns.
#[derive(Clone, Copy)]
pub enum ColumnFault {
    NullKey,
    NullNotAllowed,
    Range,
    TooLong,
}

impl ColumnFault {
    /// What the kind is called in a transcript.
    pub fn word(self) -> &'static str
        ensures { result.now ≡ spec.column_fault_word self }
    {
        match self {
            ColumnFault::NullKey => "NullKey",
            ColumnFault::NullNotAllowed => "NullNotAllowed",
            ColumnFault::Range => "Range",
            ColumnFault::TooLong => "TooLong",
        }
    }
}

/// How an item of a section came out. `at` is a version, which is a number of commits, `from` the version that a
/// transaction or a statement read, and `row` counts a statement's rows from 1.
#[derive(Drop)]
pub enum Outcome {
    /// A table or a graph was defined, when the log had `at` commits.
    Defined {
        name: Text,
        at: u64,
    },
    /// A transaction began over version `at`.
    Began {
        at: u64,
    },
    /// A change of `rows` rows in a transaction over version `at`, or of no row outside one.
    Changed {
        rows: u64,
        at: u64,
    },
    /// A change of `rows` rows outside a transaction, over version `from`, which was commit `at`.
    ChangedAlone {
        rows: u64,
        from: u64,
        at: u64,
    },
    /// The writes of a transaction over version `from` were commit `at`.
    Committed {
        from: u64,
        at: u64,
    },
    /// A transaction over version `at` ended without writes.
    CommitEmpty {
        at: u64,
    },
    /// A transaction over version `at` was given up.
    RolledBack {
        at: u64,
    },
    /// The answer of a query over version `at`, read over base `base`: its columns' names, and its rows in value order.
    Rows {
        at: u64,
        base: u64,
        names: List<Text>,
        rows: List<Row>,
    },
    /// The session `name` was found past its `n`-th item when the log had `at` commits.
    After {
        name: Text,
        n: u32,
        at: u64,
    },
    /// The statement was refused at a byte of the script, counted from 0.
    AtByte {
        kind: FaultKind,
        byte: u32,
    },
    /// BEGIN in an open transaction.
    AlreadyOpen,
    /// COMMIT or ROLLBACK without one.
    NotOpen,
    /// An inserted row's key was there already.
    Duplicate {
        row: u64,
        at: u64,
    },
    /// The transaction would have more writes than its limit.
    TooManyWrites {
        row: u64,
        at: u64,
    },
    /// A row's value does not fit its column.
    AtColumn {
        kind: ColumnFault,
        row: u64,
        column: Text,
        at: u64,
    },
    /// A commit was refused: a commit after version `from`, the first one `at`, wrote the row of this table and key.
    Conflict {
        table: Text,
        key: Key,
        from: u64,
        at: u64,
    },
    /// A commit was refused: the log held `held` writes, and had no room for its own.
    LogFull {
        from: u64,
        held: u64,
    },
}
