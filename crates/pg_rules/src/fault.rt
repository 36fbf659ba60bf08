//! Why a definition, a change or a query is refused.

/// Why a definition is refused. `at` is a place in the input, in bytes from 0: the first place of the first kind, in this
/// order, that has a place.
#[derive(Clone, Copy, PartialEq, Eq)]
pub enum DefineFault {
    /// A table's or graph's name that exists, or the later of two equal names where names must differ.
    NameTaken { at: u32 },
    /// A table that does not exist, or a referenced one that is no vertex table of the graph.
    NoTable { at: u32 },
    /// A column that is not in its table.
    NoColumn { at: u32 },
    /// The table without a primary key clause or with more than one, or the element table whose key columns do not match.
    KeyMismatch { at: u32 },
    /// The later of two element tables on which one label has other properties.
    LabelMismatch { at: u32 },
    /// The later of two element tables on which one property has two kinds.
    TypeMismatch { at: u32 },
    /// The first thing beyond a limit.
    Limit { at: u32 },
    /// There was no memory.
    Memory,
}

/// Why a change is refused before it reads the tables. `at` is a place in the input, in bytes from 0: the first place of the
/// first kind, in this order, that has a place.
#[derive(Clone, Copy, PartialEq, Eq)]
pub enum ResolveFault {
    /// A table that does not exist.
    NoTable { at: u32 },
    /// A column that is not in the table.
    NoColumn { at: u32 },
    /// A column that the list of INSERT, or SET, names a second time.
    ColumnTwice { at: u32 },
    /// A tuple that has not as many values as columns are meant, at its parenthesis.
    Count { at: u32 },
    /// A key column that SET names.
    KeyUpdate { at: u32 },
    /// An operator that meets a wrong kind, or a condition or value of a wrong kind, at its first token.
    Types { at: u32 },
    /// A literal or an operator whose width is too large while its operands' are not.
    Wide { at: u32 },
    /// There was no memory.
    Memory,
}

/// What is wrong with a row that a change would write, in the order in which it is looked for: column by column in the
/// table's order, by the column's place, and then the row as a whole.
#[derive(Clone, Copy, PartialEq, Eq)]
pub enum RowFault {
    /// NULL in a column of the primary key.
    NullKey { column: u32 },
    /// NULL in a NOT NULL column that is no key column.
    NullNotAllowed { column: u32 },
    /// A number that is no INTEGER.
    Range { column: u32 },
    /// A text of more bytes than the column may hold.
    TooLong { column: u32 },
    /// The key is in the table already, or in an earlier row of the statement.
    Duplicate,
    /// The transaction would have more writes than it may.
    TooManyWrites,
}

/// Why a query is refused before it reads the tables. `at` is a place in the input, in bytes from 0: the first place of the
/// first kind, in this order, that has a place.
#[derive(Clone, Copy)]
pub enum QueryFault {
    /// A graph that does not exist.
    NoGraph { at: u32 },
    /// A label that no element table of the graph has.
    NoLabel { at: u32 },
    /// A property that no element table of the graph has.
    NoProperty { at: u32 },
    /// A quantifier without an upper number, where neither a mode nor a selector bounds the walks.
    Unbounded { at: u32 },
    /// A quantifier whose lower number is above its upper.
    Bounds { at: u32 },
    /// A variable that no pattern names, that a condition inside a pattern may not use, or the later of two mentions that may
    /// not both stand.
    BadVariable { at: u32 },
    /// A group variable outside aggregates, or an aggregate that may not stand there or is of no one group variable.
    GroupUse { at: u32 },
    /// An operator or aggregate that meets a wrong kind, or a condition that is no truth value, at its first token.
    Types { at: u32 },
    /// A literal, an operator or an aggregate whose width is too large while those of its operands are not.
    Wide { at: u32 },
    /// The first thing beyond a limit.
    Limit { at: u32 },
    /// There was no memory.
    Memory,
}
