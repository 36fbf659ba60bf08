//! The first faulty row of a change.
use pg_rules::RowFault;

/// Why the rows of a change are refused, before the writes are handed back.
#[derive(Clone, Copy)]
pub enum EffectFault {
    /// The first faulty row, counted from 1, and what is wrong with it.
    Row { row: u64, fault: RowFault },
    /// There was no memory.
    Memory,
}
