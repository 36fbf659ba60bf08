//! Why a change is refused over the tables, with the writes handed back.
use pg_rules::RowFault;
use pg_value::Writes;

/// Why a change is refused over the tables.
#[derive(Drop)]
pub enum EffectRefused {
    /// The first faulty row, counted from 1, what is wrong with it, and the writes as they were given.
    Row {
        row: u64,
        fault: RowFault,
        writes: Writes,
    },
    /// There was no memory. The writes are gone.
    Memory,
}
