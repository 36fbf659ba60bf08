//! How the sections of a script came out, and the log.
use crate::Outcome;
use pg_value::{Commit, List, Text};

/// How a section came out: one outcome for each of its items, and whether a transaction was open at its end.
#[derive(Drop)]
pub struct SectionOut {
    pub name: Text,
    pub outcomes: List<Outcome>,
    pub rolled_back: bool,
}

/// What a run prints: the sections with the setup as section 0, the names of the tables by `TableNo`, the whole log, and
/// the greatest number of kept versions with the number of pins at its first moment.
#[derive(Drop)]
pub struct Transcript {
    pub has_setup: bool,
    pub sections: List<SectionOut>,
    pub tables: List<Text>,
    pub log: List<Commit>,
    pub peak: (u64, u64),
}
