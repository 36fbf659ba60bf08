//! What runs statements, and what it holds.
ghost use Rattle.pgq.specs.Engine.{IsFirst, IsReady};

use pg_catalog::Catalog;
use pg_chunks::Chunks;
use pg_value::{Commit, List, Shapes, Stored};
use std::alloc::Global;

/// What runs the statements of a script, one after another, each outside a transaction: the catalog and its shapes, the rows
/// of each table in order of their keys, by the table's number, and the log of commits with the number of writes that it
/// holds. `base` is the version of the current base, and `peak` the greatest number of kept versions with the number of
/// pins at its first moment.
#[derive(Drop)]
pub struct Engine {
    pub catalog: Catalog,
    pub shapes: Shapes,
    pub tables: Vec<Chunks<Stored>>,
    pub log: List<Commit>,
    pub held: u64,
    pub base: u64,
    pub peak: (u64, u64),
}

impl Engine {
    /// An engine of nothing. It takes no memory.
    pub fn new(alloc: Global) -> Engine
        ensures first { IsFirst result }
        ensures ready { IsReady result }
    {
        Engine {
            catalog: Catalog::new(alloc),
            shapes: Shapes {
                tables: List::new(alloc),
                edges: List::new(alloc),
            },
            tables: Vec::new(alloc),
            log: List::new(alloc),
            held: 0,
            base: 0,
            peak: (1, 0),
        }
    }
}
