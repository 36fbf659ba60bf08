//! Edges as they are seen from one of their ends, in order of the vertices there.
ghost use Rattle.std.specs.Prelude.{◌≡◌, map, IfOk};
ghost use Rattle.pg_adj.specs.Entries.{entry};
ghost use Rattle.pg_adj.specs.Gather.{plain, plains, AreSeen};
ghost use Rattle.std.proofs.Common.{refl};
ghost use Rattle.std.specs.Ordering.{as_partial_cmp};
ghost use Rattle.pg_adj.specs.EndOrder.{seen_cmp, same_vertex, seen_total, seen_equivalence, seen_partial, seen_partial_order};

use crate::EdgeEnds;
use pg_value::{Dir, Key, order_keys};
use std::alloc::{AllocError, Global};
use std::cmp::Ordering;

/// An edge that has a vertex at one end, and the vertex at its other end. It is ordered by the former alone.
#[derive(Clone, Copy)]
pub struct Seen<'a> {
    pub vertex: &'a Key,
    pub edge: &'a Key,
    pub other: &'a Key,
}

impl<'a> PartialEq for Seen<'a> {
    ghost eq = { same_vertex };

    ghost laws = { seen_partial };

    fn eq(&self, other: &Seen<'a>) -> bool {
        matches!(order_keys(self.vertex, other.vertex), Ordering::Equal)
    }
}

impl<'a> Eq for Seen<'a> {
    ghost laws = { seen_equivalence };
}

impl<'a> PartialOrd for Seen<'a> {
    ghost partial_cmp = { as_partial_cmp seen_cmp };

    ghost laws = { seen_partial_order };

    fn partial_cmp(&self, other: &Seen<'a>) -> Option<Ordering> {
        Some(order_keys(self.vertex, other.vertex))
    }
}

impl<'a> Ord for Seen<'a> {
    ghost cmp = { seen_cmp };

    ghost total = { seen_total };

    ghost matches_partial_cmp = { λ x y. refl };

    ghost matches_eq = { λ x y. refl };

    fn cmp(&self, other: &Seen<'a>) -> Ordering {
        order_keys(self.vertex, other.vertex)
    }
}

/// An edge, seen from its source or from its destination.
fn seen_from<'a>(ends: &'a EdgeEnds, dir: Dir) -> Seen<'a>
    ensures { plain result ≡ entry dir ends.now }
{
    match dir {
        Dir::Out => Seen {
            vertex: &ends.source,
            edge: &ends.edge,
            other: &ends.dest,
        },
        Dir::In => Seen {
            vertex: &ends.dest,
            edge: &ends.edge,
            other: &ends.source,
        },
    }
}

/// The edges of a list, seen from that end, as they stand.
fn all_seen<'a>(alloc: Global, ends: &'a [EdgeEnds], dir: Dir) -> Result<Vec<Seen<'a>>, AllocError>
    ensures { IfOk result (λ seen. plains seen.items ≡ map (entry dir) ends.now) }
{
    let mut seen = Vec::with_capacity(alloc, ends.len())?;
    for edge in ends {
        seen.push(seen_from(edge, dir))?;
    }
    Ok(seen)
}

/// The edges of a list, seen from that end, in order of the vertices there. Those of one vertex keep their order.
pub fn seen_in_order<'a>(
    alloc: Global,
    ends: &'a [EdgeEnds],
    dir: Dir,
) -> Result<Vec<Seen<'a>>, AllocError>
    ensures { IfOk result (λ seen. AreSeen dir ends.now seen.items) }
{
    let mut seen = all_seen(alloc, ends, dir)?;
    seen.sort()?;
    Ok(seen)
}
