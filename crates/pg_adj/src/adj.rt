//! The edges of edge tables by the vertices at their ends.
ghost use Rattle.std.specs.Prelude.{◌≡◌, ◌≤◌, ◌+◌, length, IfOk};
ghost use Rattle.std.specs.List.{AllZip};
ghost use Rattle.std.specs.Option.{option_copied};
ghost use Rattle.pg_chunks.specs.Digits.{digits};
ghost use Rattle.pg_adj.specs.Groups.{AreGroups, group_at, edges_of};
ghost use Rattle.pg_adj.specs.Adjacency.{AreBoth, groups_of};

use crate::group::groups;
use crate::{EdgeEnds, Group, Placed, find};
use pg_chunks::Steps;
use pg_value::{Dir, EdgeNo, Key, List, Stored, order_keys};
use std::alloc::{AllocError, Global};
use std::cmp::Ordering;
use std::marker::Model;
use std::sync::ledger::Ledger;

impl Placed for Group {
    ghost use Rattle.pg_adj.specs.Groups.{vertex_of};

    ghost place = { vertex_of };

    fn order_to(&self, key: &Key) -> Ordering {
        order_keys(key, &self.vertex)
    }
}

impl Placed for Stored {
    ghost use Rattle.pg_value.specs.TablesLaws.{key_of};

    ghost place = { key_of };

    fn order_to(&self, key: &Key) -> Ordering {
        order_keys(key, &self.key)
    }
}

/// The edges of one edge table by the vertices at one of their ends, which contracts see as the groups of these vertices, in
/// order.
#[derive(Drop)]
pub struct Ends {
    groups: Vec<Group>,
}

impl Model for Ends {
    ghost use Rattle.std.specs.Prelude.{List};
    ghost use Rattle.pg_keyed.specs.Keyed.{Ascends};
    ghost use Rattle.pg_value.specs.Order.{key_cmp};
    ghost use Rattle.pg_adj.specs.Groups.{vertex_of};
    ghost use Rattle.pg_adj.specs.declared.group.Group.{Group as OneGroup};

    ghost Value = { List OneGroup };

    ghost view = { λ e. e.groups.items };

    ghost invariant = { λ e. Ascends vertex_of key_cmp e.groups.items };
}

impl Ends {
    /// The edges of a list by the vertices at that end. Those of one vertex stand in the order of the list. It takes time as
    /// sorting does. Only want of memory refuses it.
    pub fn build(alloc: Global, ends: &[EdgeEnds], dir: Dir) -> Result<Ends, AllocError>
        ensures { IfOk result (AreGroups dir ends.now) }
    {
        Ok(Ends {
            groups: groups(alloc, ends, dir)?,
        })
    }

    /// The edges at a vertex; None exactly where none has it at that end.
    pub fn group<L: Ledger>(&self, vertex: &Key, steps: &mut Steps<L>) -> Option<&Group>
        ensures value { option_copied result ≡ group_at vertex.now.values self.now }
        ensures counts { steps.old + 1 ≤ steps.new }
        ensures cost { steps.new ≤ steps.old + 3 + digits (length self.now) }
    {
        find(self.groups.as_slice(), vertex, steps)
    }
}

/// The edges of one edge table by their sources and by their destinations.
#[derive(Drop)]
pub struct BothEnds {
    pub out: Ends,
    pub into: Ends,
}

/// The edges of all edge tables by their ends. Edges are in it whose ends name no rows.
#[derive(Drop)]
pub struct Adj {
    tables: Vec<BothEnds>,
}

impl Model for Adj {
    ghost use Rattle.std.specs.Prelude.{List};
    ghost use Rattle.pg_adj.specs.declared.adj.BothEnds.{BothEnds as Both};

    ghost Value = { List Both };

    ghost view = { λ a. a.tables.items };
}

/// The edges of a list by their sources and by their destinations.
fn both_ends(alloc: Global, ends: &[EdgeEnds]) -> Result<BothEnds, AllocError>
    ensures { IfOk result (AreBoth ends.now) }
{
    Ok(BothEnds {
        out: Ends::build(alloc, ends, Dir::Out)?,
        into: Ends::build(alloc, ends, Dir::In)?,
    })
}

/// The edges of each list by their sources and by their destinations.
fn all_ends(alloc: Global, lists: &[List<EdgeEnds>]) -> Result<Vec<BothEnds>, AllocError>
    ensures { IfOk result (λ tables. AllZip AreBoth lists.now tables.items) }
{
    let mut tables = Vec::with_capacity(alloc, lists.len())?;
    for list in lists {
        tables.push(both_ends(alloc, list.as_slice())?)?;
    }
    Ok(tables)
}

impl Adj {
    /// The edges of these lists, one for each edge table by its number, each in order of edge keys. Only want of memory
    /// refuses it.
    pub fn build(alloc: Global, ends: List<List<EdgeEnds>>) -> Result<Adj, AllocError>
        ensures { IfOk result (AllZip AreBoth ends) }
    {
        Ok(Adj {
            tables: all_ends(alloc, ends.as_slice())?,
        })
    }

    /// The edges of an edge table at a vertex, with their other ends; None exactly where none has it at that end.
    pub fn group<L: Ledger>(
        &self,
        edge: EdgeNo,
        dir: Dir,
        vertex: &Key,
        steps: &mut Steps<L>,
    ) -> Option<&Group>
        ensures value { option_copied result ≡ group_at vertex.now.values (groups_of self.now edge dir) }
        ensures counts { steps.old + 1 ≤ steps.new }
        ensures cost { steps.new ≤ steps.old + 3 + digits (length (groups_of self.now edge dir)) }
    {
        match self.tables.get(edge.0 as usize) {
            Some(both) => match dir {
                Dir::Out => both.out.group(vertex, steps),
                Dir::In => both.into.group(vertex, steps),
            },
            None => {
                steps.tick();
                None
            }
        }
    }

    /// The keys of the edges of an edge table that have a vertex at that end, in order.
    pub fn edges_at<L: Ledger>(
        &self,
        edge: EdgeNo,
        dir: Dir,
        vertex: &Key,
        steps: &mut Steps<L>,
    ) -> &[Key]
        ensures value { result.now ≡ edges_of (group_at vertex.now.values (groups_of self.now edge dir)) }
        ensures counts { steps.old + 1 ≤ steps.new }
        ensures cost { steps.new ≤ steps.old + 3 + digits (length (groups_of self.now edge dir)) }
    {
        match self.group(edge, dir, vertex, steps) {
            Some(group) => group.edges.as_slice(),
            None => &[],
        }
    }
}
