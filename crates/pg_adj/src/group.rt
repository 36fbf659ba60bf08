//! The edges at one end, gathered from edges in order of the vertices there.
ghost use Rattle.std.specs.Prelude.{◌≡◌, [], ◌∷◌, ◌++◌, ◌<◌, true, map, take, IfOk, OnOk};
ghost use Rattle.pg_adj.specs.Entries.{Entry, is_at};
ghost use Rattle.pg_adj.specs.Gather.{plain, plains, IsRun, gather};
ghost use Rattle.pg_adj.specs.Groups.{AreGroups};
ghost use Rattle.pg_adj.specs.Gather as spec;

use crate::EdgeEnds;
use crate::seen::{Seen, seen_in_order};
use pg_value::{Dir, Key, List, copy_key, order_keys};
use std::alloc::{AllocError, Global};
use std::cmp::Ordering;

/// The edges that have one vertex at that end: their keys, and beside each the key of the vertex at its other end.
#[derive(Drop)]
pub struct Group {
    pub vertex: Key,
    pub edges: List<Key>,
    pub others: List<Key>,
}

/// Whether an edge has the vertex at that end.
fn is_at(vertex: &Key, seen: &Seen) -> bool
    ensures { result ≡ is_at vertex.now.values (plain seen.now) }
{
    matches!(order_keys(vertex, seen.vertex), Ordering::Equal)
}

/// How many edges, from the front on, have the vertex at that end.
fn run_length(vertex: &Key, seen: &[Seen]) -> usize
    ensures { IsRun vertex.now.values (plains seen.now) result }
{
    for (i, edge) in seen.iter().enumerate() {
        if !is_at(vertex, edge) {
            return i;
        }
    }
    seen.len()
}

/// Copies of the keys of edges.
fn edge_keys(alloc: Global, run: &[Seen]) -> Result<List<Key>, AllocError>
    ensures { IfOk result (λ keys. keys ≡ map (λ e. e.edge) (plains run.now)) }
{
    let mut keys = Vec::with_capacity(alloc, run.len())?;
    for edge in run {
        keys.push(copy_key(alloc, edge.edge)?)?;
    }
    Ok(List::from_vec(keys))
}

/// Copies of the keys of the vertices at the other ends of edges.
fn other_keys(alloc: Global, run: &[Seen]) -> Result<List<Key>, AllocError>
    ensures { IfOk result (λ keys. keys ≡ map (λ e. e.other) (plains run.now)) }
{
    let mut keys = Vec::with_capacity(alloc, run.len())?;
    for edge in run {
        keys.push(copy_key(alloc, edge.other)?)?;
    }
    Ok(List::from_vec(keys))
}

/// The group of a vertex, of edges that have it at that end.
fn group_of(alloc: Global, vertex: &Key, run: &[Seen]) -> Result<Group, AllocError>
    ensures { IfOk result (λ group. group ≡ spec.group_of vertex.now (plains run.now)) }
{
    Ok(Group {
        vertex: copy_key(alloc, vertex)?,
        edges: edge_keys(alloc, run)?,
        others: other_keys(alloc, run)?,
    })
}

/// Appends the group of a vertex, of edges that have it at that end.
fn push_run(
    alloc: Global,
    groups: &mut Vec<Group>,
    vertex: &Key,
    run: &[Seen],
) -> Result<(), AllocError>
    ensures { OnOk result (groups.new.items ≡ groups.old.items ++ spec.group_of vertex.now (plains run.now) ∷ []) }
{
    let group = group_of(alloc, vertex, run)?;
    groups.push(group)?;
    Ok(())
}

/// The groups of edges that stand in order of the vertices at that end.
fn gather(alloc: Global, seen: &[Seen]) -> Result<Vec<Group>, AllocError>
    ensures { IfOk result (λ groups. groups.items ≡ spec.gather (plains seen.now)) }
{
    let mut groups = Vec::new(alloc);
    let mut start = 0;
    'groups: while start < seen.len() {
        let vertex = seen[start].vertex;
        let count = run_length(vertex, &seen[start..]);
        match push_run(alloc, &mut groups, vertex, &seen[start..start + count]) {
            Ok(()) => start += count,
            Err(failed) => return Err(failed),
        }
    }
    Ok(groups)
}

/// The edges of a list in groups, by the vertex at that end.
pub fn groups(alloc: Global, ends: &[EdgeEnds], dir: Dir) -> Result<Vec<Group>, AllocError>
    ensures { IfOk result (λ groups. AreGroups dir ends.now groups.items) }
{
    let seen = seen_in_order(alloc, ends, dir)?;
    gather(alloc, seen.as_slice())
}
