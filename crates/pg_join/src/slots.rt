//! What the variables of a query stand for in a joined tuple.
ghost use Rattle.std.specs.Prelude.{◌≡◌, [], map, slice_get, is_some, false, IfOk};
ghost use Rattle.std.specs.List.{list_any};
ghost use Rattle.std.specs.Option.{unwrap_or};
ghost use Rattle.pg_meaning.specs.Rounds.{quant_of};
ghost use Rattle.pg_join.specs.Joining as joining;
ghost use Rattle.pg_join.specs.Rows as spec;

use crate::elements::{copy_element, copy_elements};
use crate::lists::list_of;
use pg_meaning::{Bound, CFiller, CPart, CheckedPath, CheckedQuery, PathBinding, Slot};
use pg_value::{ElemId, List};
use std::alloc::{AllocError, Global};

/// Whether a node or an edge names a variable.
fn names(var: u32, filler: &CFiller) -> bool
    ensures { result ≡ spec.names var filler.now }
{
    match filler.var {
        None => false,
        Some(own) => var == own,
    }
}

/// Whether some nodes or edges name a variable.
fn any_names(var: u32, fillers: &[CFiller]) -> bool
    ensures { result ≡ list_any (spec.names var) fillers.now }
{
    for filler in fillers {
        if names(var, filler) {
            return true;
        }
    }
    false
}

/// Whether a part names a variable.
fn part_names(var: u32, part: &CPart) -> bool
    ensures { result ≡ spec.part_names var part.now }
{
    match part {
        CPart::Node(filler) => names(var, filler),
        CPart::Edge { filler, .. } => names(var, filler),
        CPart::Group { nodes, edges, .. } => {
            any_names(var, nodes.as_slice()) || any_names(var, edges.as_slice())
        }
    }
}

/// Whether a part is quantified.
fn is_quantified(part: &CPart) -> bool
    ensures { result ≡ is_some (quant_of part.now) }
{
    match part {
        CPart::Node(_) => false,
        CPart::Edge { quant, .. } => quant.is_some(),
        CPart::Group { quant, .. } => quant.is_some(),
    }
}

/// Whether the first part that names a variable is quantified, None exactly where no part names it.
fn grouped_in(var: u32, parts: &[CPart]) -> Option<bool>
    ensures { result ≡ spec.grouped_in var parts.now }
{
    for part in parts {
        if part_names(var, part) {
            return Some(is_quantified(part));
        }
    }
    None
}

/// Whether a variable of a query is a group variable, None exactly where no path pattern names it.
fn grouped(var: u32, paths: &[CheckedPath]) -> Option<bool>
    ensures { result ≡ spec.grouped var paths.now }
{
    for path in paths {
        if let Some(found) = grouped_in(var, path.parts.as_slice()) {
            return Some(found);
        }
    }
    None
}

/// Which variables of a query are group variables, by their numbers.
pub fn group_variables(alloc: Global, query: &CheckedQuery) -> Result<List<bool>, AllocError>
    ensures { IfOk result (λ groups. groups ≡ spec.groups_of query.now) }
{
    let mut groups = List::new(alloc);
    for var in 0..query.vars {
        let group = grouped(var, query.paths.as_slice()).unwrap_or(false);
        groups.push(group)?;
    }
    Ok(groups)
}

/// The slot of a variable: its one element, or the list of its elements.
fn slot_with(alloc: Global, group: bool, elems: &[ElemId]) -> Result<Slot, AllocError>
    ensures { IfOk result (λ slot. slot ≡ spec.slot_with group elems.now) }
{
    if group {
        return Ok(Slot::Many(copy_elements(alloc, elems)?));
    }
    match elems {
        [elem] => Ok(Slot::One(copy_element(alloc, elem)?)),
        _ => Ok(Slot::Many(copy_elements(alloc, elems)?)),
    }
}

/// The slot of a variable in a tuple.
fn slot_in(
    alloc: Global,
    paths: &[CheckedPath],
    group: bool,
    tuple: &[&PathBinding],
    var: u32,
) -> Result<Slot, AllocError>
    ensures { IfOk result (λ slot. slot ≡ spec.slot_with group (unwrap_or (joining.list_of paths.now (map (λ b. b.now) tuple.now) var) [])) }
{
    match list_of(paths, tuple, var) {
        Some(list) => slot_with(alloc, group, list.as_slice()),
        None => slot_with(alloc, group, &[]),
    }
}

/// Whether a variable is a group variable, by its number.
fn is_group(groups: &[bool], var: u32) -> bool
    ensures { result ≡ unwrap_or (slice_get groups.now var) false }
{
    match groups.get(var as usize) {
        Some(group) => *group,
        None => false,
    }
}

/// What the variables of a query stand for in a tuple. `groups` says which are group variables.
pub fn bound_of(
    alloc: Global,
    query: &CheckedQuery,
    groups: &[bool],
    tuple: &[&PathBinding],
) -> Result<Bound, AllocError>
    ensures { IfOk result (λ bound. bound.vars ≡ spec.slots_of query.now groups.now (map (λ b. b.now) tuple.now)) }
{
    let mut vars = List::new(alloc);
    for var in 0..query.vars {
        let slot = slot_in(
            alloc,
            query.paths.as_slice(),
            is_group(groups, var),
            tuple,
            var,
        )?;
        vars.push(slot)?;
    }
    Ok(Bound { vars })
}
