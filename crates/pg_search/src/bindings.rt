//! The binding of a state behind the last stage.
ghost use Rattle.std.specs.Prelude.{ℕ, ◌≡◌, ◌<◌, [], ◌∷◌, ◌++◌, List, length, map, flat_map, slice_get, IfOk, OnOk};
ghost use Rattle.pg_keyed.specs.Lists.{Each};
ghost use Rattle.pg_meaning.specs.Bindings.{path_binding};
ghost use Rattle.pg_auto.specs.States.{binding_of, walked};
ghost use Rattle.pg_search.specs.Found as spec;
ghost use Rattle.pg_search.specs.Numbers.{IsWithin, elem_at, state_of};

use crate::numbered::{Numbered, copy_elem};
use crate::states::{Kept, States};
use pg_meaning::PathBinding;
use pg_value::{ElemId, List};
use std::alloc::{AllocError, Global};

/// Appends an equal element.
fn push_copy(
    alloc: Global,
    numbers: &Numbered<'_>,
    elem: usize,
    out: &mut List<ElemId>,
) -> Result<(), AllocError>
    ensures { OnOk result (out.new ≡ out.old ++ elem_at numbers.now elem ∷ []) }
{
    out.push(copy_elem(alloc, numbers.elem(elem))?)
}

/// Appends the vertices of hops behind the first.
fn push_vertices(
    alloc: Global,
    numbers: &Numbered<'_>,
    hops: &[(usize, usize)],
    out: &mut List<ElemId>,
) -> Result<(), AllocError>
    ensures { OnOk result (out.new ≡ out.old ++ map (spec.to_of numbers.now) hops.now) }
{
    for hop in hops {
        push_copy(alloc, numbers, hop.1, out)?;
    }
    Ok(())
}

/// Appends the edges of hops.
fn push_edges(
    alloc: Global,
    numbers: &Numbered<'_>,
    hops: &[(usize, usize)],
    out: &mut List<ElemId>,
) -> Result<(), AllocError>
    ensures { OnOk result (out.new ≡ out.old ++ map (spec.edge_of numbers.now) hops.now) }
{
    for hop in hops {
        push_copy(alloc, numbers, hop.0, out)?;
    }
    Ok(())
}

/// The vertices of a walk, of which the start has the number 0.
fn vertices_of(
    alloc: Global,
    numbers: &Numbered<'_>,
    hops: &[(usize, usize)],
) -> Result<List<ElemId>, AllocError>
    ensures { IfOk result (λ list. list ≡ elem_at numbers.now 0 ∷ map (spec.to_of numbers.now) hops.now) }
{
    let mut vertices = List::new(alloc);
    push_copy(alloc, numbers, 0, &mut vertices)?;
    push_vertices(alloc, numbers, hops, &mut vertices)?;
    Ok(vertices)
}

/// The edges of a walk.
fn edges_of(
    alloc: Global,
    numbers: &Numbered<'_>,
    hops: &[(usize, usize)],
) -> Result<List<ElemId>, AllocError>
    ensures { IfOk result (λ list. list ≡ map (spec.edge_of numbers.now) hops.now) }
{
    let mut edges = List::new(alloc);
    push_edges(alloc, numbers, hops, &mut edges)?;
    Ok(edges)
}

/// The number of the first element of a variable.
fn first_no(names: &[(usize, usize)], var: usize) -> Option<usize>
    ensures { result ≡ spec.first_no names.now var }
{
    for name in names {
        if name.0 == var {
            return Some(name.1);
        }
    }
    None
}

/// Appends an element, where it is of a variable.
fn push_named(
    alloc: Global,
    numbers: &Numbered<'_>,
    var: usize,
    name: &(usize, usize),
    out: &mut List<ElemId>,
) -> Result<(), AllocError>
    ensures { OnOk result (out.new ≡ out.old ++ spec.named numbers.now var name.now) }
{
    if name.0 == var {
        push_copy(alloc, numbers, name.1, out)
    } else {
        Ok(())
    }
}

/// Appends the elements of a variable.
fn push_all_named(
    alloc: Global,
    numbers: &Numbered<'_>,
    var: usize,
    names: &[(usize, usize)],
    out: &mut List<ElemId>,
) -> Result<(), AllocError>
    ensures { OnOk result (out.new ≡ out.old ++ flat_map (spec.named numbers.now var) names.now) }
{
    for name in names {
        push_named(alloc, numbers, var, name, out)?;
    }
    Ok(())
}

/// Appends an element, where there is one.
fn push_some(
    alloc: Global,
    numbers: &Numbered<'_>,
    elem: Option<usize>,
    out: &mut List<ElemId>,
) -> Result<(), AllocError>
    ensures { OnOk result (out.new ≡ out.old ++ spec.first_elem numbers.now elem) }
{
    match elem {
        Some(elem) => push_copy(alloc, numbers, elem, out),
        None => Ok(()),
    }
}

/// What a variable stands for: the first element of the parts that stand once, and those of the quantified parts.
fn list_of(
    alloc: Global,
    numbers: &Numbered<'_>,
    singles: &[(usize, usize)],
    groups: &[(usize, usize)],
    var: u32,
) -> Result<List<ElemId>, AllocError>
    ensures { IfOk result (λ list. list ≡ spec.list_of numbers.now singles.now groups.now var) }
{
    let mut list = List::new(alloc);
    push_some(alloc, numbers, first_no(singles, var as usize), &mut list)?;
    push_all_named(alloc, numbers, var as usize, groups, &mut list)?;
    Ok(list)
}

/// What variables stand for.
fn lists_of(
    alloc: Global,
    numbers: &Numbered<'_>,
    singles: &[(usize, usize)],
    groups: &[(usize, usize)],
    vars: &[u32],
) -> Result<List<List<ElemId>>, AllocError>
    ensures { IfOk result (λ lists. lists ≡ map (spec.list_of numbers.now singles.now groups.now) vars.now) }
{
    let mut lists = List::new(alloc);
    for var in vars {
        let list = list_of(alloc, numbers, singles, groups, *var)?;
        lists.push(list)?;
    }
    Ok(lists)
}

/// The binding of a walk from the start, by the numbers of its hops and of what it names for the parts that stand once and for
/// the quantified parts.
pub fn binding_of_items(
    alloc: Global,
    numbers: &Numbered<'_>,
    vars: &[u32],
    hops: &[(usize, usize)],
    singles: &[(usize, usize)],
    groups: &[(usize, usize)],
) -> Result<PathBinding, AllocError>
    ensures { IfOk result (λ b. b ≡ path_binding (binding_of numbers.now.start vars.now (spec.walk_of numbers.now hops.now singles.now groups.now))) }
{
    numbers.are_numbers();
    let vertices = vertices_of(alloc, numbers, hops)?;
    let edges = edges_of(alloc, numbers, hops)?;
    let vars = lists_of(alloc, numbers, singles, groups, vars)?;
    Ok(PathBinding {
        vertices,
        edges,
        vars,
    })
}

/// The binding of a state.
fn binding(
    alloc: Global,
    numbers: &Numbered<'_>,
    vars: &[u32],
    state: &Kept,
) -> Result<PathBinding, AllocError>
    requires { IsWithin numbers.now state.now }
    ensures { IfOk result (λ b. b ≡ path_binding (binding_of numbers.now.start vars.now (walked (state_of numbers.now state.now)))) }
{
    let hops = numbers.walks().items(alloc, state.walk)?;
    let singles = numbers.names().items(alloc, state.singles)?;
    let groups = numbers.names().items(alloc, state.groups)?;
    binding_of_items(alloc, numbers, vars, &hops, &singles, &groups)
}

/// Appends the binding of a state behind the last of so many stages.
fn push_found(
    alloc: Global,
    numbers: &Numbered<'_>,
    count: usize,
    vars: &[u32],
    state: &Kept,
    out: &mut List<PathBinding>,
) -> Result<(), AllocError>
    requires { IsWithin numbers.now state.now }
    ensures { OnOk result (out.new ≡ out.old ++ spec.found_at numbers.now count vars.now state.now) }
{
    if count <= state.stage {
        out.push(binding(alloc, numbers, vars, state)?)
    } else {
        Ok(())
    }
}

/// Appends the binding of the state at a place, where it is behind the last of so many stages.
fn push_at(
    alloc: Global,
    numbers: &Numbered<'_>,
    count: usize,
    vars: &[u32],
    states: &States,
    at: usize,
    out: &mut List<PathBinding>,
) -> Result<(), AllocError>
    requires { Each (IsWithin numbers.now) states.now }
    ensures { OnOk result (out.new ≡ out.old ++ spec.found_in numbers.now count vars.now (slice_get states.now at)) }
{
    match states.get(at) {
        Some(state) => push_found(alloc, numbers, count, vars, &state, out),
        None => Ok(()),
    }
}

/// The bindings of the states behind the last of so many stages.
pub fn found(
    alloc: Global,
    numbers: &Numbered<'_>,
    count: usize,
    vars: &[u32],
    states: &States,
) -> Result<List<PathBinding>, AllocError>
    requires { Each (IsWithin numbers.now) states.now }
    ensures { IfOk result (λ found. found ≡ flat_map (spec.found_at numbers.now count vars.now) states.now) }
{
    let mut out = List::new(alloc);
    for i in 0..states.len() {
        push_at(alloc, numbers, count, vars, states, i, &mut out)?;
    }
    Ok(out)
}
