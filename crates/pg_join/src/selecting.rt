//! Selectors, over the list of the bindings that are allowed from one start.
ghost use Rattle.std.specs.Prelude.{◌≡◌, ◌∷◌, [], ◌++◌, List, cond, filter, IfOk, OnOk};
ghost use Rattle.std.specs.Option.{option_copied};
ghost use Rattle.indexmap.specs.IndexMap.{get};
ghost use Rattle.pg_keyed.specs.Lists.{Each};
ghost use Rattle.pg_value.specs.declared.shape.ElemId.{ElemId as Element};
ghost use Rattle.pg_value.specs.Graph.{same_elem};
ghost use Rattle.pg_meaning.specs.declared.checked.PathBinding.{PathBinding as Found};
ghost use Rattle.pg_join.specs.Selecting as spec;
ghost use Rattle.pg_join.specs.Selecting.{AreFirsts, AreKept, AreLeast, HasEnd};
ghost use Rattle.pg_join.specs.Ends.{IsLeast, IsNoted, is_known as is_known_in, is_least};

use crate::elements::copy_element;
use indexmap::{IndexMap, IndexSet};
use pg_ast::Selector;
use pg_meaning::PathBinding;
use pg_value::{ElemId, List};
use std::alloc::{AllocError, Global};

/// The last vertex of a path, None exactly where it has no vertices.
fn end_of(binding: &PathBinding) -> Option<&ElemId>
    ensures { option_copied result ≡ spec.end_of binding.now }
{
    binding.vertices.as_slice().last()
}

/// Whether a length that is no greater is known for a last vertex.
fn is_known(least: &IndexMap<ElemId, usize>, end: &ElemId, length: usize) -> bool
    ensures { result ≡ is_known_in (get same_elem least.now end.now) length }
{
    match least.get(end) {
        Some(known) => *known <= length,
        None => false,
    }
}

/// Notes a length for a last vertex.
fn put_length(
    least: &mut IndexMap<ElemId, usize>,
    end: ElemId,
    length: usize,
) -> Result<(), AllocError>
    ensures { OnOk result ((e : Element) → get same_elem least.new e ≡ cond (same_elem end e) (Some length) (get same_elem least.old e)) }
{
    match least.insert(end, length) {
        Ok(_) => Ok(()),
        Err(_) => Err(AllocError),
    }
}

/// Notes the length of a binding for its last vertex, where no shorter one is noted.
fn note_length(
    alloc: Global,
    least: &mut IndexMap<ElemId, usize>,
    binding: &PathBinding,
) -> Result<(), AllocError>
    ensures { OnOk result ((all : List Found) → ((e : Element) → IsLeast all e (get same_elem least.old e)) → (e : Element) → IsLeast (all ++ binding.now ∷ []) e (get same_elem least.new e)) }
{
    let Some(end) = end_of(binding) else {
        return Ok(());
    };
    let length = binding.edges.len();
    if is_known(least, end, length) {
        return Ok(());
    }
    let end = copy_element(alloc, end)?;
    put_length(least, end, length)
}

/// The least length of the bindings with each last vertex.
fn least_lengths(
    alloc: Global,
    found: &[PathBinding],
) -> Result<IndexMap<ElemId, usize>, AllocError>
    ensures { IfOk result (λ least. (e : Element) → IsLeast found.now e (get same_elem least e)) }
{
    let mut least = IndexMap::new(alloc);
    for binding in found {
        note_length(alloc, &mut least, binding)?;
    }
    Ok(least)
}

/// Whether a binding is no longer than the least length that is known for its last vertex.
fn has_least(least: &IndexMap<ElemId, usize>, binding: &PathBinding) -> bool
    ensures { result ≡ is_least (λ e. get same_elem least.now e) binding.now }
{
    let Some(end) = end_of(binding) else {
        return false;
    };
    match least.get(end) {
        Some(known) => binding.edges.len() <= *known,
        None => false,
    }
}

/// Those that have the least length that is known for their last vertex.
fn having_least(
    alloc: Global,
    least: &IndexMap<ElemId, usize>,
    found: List<PathBinding>,
) -> Result<List<PathBinding>, AllocError>
    ensures { IfOk result (λ kept. kept ≡ filter (is_least (λ e. get same_elem least.now e)) found) }
{
    let mut kept = List::new(alloc);
    for binding in found.into_vec() {
        if has_least(least, &binding) {
            kept.push(binding)?;
        }
    }
    Ok(kept)
}

/// Those of least length, for each last vertex.
fn least_of_each(alloc: Global, found: List<PathBinding>) -> Result<List<PathBinding>, AllocError>
    requires { Each HasEnd found }
    ensures { IfOk result (AreLeast found) }
{
    let least = least_lengths(alloc, found.as_slice())?;
    having_least(alloc, &least, found)
}

/// Notes the last vertex of a binding, and whether it was not noted before.
fn note_end(
    alloc: Global,
    ends: &mut IndexSet<ElemId>,
    binding: &PathBinding,
) -> Result<bool, AllocError>
    ensures { IfOk result (λ new. IsNoted ends.old.keys (spec.end_of binding.now) new ends.new.keys) }
{
    let Some(end) = end_of(binding) else {
        return Ok(false);
    };
    if ends.contains(end) {
        return Ok(false);
    }
    let end = copy_element(alloc, end)?;
    match ends.insert(end) {
        Ok(_) => Ok(true),
        Err(_) => Err(AllocError),
    }
}

/// Those whose last vertices are not noted before them.
fn with_new_ends(
    alloc: Global,
    ends: &mut IndexSet<ElemId>,
    found: List<PathBinding>,
) -> Result<List<PathBinding>, AllocError>
    requires none { ends.old.keys ≡ [] }
    requires ends { Each HasEnd found }
    ensures { IfOk result (AreFirsts found) }
{
    let mut kept = List::new(alloc);
    for binding in found.into_vec() {
        if note_end(alloc, ends, &binding)? {
            kept.push(binding)?;
        }
    }
    Ok(kept)
}

/// One for each last vertex.
fn first_of_each(alloc: Global, found: List<PathBinding>) -> Result<List<PathBinding>, AllocError>
    requires { Each HasEnd found }
    ensures { IfOk result (AreFirsts found) }
{
    let mut ends = IndexSet::new(alloc);
    with_new_ends(alloc, &mut ends, found)
}

/// What a selector keeps of the bindings from one start.
pub fn selected(
    alloc: Global,
    selector: Selector,
    found: List<PathBinding>,
) -> Result<List<PathBinding>, AllocError>
    requires { Each HasEnd found }
    ensures { IfOk result (AreKept selector found) }
{
    match selector {
        Selector::Every => Ok(found),
        Selector::Any => first_of_each(alloc, found),
        Selector::AnyShortest => {
            let least = least_of_each(alloc, found)?;
            first_of_each(alloc, least)
        }
        Selector::AllShortest => least_of_each(alloc, found),
    }
}
