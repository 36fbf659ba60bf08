//! Path patterns are joined by the elements of the variables that they share.
ghost use Rattle.std.specs.Prelude.{◌≡◌, ◌≤◌, ◌∷◌, [], ◌++◌, cond, map, length, take, IfOk, OnOk};
ghost use Rattle.std.specs.Cmp.Lexicographic.{pointwise};
ghost use Rattle.std.specs.List.{AllZip};
ghost use Rattle.indexmap.specs.IndexMap.{get_by, insert_entry};
ghost use Rattle.pg_value.specs.Graph.{same_elem};
ghost use Rattle.pg_join.specs.Joining as spec;
ghost use Rattle.pg_join.specs.Joining.{AreJoined, AreOf};
ghost use Rattle.pg_join.specs.Tuples.{IsIndex};

use crate::lists::{agrees, key_of, shared_variables};
use indexmap::IndexMap;
use pg_meaning::{CheckedPath, PathBinding};
use pg_value::{ElemId, List};
use std::alloc::{AllocError, Global};
use std::slice;

/// The bindings of a path pattern by the elements that they have of some variables: the place of the last that has these, and
/// for each place that of the one before it that has the same.
#[derive(Drop)]
struct Index {
    last: IndexMap<Vec<ElemId>, usize>,
    before: List<Option<usize>>,
}

/// What is joined to tuples: bindings of a path pattern, the path patterns before it, and the variables that it shares with
/// these.
#[derive(Clone, Copy)]
struct Joint<'v, 'b, 'p, 'a> {
    vars: &'v [u32],
    before: &'b [CheckedPath],
    path: &'p CheckedPath,
    kept: &'a [PathBinding],
}

/// Puts a place as the last of its key, and gives the one that was.
fn put_last(
    last: &mut IndexMap<Vec<ElemId>, usize>,
    key: Vec<ElemId>,
    place: usize,
) -> Result<Option<usize>, AllocError>
    ensures old { IfOk result (λ old. old ≡ get_by (λ k. pointwise same_elem key.items k.items) last.old) }
    ensures new { OnOk result (last.new.entries ≡ insert_entry (λ x y. pointwise same_elem x.items y.items) last.old.entries key place) }
{
    match last.insert(key, place) {
        Ok(old) => Ok(old),
        Err(_) => Err(AllocError),
    }
}

/// The elements that a binding has of some variables.
fn own_key(
    alloc: Global,
    vars: &[u32],
    path: &CheckedPath,
    binding: &PathBinding,
) -> Result<Vec<ElemId>, AllocError>
    ensures { IfOk result (λ key. key.items ≡ spec.key_of vars.now (path.now ∷ []) (binding.now ∷ [])) }
{
    key_of(
        alloc,
        vars,
        slice::from_ref(path),
        slice::from_ref(&binding),
    )
}

/// The bindings of a path pattern by their elements of some variables.
fn indexed(
    alloc: Global,
    vars: &[u32],
    path: &CheckedPath,
    kept: &[PathBinding],
) -> Result<Index, AllocError>
    ensures { IfOk result (λ index. IsIndex vars.now path.now kept.now (λ ks. get_by (λ k. pointwise same_elem ks k.items) index.last) index.before) }
{
    let mut last = IndexMap::new(alloc);
    let mut before = List::new(alloc);
    for (place, binding) in kept.iter().enumerate() {
        let key = own_key(alloc, vars, path, binding)?;
        let known = put_last(&mut last, key, place)?;
        before.push(known)?;
    }
    Ok(Index { last, before })
}

/// A tuple with one binding more.
fn longer<'a>(
    alloc: Global,
    tuple: &[&'a PathBinding],
    binding: &'a PathBinding,
) -> Result<List<&'a PathBinding>, AllocError>
    ensures { IfOk result (λ more. map (λ b. b.now) more ≡ spec.longer (map (λ b. b.now) tuple.now) binding.now) }
{
    let mut more = List::with_room(alloc, tuple.len())?;
    for own in tuple {
        more.push(*own)?;
    }
    more.push(binding)?;
    Ok(more)
}

/// Appends a tuple with one binding more, where the binding agrees with it.
fn push_agreeing<'a>(
    alloc: Global,
    joint: Joint<'_, '_, '_, 'a>,
    tuple: &[&'a PathBinding],
    binding: &'a PathBinding,
    out: &mut Vec<List<&'a PathBinding>>,
) -> Result<(), AllocError>
    ensures { OnOk result (map (λ t. map (λ b. b.now) t) out.new.items ≡ map (λ t. map (λ b. b.now) t) out.old.items ++ cond (spec.agrees joint.entry.vars.now joint.entry.before.now (map (λ b. b.now) tuple.now) joint.entry.path.now binding.now) (spec.longer (map (λ b. b.now) tuple.now) binding.now ∷ []) []) }
{
    if agrees(joint.vars, joint.before, tuple, joint.path, binding) {
        let more = longer(alloc, tuple, binding)?;
        out.push(more)?;
    }
    Ok(())
}

/// Appends a tuple with each binding that agrees with it.
fn push_longer<'a>(
    alloc: Global,
    joint: Joint<'_, '_, '_, 'a>,
    index: &Index,
    tuple: &[&'a PathBinding],
    out: &mut Vec<List<&'a PathBinding>>,
) -> Result<(), AllocError>
    requires { IsIndex joint.vars.now joint.path.now joint.kept.now (λ ks. get_by (λ k. pointwise same_elem ks k.items) index.now.last) index.now.before }
    ensures { OnOk result (map (λ t. map (λ b. b.now) t) out.new.items ≡ map (λ t. map (λ b. b.now) t) out.old.items ++ spec.longer_by joint.entry.vars.now joint.entry.before.now joint.entry.path.now joint.entry.kept.now (map (λ b. b.now) tuple.now)) }
{
    let key = key_of(alloc, joint.vars, joint.before, tuple)?;
    let mut at = index.last.get(key.as_slice()).copied();
    while let Some(place) = at {
        push_agreeing(alloc, joint, tuple, &joint.kept[place], out)?;
        at = *index.before.at(place);
    }
    Ok(())
}

/// Each tuple with each binding of the next path pattern that agrees with it.
fn extended<'a>(
    alloc: Global,
    before: &[CheckedPath],
    path: &CheckedPath,
    kept: &'a [PathBinding],
    tuples: &[List<&'a PathBinding>],
) -> Result<Vec<List<&'a PathBinding>>, AllocError>
    ensures { IfOk result (λ more. map (λ t. map (λ b. b.now) t) more.items ≡ spec.extended before.now path.now kept.now (map (λ t. map (λ b. b.now) t) tuples.now)) }
{
    let shared = shared_variables(alloc, before, path)?;
    let vars = shared.as_slice();
    let index = indexed(alloc, vars, path, kept)?;
    let joint = Joint {
        vars,
        before,
        path,
        kept,
    };
    let mut out = Vec::new(alloc);
    for tuple in tuples {
        push_longer(alloc, joint, &index, tuple.as_slice(), &mut out)?;
    }
    Ok(out)
}

/// The first path patterns, as many as `count`.
fn front(paths: &[CheckedPath], count: usize) -> &[CheckedPath]
    requires { count ≤ length paths.now }
    ensures { result.now ≡ take count paths.now }
{
    &paths[..count]
}

/// The tuple of no path pattern.
fn no_bindings<'a>(alloc: Global) -> Result<Vec<List<&'a PathBinding>>, AllocError>
    ensures { IfOk result (λ tuples. map (λ t. map (λ b. b.now) t) tuples.items ≡ [] ∷ []) }
{
    let mut tuples = Vec::new(alloc);
    tuples.push(List::new(alloc))?;
    Ok(tuples)
}

/// The tuples of one binding of each path pattern that agree on the variables that they share. `kept` has the bindings of each
/// path pattern, each once.
pub fn joined<'a>(
    alloc: Global,
    paths: &[CheckedPath],
    kept: &'a [List<PathBinding>],
) -> Result<Vec<List<&'a PathBinding>>, AllocError>
    requires { AllZip AreOf paths.now kept.now }
    ensures { IfOk result (λ tuples. AreJoined paths.now kept.now (map (λ t. map (λ b. b.now) t) tuples.items)) }
{
    let mut tuples = no_bindings(alloc)?;
    for (at, path) in paths.iter().enumerate() {
        tuples = extended(
            alloc,
            front(paths, at),
            path,
            kept[at].as_slice(),
            tuples.as_slice(),
        )?;
    }
    Ok(tuples)
}
