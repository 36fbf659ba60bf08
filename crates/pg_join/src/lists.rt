//! What tuples of bindings say of variables.
ghost use Rattle.std.specs.Prelude.{◌≡◌, ◌∷◌, [], ◌++◌, ◌==◌, map, filter, IfOk, OnOk};
ghost use Rattle.std.specs.List.{list_any};
ghost use Rattle.std.specs.Option.{option_copied, unwrap_or};
ghost use Rattle.pg_join.specs.Joining as spec;

use crate::elements::copy_element;
use pg_meaning::{CheckedPath, PathBinding};
use pg_value::{ElemId, List};
use std::alloc::{AllocError, Global};
use std::slice;

/// The list of a variable among those of a path pattern's variables, None exactly where it has none.
fn list_in<'a>(vars: &[u32], lists: &'a [List<ElemId>], var: u32) -> Option<&'a List<ElemId>>
    ensures { option_copied result ≡ spec.list_in vars.now lists.now var }
{
    if let [first, vars @ ..] = vars {
        if let [list, lists @ ..] = lists {
            if *first == var {
                return Some(list);
            }
            return list_in(vars, lists, var);
        }
    }
    None
}

/// The first list that a tuple has of a variable, None exactly where it has none.
pub fn list_of<'a>(
    paths: &[CheckedPath],
    tuple: &[&'a PathBinding],
    var: u32,
) -> Option<&'a List<ElemId>>
    ensures { option_copied result ≡ spec.list_of paths.now (map (λ b. b.now) tuple.now) var }
{
    if let [path, paths @ ..] = paths {
        if let [binding, tuple @ ..] = tuple {
            return match list_in(path.vars.as_slice(), binding.vars.as_slice(), var) {
                Some(list) => Some(list),
                None => list_of(paths, tuple, var),
            };
        }
    }
    None
}

/// Whether some numbers have one.
fn has_number(numbers: &[u32], number: u32) -> bool
    ensures { result ≡ list_any (λ y. y == number) numbers.now }
{
    for own in numbers {
        if *own == number {
            return true;
        }
    }
    false
}

/// Whether a variable is one of some path patterns.
fn occurs(paths: &[CheckedPath], var: u32) -> bool
    ensures { result ≡ spec.occurs paths.now var }
{
    for path in paths {
        if has_number(path.vars.as_slice(), var) {
            return true;
        }
    }
    false
}

/// The variables of a path pattern that earlier ones have.
pub fn shared_variables(
    alloc: Global,
    before: &[CheckedPath],
    path: &CheckedPath,
) -> Result<List<u32>, AllocError>
    ensures { IfOk result (λ vars. vars ≡ spec.shared before.now path.now) }
{
    let mut vars = List::new(alloc);
    for var in path.vars.as_slice() {
        if occurs(before, *var) {
            vars.push(*var)?;
        }
    }
    Ok(vars)
}

/// Appends copies of the elements of a list, where there is one.
fn push_list(
    alloc: Global,
    key: &mut Vec<ElemId>,
    list: Option<&List<ElemId>>,
) -> Result<(), AllocError>
    ensures { OnOk result (key.new.items ≡ key.old.items ++ unwrap_or (option_copied list.entry) []) }
{
    if let Some(list) = list {
        push_elements(alloc, key, list.as_slice())?;
    }
    Ok(())
}

/// Appends copies of elements.
fn push_elements(
    alloc: Global,
    key: &mut Vec<ElemId>,
    elements: &[ElemId],
) -> Result<(), AllocError>
    ensures { OnOk result (key.new.items ≡ key.old.items ++ elements.now) }
{
    for element in elements {
        key.push(copy_element(alloc, element)?)?;
    }
    Ok(())
}

/// The elements that a tuple has of some variables, one list behind another.
pub fn key_of(
    alloc: Global,
    vars: &[u32],
    paths: &[CheckedPath],
    tuple: &[&PathBinding],
) -> Result<Vec<ElemId>, AllocError>
    ensures { IfOk result (λ key. key.items ≡ spec.key_of vars.now paths.now (map (λ b. b.now) tuple.now)) }
{
    let mut key = Vec::new(alloc);
    for var in vars {
        push_list(alloc, &mut key, list_of(paths, tuple, *var))?;
    }
    Ok(key)
}

/// Whether two lists are equal, or neither is there.
fn same_list(a: Option<&List<ElemId>>, b: Option<&List<ElemId>>) -> bool
    ensures { result ≡ spec.same_list (option_copied a.entry) (option_copied b.entry) }
{
    match a {
        Some(a) => match b {
            Some(b) => a.as_slice() == b.as_slice(),
            None => false,
        },
        None => b.is_none(),
    }
}

/// Whether a binding has the lists that a tuple has of some variables.
pub fn agrees(
    vars: &[u32],
    before: &[CheckedPath],
    tuple: &[&PathBinding],
    path: &CheckedPath,
    binding: &PathBinding,
) -> bool
    ensures { result ≡ spec.agrees vars.now before.now (map (λ b. b.now) tuple.now) path.now binding.now }
{
    for var in vars {
        let own = list_of(slice::from_ref(path), slice::from_ref(&binding), *var);
        if !same_list(list_of(before, tuple, *var), own) {
            return false;
        }
    }
    true
}
