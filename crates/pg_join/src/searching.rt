//! What is kept of a path pattern: from each start, what its selector keeps of the bindings that are allowed.
ghost use Rattle.std.specs.Prelude.{◌≡◌, ◌<◌, ◌≤◌, ◌++◌, true, false, flat_map, IfOk, OnOk};
ghost use Rattle.std.specs.List.{AllZip};
ghost use Rattle.pg_meaning.specs.Outlines.{walks_on as endless};
ghost use Rattle.pg_meaning.specs.Sound.Patterns.{IsSoundPath, outlines};
ghost use Rattle.pg_auto.specs.Autos.{pattern};
ghost use Rattle.pg_auto.specs.Stages.{pattern_of};
ghost use Rattle.pg_join.specs.Selecting.{AreKeptFrom, IsKept};

use crate::endless::walks_on;
use crate::job::Search;
use crate::selecting::selected;
use crate::starts::starts_of;
use pg_ast::Selector;
use pg_auto::{Auto, compile};
use pg_chunks::Steps;
use pg_meaning::{CheckedPath, PathBinding, binding_by_path};
use pg_outside::Spawner;
use pg_search::paths;
use pg_short::{all_shortest_from, any_from, any_shortest_from};
use pg_value::{ElemId, List};
use pg_view::View;
use pg_work::per_start;
use std::alloc::{AllocError, Global};
use std::marker::Brand;
use std::sync::ledger::{Blank, Ledger};

/// The same as `kept_of_walks`, with a counter of its own.
fn kept_counted<V: View, L: Ledger>(
    blank: Blank,
    alloc: Global,
    view: &V,
    path: &CheckedPath,
    auto: &Auto<'_>,
    start: &ElemId,
) -> Result<List<PathBinding>, AllocError>
    requires name { blank.name ≡ L.name }
    requires parts { blank.parts ≡ L.parts }
    requires one { blank.parts ≡ 1 }
    requires automaton { pattern auto.now ≡ pattern_of path.now }
    requires sound { IsSoundPath (V.shapes view.now) path.now }
    requires endless { endless path.now.mode (outlines path.now) ≡ true }
    ensures { IfOk result (AreKeptFrom (V.shapes view.now) (V.tables view.now) path.now start.now) }
{
    let mut steps = Steps::<L>::start(blank);
    match path.selector {
        Selector::Any => any_from(view, alloc, path, auto, start, &mut steps),
        Selector::AnyShortest => any_shortest_from(view, alloc, path, auto, start, &mut steps),
        _ => all_shortest_from(view, alloc, path, auto, start, &mut steps),
    }
}

/// What a selector keeps of walks of every length from a start. A sound path pattern has one where its walks go on, so `Every`
/// does not come.
fn kept_of_walks<V: View>(
    alloc: Global,
    view: &V,
    path: &CheckedPath,
    auto: &Auto<'_>,
    start: &ElemId,
) -> Result<List<PathBinding>, AllocError>
    requires automaton { pattern auto.now ≡ pattern_of path.now }
    requires sound { IsSoundPath (V.shapes view.now) path.now }
    requires endless { endless path.now.mode (outlines path.now) ≡ true }
    ensures { IfOk result (AreKeptFrom (V.shapes view.now) (V.tables view.now) path.now start.now) }
{
    kept_counted::<V, Brand>(Blank::new(1), alloc, view, path, auto, start)
}

/// What a path pattern's selector keeps of the bindings that are allowed from a start, where its walks end by themselves.
fn kept_of_paths<V: View>(
    alloc: Global,
    view: &V,
    path: &CheckedPath,
    auto: &Auto<'_>,
    start: &ElemId,
) -> Result<List<PathBinding>, AllocError>
    requires automaton { pattern auto.now ≡ pattern_of path.now }
    requires sound { IsSoundPath (V.shapes view.now) path.now }
    requires ends { endless path.now.mode (outlines path.now) ≡ false }
    ensures { IfOk result (AreKeptFrom (V.shapes view.now) (V.tables view.now) path.now start.now) }
{
    binding_by_path();
    let found = paths(view, alloc, path, auto, start)?;
    selected(alloc, path.selector, found)
}

/// What a path pattern's selector keeps of the bindings that are allowed from a start.
fn kept_from<V: View>(
    alloc: Global,
    view: &V,
    path: &CheckedPath,
    auto: &Auto<'_>,
    start: &ElemId,
) -> Result<List<PathBinding>, AllocError>
    requires automaton { pattern auto.now ≡ pattern_of path.now }
    requires sound { IsSoundPath (V.shapes view.now) path.now }
    ensures { IfOk result (AreKeptFrom (V.shapes view.now) (V.tables view.now) path.now start.now) }
{
    if walks_on(path) {
        kept_of_walks(alloc, view, path, auto, start)
    } else {
        kept_of_paths(alloc, view, path, auto, start)
    }
}

/// The same from each of some starts, by the tasks of a spawner.
fn kept_from_each<V: View, W: Spawner>(
    alloc: Global,
    view: &V,
    path: &CheckedPath,
    auto: &Auto<'_>,
    starts: &List<ElemId>,
    workers: u32,
    spawner: &W,
) -> Result<List<List<PathBinding>>, AllocError>
    requires low { 0 < workers }
    requires high { workers ≤ 16 }
    requires automaton { pattern auto.now ≡ pattern_of path.now }
    requires sound { IsSoundPath (V.shapes view.now) path.now }
    ensures { IfOk result (AllZip (AreKeptFrom (V.shapes view.now) (V.tables view.now) path.now) starts.now) }
{
    let job = Search {
        from: |start: &ElemId| -> Result<List<PathBinding>, AllocError>
            requires automaton { pattern auto.now ≡ pattern_of path.now }
            requires sound { IsSoundPath (V.shapes view.now) path.now }
            ensures { IfOk result (AreKeptFrom (V.shapes view.entry.now) (V.tables view.entry.now) path.entry.now start.now) }
        { kept_from(alloc, view, path, auto, start) },
    };
    per_start(alloc, starts, workers, &job, spawner)
}

/// The same from each of some starts, one after another.
fn from_each_in_turn<V: View>(
    alloc: Global,
    view: &V,
    path: &CheckedPath,
    starts: &[ElemId],
) -> Result<List<List<PathBinding>>, AllocError>
    requires sound { IsSoundPath (V.shapes view.now) path.now }
    ensures { IfOk result (AllZip (AreKeptFrom (V.shapes view.now) (V.tables view.now) path.now) starts.now) }
{
    let auto = compile(alloc, path)?;
    let mut results = List::new(alloc);
    for start in starts {
        let kept = kept_from(alloc, view, path, &auto, start)?;
        results.push(kept)?;
    }
    Ok(results)
}

/// Appends bindings.
fn push_bindings(bindings: List<PathBinding>, all: &mut List<PathBinding>) -> Result<(), AllocError>
    ensures { OnOk result (all.new ≡ all.old ++ bindings) }
{
    for binding in bindings.into_vec() {
        all.push(binding)?;
    }
    Ok(())
}

/// The bindings of lists, one list behind another.
fn together(
    alloc: Global,
    results: List<List<PathBinding>>,
) -> Result<List<PathBinding>, AllocError>
    ensures { IfOk result (λ all. all ≡ flat_map (λ bindings. bindings) results) }
{
    let mut all = List::new(alloc);
    for bindings in results.into_vec() {
        push_bindings(bindings, &mut all)?;
    }
    Ok(all)
}

/// What the selector of a path pattern keeps of the bindings that are allowed, by the tasks of a spawner.
pub fn kept<V: View, W: Spawner>(
    alloc: Global,
    view: &V,
    path: &CheckedPath,
    workers: u32,
    spawner: &W,
) -> Result<List<PathBinding>, AllocError>
    requires low { 0 < workers }
    requires high { workers ≤ 16 }
    requires sound { IsSoundPath (V.shapes view.now) path.now }
    ensures { IfOk result (IsKept (V.shapes view.now) (V.tables view.now) path.now) }
{
    let starts = starts_of(alloc, view, path)?;
    let auto = compile(alloc, path)?;
    let results = kept_from_each(alloc, view, path, &auto, &starts, workers, spawner)?;
    together(alloc, results)
}

/// What the selector of a path pattern keeps of the bindings that are allowed, without a spawner.
pub fn kept_in_turn<V: View>(
    alloc: Global,
    view: &V,
    path: &CheckedPath,
) -> Result<List<PathBinding>, AllocError>
    requires sound { IsSoundPath (V.shapes view.now) path.now }
    ensures { IfOk result (IsKept (V.shapes view.now) (V.tables view.now) path.now) }
{
    let starts = starts_of(alloc, view, path)?;
    let results = from_each_in_turn(alloc, view, path, starts.as_slice())?;
    together(alloc, results)
}
