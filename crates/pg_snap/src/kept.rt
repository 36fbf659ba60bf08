//! Bases as the core keeps them, and snapshots of what it hands out.
ghost use Rattle.std.specs.Prelude.{◌≡◌, ◌≤◌, ◌+◌, ◌∷◌, ◌++◌, length, map, true, IfOk, OnOk};
ghost use Rattle.pg_meaning.specs.Sound.Graphs.{AreSoundShapes};
ghost use Rattle.pg_core.specs.Versions.{CanFold, Extends, Follows, put_runs};
ghost use Rattle.pg_run.specs.Kept.{kept_run};
ghost use Rattle.pg_snap.specs.Kept.{IsJoined, IsOfParts, IsVersionOf, kept_base, oldest_first};

use crate::{Base, SnapBuf, Snapshot};
use pg_core::Parts;
use pg_run::Run;
use pg_value::{Shapes, Shared};
use pg_view::lists_are_tables;
use std::alloc::{AllocError, Global};

/// One run of runs that follow one another, newest first. Only want of memory refuses it, and all stay.
fn joined(alloc: Global, newest: &Run, next: &Run, older: &[Shared<Run>]) -> Result<Run, AllocError>
    requires { Follows (kept_run newest.now) (kept_run next.now ∷ map kept_run older.now) }
    ensures { IfOk result (IsJoined (kept_run newest.now) (kept_run next.now ∷ map kept_run older.now)) }
{
    newest.well_made();
    next.well_made();
    let both = Run::merge(alloc, next, newest)?;
    match older {
        [] => Ok(both),
        [next, older @ ..] => joined(alloc, &both, next.get(), older),
    }
}

/// A base under runs that follow it, newest first. Only want of memory refuses it, and all stay.
fn under(alloc: Global, old: &Base, newest: &Run, older: &[Shared<Run>]) -> Result<Base, AllocError>
    requires { CanFold newest.now.last (kept_base old.now) (kept_run newest.now ∷ map kept_run older.now) }
    ensures { IfOk result (λ base. base ≡ record { shapes = old.now.shapes; no = newest.now.last; tables = put_runs old.now.tables (kept_run newest.now ∷ map kept_run older.now) }) }
{
    match older {
        [] => old.merged(alloc, newest),
        [next, older @ ..] => {
            let run = joined(alloc, newest, next.get(), older)?;
            old.merged(alloc, &run)
        }
    }
}

/// Whether shapes that extend others are the same.
fn are_same(old: &Shapes, new: &Shapes) -> bool
    requires { Extends old.now new.now }
    ensures { result ≡ true → old.now ≡ new.now }
{
    old.tables.len() == new.tables.len() && old.edges.len() == new.edges.len()
}

/// A base for shapes that extend its own.
fn for_shapes(alloc: Global, base: Base, shapes: &Shared<Shapes>) -> Result<Base, AllocError>
    requires sound { AreSoundShapes shapes.now }
    requires extends { Extends base.shapes shapes.now }
    ensures { IfOk result (λ b. b ≡ record { shapes = shapes.now; no = base.no; tables = base.tables }) }
{
    base.well_made();
    if are_same(base.shapes(), shapes.get()) {
        Ok(base)
    } else {
        base.reshaped(alloc, shapes)
    }
}

impl pg_core::Base<Run> for Base {
    ghost use Rattle.pg_meaning.specs.Sound.Graphs.{AreSoundShapes};
    ghost use Rattle.pg_snap.specs.Kept.{kept_base};

    ghost base = { kept_base };

    ghost sound = { AreSoundShapes };

    fn first(alloc: Global, shapes: &Shared<Shapes>) -> Result<Base, AllocError> {
        lists_are_tables();
        Base::build(alloc, Vec::new(alloc), 0, shapes)
    }

    fn fold(
        alloc: Global,
        old: &Base,
        runs: &[Shared<Run>],
        _at: u64,
        shapes: &Shared<Shapes>,
    ) -> Result<Base, AllocError> {
        match runs {
            [] => {
                old.well_made();
                old.reshaped(alloc, shapes)
            }
            [newest, older @ ..] => {
                let base = under(alloc, old, newest.get(), older)?;
                for_shapes(alloc, base, shapes)
            }
        }
    }

    fn well_made(&self) {
        self.well_made()
    }
}

/// Adds runs, newest first, behind all others, so that the oldest stands first. After a refusal some of them are added.
fn push_all(buf: &mut SnapBuf, runs: &[Shared<Run>]) -> Result<(), AllocError>
    requires { length buf.old + length runs.now ≤ 9 }
    ensures { OnOk result (buf.new ≡ buf.old ++ oldest_first runs.now) }
{
    match runs {
        [] => Ok(()),
        [run, older @ ..] => {
            push_all(buf, older)?;
            buf.push(run.share()?);
            Ok(())
        }
    }
}

/// The snapshot of what a pin or a build hands out, without own writes. Where this stands for a version of a log, the snapshot is
/// that version. It shares the base and the runs. Only want of memory refuses it, and the parts stay.
pub fn snapshot_of(alloc: Global, parts: &Parts<Base, Run>) -> Result<Snapshot, AllocError>
    requires { CanFold parts.now.at (kept_base parts.now.base) (map kept_run parts.now.runs) }
    ensures parts { IfOk result (IsOfParts parts.now) }
    ensures version { IfOk result (IsVersionOf parts.now) }
{
    let mut buf = SnapBuf::new(alloc)?;
    push_all(&mut buf, parts.runs.as_slice())?;
    Ok(Snapshot::new(parts.base.share()?, buf, parts.at))
}
