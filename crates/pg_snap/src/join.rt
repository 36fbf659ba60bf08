//! The base of a snapshot's version.
ghost use Rattle.std.specs.Prelude.{◌≡◌, ◌∷◌, length, IfOk};
ghost use Rattle.std.specs.declared.option.Option.TheVariants.{None};
ghost use Rattle.pg_snap.specs.Snapshots.{AreFor, tables_of};
ghost use Rattle.pg_snap.specs.Joins.{Follow, IsOne};

use crate::{Base, Snapshot};
use pg_run::Run;
use pg_value::Shared;
use std::alloc::{AllocError, Global};

/// Two runs and more, which follow one another and were made for the same shapes, as one. The newest are put together first, so
/// where each run is at least as long as all behind it, none of the writes is copied more often than twice for each run before.
fn as_one(alloc: Global, older: &Run, next: &Run, more: &[Shared<Run>]) -> Result<Run, AllocError>
    requires shapes { AreFor older.now.shapes (next.now ∷ more.now) }
    requires follow { Follow older.now (next.now ∷ more.now) }
    ensures { IfOk result (IsOne older.now (next.now ∷ more.now)) }
{
    older.well_made();
    next.well_made();
    match more {
        [] => Run::merge(alloc, older, next),
        [newer, rest @ ..] => {
            let newest = as_one(alloc, next, newer.get(), rest)?;
            newest.well_made();
            Run::merge(alloc, older, &newest)
        }
    }
}

/// The base of a snapshot's version, where there are no own writes: that of the snapshot under the writes of its runs, which are
/// put together first. It shares what no write touches. Only want of memory refuses it, and the snapshot stays.
pub fn folded(alloc: Global, snapshot: &Snapshot) -> Result<Base, AllocError>
    requires { snapshot.now.own ≡ None }
    ensures { IfOk result (λ base. base ≡ record { shapes = snapshot.now.base.shapes; no = snapshot.now.at; tables = tables_of snapshot.now }) }
{
    snapshot.fits();
    let base = snapshot.base();
    match snapshot.runs() {
        [] => base.share(alloc),
        [oldest, runs @ ..] => match runs {
            [] => base.merged(alloc, oldest.get()),
            [next, more @ ..] => {
                let run = as_one(alloc, oldest.get(), next.get(), more)?;
                base.merged(alloc, &run)
            }
        },
    }
}
