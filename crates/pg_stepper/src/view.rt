//! What a statement sees: a version of the log under its transaction's own writes.
ghost use Rattle.std.specs.Prelude.{◌≡◌, None, map, IfOk};
ghost use Rattle.pg_value.specs.Tables.{FitWrites};
ghost use Rattle.pg_core.specs.Versions.{CanFold};
ghost use Rattle.pg_run.specs.Kept.{kept_run};
ghost use Rattle.pg_snap.specs.Kept.{kept_base};
ghost use Rattle.pg_stepper.specs.Seen.{IsSeen, IsUnder, IsViewOf};

use pg_core::Parts;
use pg_run::Run;
use pg_snap::{Base, Snapshot, snapshot_of};
use pg_value::{Shapes, Shared, Writes};
use std::alloc::{AllocError, Global};

/// A snapshot under own writes. Where there are none it takes no memory, and else only want of memory refuses it.
fn under(
    alloc: Global,
    bare: Snapshot,
    writes: &Writes,
    shapes: &Shared<Shapes>,
) -> Result<Snapshot, AllocError>
    requires own { bare.own ≡ None }
    requires same { bare.base.shapes ≡ shapes.now }
    requires fit { FitWrites shapes.now writes.now.list }
    ensures { IfOk result (IsUnder bare writes.now.list) }
{
    if writes.len() == 0 {
        return Ok(bare);
    }
    let mut snapshot = bare;
    snapshot.put_own(Run::own(alloc, writes, shapes)?);
    Ok(snapshot)
}

/// The snapshot of what a pin hands out, under a transaction's own writes, which fit its shapes. Where it stands for a version of
/// a log, the snapshot is that version under these writes. It shares the base and the runs, and takes time in the number of the
/// writes. Only want of memory refuses it, and the parts and the writes stay.
pub fn seen(
    alloc: Global,
    parts: &Parts<Base, Run>,
    writes: &Writes,
) -> Result<Snapshot, AllocError>
    requires parts { CanFold parts.now.at (kept_base parts.now.base) (map kept_run parts.now.runs) }
    requires same { parts.now.base.shapes ≡ parts.now.shapes }
    requires fit { FitWrites parts.now.shapes writes.now.list }
    ensures parts { IfOk result (IsSeen parts.now writes.now.list) }
    ensures view { IfOk result (IsViewOf parts.now writes.now.list) }
{
    let bare = snapshot_of(alloc, parts)?;
    under(alloc, bare, writes, &parts.shapes)
}
