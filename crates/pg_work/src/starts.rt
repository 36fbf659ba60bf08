//! The work for all starts.
ghost use Rattle.std.specs.Prelude.{◌≡◌, ◌<◌, ◌≤◌, IfOk};
ghost use Rattle.std.specs.List.{AllZip};
ghost use Rattle.pg_keyed.specs.Lists.{Each};
ghost use Rattle.pg_work.specs.Parts.{AreParts};

use crate::StartJob;
use crate::stretch::{Stretch, stretches};
use pg_outside::{Spawner, Task};
use pg_value::{ElemId, List};
use std::alloc::{AllocError, Global};

/// Lists, one after another, unless one of them was refused.
fn joined<T: Drop>(
    alloc: Global,
    parts: List<Result<List<T>, AllocError>>,
) -> Result<List<T>, AllocError>
    ensures { IfOk result (AreParts parts) }
{
    let mut made = Vec::new(alloc);
    'parts: for part in parts.into_vec() {
        made.append(&mut part?.into_vec())?;
    }
    Ok(List::from_vec(made))
}

/// What the job gives for each start, in the order of the starts. The starts are cut into at most `workers` stretches that
/// follow one another, each of them work for one task of the spawner. Only want of memory refuses it, the job's and the
/// spawner's too; what other tasks gave is then dropped. It returns if the spawner's tasks do.
pub fn per_start<J: StartJob, W: Spawner>(
    alloc: Global,
    starts: &List<ElemId>,
    workers: u32,
    job: &J,
    spawner: &W,
) -> Result<List<J::Out>, AllocError>
    requires low { 0 < workers }
    requires high { workers ≤ 16 }
    requires accepted { Each (J.accepts job.now) starts.now }
    ensures { IfOk result (AllZip (J.promise job.now) starts.now) }
{
    let tasks = stretches(alloc, starts.as_slice(), workers, job)?;
    let parts = spawner.each(alloc, tasks)?;
    joined(alloc, parts)
}

/// The same in the caller's thread alone, for callers that have no spawner.
pub fn in_turn<J: StartJob>(
    alloc: Global,
    starts: &List<ElemId>,
    job: &J,
) -> Result<List<J::Out>, AllocError>
    requires { Each (J.accepts job.now) starts.now }
    ensures { IfOk result (AllZip (J.promise job.now) starts.now) }
{
    let all = Stretch {
        alloc,
        job,
        starts: starts.as_slice(),
    };
    all.run()
}
