//! Starts that follow one another, for which one task does the work.
ghost use Rattle.std.specs.Prelude.{◌≡◌, ◌<◌, ◌≤◌, IfOk, length};
ghost use Rattle.std.specs.List.{flat_map};
ghost use Rattle.pg_keyed.specs.Lists.{Each};

use crate::StartJob;
use pg_outside::Task;
use pg_value::{ElemId, List};
use std::alloc::{AllocError, Global};

/// Some of the starts, which follow one another, and the job that is done for each of them.
#[derive(Drop)]
pub struct Stretch<'a, J: StartJob> {
    pub alloc: Global,
    pub job: &'a J,
    pub starts: &'a [ElemId],
}

/// It is ready where the job accepts each of its starts, and gives what the job promises for each, in their order.
impl<J: StartJob> Task for Stretch<'_, J> {
    type Out = Result<List<J::Out>, AllocError>;

    ghost use Rattle.std.specs.Prelude.{IfOk};
    ghost use Rattle.std.specs.List.{AllZip};
    ghost use Rattle.pg_keyed.specs.Lists.{Each};

    ghost ready = { λ s. Each (J.accepts s.job.now) s.starts.now };

    ghost promise = { λ s made. IfOk made (AllZip (J.promise s.job.now) s.starts.now) };

    fn run(self) -> Result<List<J::Out>, AllocError> {
        let mut made = Vec::with_capacity(self.alloc, self.starts.len())?;
        'starts: for start in self.starts {
            made.push(self.job.run(start)?)?;
        }
        Ok(List::from_vec(made))
    }
}

/// How many of so many starts the next of so many stretches gets: an equal share, rounded up.
fn share(starts: usize, stretches: u32) -> usize
    requires { 0 < stretches }
    ensures within { result ≤ starts }
    ensures last { stretches ≡ 1 → result ≡ starts }
{
    starts.div_ceil(stretches as usize).min(starts)
}

/// The starts in stretches that follow one another, at most so many.
pub fn stretches<'a, J: StartJob>(
    alloc: Global,
    starts: &'a [ElemId],
    most: u32,
    job: &'a J,
) -> Result<List<Stretch<'a, J>>, AllocError>
    requires some { 0 < most }
    requires accepted { Each (J.accepts job.now) starts.now }
    ensures whole { IfOk result (λ made. flat_map (λ s. s.starts.now) made ≡ starts.now) }
    ensures job { IfOk result (Each (λ s. s.job.now ≡ job.now)) }
    ensures ready { IfOk result (Each (λ s. Each (J.accepts s.job.now) s.starts.now)) }
    ensures few { IfOk result (λ made. length made ≤ most) }
{
    let mut made = Vec::new(alloc);
    let mut rest = starts;
    let mut left = most;
    'stretches: while !rest.is_empty() {
        let (starts, behind) = rest.split_at(share(rest.len(), left));
        made.push(Stretch { alloc, job, starts })?;
        rest = behind;
        left -= 1;
    }
    Ok(List::from_vec(made))
}
