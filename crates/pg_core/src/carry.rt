//! One run more, beside runs by powers of two.
ghost use Rattle.std.specs.Prelude.{◌≡◌, ◌∷◌, [], map, IfOk};
ghost use Rattle.pg_core.specs.Versions.{Follows, carry, span};

use crate::Run;
use pg_value::{List, Shared};
use std::alloc::{AllocError, Global};

/// How many versions a run is of.
fn span_of<R: Run>(run: &Shared<R>) -> u64
    ensures { result ≡ span (R.run run.now) }
{
    run.get().last().saturating_sub(run.get().after())
}

/// These runs, shared.
pub fn shared<R: Run>(alloc: Global, runs: &[Shared<R>]) -> Result<List<Shared<R>>, AllocError>
    ensures { IfOk result (λ all. all ≡ runs.now) }
{
    let mut all = List::with_room(alloc, runs.len())?;
    for run in runs {
        all.push(run.share()?)?;
    }
    Ok(all)
}

/// One run.
pub fn alone<R: Run>(alloc: Global, run: Shared<R>) -> Result<List<Shared<R>>, AllocError>
    ensures { IfOk result (λ all. all ≡ run ∷ []) }
{
    let mut all = List::with_room(alloc, 1)?;
    all.push(run)?;
    Ok(all)
}

/// These runs, of which the first is handed in and the others are shared.
fn listed<R: Run>(
    alloc: Global,
    first: Shared<R>,
    others: &[Shared<R>],
) -> Result<List<Shared<R>>, AllocError>
    ensures { IfOk result (λ all. all ≡ first ∷ others.now) }
{
    let mut all = List::with_room(alloc, others.len() + 1)?;
    all.push(first)?;
    for other in others {
        all.push(other.share()?)?;
    }
    Ok(all)
}

/// The runs, newest first, with one run more, which is merged with the newest of them while both are of equally many versions.
/// The runs stay, and those that no merge takes are shared. Only want of memory refuses it.
pub fn carried<R: Run>(
    alloc: Global,
    runs: &[Shared<R>],
    run: Shared<R>,
) -> Result<List<Shared<R>>, AllocError>
    requires { Follows (R.run run) (map R.run runs.now) }
    ensures { IfOk result (λ all. map R.run all ≡ carry (R.run run) (map R.run runs.now)) }
{
    match runs {
        [newest, older @ ..] => {
            if span_of(newest) != span_of(&run) {
                return listed(alloc, run, runs);
            }
            let merged = R::merge(alloc, newest.get(), run.get())?;
            carried(alloc, older, Shared::new(alloc, merged)?)
        }
        [] => listed(alloc, run, runs),
    }
}
