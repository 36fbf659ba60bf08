//! The spots that are visited.
ghost use Rattle.std.specs.Prelude.{◌≡◌, map, slice_get, Some, Contains, IfOk, IfSome, IfNone};
ghost use Rattle.pg_short.specs.Steps.{spot_view};
ghost use Rattle.pg_short.specs.Visits.{IsAdded};

use crate::spots::Spot;
use indexmap::IndexSet;
use std::alloc::{AllocError, Global};

/// Puts a spot behind the others, where it is not among them, and says whether it was put.
pub fn put(spots: &mut IndexSet<Spot>, spot: Spot) -> Result<bool, AllocError>
    ensures { IfOk result (λ new. IsAdded (map spot_view spots.old.keys) (spot_view spot) (map spot_view spots.new.keys) new) }
{
    let new = spots.insert(spot)?;
    Ok(new)
}

/// The place of a spot among those that are visited; None exactly where it is not among them.
pub fn place_of(spots: &IndexSet<Spot>, spot: &Spot) -> Option<usize>
    ensures some { IfSome result (λ p. slice_get (map spot_view spots.now.keys) p ≡ Some (spot_view spot.now)) }
    ensures none { IfNone result (Contains (map spot_view spots.now.keys) (spot_view spot.now) → ⊥) }
{
    spots.get_index_of(spot)
}
