//! How versions are kept: what a base and a run have to offer.
ghost use Rattle.std.specs.Prelude.{◌≡◌, ◌≤◌, ◌-◌, [], map, IfOk};
ghost use Rattle.pg_value.specs.declared.shape.Shapes.{Shapes};
ghost use Rattle.pg_value.specs.Tables.{FitWrites};
ghost use Rattle.pg_core.specs.Versions.{BaseOf, RunOf, CanFold, Extends, joined, put_runs};

use pg_value::{Shapes, Shared, Writes};
use std::alloc::{AllocError, Global};

/// The writes of versions that follow one another, as one list, in which the last write of each place stands.
pub trait Run: Drop {
    ghost run: { Self → RunOf };

    /// The run of one version, from 1, and of what its commit wrote. Only want of memory refuses it.
    fn of(
        alloc: Global,
        writes: &Writes,
        at: u64,
        shapes: &Shared<Shapes>,
    ) -> Result<Self, AllocError>
        requires first { 1 ≤ at }
        requires fit { FitWrites shapes.now writes.now.list }
        ensures { IfOk result (λ r. run r ≡ record { shapes = shapes.now; after = at - 1; last = at; writes = writes.now.list }) };

    /// The run of the versions of both. Only want of memory refuses it, and both stay.
    fn merge(alloc: Global, older: &Self, newer: &Self) -> Result<Self, AllocError>
        requires shapes { (run older.now).shapes ≡ (run newer.now).shapes }
        requires follows { (run older.now).last ≡ (run newer.now).after }
        ensures { IfOk result (λ r. run r ≡ joined (run older.now) (run newer.now)) };

    /// The version after which the run begins.
    fn after(&self) -> u64
        ensures { result ≡ (run self.now).after };

    /// The last version of the run.
    fn last(&self) -> u64
        ensures { result ≡ (run self.now).last };
}

/// The tables of a version, in which rows and the edges at a vertex are found.
pub trait Base<R: Run>: Drop {
    ghost base: { Self → BaseOf };

    /// Shapes for which bases may be made.
    ghost sound: { Shapes → Type 0 };

    /// The base of version 0, which has no rows. Only want of memory refuses it.
    fn first(alloc: Global, shapes: &Shared<Shapes>) -> Result<Self, AllocError>
        requires { sound shapes.now }
        ensures { IfOk result (λ b. base b ≡ record { shapes = shapes.now; version = 0; tables = [] }) };

    /// A base and the runs over it, newest first, as one base of version `at`, for shapes that extend the base's own. Only want of
    /// memory refuses it, and all stay.
    fn fold(
        alloc: Global,
        old: &Self,
        runs: &[Shared<R>],
        at: u64,
        shapes: &Shared<Shapes>,
    ) -> Result<Self, AllocError>
        requires fold { CanFold at (base old.now) (map R.run runs.now) }
        requires extends { Extends (base old.now).shapes shapes.now }
        requires sound { sound shapes.now }
        ensures { IfOk result (λ b. base b ≡ record { shapes = shapes.now; version = at; tables = put_runs (base old.now).tables (map R.run runs.now) }) };

    /// That the base's shapes are such as bases may be made for. It does nothing.
    fn well_made(&self)
        ensures { sound (base self.now).shapes };
}
