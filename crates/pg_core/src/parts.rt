//! What a snapshot is made of, and what pins and builds hand out.
ghost use Rattle.std.specs.Prelude.{◌≡◌, map, IfOk};
ghost use Rattle.pg_core.specs.Versions.{CanFold, put_runs};

use crate::{Base, Build, Run};
use pg_value::{List, Shapes, Shared};
use std::alloc::{AllocError, Global};

/// What a snapshot is made of: the shapes of the tables, a base, and the runs over it, newest first, of the versions up to `at`.
/// All are shared with the core, which changes none of them.
#[derive(Drop)]
pub struct Parts<B, R> {
    pub shapes: Shared<Shapes>,
    pub base: Shared<B>,
    pub runs: List<Shared<R>>,
    pub at: u64,
}

/// A pin: the seat that has it, the length of the log at that moment, the version of the base that is pinned, and a snapshot.
#[derive(Drop)]
pub struct Pinned<B, R> {
    pub seat: u32,
    pub at: u64,
    pub base: u64,
    pub parts: Parts<B, R>,
}

/// A build that has begun: the base of its version is to be made of these parts.
#[derive(Drop)]
pub struct Job<B, R> {
    pub build: Build,
    pub parts: Parts<B, R>,
}

impl<B: Base<R>, R: Run> Job<B, R> {
    /// The base that is to be built. Only want of memory refuses it, and the parts stay.
    pub fn built(&self, alloc: Global) -> Result<Shared<B>, AllocError>
        requires parts { CanFold self.now.parts.at (B.base self.now.parts.base) (map R.run self.now.parts.runs) }
        requires same { (B.base self.now.parts.base).shapes ≡ self.now.parts.shapes }
        ensures { IfOk result (λ b. B.base b ≡ record { shapes = self.now.parts.shapes; version = self.now.parts.at; tables = put_runs (B.base self.now.parts.base).tables (map R.run self.now.parts.runs) }) }
    {
        let Parts {
            shapes,
            base,
            runs,
            at,
        } = &self.parts;
        let old = base.get();
        old.well_made();
        Shared::new(alloc, B::fold(alloc, old, runs.as_slice(), *at, shapes)?)
    }
}

/// What is answered where a build is to begin.
#[derive(Drop)]
pub enum Begin<B, R> {
    /// It has begun, and pins the current base.
    Job(Job<B, R>),
    /// There is nothing to build, or a build is open.
    NotYet,
    /// No build begins any more.
    Stopped,
}

/// The build's base is no longer the current one, which is of this version.
#[derive(Drop)]
pub struct Stale {
    pub base: u64,
}
