//! The versions that a core keeps: the log, the bases, the runs over the current one, and the open build.
ghost use Rattle.std.specs.Prelude.{◌≡◌, ◌<◌, ◌≤◌, ◌+◌, ℕ, [], ◌∷◌, ◌++◌, length, slice_set, replicate, map, Option, Some, None, Ok, Err, IfOk, OnOk, OnErr, is_some, cond};
ghost use Rattle.pg_value.specs.Tables.{FitWrites};
ghost use Rattle.pg_value.specs.Writes.{IsInOrder};
ghost use Rattle.pg_pins.specs.Held.{pin_of, pinned_numbers, distinct};
ghost use Rattle.pg_core.specs.Core.{Core, IsTaken, base_after};
ghost use Rattle.pg_core.specs.Versions.{Extends, Follows, IsBaseOf, IsGrown, IsRunOf, StandsFor, held_after};
ghost use Rattle.pg_core.specs.Versions as spec;
ghost use Rattle.pg_core.specs.State.{AreFirst, AreRedefined, Moves};

use crate::carry::{alone, carried, shared};
use crate::{Base, Build, Parts, Run};
use pg_log::Log;
use pg_pins::Kept;
use pg_value::{Commit, List, Shapes, Shared};
use std::alloc::{AllocError, Global};
use std::marker::Model;

/// The log, and what is kept of its versions: the bases, of which one is current and any that is pinned stays, and over the
/// current one the runs, newest first. While a build is open whose base is the current one, the runs over its version are ready.
#[derive(Drop)]
pub struct Versions<B: Base<R>, R: Run> {
    shapes: Shared<Shapes>,
    log: Log,
    limit: u64,
    kept: Kept<Shared<B>>,
    runs: List<Shared<R>>,
    building: Option<Build>,
    readied: List<Shared<R>>,
}

impl<B: Base<R>, R: Run> Model for Versions<B, R> {
    ghost use Rattle.std.specs.Prelude.{◌≡◌, ◌<◌, ◌^◌};
    ghost use Rattle.pg_core.specs.Versions.{Versioned, IsGood};

    ghost Value = { Versioned B R };

    ghost view = { λ v. record { shapes = v.shapes; log = v.log.list; limit = v.limit; held = v.kept; runs = v.runs; building = v.building; readied = v.readied } };

    ghost invariant = { λ v. (v.log.limit ≡ v.limit) × (v.limit < 2 ^ 64) × IsGood B.base R.run (record { shapes = v.shapes; log = v.log.list; limit = v.limit; held = v.kept; runs = v.runs; building = v.building; readied = v.readied }) };
}

/// What a commit readies before anything changes: the new base, where as many versions stand over the current one as may be;
/// the runs with the commit's own; and those over the version that an open build builds.
#[derive(Drop)]
struct Grown<B, R> {
    base: Option<Shared<B>>,
    runs: List<Shared<R>>,
    readied: List<Shared<R>>,
}

/// A new base, if there is one, becomes the current one.
fn install_new<B: Drop>(kept: &mut Kept<Shared<B>>, base: Option<Shared<B>>, at: u64)
    requires { (b : _) → base ≡ Some b → kept.old.current < at }
    ensures { kept.new ≡ held_after kept.old at base }
{
    match base {
        Some(base) => kept.install(base, at),
        None => {}
    }
}

impl<B: Base<R>, R: Run> Versions<B, R> {
    /// The versions of an empty log, which may hold so many writes, with so many seats.
    pub fn new(
        alloc: Global,
        shapes: Shared<Shapes>,
        seats: u32,
        limit: u64,
    ) -> Result<Versions<B, R>, AllocError>
        requires { B.sound shapes }
        ensures { IfOk result (AreFirst shapes limit seats) }
    {
        let base = Shared::new(alloc, B::first(alloc, &shapes)?)?;
        let kept = Kept::new(alloc, base, 0, seats)?;
        Ok(Versions {
            shapes,
            log: Log::new(alloc, limit),
            limit,
            kept,
            runs: List::new(alloc),
            building: None,
            readied: List::new(alloc),
        })
    }

    /// The log.
    pub fn log(&self) -> &Log
        ensures list { result.now.list ≡ self.now.log }
        ensures limit { result.now.limit ≡ self.now.limit }
    {
        &self.log
    }

    /// How many writes the log may hold.
    pub fn limit(&self) -> u64
        ensures { result ≡ self.now.limit }
    {
        self.limit
    }

    /// How many bases are kept, where an open build counts as one more, and how many seats have a pin.
    pub fn counts(&self) -> (u64, u64)
        ensures kept { result.0 ≡ length (distinct (self.now.held.current ∷ pinned_numbers self.now.held.pins)) + cond (is_some self.now.building) 1 0 }
        ensures pins { result.1 ≡ length (pinned_numbers self.now.held.pins) }
    {
        self.kept.counts()
    }

    /// The version of the current base.
    pub fn base(&self) -> u64
        ensures { result ≡ self.now.held.current }
    {
        self.kept.current().0
    }

    /// The shapes of the tables.
    pub fn shapes(&self) -> &Shapes
        ensures { result.now ≡ self.now.shapes }
    {
        self.shapes.get()
    }

    /// How many seats there are.
    pub fn seats(&self) -> usize
        ensures { result ≡ length self.now.held.pins }
    {
        self.kept.seats()
    }

    /// Whether a seat has a pin.
    pub fn has_pin(&self, seat: u32) -> bool
        ensures { result ≡ is_some (pin_of self.now.held seat) }
    {
        self.kept.holds(seat).is_some()
    }

    /// The open build, if there is one.
    pub fn building(&self) -> Option<Build>
        ensures { result ≡ self.now.building }
    {
        self.building
    }

    /// Releases a seat's pin. False comes exactly where it has none; nothing changes then.
    pub fn release(&mut self, seat: u32) -> bool
        requires { (b : _) → self.old.building ≡ Some b → b.seat ≡ seat → ⊥ }
        ensures result { result ≡ is_some (pin_of self.old.held seat) }
        ensures moves { Moves self.old self.new (λ (c : Core). record c { pins = slice_set c.pins seat None }) }
    {
        self.kept.release(seat)
    }

    /// Pins the current base for a seat that has no pin.
    pub fn pin(&mut self, seat: u32)
        requires seated { seat < length self.old.held.pins }
        requires free { pin_of self.old.held seat ≡ None }
        ensures moves { Moves self.old self.new (λ (c : Core). record c { pins = slice_set c.pins seat (Some c.base) }) }
    {
        self.kept.pin(seat);
    }

    /// The runs over the version that an open build builds, with this one more. No runs come where no build is open, or its base
    /// is no longer the current one.
    fn readied_with(&self, alloc: Global, run: Shared<R>) -> Result<List<Shared<R>>, AllocError>
        requires { (b : _) → self.now.building ≡ Some b → b.base ≡ self.now.held.current → Follows (R.run run) (map R.run self.now.readied) }
        ensures { IfOk result (λ all. (b : _) → self.now.building ≡ Some b → b.base ≡ self.now.held.current → map R.run all ≡ spec.carry (R.run run) (map R.run self.now.readied)) }
    {
        match self.building {
            Some(build) if build.base == self.base() => carried(
                alloc,
                self.readied.as_slice(),
                run,
            ),
            _ => Ok(List::new(alloc)),
        }
    }

    /// The run of the commit that comes next.
    fn run_of(&self, alloc: Global, commit: &Commit) -> Result<Shared<R>, AllocError>
        requires taken { IsTaken self.now.limit self.now.log commit.now }
        requires fit { FitWrites self.now.shapes commit.now.writes.list }
        requires in_order { IsInOrder commit.now.writes.list }
        ensures { IfOk result (λ run. IsRunOf self.now.shapes (length self.now.log) (commit.now ∷ []) (R.run run)) }
    {
        let at = self.log.len() + 1;
        let run = R::of(alloc, &commit.writes, at, &self.shapes)?;
        Shared::new(alloc, run)
    }

    /// What becomes of the versions with a commit whose run this is. Nothing changes. Only want of memory refuses it.
    fn grown(&self, alloc: Global, run: Shared<R>) -> Result<Grown<B, R>, AllocError>
        requires { (c : _) × IsRunOf self.now.shapes (length self.now.log) (c ∷ []) (R.run run) }
        ensures { IfOk result (λ g. IsGrown B.base R.run self.now (R.run run) g.base g.runs g.readied) }
    {
        let (no, base) = self.kept.current();
        let at = self.log.len();
        if at - no < 256 {
            let runs = carried(alloc, self.runs.as_slice(), run.share()?)?;
            let readied = self.readied_with(alloc, run)?;
            return Ok(Grown {
                base: None,
                runs,
                readied,
            });
        }
        let current = base.get();
        current.well_made();
        let folded = B::fold(alloc, current, self.runs.as_slice(), at, &self.shapes)?;
        Ok(Grown {
            base: Some(Shared::new(alloc, folded)?),
            runs: alone(alloc, run)?,
            readied: List::new(alloc),
        })
    }

    /// Appends a commit. Where 256 versions stand over the current base they are first folded to a new one. Only want of memory
    /// refuses it, and everything is then as before.
    pub fn commit(&mut self, alloc: Global, commit: Commit) -> Result<(), AllocError>
        requires taken { IsTaken self.old.limit self.old.log commit }
        requires fit { FitWrites self.old.shapes commit.writes.list }
        requires in_order { IsInOrder commit.writes.list }
        ensures ok { OnOk result (Moves self.old self.new (λ (c : Core). record c { log = c.log ++ commit ∷ []; base = base_after c.base (length c.log) })) }
        ensures err { OnErr result (self.new ≡ self.old) }
    {
        let at = self.log.len();
        let run = self.run_of(alloc, &commit)?;
        let grown = self.grown(alloc, run)?;
        self.log.reserve()?;
        self.log.push(commit);
        let Grown {
            base,
            runs,
            readied,
        } = grown;
        install_new(&mut self.kept, base, at);
        self.runs = runs;
        self.readied = readied;
        Ok(())
    }

    /// Folds everything to one base at the head, under shapes that extend the old ones. There are so many seats, none of which has
    /// a pin, and no build is open. Only want of memory refuses it, and everything is then as before.
    pub fn redefine(
        &mut self,
        alloc: Global,
        shapes: Shared<Shapes>,
        seats: u32,
    ) -> Result<(), AllocError>
        requires free { self.old.held.pins ≡ replicate seats None }
        requires closed { self.old.building ≡ None }
        requires extends { Extends self.old.shapes shapes }
        requires sound { B.sound shapes }
        ensures ok { OnOk result (AreRedefined shapes self.old self.new) }
        ensures err { OnErr result (self.new ≡ self.old) }
    {
        let at = self.log.len();
        let base = self.kept.current().1;
        let folded = B::fold(alloc, base.get(), self.runs.as_slice(), at, &shapes)?;
        let base = Shared::new(alloc, folded)?;
        self.kept = Kept::new(alloc, base, at, seats)?;
        self.shapes = shapes;
        self.runs = List::new(alloc);
        Ok(())
    }

    /// All of the log, without copying.
    pub fn into_log(self) -> Log
        ensures { result.list ≡ self.log }
    {
        let Versions { log, .. } = self;
        log
    }

    /// What a snapshot of the head is made of. Only want of memory refuses it.
    pub fn parts(&self, alloc: Global) -> Result<Parts<B, R>, AllocError>
        ensures { IfOk result (StandsFor B.base R.run self.now.shapes self.now.log (length self.now.log)) }
    {
        Ok(Parts {
            shapes: self.shapes.share()?,
            base: self.kept.current().1.share()?,
            runs: shared(alloc, self.runs.as_slice())?,
            at: self.log.len(),
        })
    }

    /// Opens a build of the whole log, over the current base, which it pins for a seat that has no pin.
    pub fn begin(&mut self, seat: u32)
        requires seated { seat < length self.old.held.pins }
        requires free { pin_of self.old.held seat ≡ None }
        requires closed { self.old.building ≡ None }
        requires apart { length self.old.log ≡ self.old.held.current → ⊥ }
        ensures moves { Moves self.old self.new (λ (c : Core). record c { pins = slice_set c.pins seat (Some c.base); build = Some (record { seat = seat; base = c.base; at = length c.log }) }) }
    {
        let build = Build {
            seat,
            base: self.kept.current().0,
            at: self.log.len(),
        };
        self.kept.begin_build(seat);
        self.readied.truncate(0);
        self.building = Some(build);
    }

    /// Closes the open build without a base, and releases its seat's pin.
    pub fn abandon(&mut self, build: Build)
        requires { self.old.building ≡ Some build }
        ensures moves { Moves self.old self.new (λ (c : Core). record c { pins = slice_set c.pins build.seat None; build = None }) }
    {
        self.kept.end_build(build.seat);
        self.readied.truncate(0);
        self.building = None;
    }

    /// Closes the open build, whose base is still the current one, and makes what was built the current base.
    pub fn install(&mut self, build: Build, base: Shared<B>)
        requires open { self.old.building ≡ Some build }
        requires same { build.base ≡ self.old.held.current }
        requires base { IsBaseOf self.old.shapes self.old.log build.at (B.base base) }
        ensures moves { Moves self.old self.new (λ (c : Core). record c { base = build.at; pins = slice_set c.pins build.seat None; build = None }) }
    {
        self.kept.end_build(build.seat);
        self.kept.install(base, build.at);
        std::mem::swap(&mut self.runs, &mut self.readied);
        self.readied.truncate(0);
        self.building = None;
    }
}
