//! The core as one value: each call is one event of it.
ghost use Rattle.std.specs.Prelude.{◌≡◌, ◌≤◌, ◌<◌, ◌+◌, ◌^◌, length, get_or, replicate, slice_set, true, false, is_some, not, IfOk, OnOk, OnErr, Some, None};
ghost use Rattle.pg_log.specs.Logged.{Changed};
ghost use Rattle.pg_core.specs.declared.event.Event.TheVariants as events;
ghost use Rattle.pg_core.specs.Core.{CanCome, CanCommit, IsNotBuilding, after_abandon, after_mark, after_pin, after_redefine, after_release, first_core, pin_of, seen_peak};
ghost use Rattle.pg_core.specs.Versions.{Extends, IsBaseOf, StandsFor};
ghost use Rattle.pg_core.specs.State.{Begins, Commits, Installs, IsConflict, IsMarked, Tells, becomes};

use crate::fits::fit_writes;
use crate::versions::Versions;
use crate::{Base, Begin, Build, CommitFault, Event, Job, Marked, Pinned, Run, Stale};
use pg_log::Log;
use pg_value::{Commit, Shapes, Shared, Write, Writes, copy_key};
use std::alloc::{AllocError, Global};
use std::marker::Model;

/// The one state that all sessions work on: the log, the bases with the pins and the runs, the open build; how many items each
/// session has finished, and whether it has ended; whether the run has stopped; and the peak.
#[derive(Drop)]
pub struct State<B: Base<R>, R: Run> {
    versions: Versions<B, R>,
    counts: Vec<u32>,
    ended: Vec<bool>,
    stopped: bool,
    peak: (u64, u64),
}

impl<B: Base<R>, R: Run> Model for State<B, R> {
    ghost use Rattle.pg_core.specs.State.{Standing, standing_of};

    ghost Value = { Standing };

    ghost view = { λ s. standing_of s.versions s.counts.items s.ended.items s.stopped s.peak };
}

/// Why a commit is refused: this write's place was written by the commit of this number.
fn conflict_at(alloc: Global, write: &Write, at: u64) -> CommitFault
    ensures { IsConflict write.now at result }
{
    match copy_key(alloc, &write.key) {
        Ok(key) => CommitFault::Conflict {
            table: write.table,
            key,
            at,
        },
        Err(_) => CommitFault::Memory,
    }
}

impl<B: Base<R>, R: Run> State<B, R> {
    /// An empty log, which may hold at most `limit` writes, and tables of these shapes; so many seats, none of which has a pin;
    /// and places for so many sections, of which nothing is counted. Only want of memory refuses it.
    pub fn new(
        alloc: Global,
        shapes: Shared<Shapes>,
        seats: u32,
        sections: u32,
        limit: u64,
    ) -> Result<State<B, R>, AllocError>
        requires { B.sound shapes }
        ensures { IfOk result (λ s. s ≡ record { core = first_core seats sections; shapes = shapes; limit = limit }) }
    {
        let versions = Versions::new(alloc, shapes, seats, limit)?;
        let counts = Vec::from_elem(alloc, 0, sections as usize)?;
        let ended = Vec::from_elem(alloc, false, sections as usize)?;
        Ok(State {
            versions,
            counts,
            ended,
            stopped: false,
            peak: (1, 0),
        })
    }

    /// Whether there is such a seat, and it has no pin.
    fn is_free(&self, seat: u32) -> bool
        ensures { Tells result ((seat < length self.now.core.pins) × (pin_of self.now.core seat ≡ None)) }
    {
        (seat as usize) < self.versions.seats() && !self.versions.has_pin(seat)
    }

    /// Whether a build is open that this seat opened.
    fn builds(&self, seat: u32) -> bool
        ensures { Tells (not result) (IsNotBuilding self.now.core seat) }
    {
        match self.versions.building() {
            Some(build) => build.seat == seat,
            None => false,
        }
    }

    /// Whether there is such a seat, and it has not opened a build that is open.
    fn may_release(&self, seat: u32) -> bool
        ensures { Tells result ((seat < length self.now.core.pins) × IsNotBuilding self.now.core seat) }
    {
        (seat as usize) < self.versions.seats() && !self.builds(seat)
    }

    /// Whether a commit may come: of a seat and over a version that there are, of writes that fit the shapes, and not of none.
    fn may_commit(&self, seat: u32, from: u64, writes: &Writes) -> bool
        ensures { Tells result (CanCommit self.now.shapes self.now.core seat from writes.now.list) }
    {
        (seat as usize) < self.versions.seats()
            && from <= self.versions.log().len()
            && writes.len() > 0
            && fit_writes(self.versions.shapes(), writes)
    }

    /// Whether a session has ended.
    fn has_ended(&self, session: u32) -> bool
        ensures { result ≡ get_or self.now.core.ended session false }
    {
        match self.ended.get(session as usize) {
            Some(ended) => *ended,
            None => false,
        }
    }

    /// Whether there is such a session, it has not ended, and its items can still be counted.
    fn may_mark(&self, session: u32) -> bool
        ensures { Tells result (CanCome self.now.shapes self.now.core (events.Mark session)) }
    {
        match self.counts.get(session as usize) {
            Some(count) => *count < u32::MAX && !self.has_ended(session),
            None => false,
        }
    }

    /// Whether an event may come.
    pub fn can_come(&self, event: &Event) -> bool
        ensures { Tells result (CanCome self.now.shapes self.now.core event.now) }
    {
        match event {
            Event::Pin { seat } | Event::BeginFold { seat } => self.is_free(*seat),
            Event::Release { seat } => self.may_release(*seat),
            Event::Commit { seat, from, writes } => self.may_commit(*seat, *from, writes),
            Event::Install | Event::Abandon => self.versions.building().is_some(),
            Event::Mark { session } => self.may_mark(*session),
            Event::EndSession { session } => (*session as usize) < self.ended.len(),
            Event::Stop => true,
        }
    }

    /// Raises the peak where more bases are kept than ever before.
    fn see_peak(&mut self)
        ensures { self.new ≡ becomes self.old (seen_peak self.old.core) }
    {
        let (kept, pins) = self.versions.counts();
        if self.peak.0 < kept {
            self.peak = (kept, pins);
        }
    }

    /// Folds everything to one base at the head, under shapes that extend the old ones. There are so many seats, none of which has
    /// a pin, and no build is open. After want of memory everything is as before.
    pub fn redefine(
        &mut self,
        alloc: Global,
        shapes: Shared<Shapes>,
        seats: u32,
    ) -> Result<(), AllocError>
        requires free { self.old.core.pins ≡ replicate seats None }
        requires closed { self.old.core.build ≡ None }
        requires extends { Extends self.old.shapes shapes }
        requires sound { B.sound shapes }
        ensures ok { OnOk result (self.new ≡ record self.old { core = after_redefine self.old.core; shapes = shapes }) }
        ensures err { OnErr result (self.new ≡ self.old) }
    {
        self.versions.redefine(alloc, shapes, seats)?;
        self.see_peak();
        Ok(())
    }

    /// Pins the current base for a seat that has no pin, and hands out what a snapshot of the head is made of. After want of
    /// memory everything is as before.
    pub fn pin(&mut self, alloc: Global, seat: u32) -> Result<Pinned<B, R>, AllocError>
        requires { CanCome self.old.shapes self.old.core (events.Pin seat) }
        ensures pinned { IfOk result (λ p. (p.seat ≡ seat) × (p.at ≡ length self.old.core.log) × (p.base ≡ self.old.core.base) × StandsFor B.base R.run self.old.shapes self.old.core.log p.at p.parts) }
        ensures ok { OnOk result (self.new ≡ becomes self.old (after_pin self.old.core seat)) }
        ensures err { OnErr result (self.new ≡ self.old) }
    {
        let parts = self.versions.parts(alloc)?;
        let at = self.versions.log().len();
        let base = self.versions.base();
        self.versions.pin(seat);
        self.see_peak();
        Ok(Pinned {
            seat,
            at,
            base,
            parts,
        })
    }

    /// Releases a seat's pin, and drops its base where it is neither current nor pinned. False comes exactly where the seat has no
    /// pin. A seat that has opened the open build may not release. It takes no memory.
    pub fn release(&mut self, seat: u32) -> bool
        requires { IsNotBuilding self.old.core seat }
        ensures released { result ≡ is_some (pin_of self.old.core seat) }
        ensures core { self.new ≡ becomes self.old (after_release self.old.core seat) }
    {
        let released = self.versions.release(seat);
        self.see_peak();
        released
    }

    /// The place of the first of these writes whose key a commit after version `from` wrote, and the number of the first such
    /// commit; None exactly where there is none.
    fn changed_since(&self, from: u64, writes: &Writes) -> Option<(usize, u64)>
        requires { from ≤ length self.now.core.log }
        ensures { Changed self.now.core.log from writes.now.list result }
    {
        self.versions.log().changed_since(from, writes)
    }

    /// Appends a commit of these writes by a seat that had read version `from`, and answers its number. A conflict is sought
    /// first; then the log may be full; then memory may be wanted. Whatever refuses it, everything is as before.
    pub fn commit(
        &mut self,
        alloc: Global,
        seat: u32,
        from: u64,
        writes: Writes,
    ) -> Result<u64, CommitFault>
        requires { CanCommit self.old.shapes self.old.core seat from writes.list }
        ensures { Commits self.old self.new (record { session = seat; from = from; writes = writes }) result }
    {
        if let Some((place, at)) = self.changed_since(from, &writes) {
            return Err(conflict_at(alloc, writes.at(place as u64), at));
        }
        let held = self.versions.log().held();
        if self.versions.limit() - held < writes.len() {
            return Err(CommitFault::LogFull { held });
        }
        let commit = Commit {
            session: seat,
            from,
            writes,
        };
        self.versions.commit(alloc, commit)?;
        self.see_peak();
        Ok(self.versions.log().len())
    }

    /// Begins to build a base of the whole log, over the current one, for a seat that has no pin. After want of memory everything
    /// is as before.
    pub fn begin_fold(&mut self, alloc: Global, seat: u32) -> Result<Begin<B, R>, AllocError>
        requires { CanCome self.old.shapes self.old.core (events.BeginFold seat) }
        ensures ok { IfOk result (Begins B.base R.run self.old self.new seat) }
        ensures err { OnErr result (self.new ≡ self.old) }
    {
        if self.stopped {
            return Ok(Begin::Stopped);
        }
        let build = Build {
            seat,
            base: self.versions.base(),
            at: self.versions.log().len(),
        };
        if build.at == build.base || self.versions.building().is_some() {
            return Ok(Begin::NotYet);
        }
        let parts = self.versions.parts(alloc)?;
        self.versions.begin(seat);
        self.see_peak();
        Ok(Begin::Job(Job { build, parts }))
    }

    /// Ends the open build, and makes what was built the current base. Stale comes exactly where the build's base is no longer the
    /// current one; the build ends then too. It takes no memory.
    pub fn install(&mut self, job: Job<B, R>, base: Shared<B>) -> Result<(), Stale>
        requires open { self.old.core.build ≡ Some job.build }
        requires base { IsBaseOf self.old.shapes self.old.core.log job.build.at (B.base base) }
        ensures { Installs self.old self.new job.build result }
    {
        let current = self.versions.base();
        if current != job.build.base {
            self.abandon(job);
            return Err(Stale { base: current });
        }
        self.versions.install(job.build, base);
        self.see_peak();
        Ok(())
    }

    /// Ends the open build without a base. It takes no memory.
    pub fn abandon(&mut self, job: Job<B, R>)
        requires { self.old.core.build ≡ Some job.build }
        ensures { self.new ≡ becomes self.old (after_abandon self.old.core job.build) }
    {
        self.versions.abandon(job.build);
        self.see_peak();
    }

    /// Counts one more finished item of a session that has not ended.
    pub fn mark(&mut self, session: u32)
        requires { CanCome self.old.shapes self.old.core (events.Mark session) }
        ensures { self.new ≡ becomes self.old (after_mark self.old.core session) }
    {
        self.counts[session as usize] += 1;
        self.see_peak();
    }

    /// How far a session has come: whether it has finished at least `n` items.
    pub fn marked(&self, session: u32, n: u32) -> Marked
        requires counted { session < length self.now.core.counts }
        requires flagged { session < length self.now.core.ended }
        ensures { IsMarked self.now.core session n result }
    {
        if n <= self.counts[session as usize] {
            Marked::At(self.versions.log().len())
        } else if self.ended[session as usize] {
            Marked::Ended
        } else {
            Marked::NotYet
        }
    }

    /// The session has ended.
    pub fn end_session(&mut self, session: u32)
        requires { CanCome self.old.shapes self.old.core (events.EndSession session) }
        ensures { self.new ≡ becomes self.old (record self.old.core { ended = slice_set self.old.core.ended session true }) }
    {
        self.ended[session as usize] = true;
    }

    /// No build begins from now on.
    pub fn stop(&mut self)
        ensures { self.new ≡ becomes self.old (record self.old.core { stopped = true }) }
    {
        self.stopped = true;
    }

    /// The log.
    pub fn log(&self) -> &Log
        ensures list { result.now.list ≡ self.now.core.log }
        ensures limit { result.now.limit ≡ self.now.limit }
    {
        self.versions.log()
    }

    /// The log, without copying.
    pub fn into_log(self) -> Log
        ensures { result.list ≡ self.core.log }
    {
        let State { versions, .. } = self;
        versions.into_log()
    }

    /// The greatest number of kept bases, and how many pins there were at its first moment.
    pub fn peak(&self) -> (u64, u64)
        ensures { result ≡ self.now.core.peak }
    {
        self.peak
    }
}
