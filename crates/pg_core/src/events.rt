//! Events one after another, from an empty log on.
ghost use Rattle.std.specs.Prelude.{◌≡◌, Some, IfOk};
ghost use Rattle.pg_core.specs.declared.event.Event.TheVariants as events;
ghost use Rattle.pg_core.specs.Core.{CanCome, Replays, first_core};
ghost use Rattle.pg_core.specs.State.{Takes, committed, installed};

use crate::{Base, Begin, CommitFault, Event, Job, Reply, Run, Stale, State};
use pg_value::{List, Shapes, Shared, Writes};
use std::alloc::{AllocError, Global};
use std::marker::Model;

/// An open build, and the base that it builds.
#[derive(Drop)]
struct Opened<B, R> {
    job: Job<B, R>,
    base: Shared<B>,
}

/// A state on which events are replayed. What a build builds is built when it begins, and kept until the build ends.
#[derive(Drop)]
struct Replayed<B: Base<R>, R: Run> {
    state: State<B, R>,
    opened: Option<Opened<B, R>>,
}

impl<B: Base<R>, R: Run> Model for Replayed<B, R> {
    ghost use Rattle.pg_core.specs.State.{Standing, HasOpen};

    ghost Value = { Standing };

    ghost view = { λ r. r.state };

    ghost invariant = { λ r. HasOpen B.base r.state r.opened };
}

/// What is replied to a commit; nothing where memory was wanted.
fn commit_reply(answer: Result<u64, CommitFault>) -> Result<Reply, AllocError>
    ensures { IfOk result (λ reply. committed answer ≡ Some reply) }
{
    match answer {
        Ok(at) => Ok(Reply::Committed(at)),
        Err(CommitFault::Conflict { table, key, at }) => Ok(Reply::Conflict { table, key, at }),
        Err(CommitFault::LogFull { held }) => Ok(Reply::LogFull { held }),
        Err(CommitFault::Memory) => Err(AllocError),
    }
}

/// What is replied where a build is installed.
fn install_reply(answer: Result<(), Stale>) -> Reply
    ensures { result ≡ installed answer }
{
    match answer {
        Ok(()) => Reply::Installed,
        Err(stale) => Reply::Stale { base: stale.base },
    }
}

impl<B: Base<R>, R: Run> Replayed<B, R> {
    /// The seat pins, and what it is handed is dropped.
    fn pin(&mut self, alloc: Global, seat: u32) -> Result<Reply, AllocError>
        requires { CanCome self.old.shapes self.old.core (events.Pin seat) }
        ensures { IfOk result (λ reply. Takes self.old (events.Pin seat) reply self.new) }
    {
        let pinned = self.state.pin(alloc, seat)?;
        Ok(Reply::Pinned {
            at: pinned.at,
            base: pinned.base,
        })
    }

    /// The seat's pin goes.
    fn release(&mut self, seat: u32) -> Reply
        requires { CanCome self.old.shapes self.old.core (events.Release seat) }
        ensures { Takes self.old (events.Release seat) result self.new }
    {
        Reply::Released(self.state.release(seat))
    }

    /// The seat commits.
    fn commit(
        &mut self,
        alloc: Global,
        seat: u32,
        from: u64,
        writes: Writes,
    ) -> Result<Reply, AllocError>
        requires { CanCome self.old.shapes self.old.core (events.Commit seat from writes) }
        ensures { IfOk result (λ reply. Takes self.old (events.Commit seat from writes) reply self.new) }
    {
        commit_reply(self.state.commit(alloc, seat, from, writes))
    }

    /// The seat begins a build, which is built at once.
    fn begin_fold(&mut self, alloc: Global, seat: u32) -> Result<Reply, AllocError>
        requires { CanCome self.old.shapes self.old.core (events.BeginFold seat) }
        ensures { IfOk result (λ reply. Takes self.old (events.BeginFold seat) reply self.new) }
    {
        match self.state.begin_fold(alloc, seat)? {
            Begin::Job(job) => {
                let Ok(base) = job.built(alloc) else {
                    self.state.abandon(job);
                    return Err(AllocError);
                };
                let at = job.build.at;
                self.opened = Some(Opened { job, base });
                Ok(Reply::Job { at })
            }
            Begin::NotYet => Ok(Reply::NotYet),
            Begin::Stopped => Ok(Reply::Stopped),
        }
    }

    /// What was built is installed, where a build is open.
    fn install(&mut self) -> Reply
        ensures { Takes self.old events.Install result self.new }
    {
        match self.opened.take() {
            Some(Opened { job, base }) => install_reply(self.state.install(job, base)),
            None => Reply::Refused,
        }
    }

    /// The build is given up, where one is open.
    fn abandon(&mut self) -> Reply
        ensures { Takes self.old events.Abandon result self.new }
    {
        match self.opened.take() {
            Some(Opened { job, .. }) => {
                self.state.abandon(job);
                Reply::Done
            }
            None => Reply::Refused,
        }
    }

    /// The session has finished one item more.
    fn mark(&mut self, session: u32) -> Reply
        requires { CanCome self.old.shapes self.old.core (events.Mark session) }
        ensures { Takes self.old (events.Mark session) result self.new }
    {
        self.state.mark(session);
        Reply::Done
    }

    /// The session has ended.
    fn end_session(&mut self, session: u32) -> Reply
        requires { CanCome self.old.shapes self.old.core (events.EndSession session) }
        ensures { Takes self.old (events.EndSession session) result self.new }
    {
        self.state.end_session(session);
        Reply::Done
    }

    /// No build begins from now on.
    fn stop(&mut self) -> Reply
        ensures { Takes self.old events.Stop result self.new }
    {
        self.state.stop();
        Reply::Done
    }

    /// One event. Where it may not come it is refused, and changes nothing.
    fn step(&mut self, alloc: Global, event: Event) -> Result<Reply, AllocError>
        ensures { IfOk result (λ reply. Takes self.old event reply self.new) }
    {
        if !self.state.can_come(&event) {
            return Ok(Reply::Refused);
        }
        match event {
            Event::Pin { seat } => self.pin(alloc, seat),
            Event::Release { seat } => Ok(self.release(seat)),
            Event::Commit { seat, from, writes } => self.commit(alloc, seat, from, writes),
            Event::BeginFold { seat } => self.begin_fold(alloc, seat),
            Event::Install => Ok(self.install()),
            Event::Abandon => Ok(self.abandon()),
            Event::Mark { session } => Ok(self.mark(session)),
            Event::EndSession { session } => Ok(self.end_session(session)),
            Event::Stop => Ok(self.stop()),
        }
    }

    /// The state, whose open build, if there is one, is dropped.
    fn into_state(self) -> State<B, R>
        ensures { result ≡ self }
    {
        let Replayed { state, .. } = self;
        state
    }
}

/// The replies to events, one after another, and the state after the last of them. They begin with an empty log, which may hold
/// at most `limit` writes, so many seats, none of which has a pin, and as many sessions. An event that may not come is answered
/// by `Refused` and changes nothing. A build is installed with the tables of the version that it builds. Only want of memory
/// refuses it.
pub fn replay<B: Base<R>, R: Run>(
    alloc: Global,
    shapes: Shared<Shapes>,
    seats: u32,
    limit: u64,
    events: List<Event>,
) -> Result<(State<B, R>, List<Reply>), AllocError>
    requires { B.sound shapes }
    ensures shapes { IfOk result (λ r. (r.0.shapes ≡ shapes) × (r.0.limit ≡ limit)) }
    ensures replays { IfOk result (λ r. Replays shapes limit (first_core seats seats) events r.1 r.0.core) }
{
    let state = State::new(alloc, shapes, seats, seats, limit)?;
    let mut replay = Replayed {
        state,
        opened: None,
    };
    let mut replies = List::with_room(alloc, events.len())?;
    for event in events.into_vec() {
        replies.push(replay.step(alloc, event)?)?;
    }
    Ok((replay.into_state(), replies))
}
