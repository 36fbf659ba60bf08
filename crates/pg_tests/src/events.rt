//! The core's events, over bases of the tests' own: what is replied to events one after another, and how far sessions
//! have come.
ghost use Rattle.std.specs.Prelude.{◌≡◌, ◌<◌, ◌++◌, [], length, map, IfOk};
ghost use Rattle.pg_core.specs.Versions.{put_runs};

use pg_core::{Base, Event, Marked, Reply, Run, State, replay};
use pg_value::{
    ColumnShape, Key, KeyValues, Kind, List, PutFault, Row, Shapes, Shared, TableNo, TableShape,
    Text, Value, Write, Writes, print_value,
};
use std::alloc::{AllocError, Global};
use std::test::Fail;

/// The tables of a version, as all runs since the first, newest first.
#[derive(Drop)]
struct AllRuns<R> {
    shapes: Shared<Shapes>,
    version: u64,
    runs: List<Shared<R>>,
}

/// Puts more runs behind those that are there.
fn push_runs<R: Run>(
    mut runs: List<Shared<R>>,
    more: &[Shared<R>],
) -> Result<List<Shared<R>>, AllocError>
    ensures { IfOk result (λ all. all ≡ runs ++ more.now) }
{
    for run in more {
        runs.push(run.share()?)?;
    }
    Ok(runs)
}

impl<R: Run> Base<R> for AllRuns<R> {
    ghost base = { λ b. record { shapes = b.shapes; version = b.version; tables = put_runs [] (map R.run b.runs) } };

    fn first(alloc: Global, shapes: &Shared<Shapes>) -> Result<AllRuns<R>, AllocError> {
        Ok(AllRuns {
            shapes: shapes.share()?,
            version: 0,
            runs: List::new(alloc),
        })
    }

    ghost sound = { λ shapes. Unit {0} };

    #[tactic(auto, using(crate::proofs::Folding::fold_all))]
    fn fold(
        alloc: Global,
        old: &AllRuns<R>,
        runs: &[Shared<R>],
        at: u64,
        shapes: &Shared<Shapes>,
    ) -> Result<AllRuns<R>, AllocError> {
        let newer = push_runs(List::new(alloc), runs)?;
        let runs = push_runs(newer, old.runs.as_slice())?;
        Ok(AllRuns {
            shapes: shapes.share()?,
            version: at,
            runs,
        })
    }

    fn well_made(&self) {
        let _ = &self.runs;
    }
}

/// The core of these tests.
type Core = State<AllRuns<pg_run::Run>, pg_run::Run>;

/// One table, of INTEGERs that are its key.
fn shapes(alloc: Global) -> Result<Shared<Shapes>, AllocError> {
    let column = ColumnShape {
        kind: Kind::Int,
        not_null: true,
        max_bytes: 0,
    };
    let table = TableShape {
        columns: List::from_vec(vec![in alloc; column]?),
        key: List::from_vec(vec![in alloc; 0]?),
    };
    let shapes = Shapes {
        tables: List::from_vec(vec![in alloc; table]?),
        edges: List::new(alloc),
    };
    Shared::new(alloc, shapes)
}

/// A table, and a number that is a key and the row with it.
type Place = (u32, i128);

/// The write of a row.
fn write(alloc: Global, place: Place) -> Result<Write, AllocError> {
    let (table, number) = place;
    let values = List::from_vec(vec![in alloc; Value::int(number)]?);
    Ok(Write {
        table: TableNo(table),
        key: Key {
            values: KeyValues::one(Value::int(number)),
        },
        row: Some(Row::new(alloc, values)?),
    })
}

/// The writes of rows, at most three.
fn writes(alloc: Global, places: &[Place]) -> Result<Writes, AllocError> {
    let mut writes = Writes::new(alloc, 3);
    for place in places {
        match writes.put(write(alloc, *place)?) {
            Ok(()) => {}
            Err(PutFault::Full(_)) | Err(PutFault::Memory(_)) => return Err(AllocError),
        }
    }
    Ok(writes)
}

/// An event as a table of cases has it: by the number of a seat or a session, and a commit also by the version that was read and
/// the rows that it writes.
#[derive(Clone, Copy)]
enum Asked {
    Pin(u32),
    Release(u32),
    Commit(u32, u64, &'static [Place]),
    BeginFold(u32),
    Install,
    Abandon,
    Mark(u32),
    EndSession(u32),
    Stop,
}

fn event(alloc: Global, asked: Asked) -> Result<Event, AllocError> {
    match asked {
        Asked::Pin(seat) => Ok(Event::Pin { seat }),
        Asked::Release(seat) => Ok(Event::Release { seat }),
        Asked::Commit(seat, from, places) => {
            let writes = writes(alloc, places)?;
            Ok(Event::Commit { seat, from, writes })
        }
        Asked::BeginFold(seat) => Ok(Event::BeginFold { seat }),
        Asked::Install => Ok(Event::Install),
        Asked::Abandon => Ok(Event::Abandon),
        Asked::Mark(session) => Ok(Event::Mark { session }),
        Asked::EndSession(session) => Ok(Event::EndSession { session }),
        Asked::Stop => Ok(Event::Stop),
    }
}

/// A word, and numbers behind it.
fn told(alloc: Global, word: &str, numbers: &[u64]) -> Result<Text, AllocError> {
    let mut out = Text::from_str(alloc, word)?;
    for number in numbers {
        out.push_ascii(b' ')?;
        out.push_number(*number)?;
    }
    Ok(out)
}

/// A conflict with the commit of number `at`, the table, and the values of the key.
fn conflict(alloc: Global, table: TableNo, key: &Key, at: u64) -> Result<Text, AllocError> {
    let mut out = told(alloc, "conflict", &[at, table.0 as u64])?;
    for value in key.values.as_slice() {
        out.push_ascii(b' ')?;
        print_value(value, &mut out)?;
    }
    Ok(out)
}

/// A reply in words, with its numbers in their order.
fn replied(alloc: Global, reply: &Reply) -> Result<Text, AllocError> {
    match reply {
        Reply::Pinned { at, base } => told(alloc, "pinned", &[*at, *base]),
        Reply::Released(true) => told(alloc, "released", &[]),
        Reply::Released(false) => told(alloc, "no pin", &[]),
        Reply::Committed(at) => told(alloc, "committed", &[*at]),
        Reply::Conflict { table, key, at } => conflict(alloc, *table, key, *at),
        Reply::LogFull { held } => told(alloc, "full", &[*held]),
        Reply::Job { at } => told(alloc, "job", &[*at]),
        Reply::NotYet => told(alloc, "not yet", &[]),
        Reply::Stopped => told(alloc, "stopped", &[]),
        Reply::Installed => told(alloc, "installed", &[]),
        Reply::Stale { base } => told(alloc, "stale", &[*base]),
        Reply::Done => told(alloc, "done", &[]),
        Reply::Refused => told(alloc, "refused", &[]),
    }
}

/// Events and the replies to them.
type Case = (Asked, &'static str);

/// The replies to the events of a table of cases, with two seats.
fn replies(alloc: Global, limit: u64, cases: &[Case]) -> Result<List<Reply>, AllocError> {
    let mut events = List::new(alloc);
    for (asked, _) in cases {
        events.push(event(alloc, *asked)?)?;
    }
    let (_, replies) = replay::<AllRuns<pg_run::Run>, pg_run::Run>(
        alloc,
        shapes(alloc)?,
        2,
        limit,
        events,
    )?;
    Ok(replies)
}

/// The log may hold three writes. A conflict comes before a full log.
const FULL: &[Case] = &[
    (Asked::Commit(0, 0, &[(0, 5), (0, 7)]), "committed 1"),
    (Asked::Commit(1, 1, &[(0, 5), (0, 6)]), "full 2"),
    (Asked::Commit(1, 0, &[(0, 4), (0, 7)]), "conflict 1 0 7"),
    (Asked::Commit(1, 1, &[(0, 7)]), "committed 2"),
    (Asked::Commit(0, 2, &[(0, 8)]), "full 3"),
    (Asked::Commit(0, 1, &[(0, 7)]), "conflict 2 0 7"),
    (Asked::Commit(0, 0, &[(0, 5), (0, 7)]), "conflict 1 0 5"),
    (Asked::Commit(0, 2, &[(0, 5)]), "full 3"),
    (Asked::Pin(0), "pinned 2 0"),
    (Asked::BeginFold(1), "job 2"),
    (Asked::Install, "installed"),
    (Asked::Commit(0, 2, &[(0, 9)]), "full 3"),
];

/// Events that may not come, between others.
const REFUSED: &[Case] = &[
    (Asked::Install, "refused"),
    (Asked::Abandon, "refused"),
    (Asked::BeginFold(1), "not yet"),
    (Asked::Release(0), "no pin"),
    (Asked::Commit(0, 1, &[(0, 7)]), "refused"),
    (Asked::Commit(2, 0, &[(0, 7)]), "refused"),
    (Asked::Commit(0, 0, &[]), "refused"),
    (Asked::Commit(0, 0, &[(1, 7)]), "refused"),
    (Asked::Commit(0, 0, &[(0, 2147483648)]), "refused"),
    (Asked::Commit(0, 0, &[(0, 7)]), "committed 1"),
    (Asked::Pin(0), "pinned 1 0"),
    (Asked::Pin(0), "refused"),
    (Asked::Pin(2), "refused"),
    (Asked::BeginFold(0), "refused"),
    (Asked::BeginFold(2), "refused"),
    (Asked::BeginFold(1), "job 1"),
    (Asked::Pin(1), "refused"),
    (Asked::BeginFold(1), "refused"),
    (Asked::Release(1), "refused"),
    (Asked::Commit(1, 1, &[(0, 7)]), "committed 2"),
    (Asked::Install, "installed"),
    (Asked::Install, "refused"),
    (Asked::Release(1), "no pin"),
    (Asked::Pin(1), "pinned 2 1"),
    (Asked::Release(0), "released"),
    (Asked::BeginFold(0), "job 2"),
    (Asked::Abandon, "done"),
    (Asked::Abandon, "refused"),
    (Asked::Release(2), "refused"),
    (Asked::Mark(1), "done"),
    (Asked::EndSession(1), "done"),
    (Asked::Mark(1), "refused"),
    (Asked::Mark(2), "refused"),
    (Asked::EndSession(2), "refused"),
    (Asked::Stop, "done"),
    (Asked::BeginFold(0), "stopped"),
    (Asked::BeginFold(1), "refused"),
];

#[test]
fn events_are_replied(rt: HostRuntime) -> Result<(), Fail> {
    let alloc = rt.alloc();
    for (limit, cases) in [(3, FULL), (100, REFUSED)] {
        let replies = replies(alloc, limit, cases)?;
        assert_eq!(rt; replies.len(), cases.len());
        for (reply, (_, want)) in replies.as_slice().iter().zip(cases) {
            assert_eq!(rt; replied(alloc, reply)?.as_str(), *want);
        }
    }
    Ok(())
}

/// Commits of one key by seat 0, each from the length before it, from one length of the log to another.
fn push_commits(
    alloc: Global,
    events: &mut List<Event>,
    from: u64,
    until: u64,
) -> Result<(), AllocError> {
    for length in from..until {
        events.push(event(alloc, Asked::Commit(0, length, &[(0, 7)]))?)?;
    }
    Ok(())
}

/// Two pins, after 1 commit and after 300, and 1,100 commits in all; then the pins go, and one comes.
fn pinned_events(alloc: Global) -> Result<List<Event>, AllocError> {
    let mut events = List::new(alloc);
    push_commits(alloc, &mut events, 0, 1)?;
    events.push(Event::Pin { seat: 1 })?;
    push_commits(alloc, &mut events, 1, 300)?;
    events.push(Event::Pin { seat: 2 })?;
    push_commits(alloc, &mut events, 300, 1100)?;
    events.push(Event::Release { seat: 1 })?;
    events.push(Event::Release { seat: 2 })?;
    events.push(Event::Pin { seat: 0 })?;
    Ok(events)
}

/// The replies that are of no taken commit, each before a semicolon.
fn other_replies(alloc: Global, replies: &[Reply]) -> Result<Text, AllocError> {
    let mut out = Text::new(alloc);
    for reply in replies {
        if !matches!(reply, Reply::Committed(_)) {
            out.push_str(replied(alloc, reply)?.as_str())?;
            out.push_ascii(b';')?;
        }
    }
    Ok(out)
}

#[test]
fn pinned_bases_stay_through_folds(rt: HostRuntime) -> Result<(), Fail> {
    let alloc = rt.alloc();
    let events = pinned_events(alloc)?;
    let (state, replies) = replay::<AllRuns<pg_run::Run>, pg_run::Run>(
        alloc,
        shapes(alloc)?,
        3,
        1100,
        events,
    )?;
    assert_eq!(rt;
        other_replies(alloc, replies.as_slice())?.as_str(),
        "pinned 1 0;pinned 300 256;released;released;pinned 1100 1024;"
    );
    assert_eq!(rt; state.peak(), (3, 2));
    assert_eq!(rt; state.log().len(), 1100);
    assert_eq!(rt; state.into_log().held(), 1100);
    Ok(())
}

/// Commits, a build that seat 1 begins, more commits, and the build's end.
fn build_events(alloc: Global, before: u32, during: u32) -> Result<List<Event>, AllocError> {
    let begun = before as u64;
    let mut events = List::new(alloc);
    push_commits(alloc, &mut events, 0, begun)?;
    events.push(Event::BeginFold { seat: 1 })?;
    push_commits(alloc, &mut events, begun, begun + during as u64)?;
    events.push(Event::Install)?;
    Ok(events)
}

/// What is replied where the build begins and where it ends; each commit is taken.
fn built(alloc: Global, before: u32, during: u32) -> Result<Text, AllocError> {
    let events = build_events(alloc, before, during)?;
    let (_, replies) = replay::<AllRuns<pg_run::Run>, pg_run::Run>(
        alloc,
        shapes(alloc)?,
        2,
        1000,
        events,
    )?;
    other_replies(alloc, replies.as_slice())
}

/// Whether a build after so many commits is installed exactly where, with those that come while it is open, there are at most
/// 256, for each number of those from 0 to 256; and else what is replied to the first that is not.
fn first_wrong(
    alloc: Global,
    before: u32,
    in_time: &str,
    too_late: &str,
) -> Result<Option<Text>, AllocError> {
    for during in 0..=256 {
        let want = if before <= 256 && during <= 256 - before {
            in_time
        } else {
            too_late
        };
        let replies = built(alloc, before, during)?;
        if replies.as_str() != want {
            return Ok(Some(replies));
        }
    }
    Ok(None)
}

#[test]
fn builds_after_few_commits(rt: HostRuntime) -> Result<(), Fail> {
    let alloc = rt.alloc();
    assert!(rt; first_wrong(alloc, 1, "job 1;installed;", "job 1;stale 256;")?.is_none());
    assert!(rt; first_wrong(alloc, 2, "job 2;installed;", "job 2;stale 256;")?.is_none());
    assert!(rt; first_wrong(alloc, 3, "job 3;installed;", "job 3;stale 256;")?.is_none());
    Ok(())
}

#[test]
fn builds_after_127_commits(rt: HostRuntime) -> Result<(), Fail> {
    let wrong = first_wrong(rt.alloc(), 127, "job 127;installed;", "job 127;stale 256;")?;
    assert!(rt; wrong.is_none());
    Ok(())
}

#[test]
fn builds_after_128_commits(rt: HostRuntime) -> Result<(), Fail> {
    let wrong = first_wrong(rt.alloc(), 128, "job 128;installed;", "job 128;stale 256;")?;
    assert!(rt; wrong.is_none());
    Ok(())
}

#[test]
fn builds_after_255_commits(rt: HostRuntime) -> Result<(), Fail> {
    let wrong = first_wrong(rt.alloc(), 255, "job 255;installed;", "job 255;stale 256;")?;
    assert!(rt; wrong.is_none());
    Ok(())
}

#[test]
fn builds_after_256_commits(rt: HostRuntime) -> Result<(), Fail> {
    let wrong = first_wrong(rt.alloc(), 256, "job 256;installed;", "job 256;stale 256;")?;
    assert!(rt; wrong.is_none());
    Ok(())
}

/// How far session 1 has come, of which 1 and 2 items are asked for.
fn come(state: &Core) -> (Marked, Marked)
    requires counted { 1 < length state.now.core.counts }
    requires flagged { 1 < length state.now.core.ended }
{
    (state.marked(1, 1), state.marked(1, 2))
}

#[test]
fn sessions_are_marked_until_they_end(rt: HostRuntime) -> Result<(), Fail> {
    let alloc = rt.alloc();
    let mut state: Core = State::new(alloc, shapes(alloc)?, 1, 2, 8)?;
    assert!(rt; matches!(state.marked(1, 0), Marked::At(0)));
    assert!(rt; matches!(come(&state), (Marked::NotYet, Marked::NotYet)));
    state.mark(1);
    assert!(rt; matches!(come(&state), (Marked::At(0), Marked::NotYet)));
    state.end_session(1);
    assert!(rt; matches!(come(&state), (Marked::At(0), Marked::Ended)));
    assert!(rt; matches!(state.marked(0, 1), Marked::NotYet));
    Ok(())
}
