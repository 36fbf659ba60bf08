//! Bases that are kept, and the log of commits, which no program uses yet.
use pg_log::Log;
use pg_pins::Kept;
use pg_value::{Commit, Key, KeyValues, PutFault, TableNo, Value, Write, Writes};
use std::alloc::{AllocError, Global};
use std::test::Fail;

#[test]
fn pinned_bases_are_kept(rt: HostRuntime) -> Result<(), Fail> {
    let mut kept = Kept::new(rt.alloc(), "first", 0, 2)?;
    kept.pin(1);
    kept.install("second", 3);
    kept.install("third", 4);
    assert_eq!(rt; kept.current(), (4, &"third"));
    assert_eq!(rt; kept.counts(), (2, 1));
    assert!(rt; kept.release(1));
    assert_eq!(rt; kept.counts(), (1, 0));
    Ok(())
}

/// The writes that take the row of one key away.
fn gone(alloc: Global, number: i128) -> Result<Writes, AllocError> {
    let mut writes = Writes::new(alloc, 1);
    let write = Write {
        table: TableNo(0),
        key: Key {
            values: KeyValues::one(Value::int(number)),
        },
        row: None,
    };
    match writes.put(write) {
        Ok(()) => Ok(writes),
        Err(PutFault::Full(_)) | Err(PutFault::Memory(_)) => Err(AllocError),
    }
}

#[test]
fn a_commit_is_met(rt: HostRuntime) -> Result<(), Fail> {
    let alloc = rt.alloc();
    let mut log = Log::new(alloc, 3);
    log.reserve()?;
    let writes = gone(alloc, 7)?;
    if writes.len() <= 3 - log.held() {
        log.push(Commit {
            session: 1,
            from: 0,
            writes,
        });
    }
    assert_eq!(rt; log.changed_since(0, &gone(alloc, 7)?), Some((0, 1)));
    assert_eq!(rt; log.changed_since(0, &gone(alloc, 8)?), None);
    assert_eq!(rt; log.into_commits().len(), 1);
    Ok(())
}
