//! The lines of outcomes that no run has yet, and of commits that take rows away.
use pg_script::{FaultKind, Outcome, SectionOut, Transcript, print, summary};
use pg_value::{Commit, Key, List, Row, TableNo, Text, Value, Write, Writes};
use std::alloc::{AllocError, Global};
use std::test::Fail;

const WHOLE: &str = "@setup
end
@session first_1
1 begin at 1
2 changed 0 at 1
3 commit from 1 at 2
4 commit empty at 2
5 rollback at 2
6 rows 2 at 2 base 1
: \"\", _9
= -2, 'it''s
two lines'
= NULL
end rolled back
@session b
1 after first_1 12 at 3
2 refused AlreadyOpen
3 refused NotOpen
4 refused Conflict KNOWS (1, 'x') from 3 at 4
5 refused LogFull from 3 held 4194304
6 refused ColumnTwice at byte 0
7 refused KeyUpdate at byte 1
8 refused NoLabel at byte 2
9 refused Unbounded at byte 3
10 refused Bounds at byte 4
11 refused GroupUse at byte 5
12 refused DefinitionInTransaction at byte 4294967295
end
@log 2
1 setup from 0
+ PERSON (1, 'x') = (1, 'x')
- \"knows\" (1, 'x')
2 b from 0
- PERSON (1, 'x')
@peak kept 7 pins 5
@end
";

fn text(alloc: Global, of: &str) -> Result<Text, AllocError> {
    Text::from_str(alloc, of)
}

fn names(alloc: Global, of: &[&str]) -> Result<List<Text>, AllocError> {
    let mut names = List::new(alloc);
    for name in of {
        names.push(text(alloc, name)?)?;
    }
    Ok(names)
}

fn values(alloc: Global, number: i128, of: &str) -> Result<List<Value>, AllocError> {
    let values = vec![in alloc; Value::int(number), Value::Text(text(alloc, of)?)]?;
    Ok(List::from_vec(values))
}

fn rows(alloc: Global) -> Result<List<Row>, AllocError> {
    let nothing = vec![in alloc; Value::Null]?;
    let rows = vec![in alloc;
        Row::new(alloc, values(alloc, -2, "it's\ntwo lines")?)?,
        Row::new(alloc, List::from_vec(nothing))?,
    ]?;
    Ok(List::from_vec(rows))
}

fn of_transactions(alloc: Global) -> Result<List<Outcome>, AllocError> {
    let outcomes = vec![in alloc;
        Outcome::Began { at: 1 },
        Outcome::Changed { rows: 0, at: 1 },
        Outcome::Committed { from: 1, at: 2 },
        Outcome::CommitEmpty { at: 2 },
        Outcome::RolledBack { at: 2 },
        Outcome::Rows {
            at: 2,
            base: 1,
            names: names(alloc, &["", "_9"])?,
            rows: rows(alloc)?
        },
    ]?;
    Ok(List::from_vec(outcomes))
}

/// Refusals at bytes 0, 1, 2 and so on, and one at the last byte of all.
fn push_at_bytes(outcomes: &mut List<Outcome>) -> Result<(), AllocError> {
    let kinds = [
        FaultKind::ColumnTwice,
        FaultKind::KeyUpdate,
        FaultKind::NoLabel,
        FaultKind::Unbounded,
        FaultKind::Bounds,
        FaultKind::GroupUse,
    ];
    for (byte, kind) in (0u32..).zip(kinds) {
        outcomes.push(Outcome::AtByte { kind, byte })?;
    }
    outcomes.push(Outcome::AtByte {
        kind: FaultKind::DefinitionInTransaction,
        byte: u32::MAX,
    })
}

fn of_others(alloc: Global) -> Result<List<Outcome>, AllocError> {
    let outcomes = vec![in alloc;
        Outcome::After {
            name: text(alloc, "first_1")?,
            n: 12,
            at: 3
        },
        Outcome::AlreadyOpen,
        Outcome::NotOpen,
        Outcome::Conflict {
            table: text(alloc, "KNOWS")?,
            key: Key::new(values(alloc, 1, "x")?),
            from: 3,
            at: 4
        },
        Outcome::LogFull {
            from: 3,
            held: 4194304
        },
    ]?;
    let mut outcomes = List::from_vec(outcomes);
    push_at_bytes(&mut outcomes)?;
    Ok(outcomes)
}

/// A write of a table, which puts a row in or takes one away.
fn write(alloc: Global, table: u32, is_there: bool) -> Result<Write, AllocError> {
    let row = Row::new(alloc, values(alloc, 1, "x")?)?;
    Ok(Write {
        table: TableNo(table),
        key: Key::new(values(alloc, 1, "x")?),
        row: if is_there { Some(row) } else { None },
    })
}

fn put(writes: &mut Writes, write: Write) -> Result<(), AllocError> {
    match writes.put(write) {
        Ok(_) => Ok(()),
        Err(_) => Err(AllocError),
    }
}

fn log(alloc: Global) -> Result<List<Commit>, Fail> {
    let mut writes = Writes::new(alloc, 2);
    put(&mut writes, write(alloc, 1, false)?)?;
    put(&mut writes, write(alloc, 0, true)?)?;
    let mut more = Writes::new(alloc, 2);
    put(&mut more, write(alloc, 0, false)?)?;
    let commits = vec![in alloc;
        Commit {
            session: 0,
            from: 0,
            writes
        },
        Commit {
            session: 2,
            from: 0,
            writes: more
        },
    ]?;
    Ok(List::from_vec(commits))
}

fn section(
    alloc: Global,
    name: &str,
    outcomes: List<Outcome>,
    rolled_back: bool,
) -> Result<SectionOut, AllocError> {
    Ok(SectionOut {
        name: text(alloc, name)?,
        outcomes,
        rolled_back,
    })
}

#[test]
fn each_kind_of_line_is_printed(rt: HostRuntime) -> Result<(), Fail> {
    let alloc = rt.alloc();
    let sections = vec![in alloc;
        section(alloc, "", List::new(alloc), false)?,
        section(alloc, "first_1", of_transactions(alloc)?, true)?,
        section(alloc, "b", of_others(alloc)?, false)?,
    ]?;
    let transcript = Transcript {
        has_setup: true,
        sections: List::from_vec(sections),
        tables: names(alloc, &["PERSON", "knows"])?,
        log: log(alloc)?,
        peak: (7, 5),
    };
    assert_eq!(rt; print(alloc, &transcript)?.as_str(), WHOLE);
    Ok(())
}

#[test]
fn outcomes_and_rows_are_counted(rt: HostRuntime) -> Result<(), Fail> {
    let alloc = rt.alloc();
    let sections = vec![in alloc;
        section(alloc, "", of_others(alloc)?, false)?,
        section(alloc, "a", of_transactions(alloc)?, false)?,
        section(alloc, "b", of_transactions(alloc)?, false)?,
    ]?;
    let transcript = Transcript {
        has_setup: true,
        sections: List::from_vec(sections),
        tables: List::new(alloc),
        log: log(alloc)?,
        peak: (1, 0),
    };
    let counted = "statements 24\ncommits 2\nrows 4\nlast at 2 base 1\n@end\n";
    assert_eq!(rt; summary(alloc, &transcript)?.as_str(), counted);
    Ok(())
}
