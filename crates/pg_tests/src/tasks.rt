//! Tasks one after another, and the work for each start of a search.
ghost use Rattle.std.specs.Prelude.{◌≡◌};

use pg_outside::{InTurn, Spawner, Task};
use pg_value::{ElemId, Key, KeyValues, List, TableNo, Value};
use pg_work::{StartJob, in_turn, per_start};
use std::alloc::{AllocError, Global};
use std::sync::atomic::{AtomicU64, Ordering};
use std::test::Fail;

/// A task that tells its number, and how many others began before it.
#[derive(Drop)]
struct Numbered<'a> {
    number: u64,
    begun: &'a AtomicU64,
}

impl Task for Numbered<'_> {
    type Out = (u64, u64);

    ghost ready = { λ task. Unit {0} };

    ghost promise = { λ task told. told.0 ≡ task.number };

    fn run(self) -> (u64, u64) {
        (self.number, self.begun.fetch_add(1, Ordering::SeqCst))
    }
}

#[test]
fn tasks_run_one_after_another(rt: HostRuntime) -> Result<(), Fail> {
    let alloc = rt.alloc();
    let begun = AtomicU64::new(0);
    let spawner = InTurn::<HostRuntime>::new();
    let numbered = |number| Numbered {
        number,
        begun: &begun,
    };
    let (front, back) = spawner.beside(numbered(7), numbered(5));
    assert_eq!(rt; front, (7, 0));
    assert_eq!(rt; back, (5, 1));
    let mut tasks = List::new(alloc);
    for number in 0..4 {
        tasks.push(numbered(number))?;
    }
    let told = spawner.each(alloc, tasks)?;
    assert_eq!(rt;
        told.as_slice(),
        [(0, 2), (1, 3), (2, 4), (3, 5)].as_slice()
    );
    Ok(())
}

/// A job that gives how many starts were begun before, and the table of the start.
#[derive(Drop)]
struct Begun<'a> {
    begun: &'a AtomicU64,
}

impl StartJob for Begun<'_> {
    type Out = (u64, u32);

    ghost accepts = { λ job start. Unit {0} };

    ghost promise = { λ job start told. told.1 ≡ start.table.0 };

    fn run(&self, start: &ElemId) -> Result<(u64, u32), AllocError> {
        Ok((self.begun.fetch_add(1, Ordering::SeqCst), start.table.0))
    }
}

/// Starts, one of each of five tables.
fn five_starts(alloc: Global) -> Result<List<ElemId>, AllocError> {
    let mut starts = List::new(alloc);
    for table in 0..5 {
        starts.push(ElemId {
            table: TableNo(table),
            key: Key {
                values: KeyValues::one(Value::int(1)),
            },
        })?;
    }
    Ok(starts)
}

#[test]
fn results_are_in_the_order_of_the_starts(rt: HostRuntime) -> Result<(), Fail> {
    let alloc = rt.alloc();
    let starts = five_starts(alloc)?;
    let spawner = InTurn::<HostRuntime>::new();
    let wanted = [(0, 0), (1, 1), (2, 2), (3, 3), (4, 4)];
    for workers in [1, 2, 16] {
        let begun = AtomicU64::new(0);
        let told = per_start(alloc, &starts, workers, &Begun { begun: &begun }, &spawner)?;
        assert_eq!(rt; told.as_slice(), wanted.as_slice());
    }
    let begun = AtomicU64::new(0);
    let told = in_turn(alloc, &starts, &Begun { begun: &begun })?;
    assert_eq!(rt; told.as_slice(), wanted.as_slice());
    Ok(())
}
