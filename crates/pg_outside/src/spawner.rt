//! Who runs tasks, at once or one after another.
ghost use Rattle.std.specs.Prelude.{◌≡◌, [], ◌++◌, ◌∷◌, IfOk};
ghost use Rattle.std.specs.List.{AllZip};
ghost use Rattle.pg_keyed.specs.Lists.{Each};

use crate::Task;
use pg_value::List;
use std::alloc::{AllocError, Global};
use std::marker::PhantomData;
use std::thread::{Threads, join};

/// Runs both tasks at once where a thread can be made, and else the front task first.
fn beside_in_threads<R: Threads, A: Task, B: Task>(rt: &R, front: A, back: B) -> (A::Out, B::Out)
    requires front { A.ready front }
    requires back { B.ready back }
    ensures front { A.promise front result.0 }
    ensures back { B.promise back result.1 }
{
    // Where no thread can be made, the first closure is called last.
    let (behind, before) = join(
        rt,
        move || -> B::Out
            requires { B.ready back }
            ensures { B.promise back result }
        { back.run() },
        move || -> A::Out
            requires { A.ready front }
            ensures { A.promise front result }
        { front.run() },
    );
    (before, behind)
}

/// Runs the tasks at once where threads can be made, and else in their order. The last one runs in this thread where it can.
fn each_in_threads<R: Threads, A: Task>(
    rt: &R,
    alloc: Global,
    mut tasks: Vec<A>,
) -> Result<Vec<A::Out>, AllocError>
    requires { Each A.ready tasks.items }
    ensures { IfOk result (λ made. AllZip A.promise tasks.items made.items) }
{
    let Some(task) = tasks.pop() else {
        return Ok(Vec::new(alloc));
    };
    let (last, others) = join(
        rt,
        move || -> A::Out
            requires { A.ready task }
            ensures { A.promise task result }
        { task.run() },
        move || -> Result<Vec<A::Out>, AllocError>
            requires { Each A.ready tasks.items }
            ensures { IfOk result (λ made. AllZip A.promise tasks.items made.items) }
        { each_in_threads(rt, alloc, tasks) },
    );
    let mut made = others?;
    made.push(last)?;
    Ok(made)
}

/// Runs the tasks in their order.
fn each_in_turn<A: Task>(alloc: Global, tasks: Vec<A>) -> Result<Vec<A::Out>, AllocError>
    requires { Each A.ready tasks.items }
    ensures { IfOk result (λ made. AllZip A.promise tasks.items made.items) }
{
    let mut made = Vec::with_capacity(alloc, tasks.len())?;
    'tasks: for task in tasks {
        made.push(task.run())?;
    }
    Ok(made)
}

/// Runs tasks. It has a handle for threads, or none, and then runs tasks one after another.
pub trait Spawner {
    type Handle: Threads;

    /// The handle for threads, if tasks may run at once.
    fn handle(&self) -> Option<&Self::Handle>;

    /// Runs both tasks; where they cannot run at once, the front task first. It is never refused: where no thread can be made,
    /// the caller's does all the work. It returns if both tasks do.
    final fn beside<A: Task, B: Task>(&self, front: A, back: B) -> (A::Out, B::Out)
        requires front { A.ready front }
        requires back { B.ready back }
        ensures front { A.promise front result.0 }
        ensures back { B.promise back result.1 }
    {
        match self.handle() {
            Some(rt) => beside_in_threads(rt, front, back),
            None => {
                let before = front.run();
                (before, back.run())
            }
        }
    }

    /// Runs all tasks, and gives what they give in the order of the tasks; where they cannot run at once, they run in that
    /// order. Only want of memory refuses it: then some tasks may not have run, and what others gave is dropped. It returns if
    /// all tasks do.
    final fn each<A: Task>(&self, alloc: Global, tasks: List<A>) -> Result<List<A::Out>, AllocError>
        requires { Each A.ready tasks }
        ensures { IfOk result (AllZip A.promise tasks) }
    {
        let made = match self.handle() {
            Some(rt) => each_in_threads(rt, alloc, tasks.into_vec()),
            None => each_in_turn(alloc, tasks.into_vec()),
        };
        Ok(List::from_vec(made?))
    }
}
