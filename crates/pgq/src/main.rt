//! The program: runs a script of tables, graphs, changes and queries, and writes its transcript.
#![tactic(auto)]

ghost use Rattle.std.specs.Prelude.{◌≡◌, ◌⊎◌, IfErr};

mod asking;
mod bytes;
mod change;
mod commit;
mod definition;
mod engine;
mod refusal;
mod rows;
mod run;
mod statement;
mod status;
mod step;
mod top;
mod words;

use crate::status::Status;
use crate::top::top;
use crate::words::words_among;
use pg_outside::{StdSink, StdSource};
use pg_value::{List, Text};
use std::process::ExitCode;
use std::rt::Env;
use std::{env, io};

fn main(rt: HostRuntime) -> ExitCode {
    let status = match words_of(&rt) {
        Ok(words) => {
            let mut source = StdSource::new(rt.stdin());
            let mut sink = StdSink::new(rt.stdout());
            top(rt.alloc(), &words, &mut source, &mut sink)
        }
        Err(status) => status,
    };
    let _ = status.report(&rt);
    ExitCode::from(status.number())
}

/// The words that the program was run with. Arguments that are no text are of no form.
fn words_of(rt: &(impl Env + AllocGlobal)) -> Result<List<Text>, Status>
    ensures { IfErr result (λ status. (status ≡ Status.BadWords) ⊎ (status ≡ Status.Memory)) }
{
    match env::args(rt) {
        Ok(args) => words_among(rt.alloc(), args).map_err(|_| Status::Memory),
        Err(e) if e.kind() == io::ErrorKind::OutOfMemory => Err(Status::Memory),
        Err(_) => Err(Status::BadWords),
    }
}
