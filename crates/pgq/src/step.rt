//! A stepped run from source to sink.
ghost use Rattle.std.specs.Prelude.{◌≡◌, ◌≤◌, IfOk, IfErr};
ghost use Rattle.pgq.specs.declared.step.NoText.TheVariants as no_text;
ghost use Rattle.pgq.specs.Headline.{TranscriptMeans, IsTextOfRun, IsTextOf, IsNoText};
ghost use Rattle.pgq.specs.Sections.{IsRunnable, IsRun, IsStepped};

use crate::bytes::{ReadError, read_all, write_all};
use crate::run::run;
use crate::status::Status;
use pg_outside::{Sink, Source};
use pg_script::{Script, ScriptFault, ScriptKind, print, scripts_are_whole, split};
use pg_value::Text;
use std::alloc::{AllocError, Global};

/// The most bytes that a script may have.
const MOST_BYTES: usize = 16777216;

/// Why no transcript was made: the bytes are no script, or one of two or more sessions, which is not run yet, or memory was
/// wanted.
#[derive(Clone, Copy)]
pub enum NoText {
    Bad { line: u32, kind: ScriptKind },
    NotYet,
    Memory,
}

impl From<AllocError> for NoText {
    ghost from_gives = { λ _ e. e ≡ no_text.Memory };

    fn from(_: AllocError) -> NoText {
        NoText::Memory
    }
}

/// The text of the transcript of a script that runs.
fn script_text(alloc: Global, script: &Script) -> Result<Text, AllocError>
    requires { IsRunnable script.now }
    ensures { IfOk result (IsTextOfRun IsRun script.now) }
{
    let transcript = run(alloc, script)?;
    print(alloc, &transcript)
}

/// The text of the transcript of the script that these bytes are.
#[tactic(auto, using(crate::proofs::Runs::Runnable::is_runnable, crate::proofs::Runs::Runnable::is_text))]
fn transcript_text(alloc: Global, bytes: &[u8]) -> Result<Text, NoText>
    ensures text { IfOk result (IsTextOf IsStepped bytes.now) }
    ensures none { IfErr result (IsNoText bytes.now) }
{
    let script = match split(alloc, bytes) {
        Ok(script) => script,
        Err(ScriptFault::Bad { line, kind }) => return Err(NoText::Bad { line, kind }),
        Err(ScriptFault::Memory) => return Err(NoText::Memory),
    };
    if script.sections.len() > 2 {
        return Err(NoText::NotYet);
    }
    scripts_are_whole();
    let text = script_text(alloc, &script)?;
    Ok(text)
}

/// Reads a script from the source, runs its statements one after another, and writes the text of its transcript to the sink. It waits for
/// nobody. At most 16,777,217 bytes are read, and the whole text is made before the first write.
pub fn stepped<I: Source, O: Sink>(alloc: Global, source: &mut I, sink: &mut O) -> Status
    ensures means { TranscriptMeans (I.left source.old) (I.left source.new) (I.faults source.old) (I.faults source.new)
        (O.held sink.old) (O.held sink.new) (O.faults sink.old) (O.faults sink.new) IsStepped result }
    ensures later_reads { I.faults source.old ≤ I.faults source.new }
    ensures later_writes { O.faults sink.old ≤ O.faults sink.new }
{
    let bytes = match read_all(alloc, source, MOST_BYTES) {
        Ok(bytes) => bytes,
        Err(ReadError::Memory) => return Status::Memory,
        Err(ReadError::Failed) => return Status::ReadFault,
    };
    let text = match transcript_text(alloc, bytes.as_slice()) {
        Ok(text) => text,
        Err(NoText::Bad { line, kind }) => return Status::BadScript { line, kind },
        Err(NoText::NotYet) => return Status::NotYet,
        Err(NoText::Memory) => return Status::Memory,
    };
    match write_all(sink, text.as_bytes()) {
        Ok(()) => Status::Done,
        Err(_) => Status::WriteFault,
    }
}
