//! Reading a source to its end, and writing a whole text.
ghost use Rattle.std.specs.Prelude.{◌≡◌, ◌<◌, ◌≤◌, ◌+◌, ◌^◌, length, IfOk, OnErr, OnOk};
ghost use Rattle.std.specs.Result.{IsErrOf};
ghost use Rattle.std.specs.Io.KnownBytes.{Appends};
ghost use Rattle.pg_outside.specs.Causes.{Rose};
ghost use Rattle.pgq.specs.Bytes.{ReadsAll, ReadsSome, TookFront};

use pg_outside::{Failed, Sink, Source};
use std::alloc::Global;

const CHUNK: usize = 4096;

/// Why a source was not read to its end.
#[derive(Clone, Copy)]
pub enum ReadError {
    /// Memory was wanted.
    Memory,
    /// A read failed.
    Failed,
}

/// Reads to the end of the source, or one byte more than `most`. So a result longer than `most` says that there is more than
/// that. `Failed` comes exactly where the source's count of faults rose in this call. After an error some bytes may have been
/// read, and are lost.
pub fn read_all<S: Source>(alloc: Global, source: &mut S, most: usize) -> Result<Vec<u8>, ReadError>
    requires { most + 1 < 2 ^ 64 }
    ensures all { IfOk result (λ v. ReadsAll most (S.left source.old) (S.left source.new) v.items) }
    ensures some { OnErr result (ReadsSome most (S.left source.old) (S.left source.new)) }
    ensures later { S.faults source.old ≤ S.faults source.new }
    ensures kept { OnOk result (S.faults source.new ≡ S.faults source.old) }
    ensures memory { IsErrOf result ReadError.Memory → S.faults source.new ≡ S.faults source.old }
    ensures fault { IsErrOf result ReadError.Failed → Rose (S.faults source.old) (S.faults source.new) }
{
    let mut out = Vec::new(alloc);
    let mut chunk = [0; CHUNK];
    'chunks: while out.len() <= most {
        let room = (most + 1 - out.len()).min(CHUNK);
        let count = match source.read(&mut chunk[..room]) {
            Ok(count) => count,
            Err(Failed) => return Err(ReadError::Failed),
        };
        if count == 0 {
            return Ok(out);
        }
        match out.extend_from_slice(&chunk[..count]) {
            Ok(()) => {}
            Err(_) => return Err(ReadError::Memory),
        }
    }
    Ok(out)
}

/// Writes the whole text, or a front of it and then fails, which comes exactly where the sink's count of faults rose in this
/// call.
pub fn write_all<K: Sink>(sink: &mut K, text: &[u8]) -> Result<(), Failed>
    ensures whole { OnOk result (Appends (K.held sink.old) (K.held sink.new) text.now) }
    ensures front { OnErr result (TookFront (K.held sink.old) (K.held sink.new) text.now) }
    ensures later { K.faults sink.old ≤ K.faults sink.new }
    ensures kept { OnOk result (K.faults sink.new ≡ K.faults sink.old) }
    ensures fault { OnErr result (Rose (K.faults sink.old) (K.faults sink.new)) }
{
    let mut done = 0;
    'pieces: while done < text.len() {
        let (_, rest) = text.split_at(done);
        match sink.write(rest) {
            Ok(count) => done += count,
            Err(failed) => return Err(failed),
        }
    }
    Ok(())
}
