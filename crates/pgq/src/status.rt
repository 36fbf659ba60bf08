//! How a run ends: its number, and its line on standard error.
ghost use Rattle.std.specs.Prelude.{◌≡◌};
ghost use Rattle.std.specs.declared.option.Option.TheVariants.{Some};
ghost use Rattle.pgq.specs.Status.{number_of, word_of, line_of};

use pg_script::ScriptKind;
use std::{fmt, io};

/// How a run of the program ends.
#[derive(Clone, Copy)]
pub enum Status {
    /// The source was read to its end, and every byte of the text was taken.
    Done,
    /// What was read is no script, by a fault of this kind at this line, counted from 1; the line is 0 where there are more
    /// than 16,777,216 bytes, of which one more was read. Nothing was written.
    BadScript { line: u32, kind: ScriptKind },
    /// The words are of no form. Nothing was read or written.
    BadWords,
    /// A read failed. Nothing was written.
    ReadFault,
    /// A write failed. What the sink took is a front of a text that could have been written whole.
    WriteFault,
    /// Memory ran out. Nothing was written.
    Memory,
    /// The source was read to its end and is a script of two or more sessions, which is not run yet. Nothing was written.
    NotYet,
}

/// The word for a kind of fault.
fn word_of(kind: ScriptKind) -> &'static str
    ensures { result.now ≡ word_of kind }
{
    match kind {
        ScriptKind::TooLong => "TooLong",
        ScriptKind::NotText => "NotText",
        ScriptKind::Section => "Section",
        ScriptKind::Sessions => "Sessions",
        ScriptKind::Statements => "Statements",
        ScriptKind::AfterName => "AfterName",
    }
}

/// The line on standard error, without its end; `Done` has none.
impl fmt::Display for Status {
    ghost output = { λ status. Some (line_of status) };

    fn fmt<W: fmt::Write>(&self, f: &mut fmt::Formatter<W>) -> fmt::Result {
        match *self {
            Status::Done => Ok(()),
            Status::BadScript { line, kind } => {
                let word = word_of(kind);
                write!(f, "pgq: line {line}: {word}")
            }
            Status::BadWords => f.write_str("pgq: bad words"),
            Status::ReadFault => f.write_str("pgq: read fault"),
            Status::WriteFault => f.write_str("pgq: write fault"),
            Status::Memory => f.write_str("pgq: no memory"),
            Status::NotYet => f.write_str("pgq: not yet"),
        }
    }
}

impl Status {
    /// The number that the program ends with: 0 for `Done`, and 1 to 6 in the order of the others.
    pub fn number(self) -> u8
        ensures { result ≡ number_of self }
    {
        match self {
            Status::Done => 0,
            Status::BadScript { .. } => 1,
            Status::BadWords => 2,
            Status::ReadFault => 3,
            Status::WriteFault => 4,
            Status::Memory => 5,
            Status::NotYet => 6,
        }
    }

    /// Prints the status's line on standard error; `Done` has none. The error is that of the stream.
    pub fn report(self, rt: &impl Eprint) -> io::Result<()> {
        match self {
            Status::Done => Ok(()),
            _ => rt.eprintln(self),
        }
    }
}
