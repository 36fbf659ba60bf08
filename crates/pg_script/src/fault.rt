//! Why an input is no script.
ghost use Rattle.std.specs.Prelude.{◌≡◌};
ghost use Rattle.pg_script.specs.declared.fault.ScriptFault.TheVariants.{Memory};

use std::alloc::{AllocError, AllocFailed};

/// What is wrong with an input that is no script.
#[derive(Clone, Copy, Debug, PartialEq, Eq)]
pub enum ScriptKind {
    /// It has more than 16,777,216 bytes. The line is 0.
    TooLong,
    /// It is no UTF-8; the line is that of the first byte that is none.
    NotText,
    /// A line that begins with `@` has no form of a section line or may not stand there; or more than white space and
    /// comments stand before the first such line; or a word of the order is no session's name.
    Section,
    /// The 65th session, at its section line.
    Sessions,
    /// The 100,001st statement of a section, at the line where it begins.
    Statements,
    /// A statement that begins with AFTER and is not `AFTER name n;` in a session, with the name of an earlier session
    /// and 1 to its number of statements; at the line where the statement begins.
    AfterName,
}

/// Why no script was made of an input: a fault at a line, counted from 1, or want of memory.
///
/// Too many bytes come before all other faults, and bytes that are no text before those of a script. Of these the first
/// line with a fault decides, and on one line the order of the kinds.
#[derive(Clone, Copy)]
pub enum ScriptFault {
    Bad { line: u32, kind: ScriptKind },
    Memory,
}

impl From<AllocError> for ScriptFault {
    ghost from_gives = { λ _ e. e ≡ Memory };

    fn from(_: AllocError) -> ScriptFault {
        ScriptFault::Memory
    }
}

impl<T: Drop> From<AllocFailed<T>> for ScriptFault {
    ghost from_gives = { λ _ e. e ≡ Memory };

    fn from(_: AllocFailed<T>) -> ScriptFault {
        ScriptFault::Memory
    }
}
