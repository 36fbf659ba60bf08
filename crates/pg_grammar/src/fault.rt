//! Why nothing was read.
ghost use Rattle.std.specs.Prelude.{◌≡◌};
ghost use Rattle.pg_grammar.specs.declared.fault.Fault.TheVariants.{Syntax, Memory};

use std::alloc::{AllocError, AllocFailed};

/// No tree begins so: the cursor stands at the token at fault.
#[derive(Clone, Copy)]
pub struct Unexpected;

/// Why nothing was read: no tree begins so, and the cursor stands at the token at fault, or memory ran out.
#[derive(Clone, Copy)]
pub enum Fault {
    Syntax,
    Memory,
}

impl From<Unexpected> for Fault {
    ghost from_gives = { λ _ e. e ≡ Syntax };

    fn from(_: Unexpected) -> Fault {
        Fault::Syntax
    }
}

impl From<AllocError> for Fault {
    ghost from_gives = { λ _ e. e ≡ Memory };

    fn from(_: AllocError) -> Fault {
        Fault::Memory
    }
}

impl<T: Drop> From<AllocFailed<T>> for Fault {
    ghost from_gives = { λ _ e. e ≡ Memory };

    fn from(_: AllocFailed<T>) -> Fault {
        Fault::Memory
    }
}
