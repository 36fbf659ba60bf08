ghost use Rattle.std.specs.Prelude.{ℕ, List, ◌<◌, length};
ghost use Rattle.std.specs.declared.option.Option.{Option};
ghost use Rattle.std.specs.Io.{ReadsAtMost};
ghost use Rattle.std.specs.Io.KnownBytes.{ReadConsumes, WriteAppends};
ghost use Rattle.pg_outside.specs.Causes.{HasCause, TakesSome};

/// A read or a write was refused.
#[derive(Clone, Copy, Debug, PartialEq, Eq)]
pub struct Failed;

/// Where bytes come from. It may tell which bytes are still to come, and counts its faults: a read that fails raises the
/// count, and any other keeps it.
pub trait Source {
    /// The bytes still to come, where they are told.
    ghost left: { Self → Option (List ℕ) };

    /// How often a read has failed. The count stays at 2^64 - 1 once it is there.
    ghost faults: { Self → ℕ };

    /// Puts the next bytes at the front of `into`, at most as many as it has room for, and gives their number. The number is
    /// 0 at the end of the input; where the bytes to come are told, it is 0 only there. `Failed` takes no byte that is told;
    /// what then stands in `into` is left open.
    fn read(&mut self, into: &mut [u8]) -> Result<usize, Failed>
        requires { 0 < length into.old }
        ensures bound { ReadsAtMost result into.new }
        ensures bytes { ReadConsumes (left self.old) (left self.new) result into.new }
        ensures cause { HasCause (faults self.old) (faults self.new) result };
}

/// Where bytes go. It may tell which bytes it holds, and counts its faults: a write that fails raises the count, and any
/// other keeps it.
pub trait Sink {
    /// The bytes that it has taken, where they are told.
    ghost held: { Self → Option (List ℕ) };

    /// How often a write has failed. The count stays at 2^64 - 1 once it is there.
    ghost faults: { Self → ℕ };

    /// Takes a front of `piece`, at least one byte, and gives its length. `Failed` takes nothing.
    fn write(&mut self, piece: &[u8]) -> Result<usize, Failed>
        requires { 0 < length piece.now }
        ensures bound { TakesSome result piece.now }
        ensures bytes { WriteAppends (held self.old) (held self.new) result piece.now }
        ensures cause { HasCause (faults self.old) (faults self.new) result };
}
