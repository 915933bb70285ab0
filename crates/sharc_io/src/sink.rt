//! Where bytes go.

ghost use Rattle.std.specs.{Prelude.{ℕ, List}, Io.WritesAtMost, Io.KnownBytes.WriteAppends};
ghost use Rattle.std.specs.declared.option.Option.{Option};
ghost use Rattle.sharc_io.specs.Causes.{HasCause, HasStallCause};

use crate::Failed;

/// What bytes are written to.
pub trait Sink {
    /// The bytes that it holds, or none where it does not show them.
    ghost held: { Self → Option (List ℕ) };

    /// How often it has failed. The count never falls, and stays where it reaches 2^64 - 1.
    ghost faults: { Self → ℕ };

    /// How often it has taken none of a piece that was not empty. The count never falls, and stays where it reaches
    /// 2^64 - 1.
    ghost stalls: { Self → ℕ };

    /// Appends a front part of the piece to what is held, and answers how many bytes it took.
    ///
    /// It answers `Failed` only where the count of faults rose, and what is held is then as before.
    /// It answers 0 for a piece that is not empty only where the count of stalls rose.
    fn write(&mut self, piece: &[u8]) -> Result<usize, Failed>
        ensures bound { WritesAtMost result piece.now }
        ensures bytes { WriteAppends (held self.old) (held self.new) result piece.now }
        ensures cause { HasCause (faults self.old) (faults self.new) result }
        ensures stall { HasStallCause (stalls self.old) (stalls self.new) result piece.now };
}
