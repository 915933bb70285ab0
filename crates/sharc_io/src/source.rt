//! Where bytes come from.

ghost use Rattle.std.specs.{Prelude.{ℕ, List}, Io.ReadsAtMost, Io.KnownBytes.ReadConsumes};
ghost use Rattle.std.specs.declared.option.Option.{Option};
ghost use Rattle.sharc_io.specs.Causes.{HasCause};

/// The answer of a call of a source or a sink that failed.
#[derive(Clone, Copy, Debug, PartialEq, Eq)]
pub struct Failed;

/// What bytes are read from.
pub trait Source {
    /// The bytes that it has left, or none where it does not show them.
    ghost left: { Self → Option (List ℕ) };

    /// How often it has failed. The count never falls, and stays where it reaches 2^64 - 1.
    ghost faults: { Self → ℕ };

    /// Takes bytes from the front of what is left, puts them at the front of the buffer, and answers how many they are.
    ///
    /// It answers `Failed` only where the count of faults rose, and what is left is then as before.
    /// It answers 0 for a buffer that is not empty only where nothing is left; of a source that does not show its bytes
    /// no more can be said. Of the buffer after the bytes that were given nothing is said.
    fn read(&mut self, buf: &mut [u8]) -> Result<usize, Failed>
        ensures bound { ReadsAtMost result buf.new }
        ensures bytes { ReadConsumes (left self.old) (left self.new) result buf.new }
        ensures cause { HasCause (faults self.old) (faults self.new) result };
}
