ghost use Rattle.std.specs.Prelude.{ℕ, ◌<◌, List, length, Option};
ghost use Rattle.std.specs.Io.{ReadsAtMost};
ghost use Rattle.std.specs.Io.KnownBytes.{ReadConsumes};
ghost use Rattle.zk_base.specs.Causes.{HasCause};

use crate::Failed;

/// Where the program's input comes from.
pub trait Source {
    /// The bytes that it has left, where it tells them.
    ghost left: { Self → Option (List ℕ) };

    /// How many of its calls have failed, counted up to 2^64 - 1.
    ghost faults: { Self → ℕ };

    /// Moves the next bytes into the front of `into`, and answers how many: 0 is the end of the input.
    fn read(&mut self, into: &mut [u8]) -> Result<usize, Failed>
        requires { 0 < length into.old }
        ensures bound { ReadsAtMost result into.new }
        ensures bytes { ReadConsumes (left self.old) (left self.new) result into.new }
        ensures cause { HasCause (faults self.old) (faults self.new) result };
}
