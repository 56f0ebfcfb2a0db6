// The trait of what a program writes to: standard output or standard error, or memory.

ghost use Rattle.std.specs.Prelude.{◌<◌, List, ℕ, Option, length, IfOk};
ghost use Rattle.std.specs.Io.{WritesAtMost};
ghost use Rattle.std.specs.Io.KnownBytes.{WriteAppends};
ghost use Rattle.sc_base.specs.Causes.{HasCause};

use crate::Failed;

/// A place for bytes, which takes them in order.
///
/// It answers Failed only where its count of faults rose in the call, or stands at its greatest
/// value.
pub trait Sink {
    /// The bytes taken so far, where that is told.
    ghost taken: { Self → Option (List ℕ) };

    /// How often a call failed. The count never falls.
    ghost faults: { Self → ℕ };

    /// Takes the first bytes, at least one, and answers how many. After Failed it took none.
    fn write(&mut self, bytes: &[u8]) -> Result<usize, Failed>
        requires { 0 < length bytes.now }
        ensures bound { WritesAtMost result bytes.now }
        ensures some { IfOk result (λ n. 0 < n) }
        ensures bytes { WriteAppends (taken self.old) (taken self.new) result bytes.now }
        ensures cause { HasCause (faults self.old) (faults self.new) result };
}
