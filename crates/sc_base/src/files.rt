// The trait of the files that a program reads: the real ones, or files in memory.

ghost use Rattle.std.specs.Prelude.{◌≡◌, ◌<◌, Bool, true, false, List, ℕ, Option, length, IsTrue, IsOk, OnOk, OnErr};
ghost use Rattle.std.specs.Io.{ReadsAtMost};
ghost use Rattle.sc_base.specs.Causes.{HasCause};
ghost use Rattle.sc_base.specs.Held.{is_named, IsWhole, Gives};

use crate::Failed;

/// Files that are read one after another, each from its beginning.
///
/// No call changes which files there are or which names are firm. A call answers Failed only
/// where the count of faults rose in it, or stands at its greatest value.
pub trait Files {
    /// The names of the files and their bytes, where that is told. Of two files of one name the
    /// first counts.
    ghost held: { Self → Option (List (List ℕ × List ℕ)) };

    /// What is left of the started file, where that is told.
    ghost left: { Self → Option (List ℕ) };

    /// Whether a file is started.
    ghost started: { Self → Bool };

    /// Whether the started file has a firm name.
    ghost firmly: { Self → Bool };

    /// The firm names: those of files that never fail.
    ghost firm: { Self → List (List ℕ) };

    /// How often a call failed. The count never falls.
    ghost faults: { Self → ℕ };

    /// Begins the file of that name and ends the earlier one. After Failed no file is started. A
    /// file that is missing is a fault.
    fn start(&mut self, name: &str) -> Result<(), Failed>
        ensures held { held self.new ≡ held self.old }
        ensures firm { firm self.new ≡ firm self.old }
        ensures started { OnOk result (started self.new ≡ true) }
        ensures firmly { OnOk result (firmly self.new ≡ is_named name.now (firm self.old)) }
        ensures whole { OnOk result (IsWhole (held self.old) name.now (left self.new)) }
        ensures ended { OnErr result (started self.new ≡ false) }
        ensures sure { IsTrue (is_named name.now (firm self.old)) → IsOk result }
        ensures cause { HasCause (faults self.old) (faults self.new) result };

    /// Puts the next bytes of the started file at the front of `buf`, and answers how many. Only
    /// where nothing is left there are none. After Failed no file is started.
    fn read(&mut self, buf: &mut [u8]) -> Result<usize, Failed>
        requires room { 0 < length buf.old }
        requires started { IsTrue (started self.old) }
        ensures held { held self.new ≡ held self.old }
        ensures firm { firm self.new ≡ firm self.old }
        ensures bound { ReadsAtMost result buf.new }
        ensures bytes { Gives (left self.old) (left self.new) result buf.new }
        ensures started { OnOk result (started self.new ≡ true) }
        ensures firmly { OnOk result (firmly self.new ≡ firmly self.old) }
        ensures ended { OnErr result (started self.new ≡ false) }
        ensures sure { IsTrue (firmly self.old) → IsOk result }
        ensures cause { HasCause (faults self.old) (faults self.new) result };
}
