// A check with the machine of locks from a file.

ghost use Rattle.std.specs.Prelude.{◌≡◌, ℕ};
ghost use Rattle.sc_typed.specs.declared.program.Program.{Program};
ghost use Rattle.sc_check.specs.Typed.{Sources, Typed, typed};
ghost use Rattle.program_verdicts.specs.Verdicts.{verdicts};
ghost use Rattle.report_text.specs.Checks.{text};
ghost use Rattle.machine_laws.specs.Tries.{NoNameTries, with_file};
ghost use Rattle.machine_checks.specs.Files.{sources_with, sources_without, with_lock};

use machine_laws::lock_from_a_file;
use machine_texts::texts_with_lock;

/// Files in which no function that tries to lock is named are typed with the machine of locks as without a machine file:
/// what is refused is refused, and each typed program is the same but for its machine. So the text of the check is the
/// same.
pub fn checks_with_lock()
    ensures typed { (s : Sources) → NoNameTries s.names → typed (sources_with s) ≡ with_lock (typed (sources_without s)) }
    ensures text { (s : Sources) (p : Program) (depth reach : ℕ) → NoNameTries s.names
        → typed (sources_without s) ≡ Typed p
        → (typed (sources_with s) ≡ Typed (with_file p))
        × (text (with_file p) (verdicts (with_file p) depth reach) ≡ text p (verdicts p depth reach)) }
{
    texts_with_lock();
    lock_from_a_file();
}
