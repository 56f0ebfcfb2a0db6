// The text of a check with the machine of locks from a file.

ghost use Rattle.std.specs.Prelude.{◌≡◌, ℕ, List};
ghost use Rattle.sc_typed.specs.declared.program.Program.{Program};
ghost use Rattle.sum_rows.specs.declared.report.Verdict.{Verdict};
ghost use Rattle.program_verdicts.specs.Verdicts.{verdicts};
ghost use Rattle.report_text.specs.Checks.{text};
ghost use Rattle.machine_laws.specs.Tries.{ProgramCallsNoTry, with_file, without_file};

use machine_laws::lock_from_a_file;

/// The text of a program is the same with the machine of locks from a file as without a file: with the same verdicts, and
/// with those that its definitions give, where it calls no function that tries to lock.
pub fn texts_with_lock()
    ensures given { (p : Program) (vs : List Verdict) → text (without_file p) vs ≡ text (with_file p) vs }
    ensures own { (p : Program) (depth reach : ℕ) → ProgramCallsNoTry p
        → text (without_file p) (verdicts (without_file p) depth reach)
        ≡ text (with_file p) (verdicts (with_file p) depth reach) }
{
    lock_from_a_file();
}
