// What holds of the verdicts of every program. A law is the clause of a function that does nothing but cite others.

ghost use Rattle.std.specs.Prelude.{◌≡◌, ℕ, map};
ghost use Rattle.sc_typed.specs.declared.program.Program.{Program};
ghost use Rattle.sum_rows.specs.declared.report.Verdict.{Verdict};
ghost use Rattle.program_verdicts.specs.Verdicts.{AreVerdicts, verdict_in, verdicts};
ghost use Rattle.program_verdicts.specs.CallGraph.{functions};

use plan_core::laws::reaching;

/// The verdicts of a program are the one solution of: the verdict of each function is made of the verdicts of the
/// callees to which its edges are kept. The list of verdicts has those of all functions, in the order of the program.
pub fn verdicts_by_callees()
    ensures made { (p : Program) (depth reach : ℕ) → AreVerdicts p depth reach (verdict_in p depth reach) }
    ensures only { (p : Program) (depth reach : ℕ) (v : ℕ → Verdict) → AreVerdicts p depth reach v
        → (f : ℕ) → v f ≡ verdict_in p depth reach f }
    ensures listed { (p : Program) (depth reach : ℕ) (v : ℕ → Verdict) → AreVerdicts p depth reach v
        → map v (functions p) ≡ verdicts p depth reach }
{
    reaching();
}
