// What a machine file changes.

ghost use Rattle.std.specs.Prelude.{◌≡◌, true, false, ℕ, List, Bool};
ghost use Rattle.sc_typed.specs.declared.program.Program.{Program};
ghost use Rattle.sc_world.specs.Source.{Source};
ghost use Rattle.sc_world.specs.Layout.{Layout};
ghost use Rattle.sc_world.specs.Places.{places};
ghost use Rattle.sc_world.specs.Exec.{run};
ghost use Rattle.sc_world.specs.Paths.{Texts};
ghost use Rattle.sc_world.specs.Shows as query;
ghost use Rattle.sc_world.specs.Verdict as verdict;
ghost use Rattle.program_verdicts.specs.CallGraph.{rows};
ghost use Rattle.program_verdicts.specs.Verdicts.{verdicts};
ghost use Rattle.machine_laws.specs.Tries.{NoNameTries, ProgramCallsNoTry, StatementCallsNoTry, with_file, without_file};

/// A program that calls no function that tries to lock by its name has the same call graph and the same verdicts with
/// the machine of locks given by a file as without a file: all summaries with their rows, and all reports with the runs
/// that show them. Where no name of the program is that of such a function, none is called.
#[tactic(auto, using(crate::proofs::Called::rows_same, crate::proofs::Called::verdicts_same, crate::proofs::Unnamed::unnamed))]
pub fn lock_from_a_file()
    ensures calls { (p : Program) → ProgramCallsNoTry p → rows (without_file p) ≡ rows (with_file p) }
    ensures verdicts { (p : Program) (depth reach : ℕ) → ProgramCallsNoTry p
        → verdicts (without_file p) depth reach ≡ verdicts (with_file p) depth reach }
    ensures named { (p : Program) → NoNameTries p.names → ProgramCallsNoTry p }
{}

/// What functions that try to lock change in the definitions of one function. In a given layout they change nothing: its
/// runs are the same, and so is what they answer. The layout is the same where no such function is called by its name.
#[tactic(auto, using(crate::proofs::Laid::places_same, crate::proofs::Executed::run_same, crate::proofs::Judged::shows_same, crate::proofs::Judged::verdict_same))]
pub fn functions_without_tries()
    ensures runs { (s : Source) (p : Layout) (choice : List Bool)
        → run (record s { tries = true }) p choice ≡ run (record s { tries = false }) p choice }
    ensures answers { (s : Source) (x : Texts) (q : query.Query) (choice : List Bool)
        → verdict.shows (record s { tries = true }) x q choice ≡ verdict.shows (record s { tries = false }) x q choice }
    ensures laid { (s : Source) → StatementCallsNoTry s.names s.body
        → places (record s { tries = true }) ≡ places (record s { tries = false }) }
    ensures verdict { (s : Source) (x : Layout → Texts) → StatementCallsNoTry s.names s.body
        → verdict.verdict_of (record s { tries = true }) x ≡ verdict.verdict_of (record s { tries = false }) x }
{}
