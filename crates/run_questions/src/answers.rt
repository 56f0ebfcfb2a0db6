// Who answers questions.

ghost use Rattle.std.specs.Prelude.{◌≡◌, IfOk};
ghost use Rattle.sc_world.specs.Verdict.{Answers};
ghost use Rattle.run_questions.specs.Seen.{query};

use crate::queries::Query;
use sc_base::OutOfMemory;
use sum_rows::Shown;

/// Who answers questions to the runs of a function. Its answers do not change, whatever is asked and also where memory
/// is refused.
pub trait Answerer {
    ghost use Rattle.std.specs.Prelude.{◌≡◌, IfOk};
    ghost use Rattle.sc_world.specs.Verdict.{Answers};
    ghost use Rattle.run_questions.specs.Seen.{query};

    /// Its answer to every question.
    ghost answers: { Self → Answers };

    /// Whether some run answers yes.
    fn some(&mut self, asked: Query) -> Result<bool, OutOfMemory>
        ensures some { IfOk result (λ b. b ≡ (answers self.old).some (query asked.entry)) }
        ensures answers { answers self.new ≡ answers self.old };

    /// The first run that answers yes, as it is shown; one without choices and events where no run does.
    fn shown(&mut self, asked: Query) -> Result<Shown, OutOfMemory>
        ensures shown { IfOk result (λ s. s ≡ (answers self.old).shown (query asked.entry)) }
        ensures answers { answers self.new ≡ answers self.old };
}
