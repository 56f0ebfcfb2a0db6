// Asking about the gate of a question.

ghost use Rattle.std.specs.Prelude.{◌≡◌, IfOk, OnOk, MatchOption, None, Some};
ghost use Rattle.sc_world.specs.Verdict.{first_run, is_there};
ghost use Rattle.run_questions.specs.Seen.{query};
ghost use Rattle.fn_gated.specs.Asked.{MayAsk};

use crate::gated::Gated;
use crate::laws::gates_answer_as_runs_do;
use bit_net::Net;
use gate_questions::{OutOfMemory, Questions, what_may_be_asked_stays};
use run_questions::Query;
use sat_base::Solver;

/// Whether some run answers yes.
pub fn ask_some<G: Gated, S: Solver>(
    gates: &mut G,
    net: &mut Net,
    questions: &mut Questions<S>,
    asked: Query,
) -> Result<bool, OutOfMemory>
    requires { MayAsk (G.ready gates.old) (G.texts gates.old) net.old questions.old }
    ensures some { IfOk result (λ b. b ≡ is_there (first_run (G.source gates.old) (G.texts gates.old) (query asked.entry))) }
    ensures may { OnOk result (MayAsk (G.ready gates.new) (G.texts gates.new) net.new questions.new) }
    ensures source { G.source gates.new ≡ G.source gates.old }
    ensures texts { G.texts gates.new ≡ G.texts gates.old }
{
    gates_answer_as_runs_do();
    what_may_be_asked_stays();
    let gate = gates.gate(net, asked)?;
    net.sound();
    let holds = questions.some(net, &[gate])?;
    Ok(holds)
}

/// The choice of the first run that answers yes, or `None` where no run does.
pub fn ask_first<G: Gated, S: Solver>(
    gates: &mut G,
    net: &mut Net,
    questions: &mut Questions<S>,
    asked: Query,
) -> Result<Option<Vec<bool>>, OutOfMemory>
    requires { MayAsk (G.ready gates.old) (G.texts gates.old) net.old questions.old }
    ensures first { IfOk result (λ found. MatchOption found
        (first_run (G.source gates.old) (G.texts gates.old) (query asked.entry) ≡ None)
        (λ bits. first_run (G.source gates.old) (G.texts gates.old) (query asked.entry) ≡ Some bits.items)) }
    ensures may { OnOk result (MayAsk (G.ready gates.new) (G.texts gates.new) net.new questions.new) }
    ensures source { G.source gates.new ≡ G.source gates.old }
    ensures texts { G.texts gates.new ≡ G.texts gates.old }
{
    gates_answer_as_runs_do();
    what_may_be_asked_stays();
    let gate = gates.gate(net, asked)?;
    net.sound();
    let found = questions.first(net, &[gate])?;
    Ok(found)
}
