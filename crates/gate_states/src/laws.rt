//! What stays so while a net grows: a law, with no code.

ghost use Rattle.std.specs.Prelude.{List};
ghost use Rattle.bit_net.specs.declared.nodes.Node.{Node};
ghost use Rattle.bit_net.specs.Runs.{Grown};
ghost use Rattle.gate_states.specs.declared.called.Called.{Called};
ghost use Rattle.gate_states.specs.Called.{IsCalled};

/// What a call has to do with stays so while the net grows.
#[tactic(auto, using(crate::proofs::Staying::is_called))]
pub fn called_stays()
    ensures { (old new : List Node) (c : Called) → Grown old new → IsCalled old c → IsCalled new c }
{}
