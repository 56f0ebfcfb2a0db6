// Who makes the gates of questions.

ghost use Rattle.std.specs.Prelude.{◌≡◌, List, IfOk, OnOk};
ghost use Rattle.bit_net.specs.declared.nodes.Node.{Node};
ghost use Rattle.bit_net.specs.Runs.{Grown};
ghost use Rattle.sc_world.specs.Source.{Source};
ghost use Rattle.sc_world.specs.Paths.{Texts};
ghost use Rattle.run_questions.specs.Seen.{query};
ghost use Rattle.flow_ends.specs.Encoded.{IsAnswer};

use bit_net::{Gate, Net, OutOfMemory};
use run_questions::Query;

/// Who makes a gate for each question about the runs of a function, all in one net.
pub trait Gated {
    ghost use Rattle.std.specs.Prelude.{◌≡◌, List, IfOk, OnOk};
    ghost use Rattle.bit_net.specs.declared.nodes.Node.{Node};
    ghost use Rattle.bit_net.specs.Runs.{Grown};
    ghost use Rattle.sc_world.specs.Source.{Source};
    ghost use Rattle.sc_world.specs.Paths.{Texts};
    ghost use Rattle.run_questions.specs.Seen.{query};
    ghost use Rattle.flow_ends.specs.Encoded.{IsAnswer};

    /// The function, and what its locations are called.
    ghost source: { Self → Source };

    ghost texts: { Self → Texts };

    /// Gates may be made in this net.
    ghost ready: { Self → List Node → Type 0 };

    /// The gate that holds for exactly the choices whose run answers yes. Where memory is refused, it is not to be asked again.
    fn gate(&mut self, net: &mut Net, asked: Query) -> Result<Gate, OutOfMemory>
        requires ready { ready self.old net.old }
        ensures gate { IfOk result (λ g. IsAnswer (source self.old) (texts self.old) net.new (query asked.entry) g.at) }
        ensures ready { OnOk result (ready self.new net.new) }
        ensures grown { Grown net.old net.new }
        ensures source { source self.new ≡ source self.old }
        ensures texts { texts self.new ≡ texts self.old };
}
