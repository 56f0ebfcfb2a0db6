// What gates answer is what runs answer. A law is the clause of a function that does nothing but cite others.

ghost use Rattle.std.specs.Prelude.{◌≡◌, Bool, List, [], ◌∷◌, Some, None, true};
ghost use Rattle.bit_net.specs.declared.nodes.Gate.{Gate};
ghost use Rattle.bit_net.specs.declared.nodes.Node.{Node};
ghost use Rattle.bit_net.specs.Circuit.{input_count, IsCircuit};
ghost use Rattle.gate_questions.specs.Holds.{SomeHolds, NoneHolds, IsFirst};
ghost use Rattle.sc_world.specs.Source.{Source};
ghost use Rattle.sc_world.specs.Paths.{Texts};
ghost use Rattle.sc_world.specs.Shows.{Query};
ghost use Rattle.sc_world.specs.Verdict.{first_run, is_there};
ghost use Rattle.flow_ends.specs.Encoded.{IsAnswer};

use bit_net::{runs_fit_tables, values_are_runs};
use sc_world::the_first_choice;

/// Where the gate of a question holds for some choice, some run answers yes; where it holds for none, none does; and the first choice for
/// which it holds is that of the first run that does.
pub fn gates_answer_as_runs_do()
    ensures some { (s : Source) (x : Texts) (q : Query) (ns : List Node) (g : Gate) → IsCircuit ns → input_count ns ≡ x.layout.bits
        → IsAnswer s x ns q g.at → SomeHolds ns (g ∷ []) → is_there (first_run s x q) ≡ true }
    ensures none { (s : Source) (x : Texts) (q : Query) (ns : List Node) (g : Gate) → IsCircuit ns → input_count ns ≡ x.layout.bits
        → IsAnswer s x ns q g.at → NoneHolds ns (g ∷ []) → first_run s x q ≡ None }
    ensures first { (s : Source) (x : Texts) (q : Query) (ns : List Node) (g : Gate) (bits : List Bool) → IsCircuit ns
        → input_count ns ≡ x.layout.bits → IsAnswer s x ns q g.at → IsFirst ns (g ∷ []) bits → first_run s x q ≡ Some bits }
{
    runs_fit_tables();
    values_are_runs();
    the_first_choice();
}
