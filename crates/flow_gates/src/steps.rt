//! Who makes the gates of the steps of a function.

ghost use Rattle.std.specs.Prelude.{◌≡◌, ◌+◌, ◌<◌, ◌≤◌, ◌^◌, true, Bool, IfOk, OnOk};

use bit_net::{Gate, Net, OutOfMemory};
use flow_keeps::Reads;
use flow_turns::{Made, Temps};
use gl_store::Store;
use sc_flow::{Calling, Expression, Flow, Numbers, Want};

/// Who makes the gates of the steps of a function: of its expressions and of its calls.
pub trait Steps {
    ghost use Rattle.std.specs.Prelude.{◌≡◌, ◌+◌, ◌<◌, ◌≤◌, ◌^◌, true, Bool, length, IfOk, OnOk};
    ghost use Rattle.bit_net.specs.Circuit.{input_count};
    ghost use Rattle.bit_net.specs.Runs.{Grown};
    ghost use Rattle.gl_store.specs.Meets.{locations_top};
    ghost use Rattle.sc_world.specs.Source.{Source};
    ghost use Rattle.sc_world.specs.Layout.{Layout, location_of};
    ghost use Rattle.sc_world.specs.declared.run.Origin.TheVariants as origin;
    ghost use Rattle.flow_graph.specs.Conditions.{temps_of};
    ghost use Rattle.flow_turns.specs.Kept.{AreTemps};
    ghost use Rattle.flow_keeps.specs.Calls.{Calls};
    ghost use Rattle.flow_keeps.specs.Evaluates.{Evaluates};
    ghost use Rattle.flow_keeps.specs.Reads.{named};
    ghost use Rattle.sc_flow.specs.Seen as seen;
    ghost use Rattle.sc_flow.specs.declared.node.Calling.{Calling as Callings};
    ghost use Rattle.sc_flow.specs.declared.node.Expression.{Expression as Expressions};
    ghost use Rattle.flow_gates.specs.Steps.{CanCall, CanEvaluate, IsStepMade, IsStored};

    /// The function.
    ghost source: { Self → Source };

    /// Its layout.
    ghost layout: { Self → Layout };

    /// Which expressions have gates, if they fit.
    ghost takes: { Self → Expressions → Bool };

    /// Which calls have gates.
    ghost makes: { Self → Callings → Bool };

    /// The temps that an expression reads.
    fn reads(&self, e: &Expression) -> Reads
        requires { takes self.now e.now ≡ true }
        ensures { named result ≡ temps_of (seen.expression (source self.now).structs e.now) };

    /// The location of a local.
    fn local(&self, number: u32) -> u32
        ensures is { result ≡ location_of (layout self.now) (origin.Local number) }
        ensures small { result + 1 < 2 ^ 32 };

    /// The gates of an expression, from where a gate holds.
    fn evaluate(
        &self,
        net: &mut Net,
        store: &mut Store,
        temps: &Temps,
        on: Gate,
        want: Want,
        e: &Expression,
    ) -> Result<Made, OutOfMemory>
        requires takes { takes self.now e.now ≡ true }
        requires inputs { (layout self.now).bits ≤ input_count net.old }
        requires store { IsStored (source self.now) (layout self.now) net.old store.old }
        requires temps { AreTemps net.old temps.now }
        requires on { on.at < length net.old }
        requires can { CanEvaluate (source self.now) (layout self.now) temps.now (seen.want_of want) (seen.expression (source self.now).structs e.now) }
        ensures grown { Grown net.old net.new }
        ensures made { IfOk result (λ made. IsStepMade (layout self.now) net.new on store.new made) }
        ensures ok { IfOk result (λ made. Evaluates (source self.now) (layout self.now) temps.now net.new
            (seen.want_of want) (seen.expression (source self.now).structs e.now) store.old.locations.items store.new.locations.items made) };

    /// The gates of a call with the arguments in these temps, from where a gate holds.
    fn call(
        &self,
        net: &mut Net,
        store: &mut Store,
        temps: &Temps,
        on: Gate,
        calling: &Calling,
        arguments: Numbers,
    ) -> Result<Made, OutOfMemory>
        requires makes { makes self.now calling.now ≡ true }
        requires inputs { (layout self.now).bits ≤ input_count net.old }
        requires store { IsStored (source self.now) (layout self.now) net.old store.old }
        requires temps { AreTemps net.old temps.now }
        requires on { on.at < length net.old }
        requires can { CanCall (source self.now) (layout self.now) temps.now (seen.calling (source self.now).structs calling.now) (seen.all_of arguments) }
        ensures grown { Grown net.old net.new }
        ensures made { IfOk result (λ made. IsStepMade (layout self.now) net.new on store.new made) }
        ensures ok { IfOk result (λ made. Calls (source self.now) (layout self.now) temps.now net.new
            (seen.calling (source self.now).structs calling.now) (seen.all_of arguments)
            store.old.locations.items store.new.locations.items made) };
}

/// What is gone over, and who makes the gates of its steps.
pub struct Graph<'a, 'p, S> {
    pub steps: &'a S,
    pub flow: &'a Flow<'p>,
}
