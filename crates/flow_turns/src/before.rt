//! The gates before a node, and the ways that come to it.

ghost use Rattle.std.specs.Prelude.{◌≡◌, ℕ, length, IfOk, OnOk};
ghost use Rattle.bit_net.specs.Runs.{Grown};
ghost use Rattle.flow_turns.specs.Before.{AreGates, IsHere, Arrives};

use crate::temps::Temps;
use bit_net::{Gate, Net, OutOfMemory};
use flow_ends::Fates;
use flow_ways::{Way, Ways, any_of};
use gl_store::{Store, Val};

/// The gates of a function before a node of its graph.
#[derive(Drop)]
pub struct Before {
    /// The store of the run, where the walk is at a node.
    pub store: Store,
    pub temps: Temps,

    /// The ways that wait at nodes.
    pub ways: Ways,

    /// How runs end that do not come to the function's end.
    pub fates: Fates,

    /// What the function gives.
    pub result: Val,

    /// What a function gives that ends without a value.
    pub blank: Val,
}

/// The ways that come to a node, and the gate that holds where one of them does.
#[derive(Drop)]
pub struct Arrival {
    pub ways: Vec<Way>,
    pub gate: Gate,
}

impl Before {
    /// The ways that wait at the node are taken.
    pub fn arrive(&mut self, net: &mut Net, node: usize) -> Result<Arrival, OutOfMemory>
        requires gates { AreGates net.old self.old }
        ensures grown { Grown net.old net.new }
        ensures gates { OnOk result (AreGates net.new self.new) }
        ensures here { IfOk result (λ r. IsHere net.new r) }
        ensures ok { IfOk result (λ r. Arrives net.old net.new node self.old self.new r) }
    {
        let ways = self.ways.leave(net, node)?;
        let gate = any_of(net, &ways)?;
        Ok(Arrival { ways, gate })
    }
}
