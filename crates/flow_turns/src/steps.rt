//! Nodes that make a step and keep what it gives: what is done behind the step, whatever it is.

ghost use Rattle.std.specs.Prelude.{◌≡◌, ◌<◌, ◌^◌, length, OnOk};
ghost use Rattle.bit_net.specs.Runs.{Grown};
ghost use Rattle.gate_runs.specs.Stands.{AreEnds};
ghost use Rattle.flow_turns.specs.Before.{AreGates, IsHere};
ghost use Rattle.flow_turns.specs.Steps.{GoesOnBy, IsMade, Settles};

use crate::before::{Arrival, Before};
use bit_net::{Gate, Net, OutOfMemory};
use gate_runs::Ends;
use gl_store::Val;

/// A step that a node has made.
#[derive(Drop)]
pub struct Made {
    /// Holds where the step begins.
    pub on: Gate,

    /// Whether it goes on, and how it ended.
    pub ends: Ends,

    /// What it gives.
    pub val: Val,

    /// Holds where what it gives may be used: of a place, where it leads to an object.
    pub sure: Gate,
}

impl Before {
    /// Tells how runs ended in a step, keeps what it gave in a temp, and goes on.
    pub fn settle(
        &mut self,
        net: &mut Net,
        here: Arrival,
        made: Made,
        temp: usize,
        next: usize,
    ) -> Result<(), OutOfMemory>
        requires gates { AreGates net.old self.old }
        requires few { length self.old.fates.bads.items < 2 ^ 32 }
        requires here { IsHere net.old here }
        requires made { IsMade net.old (length self.old.fates.bads.items) made }
        requires temp { temp < length self.old.temps.vals.items }
        ensures grown { Grown net.old net.new }
        ensures gates { OnOk result (AreGates net.new self.new) }
        ensures ok { OnOk result (Settles net.old net.new temp next here made self.old self.new) }
    {
        let Made {
            on,
            ends,
            val,
            sure,
        } = made;
        let Arrival { ways, gate } = here;
        self.fates.tell(net, &self.store, on, &ends)?;
        self.temps.keep(net, gate, temp, val, sure)?;
        self.ways.come(next, ways)?;
        Ok(())
    }

    /// Tells how runs ended in a step that keeps nothing and began where `on` holds, and goes on.
    pub fn go_on(
        &mut self,
        net: &mut Net,
        here: Arrival,
        on: Gate,
        ends: &Ends,
        next: usize,
    ) -> Result<(), OutOfMemory>
        requires gates { AreGates net.old self.old }
        requires few { length self.old.fates.bads.items < 2 ^ 32 }
        requires here { IsHere net.old here }
        requires on { on.at < length net.old }
        requires ends { AreEnds net.old ends.now }
        requires each { length ends.now.bads.items ≡ length self.old.fates.bads.items }
        ensures grown { Grown net.old net.new }
        ensures gates { OnOk result (AreGates net.new self.new) }
        ensures ok { OnOk result (GoesOnBy net.old net.new next here on.at ends.now self.old self.new) }
    {
        let Arrival { ways, .. } = here;
        self.fates.tell(net, &self.store, on, ends)?;
        self.ways.come(next, ways)?;
        Ok(())
    }
}
