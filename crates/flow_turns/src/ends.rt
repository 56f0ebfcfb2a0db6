//! Where the walk begins, and what is told of all runs when each node was gone past.

ghost use Rattle.std.specs.Prelude.{◌≡◌, ℕ, ◌<◌, ◌≤◌, false, List, length, slice_index_or, IfOk};
ghost use Rattle.bit_net.specs.Circuit.{input_count};
ghost use Rattle.bit_net.specs.Runs.{Always};
ghost use Rattle.gate_runs.specs.Stands.{told, gates_top};
ghost use Rattle.gl_store.specs.Meets.{locations_top, val_top};
ghost use Rattle.gl_store.specs.declared.values.Val.TheVariants as val;
ghost use Rattle.sc_world.specs.Layout.{Layout};
ghost use Rattle.sc_world.specs.Source.{Source};
ghost use Rattle.flow_graph.specs.Nodes.{Node};
ghost use Rattle.flow_ends.specs.Encoded.{IsEncoded};
ghost use Rattle.flow_turns.specs.Before.{AreGates, IsBefore};
ghost use Rattle.flow_turns.specs.Ends.{AreBlank, AreRuns, Begins, AreUnkept};
ghost use Rattle.flow_turns.specs.Kept.{AreTemps, vals_top};

use crate::before::Before;
use crate::temps::{Slot, Temps};
use bit_net::{Gate, Net, OutOfMemory};
use flow_ends::{Encoded, Fates};
use flow_ways::Ways;
use gl_store::{Store, Val};

// So many values that are nothing.
fn no_vals(net: &Net, count: usize) -> Result<Vec<Val>, OutOfMemory>
    ensures len { IfOk result (λ r. length r.items ≡ count) }
    ensures none { IfOk result (λ r. (m : ℕ) → slice_index_or r.items m val.Unit ≡ val.Unit) }
    ensures top { IfOk result (λ r. vals_top r.items ≡ 0) }
{
    let mut vals = Vec::new(net.alloc());
    for _ in 0..count {
        vals.push(Val::Unit)?;
    }
    Ok(vals)
}

// So many gates that never hold.
fn no_gates(net: &Net, count: usize) -> Result<Vec<Gate>, OutOfMemory>
    ensures len { IfOk result (λ r. length r.items ≡ count) }
    ensures below { IfOk result (λ r. gates_top r.items ≤ length net.now) }
    ensures none { IfOk result (λ r. Always net.now (λ choice v. (m : ℕ) → told v r.items m ≡ false)) }
{
    let never = net.constant(false);
    let mut gates = Vec::new(net.alloc());
    for _ in 0..count {
        gates.push(never)?;
    }
    Ok(gates)
}

// So many flags that do not hold.
fn no_flags(net: &Net, count: usize) -> Result<Vec<bool>, OutOfMemory>
    ensures len { IfOk result (λ r. length r.items ≡ count) }
    ensures none { IfOk result (λ r. (m : ℕ) → slice_index_or r.items m false ≡ false) }
{
    let mut flags = Vec::new(net.alloc());
    for _ in 0..count {
        flags.push(false)?;
    }
    Ok(flags)
}

// So many slots that no node has kept.
fn no_slots(net: &Net, count: usize) -> Result<Vec<Slot>, OutOfMemory>
    ensures len { IfOk result (λ r. length r.items ≡ count) }
    ensures blank { IfOk result (λ r. AreBlank r.items) }
{
    let mut slots = Vec::new(net.alloc());
    for _ in 0..count {
        slots.push(Slot {
            cells: Vec::new(net.alloc()),
            kept: false,
        })?;
    }
    Ok(slots)
}

impl Temps {
    /// So many temps and slots that no node has kept.
    fn none(net: &Net, temps: usize, slots: usize) -> Result<Temps, OutOfMemory>
        ensures { IfOk result (λ r. AreUnkept net.now temps slots r) }
    {
        let vals = no_vals(net, temps)?;
        let sure = no_gates(net, temps)?;
        let kept = no_flags(net, temps)?;
        let slots = no_slots(net, slots)?;
        Ok(Temps {
            vals,
            sure,
            kept,
            slots,
        })
    }
}

impl Before {
    /// The walk is at the first node, with that store, and nothing was kept. `blank` is what a function gives that ends without a value;
    /// the layout has so many locations, and the graph so many temps and slots.
    pub fn begin(
        net: &Net,
        store: Store,
        blank: Val,
        locations: usize,
        temps: usize,
        slots: usize,
    ) -> Result<Before, OutOfMemory>
        requires store { locations_top store.locations.items ≤ length net.now }
        requires blank { val_top blank ≤ length net.now }
        ensures gates { IfOk result (λ r. AreGates net.now r) }
        ensures count { IfOk result (λ r. length r.fates.bads.items ≡ locations) }
        ensures temps { IfOk result (λ r. length r.temps.vals.items ≡ temps) }
        ensures ok { IfOk result (λ r. Begins net.now store blank locations temps slots r) }
    {
        let ways = Ways::begin(net, 0)?;
        let fates = Fates::none(net, locations)?;
        let temps = Temps::none(net, temps, slots)?;
        let given = blank.try_clone(net)?;
        Ok(Before {
            store,
            temps,
            ways,
            fates,
            result: given,
            blank,
        })
    }

    /// What is told of all runs, when each of the nodes was gone past whose walks are the runs.
    pub fn finish(self, net: &Net) -> Encoded
        requires gates { AreGates net.now self }
        ensures { (s : Source) (p : Layout) (nodes : List Node) → input_count net.now ≡ p.bits → AreRuns s p nodes
            → IsBefore s p nodes (length nodes) net.now self → IsEncoded s p net.now result }
    {
        let _net = net;
        let Before {
            store,
            fates,
            result: given,
            ..
        } = self;
        Encoded {
            fates,
            store,
            result: given,
        }
    }
}
