//! The gates that tell where a run stands.

ghost use Rattle.std.specs.Prelude.{◌≡◌, ℕ, ◌+◌, ◌<◌, ◌≤◌, max, nat_eq, Bool, false, length, if◌then◌else◌, IfOk, OnOk, OnErr};
ghost use Rattle.bit_net.specs.Runs.{Grown, Runs};
ghost use Rattle.gate_runs.specs.Standing.{reason_number, reasons};
ghost use Rattle.gate_runs.specs.Stands.{AreEnds, HasBegun, HasFailedWhere, IsEndedWhere, told, gates_top};

use bit_net::{Gate, Net, OutOfMemory};
use sc_world::Reason;
use std::alloc::Global;

// How many reasons there are.
const REASONS: usize = 11;

/// The gates that tell where a run stands.
#[derive(Drop)]
pub struct Ends {
    /// Holds where the run goes on.
    pub live: Gate,
    /// One gate for each reason, in the order in which reasons count: the run was set aside for it.
    pub asides: Vec<Gate>,
    /// One gate for each location: the run ended by an error there.
    pub bads: Vec<Gate>,
}

// The number of a reason.
fn number(reason: Reason) -> usize
    ensures is { result ≡ reason_number reason }
    ensures low { result < reasons }
{
    match reason {
        Reason::Null => 0,
        Reason::Reach => 1,
        Reason::Freed => 2,
        Reason::Type => 3,
        Reason::Index => 4,
        Reason::Divide => 5,
        Reason::Shift => 6,
        Reason::Depth => 7,
        Reason::Alias => 8,
        Reason::NoRow => 9,
        Reason::NoReturn => 10,
    }
}

// So many gates that never hold.
#[tactic(auto, using(crate::proofs::Gates::told_none, crate::proofs::Gates::top_none))]
fn none_of(alloc: Global, net: &Net, count: usize) -> Result<Vec<Gate>, OutOfMemory>
    ensures len { IfOk result (λ gs. length gs.items ≡ count) }
    ensures below { IfOk result (λ gs. gates_top gs.items ≤ length net.now) }
    ensures none { IfOk result (λ gs. (choice v : ℕ → Bool) → Runs net.now choice v → (k : ℕ) → told v gs.items k ≡ false) }
{
    let none = net.constant(false);
    let mut gates = Vec::new(alloc);
    for _ in 0..count {
        gates.push(none)?;
    }
    Ok(gates)
}

impl Ends {
    /// A run that begins where the gate holds, and never comes here where it does not; with as many locations.
    pub fn new(alloc: Global, net: &Net, live: Gate, locations: usize) -> Result<Ends, OutOfMemory>
        requires live { live.at < length net.now }
        ensures ready { IfOk result (λ gates. AreEnds net.now gates) }
        ensures locations { IfOk result (λ gates. length gates.bads.items ≡ locations) }
        ensures begun { IfOk result (λ gates. HasBegun net.now live.at gates) }
    {
        let asides = none_of(alloc, net, REASONS)?;
        let bads = none_of(alloc, net, locations)?;
        Ok(Ends { live, asides, bads })
    }

    /// Sets the run aside for that reason where the gate holds and the run goes on. After a refusal of memory the gates
    /// are as they were.
    pub fn end_where(
        &mut self,
        net: &mut Net,
        when: Gate,
        reason: Reason,
    ) -> Result<(), OutOfMemory>
        requires ready { AreEnds net.old self.old }
        requires when { when.at < length net.old }
        ensures grown { Grown net.old net.new }
        ensures ready { OnOk result (AreEnds net.new self.new) }
        ensures locations { length self.new.bads.items ≡ length self.old.bads.items }
        ensures ok { OnOk result (IsEndedWhere net.new when.at reason self.old self.new) }
        ensures err { OnErr result (self.new ≡ self.old) }
    {
        let k = number(reason);
        let over = net.and(self.live, when)?;
        let told = net.or(gate_in(self.asides.as_slice(), k), over)?;
        let still = net.not(when)?;
        let live = net.and(self.live, still)?;
        set_gate(self.asides.as_mut_slice(), k, told);
        self.live = live;
        Ok(())
    }

    /// Ends the run by an error at that location where the gate holds and the run goes on. After a refusal of memory the
    /// gates are as they were.
    pub fn fail_where(&mut self, net: &mut Net, when: Gate, at: u32) -> Result<(), OutOfMemory>
        requires ready { AreEnds net.old self.old }
        requires when { when.at < length net.old }
        requires at { at < length self.old.bads.items }
        ensures grown { Grown net.old net.new }
        ensures ready { OnOk result (AreEnds net.new self.new) }
        ensures locations { length self.new.bads.items ≡ length self.old.bads.items }
        ensures ok { OnOk result (HasFailedWhere net.new when.at at self.old self.new) }
        ensures err { OnErr result (self.new ≡ self.old) }
    {
        let failed = net.and(self.live, when)?;
        let told = net.or(gate_in(self.bads.as_slice(), at as usize), failed)?;
        let still = net.not(when)?;
        let rest = net.and(self.live, still)?;
        set_gate(self.bads.as_mut_slice(), at as usize, told);
        self.live = rest;
        Ok(())
    }
}

// The gate with a number.
fn gate_in(gates: &[Gate], k: usize) -> Gate
    requires { k < length gates.now }
    ensures below { result.at < gates_top gates.now }
    ensures told { (v : ℕ → Bool) → v result.at ≡ told v gates.now k }
{
    gates[k]
}

// Another gate with that number.
fn set_gate(gates: &mut [Gate], k: usize, gate: Gate)
    requires { k < length gates.old }
    ensures len { length gates.new ≡ length gates.old }
    ensures top { gates_top gates.new ≤ max (gates_top gates.old) (gate.at + 1) }
    ensures told { (v : ℕ → Bool) (j : ℕ) → told v gates.new j ≡ (if nat_eq k j then v gate.at else told v gates.old j) }
{
    gates[k] = gate;
}
