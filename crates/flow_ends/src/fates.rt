//! The gates that tell how runs end.
ghost use Rattle.std.specs.Prelude.{◌≡◌, ℕ, ◌+◌, ◌^◌, ◌<◌, ◌≤◌, max, nat_eq, Bool, false, ◌&&◌, ◌||◌, if◌then◌else◌, List, length, IfOk, OnOk};
ghost use Rattle.bit_net.specs.Runs.{Grown, Gives, Always};
ghost use Rattle.gl_store.specs.Meets.{MeetsAll, locations_top};
ghost use Rattle.gate_runs.specs.Stands.{AreEnds, gates_top, told};
ghost use Rattle.run_store.specs.Concrete.{Place, flag_at};
ghost use Rattle.run_store.specs.declared.Flag.TheVariants as flag;
ghost use Rattle.flow_ends.specs.Fates.{AreFates, NoFates, TellsStep, ends_now};
ghost use Rattle.flow_ends.specs.Noted.{NotesAt, NotesAll};

use bit_net::{Gate, Net, OutOfMemory};
use gate_runs::Ends;
use gl_sets::is_never;
use gl_store::Store;
use run_store::Flag;

/// How runs end that do not come to the function's end.
#[derive(Drop)]
pub struct Fates {
    /// Holds where the run ends before the function does: by an error, or set aside.
    pub over: Gate,

    /// One gate for each location: the run ends by an error there.
    pub bads: Vec<Gate>,

    /// Holds where a step ended the run.
    pub stopped: Gate,

    /// One gate for each location: where a step ended the run, whether the run had touched the location.
    pub touched: Vec<Gate>,

    /// The same where no step has ended the run: what the store told of the location when a step was told last that may end a run.
    pub noted: Vec<Gate>,
}

// So many gates that never hold.
#[tactic(auto, using(crate::proofs::Gates::told_none, crate::proofs::Gates::top_none))]
fn none_of(net: &Net, count: usize) -> Result<Vec<Gate>, OutOfMemory>
    ensures len { IfOk result (λ gs. length gs.items ≡ count) }
    ensures below { IfOk result (λ gs. gates_top gs.items ≤ length net.now) }
    ensures none { IfOk result (λ gs. Always net.now (λ choice v. (k : ℕ) → told v gs.items k ≡ false)) }
{
    let none = net.constant(false);
    let mut gates = Vec::new(net.alloc());
    for _ in 0..count {
        gates.push(none)?;
    }
    Ok(gates)
}

// The gate with a number.
fn gate_in(gates: &[Gate], k: usize) -> Gate
    requires { k < length gates.now }
    ensures below { result.at < gates_top gates.now }
    ensures told { (v : ℕ → Bool) → v result.at ≡ told v gates.now k }
{
    gates[k]
}

// Another gate with that number.
fn set_gate(gates: &mut [Gate], k: usize, gate: Gate)
    requires { k < length gates.old }
    ensures len { length gates.new ≡ length gates.old }
    ensures top { gates_top gates.new ≤ max (gates_top gates.old) (gate.at + 1) }
    ensures told { (v : ℕ → Bool) (j : ℕ) → told v gates.new j ≡ (if nat_eq k j then v gate.at else told v gates.old j) }
{
    gates[k] = gate;
}

// The gate with that number holds also where both others do.
fn also_where(
    net: &mut Net,
    gates: &mut [Gate],
    k: usize,
    now: Gate,
    so: Gate,
) -> Result<(), OutOfMemory>
    requires place { k < length gates.old }
    requires gates { gates_top gates.old ≤ length net.old }
    requires now { now.at < length net.old }
    requires so { so.at < length net.old }
    ensures grown { Grown net.old net.new }
    ensures len { length gates.new ≡ length gates.old }
    ensures top { OnOk result (gates_top gates.new ≤ length net.new) }
    ensures ok { OnOk result (Always net.new (λ choice v. (l : ℕ) → told v gates.new l ≡ (if nat_eq k l then (told v gates.old l || (v now.at && v so.at)) else told v gates.old l))) }
{
    let both = net.and(now, so)?;
    let either = net.or(gate_in(gates, k), both)?;
    set_gate(gates, k, either);
    Ok(())
}

// Each gate holds also where `now` and the other one of its number do.
fn also_each(
    net: &mut Net,
    gates: &mut [Gate],
    now: Gate,
    others: &[Gate],
) -> Result<(), OutOfMemory>
    requires same { length others.now ≡ length gates.old }
    requires gates { gates_top gates.old ≤ length net.old }
    requires now { now.at < length net.old }
    requires others { gates_top others.now ≤ length net.old }
    ensures grown { Grown net.old net.new }
    ensures len { length gates.new ≡ length gates.old }
    ensures top { OnOk result (gates_top gates.new ≤ length net.new) }
    ensures ok { OnOk result (Always net.new (λ choice v. (l : ℕ) → l < length gates.old → told v gates.new l ≡ (told v gates.old l || (v now.at && told v others.now l)))) }
{
    for k in 0..gates.len() {
        also_where(net, gates, k, now, gate_in(others, k))?;
    }
    Ok(())
}

// Notes what the store tells of a location now: it counts where no step has ended the run. What is told as it was costs no gate.
fn note_at(
    net: &mut Net,
    stopped: Gate,
    touched: &mut [Gate],
    noted: &mut [Gate],
    k: usize,
    told: Gate,
) -> Result<(), OutOfMemory>
    requires place { k < length touched.old }
    requires same { length noted.old ≡ length touched.old }
    requires stopped { stopped.at < length net.old }
    requires touched { gates_top touched.old ≤ length net.old }
    requires noted { gates_top noted.old ≤ length net.old }
    requires told { told.at < length net.old }
    ensures grown { Grown net.old net.new }
    ensures touched { length touched.new ≡ length touched.old }
    ensures noted { length noted.new ≡ length noted.old }
    ensures tops { OnOk result ((gates_top touched.new ≤ length net.new) × (gates_top noted.new ≤ length net.new)) }
    ensures ok { OnOk result (Always net.new (λ choice v. NotesAt v stopped.at k (v told.at) touched.old noted.old touched.new noted.new)) }
{
    if gate_in(noted, k) == told {
        return Ok(());
    }
    let kept = net.mux(stopped, gate_in(touched, k), told)?;
    set_gate(touched, k, kept);
    set_gate(noted, k, told);
    Ok(())
}

// Notes what the store tells of all locations now.
fn note_all(
    net: &mut Net,
    stopped: Gate,
    touched: &mut [Gate],
    noted: &mut [Gate],
    store: &Store,
) -> Result<(), OutOfMemory>
    requires count { length touched.old < 2 ^ 32 }
    requires same { length noted.old ≡ length touched.old }
    requires stopped { stopped.at < length net.old }
    requires touched { gates_top touched.old ≤ length net.old }
    requires noted { gates_top noted.old ≤ length net.old }
    requires store { locations_top store.now.locations.items ≤ length net.old }
    ensures grown { Grown net.old net.new }
    ensures touched { length touched.new ≡ length touched.old }
    ensures noted { length noted.new ≡ length noted.old }
    ensures tops { OnOk result ((gates_top touched.new ≤ length net.new) × (gates_top noted.new ≤ length net.new)) }
    ensures ok { OnOk result (Always net.new (λ choice v. NotesAll v stopped.at store.now.locations.items touched.old noted.old touched.new noted.new)) }
{
    for k in 0..touched.len() {
        let told = store.flag_anywhere(net, k as u32, Flag::Touched);
        note_at(net, stopped, touched, noted, k, told)?;
    }
    Ok(())
}

impl Fates {
    /// No run has ended.
    pub fn none(net: &Net, locations: usize) -> Result<Fates, OutOfMemory>
        ensures { IfOk result (λ f. NoFates net.now locations f) }
    {
        let never = net.constant(false);
        let bads = none_of(net, locations)?;
        let touched = none_of(net, locations)?;
        let noted = none_of(net, locations)?;
        Ok(Fates {
            over: never,
            bads,
            stopped: never,
            touched,
            noted,
        })
    }

    /// Tells how a step ended that began where `on` holds, of runs that were not over before.
    pub fn tell(
        &mut self,
        net: &mut Net,
        store: &Store,
        on: Gate,
        ends: &Ends,
    ) -> Result<(), OutOfMemory>
        requires fates { AreFates net.old (length ends.now.bads.items) self.old }
        requires few { length ends.now.bads.items < 2 ^ 32 }
        requires store { locations_top store.now.locations.items ≤ length net.old }
        requires on { on.at < length net.old }
        requires ends { AreEnds net.old ends.now }
        ensures grown { Grown net.old net.new }
        ensures fates { OnOk result (AreFates net.new (length ends.now.bads.items) self.new) }
        ensures ok { OnOk result (Always net.new (λ choice v. TellsStep v store.now.locations.items on.at ends.now self.old self.new)) }
    {
        let now = self.ends_now(net, on, ends)?;
        if is_never(net, now) {
            return Ok(());
        }
        also_each(net, self.bads.as_mut_slice(), now, ends.bads.as_slice())?;
        note_all(
            net,
            self.stopped,
            self.touched.as_mut_slice(),
            self.noted.as_mut_slice(),
            store,
        )?;
        self.over = net.or(self.over, now)?;
        self.stopped = net.or(self.stopped, now)?;
        Ok(())
    }

    // Holds where a run that was not over before ends in a step that began where `on` holds.
    fn ends_now(&self, net: &mut Net, on: Gate, ends: &Ends) -> Result<Gate, OutOfMemory>
        requires over { self.now.over.at < length net.old }
        requires on { on.at < length net.old }
        requires live { ends.now.live.at < length net.old }
        ensures grown { Grown net.old net.new }
        ensures ok { IfOk result (λ r. Gives net.new r.at (λ choice v. ends_now (v self.now.over.at) (v on.at) (v ends.now.live.at))) }
    {
        let stops = net.not(ends.live)?;
        let ended = net.and(on, stops)?;
        let before = net.not(self.over)?;
        let now = net.and(before, ended)?;
        Ok(now)
    }

    /// The run is set aside where the gate holds.
    pub fn set_aside(&mut self, net: &mut Net, here: Gate) -> Result<(), OutOfMemory>
        requires over { self.old.over.at < length net.old }
        requires here { here.at < length net.old }
        ensures grown { Grown net.old net.new }
        ensures bads { self.new.bads ≡ self.old.bads }
        ensures stopped { self.new.stopped ≡ self.old.stopped }
        ensures touched { self.new.touched ≡ self.old.touched }
        ensures fates { OnOk result ((locations : ℕ) → AreFates net.old locations self.old → AreFates net.new locations self.new) }
        ensures ok { OnOk result (Gives net.new self.new.over.at (λ choice v. v self.old.over.at || v here.at)) }
    {
        self.over = net.or(self.over, here)?;
        Ok(())
    }
}
