//! What was kept in temps and slots.

ghost use Rattle.std.specs.Prelude.{◌≡◌, ℕ, ◌<◌, ◌≤◌, nat_eq, Bool, true, false, if◌then◌else◌, List, length, slice_index_or, OnOk};
ghost use Rattle.bit_net.specs.Runs.{Grown};
ghost use Rattle.bit_net.specs.declared.nodes.Node.{Node};
ghost use Rattle.gate_runs.specs.Stands.{told, gates_top};
ghost use Rattle.gl_store.specs.Meets.{val_top};
ghost use Rattle.gl_store.specs.Steps.{IsOverwritten};
ghost use Rattle.gl_store.specs.declared.values.Val.TheVariants as val;
ghost use Rattle.flow_turns.specs.Kept.{AreTemps, is_kept, vals_top};
ghost use Rattle.flow_turns.specs.Turns.{Keeps};

use bit_net::{Gate, Net, OutOfMemory};
use gate_inits::Reading;
use gl_store::{Val, overwrite};

/// The cells of a value, as they were read of the objects to which its place may lead.
#[derive(Drop)]
pub struct Slot {
    pub cells: Vec<Reading>,

    /// Whether some node has kept them.
    pub kept: bool,
}

/// What was kept, under the numbers of temps and of slots.
#[derive(Drop)]
pub struct Temps {
    /// The value of each temp, or the pointer to the place; nothing where no node has kept it.
    pub vals: Vec<Val>,

    /// Holds where the temp may be used: of a place, where it leads to an object.
    pub sure: Vec<Gate>,

    /// Whether some node has kept the temp.
    pub kept: Vec<bool>,

    pub slots: Vec<Slot>,
}

// Another value with that number.
fn set_val(vals: &mut [Val], k: usize, x: Val)
    requires { k < length vals.old }
    ensures len { length vals.new ≡ length vals.old }
    ensures top { (n : ℕ) → vals_top vals.old ≤ n → val_top x ≤ n → vals_top vals.new ≤ n }
    ensures there { slice_index_or vals.new k val.Unit ≡ x }
    ensures others { (j : ℕ) → nat_eq k j ≡ false → slice_index_or vals.new j val.Unit ≡ slice_index_or vals.old j val.Unit }
{
    vals[k] = x;
}

// A value is written over the one with that number, where the gate holds.
fn write_val(
    net: &mut Net,
    vals: &mut [Val],
    k: usize,
    when: Gate,
    x: &Val,
) -> Result<(), OutOfMemory>
    requires place { k < length vals.old }
    requires vals { vals_top vals.old ≤ length net.old }
    requires when { when.at < length net.old }
    requires x { val_top x.now ≤ length net.old }
    ensures grown { Grown net.old net.new }
    ensures len { length vals.new ≡ length vals.old }
    ensures top { OnOk result (vals_top vals.new ≤ length net.new) }
    ensures there { OnOk result (IsOverwritten net.new when.at (slice_index_or vals.old k val.Unit) x.now (slice_index_or vals.new k val.Unit)) }
    ensures others { OnOk result ((j : ℕ) → nat_eq k j ≡ false → slice_index_or vals.new j val.Unit ≡ slice_index_or vals.old j val.Unit) }
{
    let val = &mut vals[k];
    overwrite(net, when, val, x)?;
    Ok(())
}

// The gate with a number.
fn gate_in(gates: &[Gate], k: usize) -> Gate
    requires { k < length gates.now }
    ensures below { result.at < gates_top gates.now }
    ensures told { (v : ℕ → Bool) → v result.at ≡ told v gates.now k }
{
    gates[k]
}

// Another gate with that number.
fn set_gate(gates: &mut [Gate], k: usize, gate: Gate)
    requires { k < length gates.old }
    ensures len { length gates.new ≡ length gates.old }
    ensures top { (n : ℕ) → gates_top gates.old ≤ n → gate.at < n → gates_top gates.new ≤ n }
    ensures told { (v : ℕ → Bool) (j : ℕ) → told v gates.new j ≡ (if nat_eq k j then v gate.at else told v gates.old j) }
{
    gates[k] = gate;
}

// A flag with that number holds.
fn set_flag(flags: &mut [bool], k: usize)
    requires { k < length flags.old }
    ensures len { length flags.new ≡ length flags.old }
    ensures set { (j : ℕ) → slice_index_or flags.new j false ≡ (if nat_eq k j then true else slice_index_or flags.old j false) }
{
    flags[k] = true;
}

impl Temps {
    /// Keeps a value in a temp where the gate holds, and with it the gate that says where it may be used. Where no node has kept the temp,
    /// it is kept everywhere.
    pub fn keep(
        &mut self,
        net: &mut Net,
        when: Gate,
        temp: usize,
        val: Val,
        sure: Gate,
    ) -> Result<(), OutOfMemory>
        requires temps { AreTemps net.old self.old }
        requires temp { temp < length self.old.vals.items }
        requires when { when.at < length net.old }
        requires val { val_top val ≤ length net.old }
        requires sure { sure.at < length net.old }
        ensures grown { Grown net.old net.new }
        ensures temps { OnOk result (AreTemps net.new self.new) }
        ensures ok { OnOk result (Keeps net.new when.at temp val sure.at self.old self.new) }
    {
        if self.kept[temp] {
            self.keep_again(net, when, temp, &val, sure)
        } else {
            self.keep_first(temp, val, sure);
            Ok(())
        }
    }

    // Keeps a value in a temp that no node has kept.
    fn keep_first(&mut self, temp: usize, val: Val, sure: Gate)
        requires temp { temp < length self.old.vals.items }
        requires each_sure { length self.old.sure.items ≡ length self.old.vals.items }
        requires each_kept { length self.old.kept.items ≡ length self.old.vals.items }
        requires first { is_kept self.old temp ≡ false }
        ensures temps { (ns : List Node) → AreTemps ns self.old → val_top val ≤ length ns → sure.at < length ns → AreTemps ns self.new }
        ensures ok { (ns : List Node) (when : ℕ) → Keeps ns when temp val sure.at self.old self.new }
    {
        set_val(self.vals.as_mut_slice(), temp, val);
        set_gate(self.sure.as_mut_slice(), temp, sure);
        set_flag(self.kept.as_mut_slice(), temp);
    }

    // Keeps a value in a temp that a node has kept already.
    fn keep_again(
        &mut self,
        net: &mut Net,
        when: Gate,
        temp: usize,
        val: &Val,
        sure: Gate,
    ) -> Result<(), OutOfMemory>
        requires temps { AreTemps net.old self.old }
        requires temp { temp < length self.old.vals.items }
        requires when { when.at < length net.old }
        requires val { val_top val.now ≤ length net.old }
        requires sure { sure.at < length net.old }
        requires again { is_kept self.old temp ≡ true }
        ensures grown { Grown net.old net.new }
        ensures temps { OnOk result (AreTemps net.new self.new) }
        ensures ok { OnOk result (Keeps net.new when.at temp val.now sure.at self.old self.new) }
    {
        write_val(net, self.vals.as_mut_slice(), temp, when, val)?;
        let was = gate_in(self.sure.as_slice(), temp);
        let both = net.mux(when, sure, was)?;
        set_gate(self.sure.as_mut_slice(), temp, both);
        Ok(())
    }
}
