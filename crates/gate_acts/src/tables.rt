//! The table of an operation, as gates.

ghost use Rattle.std.specs.Prelude.{◌≡◌, ℕ, ◌<◌, ◌≤◌, ◌^◌, Some, length, IfOk, IfSome, OnOk};
ghost use Rattle.bit_net.specs.Runs.{Grown};
ghost use Rattle.bit_words.specs.Number.{top};
ghost use Rattle.fsm_spec.specs.Table.{IsWhole};
ghost use Rattle.std.specs.Prelude.{List};
ghost use Rattle.bit_net.specs.declared.nodes.Gate.{Gate as Gates};
ghost use Rattle.fsm_spec.specs.declared.table.MachineSpec.{MachineSpec as Machines};
ghost use Rattle.gate_acts.specs.Tables.{AddsEntry, IsTable, led_below, led_to};

use bit_net::{Gate, Net, OutOfMemory};
use bit_words::{Word, constant, is_number, select};
use fsm_spec::MachineSpec;

// Any state.
const ANY: u64 = 15;

// The number of bits of a state in the store.
const STATE_BITS: usize = 4;

/// Where an operation leads from a state.
#[derive(Drop)]
pub struct Table {
    /// Holds where it leads somewhere; where it does not hold the operation is an error.
    pub known: Gate,
    /// The state to which it leads.
    pub state: Word,
}

// The entry for a number: where the bits spell it, the gate holds and the word is the entry.
fn add_entry(
    net: &mut Net,
    bits: &[Gate],
    key: u64,
    entry: u64,
    table: &mut Table,
) -> Result<(), OutOfMemory>
    requires entry { entry < 2 ^ 4 }
    requires bits { top bits.now ≤ length net.old }
    requires known { table.old.known.at < length net.old }
    requires state { top table.old.state.bits.items ≤ length net.old }
    requires wide { length table.old.state.bits.items ≡ 4 }
    ensures grown { Grown net.old net.new }
    ensures ok { OnOk result (AddsEntry net.old net.new bits.now key (Some entry) table.old table.new) }
{
    let here = is_number(net, bits, key)?;
    let target = constant(net, entry, STATE_BITS)?;
    let known = net.or(here, table.known)?;
    let state = select(net, here, &target, &table.state)?;
    *table = Table { known, state };
    Ok(())
}

// The entry for a number, if there is one.
fn add(
    net: &mut Net,
    bits: &[Gate],
    key: u64,
    entry: Option<usize>,
    table: &mut Table,
) -> Result<(), OutOfMemory>
    requires entry { IfSome entry (λ t. t < 2 ^ 4) }
    requires bits { top bits.now ≤ length net.old }
    requires known { table.old.known.at < length net.old }
    requires state { top table.old.state.bits.items ≤ length net.old }
    requires wide { length table.old.state.bits.items ≡ 4 }
    ensures grown { Grown net.old net.new }
    ensures ok { OnOk result (AddsEntry net.old net.new bits.now key entry table.old table.new) }
{
    match entry {
        None => Ok(()),
        Some(state) => {
            add_entry(net, bits, key, state as u64, table)?;
            Ok(())
        }
    }
}

// A table with no entry.
fn no_entries(net: &Net) -> Result<Table, OutOfMemory>
    ensures { IfOk result (λ r. (bits : List Gates) (m : Machines) (n : ℕ) → IsTable net.now bits (led_below m n 0) r) }
{
    let known = net.constant(false);
    let state = constant(net, 0, STATE_BITS)?;
    Ok(Table { known, state })
}

/// Where an operation leads from the state that the bits spell, also from any state.
pub fn table_of(
    machine: &MachineSpec,
    net: &mut Net,
    operation: usize,
    bits: &[Gate],
) -> Result<Table, OutOfMemory>
    requires whole { IsWhole machine.now }
    requires bits { top bits.now ≤ length net.old }
    ensures grown { Grown net.old net.new }
    ensures ok { IfOk result (λ r. IsTable net.new bits.now (led_to machine.now operation) r) }
{
    let mut table = no_entries(net)?;
    for state in 0..machine.states() {
        add(
            net,
            bits,
            state as u64,
            machine.target(operation, state),
            &mut table,
        )?;
    }
    add(net, bits, ANY, machine.on_any(operation), &mut table)?;
    Ok(table)
}
