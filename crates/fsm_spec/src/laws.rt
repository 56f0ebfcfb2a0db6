//! What holds of the definitions. Each law is the clause of a function that does nothing.
#![tactic(auto)]

ghost use Rattle.std.specs.Prelude.{◌≡◌, ◌<◌, ◌≤◌, ◌-◌, ◌^◌, ℕ, List};
ghost use Rattle.fsm_spec.specs.Lock.{lock_file, locks};
ghost use Rattle.fsm_spec.specs.Reading.{Machine, spelled};
ghost use Rattle.fsm_spec.specs.Table.{IsWhole, bits_of_states, state_of_number};
ghost use Rattle.fsm_spec.specs.declared.table.MachineSpec.{MachineSpec};

/// The machine of locks is what its machine file spells.
pub fn lock_file()
    ensures { spelled lock_file ≡ Machine locks }
{}

/// Each machine that a file spells is whole: it has two to eight states and 1 to 64 operations, each with a
/// target for each state, and each target is an error or one of the states. So is the machine of locks.
pub fn whole_machines()
    ensures files { (bytes : List ℕ) (machine : MachineSpec) → spelled bytes ≡ Machine machine → IsWhole machine }
    ensures lock { IsWhole locks }
{}

/// The bits of a state are as few as tell 2 to 8 states apart, and each number of them names a state.
pub fn state_numbers()
    ensures enough { (k : ℕ) → 2 ≤ k → k ≤ 8 → k ≤ 2 ^ bits_of_states k }
    ensures fewest { (k : ℕ) → 2 ≤ k → k ≤ 8 → 2 ^ (bits_of_states k - 1) < k }
    ensures in_range { (k n : ℕ) → 0 < k → state_of_number k n < k }
{}
