// The built-in functions, by the numbers of names.

ghost use Rattle.std.specs.Prelude.{◌≡◌, ℕ, ◌<◌, length, slice_get, IfOk};
ghost use Rattle.sc_check.specs.Heres.{entry_of};
ghost use Rattle.sc_check.specs.Typed as spec;

use fsm_spec::MachineSpec;
use sc_base::{List, NameId, Names, OutOfMemory};
use sc_calls::builtin;
use sc_rules::Builtin;
use std::alloc::Global;

// What the name with that number means. One of 2^32 and more is refused as too much for memory.
fn meaning(
    names: &Names,
    machine: &Option<MachineSpec>,
    number: usize,
) -> Result<Option<Builtin>, OutOfMemory>
    requires { number < length names.now }
    ensures { IfOk result (λ b. b ≡ spec.builtin_if machine.now (slice_get names.now number)) }
{
    if number > u32::MAX as usize {
        return Err(OutOfMemory);
    }
    let name = NameId { at: number as u32 };
    Ok(builtin(machine.as_ref(), names.text(name)))
}

/// The built-in function that each name means where it is called.
pub fn builtin_table(
    alloc: Global,
    names: &Names,
    machine: &Option<MachineSpec>,
) -> Result<List<Option<Builtin>>, OutOfMemory>
    ensures { IfOk result (λ builtins. (n : ℕ)
        → entry_of builtins n ≡ spec.builtin_if machine.now (slice_get names.now n)) }
{
    let mut builtins = List::new(alloc);
    for number in 0..names.len() {
        let b = meaning(names, machine, number)?;
        builtins.push(b)?;
    }
    Ok(builtins)
}
