// The values of the arguments of a call.

ghost use Rattle.std.specs.Prelude.{◌≡◌, ◌≤◌, length, IfOk};
ghost use Rattle.gl_store.specs.Steps.{IsSame};
ghost use Rattle.flow_turns.specs.Kept.{val_at};
ghost use Rattle.sc_flow.specs.Seen.{all_of};
ghost use Rattle.tr_flow.specs.Arguments.{AreOf};

use bit_net::{Net, OutOfMemory};
use flow_turns::Temps;
use gl_store::Val;
use sc_flow::Numbers;

// The value of a temp once more; nothing where there is no such temp.
fn value_of(net: &Net, temps: &Temps, number: usize) -> Result<Val, OutOfMemory>
    ensures { IfOk result (λ x. IsSame (val_at temps.now number) x) }
{
    match temps.vals.get(number) {
        None => Ok(Val::Unit),
        Some(val) => {
            let same = val.try_clone(net)?;
            Ok(same)
        }
    }
}

/// The values of the temps with these numbers, once more.
pub fn values_of(net: &Net, temps: &Temps, numbers: Numbers) -> Result<Vec<Val>, OutOfMemory>
    ensures { IfOk result (λ xs. AreOf temps.now (all_of numbers) xs.items) }
{
    let mut values = Vec::new(net.alloc());
    for at in 0..numbers.count as usize {
        let value = value_of(net, temps, numbers.first as usize + at)?;
        values.push(value)?;
    }
    Ok(values)
}
