//! Pointers by which others hold objects.

ghost use Rattle.std.specs.Prelude.{◌≡◌, IfOk};
ghost use Rattle.bit_net.specs.Runs.{Grown};
ghost use Rattle.sc_world.specs.Shows as spec;
ghost use Rattle.fn_facts.specs.Showing.{IsReady, ShowsAtExit};

use crate::objects::{is_known, is_pointer_cell, root_at};
use bit_net::{Gate, Net, OutOfMemory};
use fn_facts::{Around, has};
use run_store::Flag;

/// Holds where others have what the cells of an object point to.
fn holds_objects(around: &Around, net: &mut Net, object: u32) -> Result<Gate, OutOfMemory>
    requires ready { IsReady around.now net.old }
    ensures grown { Grown net.old net.new }
    ensures ok { IfOk result (λ r. ShowsAtExit around.now net.new (λ o. spec.holds_objects o object) r.at) }
{
    let freed = has(around, net, Flag::Freed, object);
    let there = net.not(freed)?;
    if is_known(around, object) {
        return Ok(there);
    }
    let escaped = has(around, net, Flag::Escaped, object);
    let holds = net.and(there, escaped)?;
    Ok(holds)
}

/// Holds where others have what the cell of a location points to.
pub fn is_holder(around: &Around, net: &mut Net, at: u32) -> Result<Gate, OutOfMemory>
    requires ready { IsReady around.now net.old }
    ensures grown { Grown net.old net.new }
    ensures ok { IfOk result (λ r. ShowsAtExit around.now net.new (λ o. spec.is_holder o at) r.at) }
{
    if !is_pointer_cell(around, at) {
        return Ok(net.constant(false));
    }
    let holds = holds_objects(around, net, root_at(around, at))?;
    Ok(holds)
}
