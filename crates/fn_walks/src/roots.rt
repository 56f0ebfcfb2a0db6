//! Where walks begin.

ghost use Rattle.std.specs.Prelude.{◌≡◌, length, IfOk};
ghost use Rattle.bit_net.specs.Runs.{Grown};
ghost use Rattle.sc_world.specs.Shows as spec;
ghost use Rattle.run_world.specs.Seen.{env};
ghost use Rattle.fn_facts.specs.Showing.{IsReady, ShowsAtExit};
ghost use Rattle.fn_walks.specs.Seen as seen;

use crate::cells::{cell_leads_to, result_leads_to};
use crate::holders::is_holder;
use crate::objects::{is_pointer_cell, root_at};
use bit_net::{Gate, Net, OutOfMemory};
use fn_facts::{Around, count};

/// Which holders do not count.
#[derive(Clone, Copy, Debug, PartialEq, Eq)]
pub enum Beside {
    /// All count.
    Nothing,
    /// The cells of that object do not.
    Object(u32),
    /// That cell does not.
    Cell(u32),
}

/// Where walks begin: at the objects that the holders which count hold, and, where that is asked, at the object to which the result leads.
#[derive(Clone, Copy, Debug, PartialEq, Eq)]
pub struct From {
    pub result: bool,
    pub beside: Beside,
}

// Whether a holder counts.
fn counts(around: &Around, beside: Beside, at: u32) -> bool
    ensures { result ≡ seen.counts_in (env around.now.here).layout beside at }
{
    match beside {
        Beside::Nothing => true,
        Beside::Object(object) => root_at(around, at) != object,
        Beside::Cell(cell) => at != cell,
    }
}

// Holds where the cell at a location is a holder that counts, and holds an object.
fn holds_here(
    around: &Around,
    net: &mut Net,
    beside: Beside,
    n: u32,
    at: u32,
) -> Result<Gate, OutOfMemory>
    requires ready { IsReady around.now net.old }
    ensures grown { Grown net.old net.new }
    ensures ok { IfOk result (λ r. ShowsAtExit around.now net.new
        (λ o. seen.held_here beside n o at) r.at) }
{
    if !is_pointer_cell(around, at) {
        return Ok(net.constant(false));
    }
    if !counts(around, beside, at) {
        return Ok(net.constant(false));
    }
    let leads = cell_leads_to(around, net, at, n)?;
    let holder = is_holder(around, net, at)?;
    let holds = net.and(holder, leads)?;
    Ok(holds)
}

// Holds where one of the holders that count holds an object.
fn is_held(around: &Around, net: &mut Net, beside: Beside, n: u32) -> Result<Gate, OutOfMemory>
    requires ready { IsReady around.now net.old }
    ensures grown { Grown net.old net.new }
    ensures ok { IfOk result (λ r. ShowsAtExit around.now net.new
        (λ o. seen.any_below (seen.held_here beside n) o (length (env around.now.here).layout.locations)) r.at) }
{
    let mut some = net.constant(false);
    for k in 0..count(around) {
        let here = holds_here(around, net, beside, n, k as u32)?;
        let more = net.or(some, here)?;
        some = more;
    }
    Ok(some)
}

/// Holds where walks begin at an object.
pub fn is_root(around: &Around, net: &mut Net, from: From, n: u32) -> Result<Gate, OutOfMemory>
    requires ready { IsReady around.now net.old }
    ensures grown { Grown net.old net.new }
    ensures ok { IfOk result (λ r. ShowsAtExit around.now net.new (λ o. spec.is_among (seen.roots o from) n) r.at) }
{
    let held = is_held(around, net, from.beside, n)?;
    if !from.result {
        return Ok(held);
    }
    let given = result_leads_to(around, net, n)?;
    let root = net.or(given, held)?;
    Ok(root)
}
