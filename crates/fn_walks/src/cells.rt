//! Where the pointers in cells lead.

ghost use Rattle.std.specs.Prelude.{◌≡◌, ◌≤◌, length, IfOk};
ghost use Rattle.bit_net.specs.Runs.{Grown};
ghost use Rattle.gl_sets.specs.Guards.{guards_top};
ghost use Rattle.gl_store.specs.Meets.{locations_top, val_top};
ghost use Rattle.sc_world.specs.Shows as spec;
ghost use Rattle.fn_facts.specs.Showing.{IsReady, ShowsAtExit};
ghost use Rattle.fn_walks.specs.Seen as seen;
ghost use Rattle.fn_walks.specs.Walks.{AreTests, ShowsCell, ShowsOf, ShowsSet};

use crate::objects::is_object;
use bit_net::{Gate, Net, OutOfMemory};
use fn_facts::Around;
use gl_sets::{Pair, Set, where_target};
use gl_store::{Location, Val};

// For each pair a gate that holds where its target is the object.
fn object_tests(
    around: &Around,
    net: &Net,
    pairs: &[Pair],
    n: u32,
) -> Result<Vec<Gate>, OutOfMemory>
    ensures { IfOk result (λ r. AreTests around.now net.now (λ o t. seen.is_object o.layout t n) pairs.now r.items) }
{
    let mut tests = Vec::new(net.alloc());
    for i in 0..pairs.len() {
        let test = net.constant(is_object(around, pairs[i].target, n));
        tests.push(test)?;
    }
    Ok(tests)
}

// Holds where a pointer leads to an object.
fn set_leads_to(around: &Around, net: &mut Net, set: &Set, n: u32) -> Result<Gate, OutOfMemory>
    requires set { guards_top set.now.pairs.items ≤ length net.old }
    ensures grown { Grown net.old net.new }
    ensures ok { IfOk result (λ r. ShowsSet around.now net.new set.now.pairs.items (λ o t. seen.is_object o.layout t n) r.at) }
{
    let tests = object_tests(around, net, set.pairs.as_slice(), n)?;
    let leads = where_target(net, set, tests.as_slice())?;
    Ok(leads)
}

// Holds where a value is a pointer that leads to an object.

fn val_leads_to(around: &Around, net: &mut Net, val: &Val, n: u32) -> Result<Gate, OutOfMemory>
    requires val { val_top val.now ≤ length net.old }
    ensures grown { Grown net.old net.new }
    ensures ok { IfOk result (λ r. ShowsOf around.now net.new val.now (λ o c. seen.leads_to o c n) r.at) }
{
    match val {
        Val::Word(_) => Ok(net.constant(false)),
        Val::Unit => Ok(net.constant(false)),
        Val::Set(set) => {
            let leads = set_leads_to(around, net, set, n)?;
            Ok(leads)
        }
    }
}

// Holds where the cell of a location is a pointer that leads to an object; past the end there is none.
fn stored_leads_to(
    around: &Around,
    net: &mut Net,
    stored: &[Location],
    at: usize,
    n: u32,
) -> Result<Gate, OutOfMemory>
    requires stored { locations_top stored.now ≤ length net.old }
    ensures grown { Grown net.old net.new }
    ensures ok { IfOk result (λ r. ShowsCell around.now net.new stored.now at (λ o c. seen.leads_to o c n) r.at) }
{
    if at < stored.len() {
        let leads = val_leads_to(around, net, &stored[at].val, n)?;
        return Ok(leads);
    }
    Ok(net.constant(false))
}

/// Holds where the cell of a location is a pointer that leads to an object.
pub fn cell_leads_to(around: &Around, net: &mut Net, at: u32, n: u32) -> Result<Gate, OutOfMemory>
    requires ready { IsReady around.now net.old }
    ensures grown { Grown net.old net.new }
    ensures ok { IfOk result (λ r. ShowsAtExit around.now net.new (λ o. seen.leads_to o (spec.cell_now o at) n) r.at) }
{
    let stored = around.encoded.store.locations.as_slice();
    let leads = stored_leads_to(around, net, stored, at as usize, n)?;
    Ok(leads)
}

/// Holds where the result is a pointer that leads to an object.
pub fn result_leads_to(around: &Around, net: &mut Net, n: u32) -> Result<Gate, OutOfMemory>
    requires ready { IsReady around.now net.old }
    ensures grown { Grown net.old net.new }
    ensures ok { IfOk result (λ r. ShowsAtExit around.now net.new (λ o. spec.is_it n (spec.result_object o)) r.at) }
{
    let leads = val_leads_to(around, net, &around.encoded.result, n)?;
    Ok(leads)
}
