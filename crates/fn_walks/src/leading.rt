//! Steps of walks: an object that is not freed leads to the objects of its pointers.

ghost use Rattle.std.specs.Prelude.{◌≡◌, ◌<◌, ◌≤◌, ◌^◌, ◌+◌, false, true, length, IfOk, OnOk};
ghost use Rattle.std.specs.List.{list_any};
ghost use Rattle.bit_net.specs.Runs.{Grown};
ghost use Rattle.sc_world.specs.Shows as spec;
ghost use Rattle.run_world.specs.Seen.{env};
ghost use Rattle.fn_facts.specs.Showing.{IsReady, ShowsAtExit};
ghost use Rattle.fn_walks.specs.Seen as seen;
ghost use Rattle.fn_walks.specs.Walks.{Covers, CoversBelow, IsCovered, IsNowhere, IsNowhereAt, NeverLeads};

use crate::cells::cell_leads_to;
use crate::objects::{is_known, is_pointer_cell, root_at};
use crate::roots::{Beside, From};
use bit_net::{Gate, Net, OutOfMemory};
use fn_facts::{Around, count, has};
use gl_sets::Pair;
use gl_store::{Location, Val};
use run_store::Flag;
use std::alloc::Global;

// Holds where the cell at a location is one of an object, and leads to another one.
fn cell_leads(
    around: &Around,
    net: &mut Net,
    from: u32,
    to: u32,
    at: u32,
) -> Result<Gate, OutOfMemory>
    requires ready { IsReady around.now net.old }
    ensures grown { Grown net.old net.new }
    ensures ok { IfOk result (λ r. ShowsAtExit around.now net.new (λ o. spec.cell_leads o from to at) r.at) }
{
    if !is_pointer_cell(around, at) {
        return Ok(net.constant(false));
    }
    if root_at(around, at) != from {
        return Ok(net.constant(false));
    }
    let leads = cell_leads_to(around, net, at, to)?;
    Ok(leads)
}

// Holds where some cell of an object leads to another one.
fn some_cell_leads(around: &Around, net: &mut Net, from: u32, to: u32) -> Result<Gate, OutOfMemory>
    requires ready { IsReady around.now net.old }
    ensures grown { Grown net.old net.new }
    ensures ok { IfOk result (λ r. ShowsAtExit around.now net.new
        (λ o. seen.any_below (λ p k. spec.cell_leads p from to k) o (length (env around.now.here).layout.locations)) r.at) }
{
    let mut some = net.constant(false);
    for k in 0..count(around) {
        let here = cell_leads(around, net, from, to, k as u32)?;
        let more = net.or(some, here)?;
        some = more;
    }
    Ok(some)
}

/// Holds where an object leads to another one.
pub fn leads(around: &Around, net: &mut Net, from: u32, to: u32) -> Result<Gate, OutOfMemory>
    requires ready { IsReady around.now net.old }
    ensures grown { Grown net.old net.new }
    ensures ok { IfOk result (λ r. ShowsAtExit around.now net.new (λ o. seen.leads o from to) r.at) }
{
    let some = some_cell_leads(around, net, from, to)?;
    let freed = has(around, net, Flag::Freed, from);
    let there = net.not(freed)?;
    let leads = net.and(there, some)?;
    Ok(leads)
}

fn has_target(pairs: &[Pair]) -> bool
    ensures { result ≡ list_any seen.is_somewhere pairs.now }
{
    pairs.iter().any(|pair| pair.target != 0)
}

// Whether a value may be a pointer that leads somewhere.
#[tactic(auto, using(crate::proofs::Stepping::target_laws))]
fn has_targets(val: &Val) -> bool
    ensures { result ≡ false → IsNowhere val.now }
{
    match val {
        Val::Word(_) => false,
        Val::Unit => false,
        Val::Set(set) => has_target(set.pairs.as_slice()),
    }
}

// Whether the cell of a location may be a pointer that leads somewhere; past the end there is none.
fn stored_may_lead(stored: &[Location], at: usize) -> bool
    ensures { result ≡ false → IsNowhereAt stored.now at }
{
    if at < stored.len() {
        return has_targets(&stored[at].val);
    }
    false
}

// Whether the cell of a location may be a pointer that leads somewhere.
fn may_lead(around: &Around, at: u32) -> bool
    ensures { result ≡ false → NeverLeads around.now at }
{
    stored_may_lead(around.encoded.store.locations.as_slice(), at as usize)
}

// Whether some cell of an object is one that does not count.
fn is_beside(around: &Around, beside: Beside, object: u32) -> bool
    ensures { result ≡ seen.is_beside (env around.now.here).layout beside object }
{
    match beside {
        Beside::Nothing => false,
        Beside::Object(n) => n == object,
        Beside::Cell(at) => root_at(around, at) == object,
    }
}

// Whether the cells of an object are holders that count, while it is not freed: walks begin behind them.
fn begins_behind(around: &Around, beside: Beside, object: u32) -> bool
    ensures { result ≡ seen.begins_behind (env around.now.here).layout beside object }
{
    is_known(around, object) && !is_beside(around, beside, object)
}

fn is_among(objects: &[u32], n: u32) -> bool
    ensures { result ≡ spec.is_among objects.now n }
{
    objects.iter().any(|m| n == *m)
}

// Whether walks need not go through the object of a location, for what its cell says.
fn is_passed(around: &Around, from: From, objects: &[u32], at: u32) -> bool
    ensures { result ≡ true → IsCovered around.now from objects.now at }
{
    if !is_pointer_cell(around, at) {
        return true;
    }
    if !may_lead(around, at) {
        return true;
    }
    let root = root_at(around, at);
    if begins_behind(around, from.beside, root) {
        return true;
    }
    is_among(objects, root)
}

// The object of a location is put behind others, where walks may lead through it.
fn put_object(
    around: &Around,
    from: From,
    objects: &mut Vec<u32>,
    at: u32,
) -> Result<(), OutOfMemory>
    ensures ok { OnOk result (CoversBelow around.now from objects.old.items at → CoversBelow around.now from objects.new.items (at + 1)) }
{
    if is_passed(around, from, objects.as_slice(), at) {
        return Ok(());
    }
    objects.push(root_at(around, at))?;
    Ok(())
}

/// The objects through which walks may lead, but for those whose pointers walks begin with.
pub fn through(alloc: Global, around: &Around, from: From) -> Result<Vec<u32>, OutOfMemory>
    requires few { length around.now.here.places.now.locations.items < 2 ^ 32 }
    ensures { IfOk result (λ r. Covers around.now from r.items) }
{
    let mut objects = Vec::new(alloc);
    for k in 0..count(around) {
        put_object(around, from, &mut objects, k as u32)?;
    }
    Ok(objects)
}
