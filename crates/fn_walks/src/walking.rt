//! The objects to which walks lead.

ghost use Rattle.std.specs.Prelude.{◌≡◌, ◌<◌, ◌≤◌, length, IfOk};
ghost use Rattle.bit_net.specs.Runs.{Grown};
ghost use Rattle.reach_net.specs.Walks.{rows_of};
ghost use Rattle.run_world.specs.Seen.{env};
ghost use Rattle.walk_laws.specs.Objects.{HasObjects};
ghost use Rattle.fn_facts.specs.Showing.{IsReady, ShowsAtExit};
ghost use Rattle.fn_walks.specs.Seen as seen;
ghost use Rattle.fn_walks.specs.Walks.{AreRoots, AreSteps, AreStepsOf, IsWalk};

use crate::leading::{leads, through};
use crate::roots::{From, is_root};
use bit_net::{Gate, Net, OutOfMemory};
use fn_facts::Around;
use reach_net::reached;

/// Walks from object to object.
#[derive(Drop)]
pub struct Walk {
    /// Where they begin.
    pub from: From,
    /// The objects through which they may lead, but for those whose pointers they begin with.
    pub through: Vec<u32>,
    /// For each of these objects a gate: it is one where they begin, or they lead to it.
    pub found: Vec<Gate>,
}

// For each of some objects a gate: another object leads to it.
fn steps_of(
    around: &Around,
    net: &mut Net,
    from: u32,
    objects: &[u32],
) -> Result<Vec<Gate>, OutOfMemory>
    requires ready { IsReady around.now net.old }
    ensures grown { Grown net.old net.new }
    ensures ok { IfOk result (λ r. AreStepsOf around.now net.new from objects.now r.items) }
{
    let mut steps = Vec::new(net.alloc());
    for i in 0..objects.len() {
        let step = leads(around, net, from, objects[i])?;
        steps.push(step)?;
    }
    Ok(steps)
}

// For each two of some objects a gate: the first leads to the second.
fn steps(around: &Around, net: &mut Net, objects: &[u32]) -> Result<Vec<Vec<Gate>>, OutOfMemory>
    requires ready { IsReady around.now net.old }
    ensures grown { Grown net.old net.new }
    ensures ok { IfOk result (λ r. AreSteps around.now net.new objects.now (length objects.now) (rows_of r.items)) }
{
    let mut rows = Vec::new(net.alloc());
    for i in 0..objects.len() {
        let row = steps_of(around, net, objects[i], objects)?;
        rows.push(row)?;
    }
    Ok(rows)
}

// For each of some objects a gate: walks begin there.
fn roots(
    around: &Around,
    net: &mut Net,
    from: From,
    objects: &[u32],
) -> Result<Vec<Gate>, OutOfMemory>
    requires ready { IsReady around.now net.old }
    ensures grown { Grown net.old net.new }
    ensures ok { IfOk result (λ r. AreRoots around.now net.new from objects.now r.items) }
{
    let mut roots = Vec::new(net.alloc());
    for i in 0..objects.len() {
        let root = is_root(around, net, from, objects[i])?;
        roots.push(root)?;
    }
    Ok(roots)
}

/// The walks that begin there.
pub fn walked(around: &Around, net: &mut Net, from: From) -> Result<Walk, OutOfMemory>
    requires ready { IsReady around.now net.old }
    requires objects { HasObjects (env around.now.here).layout }
    ensures grown { Grown net.old net.new }
    ensures from { IfOk result (λ r. r.from ≡ from) }
    ensures ok { IfOk result (λ r. IsWalk around.now net.new r) }
{
    let through = through(net.alloc(), around, from)?;
    let steps = steps(around, net, through.as_slice())?;
    let roots = roots(around, net, from, through.as_slice())?;
    let found = reached(net, &steps, &roots)?;
    Ok(Walk {
        from,
        through,
        found,
    })
}

// Holds where walks lead to one of their objects, and that leads to another one.
fn comes_over(
    around: &Around,
    net: &mut Net,
    walk: &Walk,
    n: u32,
    i: usize,
) -> Result<Gate, OutOfMemory>
    requires ready { IsReady around.now net.old }
    requires walk { IsWalk around.now net.old walk.now }
    requires place { i < length walk.now.through.items }
    ensures grown { Grown net.old net.new }
    ensures ok { IfOk result (λ r. ShowsAtExit around.now net.new (λ o. seen.comes_over walk.now.from walk.now.through.items n o i) r.at) }
{
    let from = walk.through[i];
    let here = walk.found[i];
    let step = leads(around, net, from, n)?;
    let comes = net.and(here, step)?;
    Ok(comes)
}

// Holds where walks lead to one of their objects that leads to another one.
fn comes(around: &Around, net: &mut Net, walk: &Walk, n: u32) -> Result<Gate, OutOfMemory>
    requires ready { IsReady around.now net.old }
    requires walk { IsWalk around.now net.old walk.now }
    ensures grown { Grown net.old net.new }
    ensures ok { IfOk result (λ r. ShowsAtExit around.now net.new
        (λ o. seen.any_below (seen.comes_over walk.now.from walk.now.through.items n) o (length walk.now.through.items)) r.at) }
{
    let mut some = net.constant(false);
    for i in 0..walk.through.len() {
        let here = comes_over(around, net, walk, n, i)?;
        let more = net.or(some, here)?;
        some = more;
    }
    Ok(some)
}

/// Holds where walks begin at an object, or lead to it.
pub fn reaches(around: &Around, net: &mut Net, walk: &Walk, n: u32) -> Result<Gate, OutOfMemory>
    requires ready { IsReady around.now net.old }
    requires objects { HasObjects (env around.now.here).layout }
    requires walk { IsWalk around.now net.old walk.now }
    ensures grown { Grown net.old net.new }
    ensures ok { IfOk result (λ r. ShowsAtExit around.now net.new (λ o. seen.is_reached o walk.now.from n) r.at) }
{
    let root = is_root(around, net, walk.from, n)?;
    let more = comes(around, net, walk, n)?;
    let reaches = net.or(root, more)?;
    Ok(reaches)
}
