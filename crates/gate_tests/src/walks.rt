//! A chain of two pointers, and a ring of objects that each point to the next under an input of their own.
ghost use Rattle.std.specs.Prelude.{◌≡◌, ◌<◌, ◌≤◌, length, IfOk};
ghost use Rattle.bit_net.specs.Circuit.{input_count};
ghost use Rattle.bit_net.specs.Runs.{Grown};
ghost use Rattle.reach_net.specs.Walks.{rows_of, EachWide, gates_top, rows_top};

use crate::values::{are_values, is_value};
use bit_net::{Gate, Net, OutOfMemory};
use reach_net::reached;
use std::alloc::Global;

/// A row of `count` gates that never hold, but for `gate` at one place.
#[tactic(auto, using(reach_net::proofs::RowLemmas::row_laws))]
fn row(net: &Net, count: usize, place: usize, gate: Gate) -> Result<Vec<Gate>, OutOfMemory>
    requires { gate.at < length net.now }
    ensures wide { IfOk result (λ r. length r.items ≡ count) }
    ensures below { IfOk result (λ r. gates_top r.items ≤ length net.now) }
{
    let never = net.constant(false);
    let mut gates = Vec::new(net.alloc());
    for i in 0..count {
        let here = if i == place { gate } else { never };
        gates.push(here)?;
    }
    Ok(gates)
}

/// The rows of objects that each point to one target under a gate of their own.
#[tactic(auto, using(reach_net::proofs::RowLemmas::row_laws))]
fn matrix(net: &Net, targets: &[usize], gates: &[Gate]) -> Result<Vec<Vec<Gate>>, OutOfMemory>
    requires same { length gates.now ≡ length targets.now }
    requires below { gates_top gates.now ≤ length net.now }
    ensures count { IfOk result (λ r. length r.items ≡ length targets.now) }
    ensures wide { IfOk result (λ r. EachWide (length targets.now) (rows_of r.items)) }
    ensures below { IfOk result (λ r. rows_top (rows_of r.items) ≤ length net.now) }
{
    let mut rows = Vec::new(net.alloc());
    for i in 0..targets.len() {
        let next = row(net, targets.len(), targets[i], gates[i])?;
        rows.push(next)?;
    }
    Ok(rows)
}

/// A choice of six inputs: the lowest bit of the number is the first input.
fn bits(number: u32) -> [bool; 6] {
    [
        number % 2 == 1,
        number / 2 % 2 == 1,
        number / 4 % 2 == 1,
        number / 8 % 2 == 1,
        number / 16 % 2 == 1,
        number / 32 % 2 == 1,
    ]
}

/// The gates of what is reached along a chain of two pointers, in a net without inputs.
#[tactic(auto, using(reach_net::proofs::RowLemmas::row_laws), unfolding(reach_net::specs::Walks::gates_top))]
fn reached_by_a_chain(net: &mut Net) -> Result<Vec<Gate>, OutOfMemory>
    ensures { Grown net.old net.new }
{
    let yes = net.constant(true);
    let no = net.constant(false);
    let points = matrix(net, &[1, 2, 0, 0], &[yes, yes, no, no])?;
    let roots = row(net, 4, 0, yes)?;
    reached(net, &points, &roots)
}

fn chain_is_followed(alloc: Global) -> Result<bool, OutOfMemory> {
    let mut net = Net::new(alloc, 0)?;
    let found = reached_by_a_chain(&mut net)?;
    match found.as_slice() {
        &[a, b, c, d] => {
            Ok(are_values(&net, &[], &[(a, true), (b, true), (c, true), (d, false)]))
        }
        _ => Ok(false),
    }
}

#[test]
fn follows_a_chain(rt: HostRuntime) {
    assert!(rt; chain_is_followed(rt.alloc()) == Ok(true));
}

/// The gates of what is reached from object 0 in a ring of six, each pointer under an input of its own.
#[tactic(auto, using(reach_net::proofs::RowLemmas::row_laws), unfolding(reach_net::specs::Walks::gates_top))]
fn reached_in_a_ring(net: &mut Net) -> Result<Vec<Gate>, OutOfMemory>
    requires { input_count net.old ≡ 6 }
    ensures { Grown net.old net.new }
{
    let gates = [
        net.input(0),
        net.input(1),
        net.input(2),
        net.input(3),
        net.input(4),
        net.input(5),
    ];
    let points = matrix(net, &[1, 2, 3, 4, 5, 0], &gates)?;
    let roots = row(net, 6, 0, net.constant(true))?;
    reached(net, &points, &roots)
}

/// Whether each object is reached exactly where the inputs of all objects before it hold.
fn leads_as_far(net: &Net, found: &[Gate], choice: &[bool; 6]) -> bool
    requires inputs { input_count net.now ≡ 6 }
    requires six { length found.now ≡ 6 }
{
    let mut leads = true;
    for i in 0..6 {
        if !is_value(net, choice, found[i], leads) {
            return false;
        }
        leads = leads && choice[i];
    }
    true
}

fn ring_is_walked(alloc: Global) -> Result<bool, OutOfMemory> {
    let mut net = Net::new(alloc, 6)?;
    let found = reached_in_a_ring(&mut net)?;
    if found.len() != 6 {
        return Ok(false);
    }
    for number in 0..64u32 {
        if !leads_as_far(&net, found.as_slice(), &bits(number)) {
            return Ok(false);
        }
    }
    Ok(true)
}

/// From object 0 of six an object is reached exactly where the inputs of all objects before it hold.
#[test]
fn goes_round_a_ring(rt: HostRuntime) {
    assert!(rt; ring_is_walked(rt.alloc()) == Ok(true));
}
