//! The value of each kind of gate at a choice, what is folded, and a choice read by every input.

ghost use Rattle.std.specs.Prelude.{◌≡◌};
ghost use Rattle.bit_net.specs.Circuit.{input_count};

use crate::values::are_values;
use bit_net::{Net, Node, OutOfMemory, growth_composes, runs_fit_tables, values_are_runs};
use std::alloc::Global;

fn two_inputs(alloc: Global) -> Result<bool, OutOfMemory> {
    let mut net = Net::new(alloc, 2)?;
    let p = net.input(0);
    let q = net.input(1);
    let both = net.and(p, q)?;
    let differ = net.xor(p, q)?;
    let opposite = net.not(p)?;
    let chosen = net.mux(p, q, net.constant(false))?;
    let wanted = [
        (both, false),
        (differ, true),
        (opposite, false),
        (chosen, false),
    ];
    Ok(are_values(&net, &[true, false], &wanted))
}

#[test]
fn gates_of_two_inputs(rt: HostRuntime) {
    assert!(rt; two_inputs(rt.alloc()) == Ok(true));
}

/// No gate is made where the same gate was made before.
fn shares(net: &mut Net) -> Result<bool, OutOfMemory>
    requires { input_count net.old ≡ 2 }
{
    let p = net.input(0);
    let q = net.input(1);
    let both = net.and(p, q)?;
    let gates = net.len();
    let shared = net.and(q, p)?;
    Ok(shared == both && net.len() == gates)
}

/// No gate is made where the operands show the value.
fn folds(net: &mut Net) -> Result<bool, OutOfMemory>
    requires { input_count net.old ≡ 2 }
{
    let p = net.input(0);
    let opposite = net.not(p)?;
    let gates = net.len();
    let twice = net.not(opposite)?;
    let never = net.and(p, opposite)?;
    Ok(twice == p && never == net.constant(false) && net.len() == gates)
}

fn chooses(net: &mut Net) -> Result<bool, OutOfMemory>
    requires { input_count net.old ≡ 2 }
{
    let p = net.input(0);
    let q = net.input(1);
    let gates = net.len();
    let always = net.constant(true);
    let chosen = net.mux(always, p, q)?;
    Ok(chosen == p && net.len() == gates)
}

fn has_inputs(net: &Net) -> bool
    requires { input_count net.now ≡ 2 }
{
    net.node(net.input(0)) == Node::Input(0) && !net.is_empty()
}

fn makes_no_gate(alloc: Global) -> Result<bool, OutOfMemory> {
    let mut net = Net::new(alloc, 2)?;
    let inputs = has_inputs(&net);
    let shared = shares(&mut net)?;
    Ok(inputs && shared)
}

fn folds_anew(alloc: Global) -> Result<bool, OutOfMemory> {
    let mut net = Net::new(alloc, 2)?;
    folds(&mut net)
}

fn chooses_anew(alloc: Global) -> Result<bool, OutOfMemory> {
    let mut net = Net::new(alloc, 2)?;
    chooses(&mut net)
}

#[test]
fn folds_and_shares(rt: HostRuntime) {
    assert!(rt; makes_no_gate(rt.alloc()) == Ok(true));
    assert!(rt; folds_anew(rt.alloc()) == Ok(true));
    assert!(rt; chooses_anew(rt.alloc()) == Ok(true));
    values_are_runs();
    runs_fit_tables();
    growth_composes();
}

/// An operand that shows that it leads to the other one, or to its opposite, makes no gate.
fn shows_the_other(alloc: Global) -> Result<bool, OutOfMemory> {
    let mut net = Net::new(alloc, 2)?;
    let p = net.input(0);
    let some = net.or(p, net.input(1))?;
    let gates = net.len();
    let less = net.and(some, p)?;
    let more = net.or(p, some)?;
    Ok(less == p && more == some && net.len() == gates)
}

#[test]
fn folds_what_one_operand_shows_of_the_other(rt: HostRuntime) {
    assert!(rt; shows_the_other(rt.alloc()) == Ok(true));
}

/// A `mux` that needs two of its operands alone is an `and`, an `or` or a `xor` of these.
fn muxes_of_two(alloc: Global) -> Result<bool, OutOfMemory> {
    let mut net = Net::new(alloc, 2)?;
    let c = net.input(0);
    let a = net.input(1);
    let some = net.mux(c, net.constant(true), a)?;
    let or = net.or(c, a)?;
    let both = net.mux(c, a, c)?;
    let and = net.and(c, a)?;
    Ok(some == or && both == and)
}

#[test]
fn a_mux_of_two_operands_is_no_mux(rt: HostRuntime) {
    assert!(rt; muxes_of_two(rt.alloc()) == Ok(true));
}

/// Where `both` is made already, what holds with p and without `both` costs its opposite and one gate.
fn gates_without_both(alloc: Global) -> Result<Option<usize>, OutOfMemory> {
    let mut net = Net::new(alloc, 2)?;
    let p = net.input(0);
    let both = net.and(p, net.input(1))?;
    let not_both = net.not(both)?;
    let gates = net.len();
    net.and(p, not_both)?;
    Ok(net.len().checked_sub(gates))
}

#[test]
fn p_without_p_and_q_costs_one_gate(rt: HostRuntime) {
    assert!(rt; gates_without_both(rt.alloc()) == Ok(Some(1)));
}
