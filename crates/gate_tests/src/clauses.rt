//! A small net, loaded into the splitting solver.
ghost use Rattle.std.specs.Prelude.{◌↔◌, IsTrue};
ghost use Rattle.sat_base.specs.Logic.{LitsBelow};

use bit_net::Net;
use clause_builder::load;
use sat_base::{Answer, Lit, Plain, Solver};
use std::alloc::Global;

/// Whether the variables of these literals are below this number.
fn all_below(lits: &[Lit], vars: usize) -> bool
    ensures { IsTrue result ↔ LitsBelow vars lits.now }
{
    lits.iter().all(|lit| lit.var < vars)
}

/// What the solver answers where the `and` of two inputs holds, and where the first does not hold besides.
fn answers_on_an_and(alloc: Global) -> Option<(Answer, Answer)> {
    let Ok(mut net) = Net::new(alloc, 3) else {
        return None;
    };
    let first = net.input(0);
    let second = net.input(1);
    let Ok(both) = net.and(first, second) else {
        return None;
    };
    let Ok(_just_one) = net.xor(first, second) else {
        return None;
    };
    let Ok(_not_first) = net.not(first) else {
        return None;
    };
    let third = net.input(2);
    let Ok(_some) = net.or(first, second) else {
        return None;
    };
    let Ok(_chosen) = net.mux(first, second, third) else {
        return None;
    };
    let mut solver = Plain::new(alloc);
    let Ok(lits) = load(alloc, &net, &mut solver) else {
        return None;
    };
    let holds = [lits.of(both)];
    let without_first = [lits.of(both), lits.of(first).negated()];
    if !all_below(&holds, net.len()) || !all_below(&without_first, net.len()) {
        return None;
    }
    let Ok(with_both) = solver.solve(&holds) else {
        return None;
    };
    let Ok(with_one) = solver.solve(&without_first) else {
        return None;
    };
    Some((with_both, with_one))
}

#[test]
fn an_and_needs_both_inputs(rt: HostRuntime) {
    assert!(rt; answers_on_an_and(rt.alloc()) == Some((Answer::Model, Answer::NoModel)));
}
