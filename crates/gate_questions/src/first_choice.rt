//! The first choice for which gates hold. Only inputs that these gates or earlier ones read are searched for: any other one is false in it.
ghost use Rattle.std.specs.Prelude.{◌≡◌, ◌<◌, ◌≤◌, ◌+◌, ℕ, length, All, OnOk, IfOk, MatchOption};
ghost use Rattle.bit_net.specs.Circuit.{input_count};
ghost use Rattle.clause_builder.specs.Cones.{AreLoaded};
ghost use Rattle.gate_questions.specs.Holds.{NoneHolds, IsFirst};
ghost use Rattle.gate_questions.specs.Ready.{input_lit as lit_for, input_lits as lits_for};

use crate::OutOfMemory;
use crate::asking::lits_of;
use bit_net::{Gate, Net, runs_fit_tables};
use clause_builder::{Loader, what_is_loaded_stays};
use query::least;
use sat_base::{Lit, Solver};
use std::alloc::Global;

/// The literal of an input, or `never` where no gate that is loaded reads it.
fn input_lit(net: &Net, loader: &Loader, never: Lit, k: usize) -> Lit
    requires { k < input_count net.now }
    ensures { result ≡ lit_for loader.now never k }
{
    let _gates = net.len();
    net.sound();
    match loader.lit(Gate { at: 2 + k }) {
        Some(lit) => lit,
        None => never,
    }
}

/// The same of all inputs, in their order.
fn input_lits(
    alloc: Global,
    net: &Net,
    loader: &Loader,
    never: Lit,
    count: usize,
) -> Result<Vec<Lit>, OutOfMemory>
    requires { count ≡ input_count net.now }
    ensures { IfOk result (λ bits. bits.items ≡ lits_for loader.now never count) }
{
    let mut bits = Vec::new(alloc);
    for k in 0..count {
        bits.push(input_lit(net, loader, never, k))?;
    }
    Ok(bits)
}

/// The bits of the first choice for which all gates hold, or `None` where there is none.
pub fn find_first<S: Solver>(
    alloc: Global,
    net: &Net,
    loader: &mut Loader,
    s: &mut S,
    count: usize,
    gates: &[Gate],
) -> Result<Option<Vec<bool>>, OutOfMemory>
    requires count { count ≡ input_count net.now }
    requires gates { All (λ g. g.at < length net.now) gates.now }
    requires loaded { AreLoaded net.now loader.old (S.vars s.old) (S.clauses s.old) }
    ensures loaded { OnOk result (AreLoaded net.now loader.new (S.vars s.new) (S.clauses s.new)) }
    ensures first { IfOk result (λ found. MatchOption found (NoneHolds net.now gates.now) (λ bits. IsFirst net.now gates.now bits.items)) }
{
    net.sound();
    runs_fit_tables();
    what_is_loaded_stays();
    let goals = lits_of(alloc, net, loader, s, gates)?;
    let never = loader.lit_of(net, s, Gate { at: 0 })?;
    let bits = input_lits(alloc, net, loader, never, count)?;
    let bit_lits = bits.as_slice();
    let goal_lits = goals.as_slice();
    let found = least(alloc, s, bit_lits, goal_lits)?;
    Ok(found)
}
