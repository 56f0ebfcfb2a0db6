//! Pointers that are compared.

ghost use Rattle.std.specs.Prelude.{◌≡◌, ℕ, ◌<◌, ◌≤◌, length, take, All, IfOk};
ghost use Rattle.bit_net.specs.Runs.{Runs};
ghost use Rattle.gl_sets.specs.Guards.{guard, guards_top, Tests};
ghost use Rattle.gl_sets.specs.Sets.{IsWhere};
ghost use Rattle.bit_net.specs.Runs.{Grown};
ghost use Rattle.gate_values.specs.Operators.{HasTests, IsSameTarget};

use bit_net::{Gate, Net, OutOfMemory};
use gl_sets::{Pair, Set, points, where_target};

/// Holds where two pointers lead to one location, or both are null (C11 6.5.9).
#[tactic(auto, using(crate::proofs::Targets::same_gate))]
pub fn same_target(net: &mut Net, a: &Set, b: &Set) -> Result<Gate, OutOfMemory>
    requires a { guards_top a.now.pairs.items ≤ length net.old }
    requires b { guards_top b.now.pairs.items ≤ length net.old }
    ensures grown { Grown net.old net.new }
    ensures ok { IfOk result (λ r. IsSameTarget net.new a.now.pairs.items b.now.pairs.items r.at) }
{
    let tests = tests_of(net, a.pairs.as_slice(), b)?;
    let same = where_target(net, a, tests.as_slice())?;
    Ok(same)
}

// For each pair the gate that holds where the other set points to its target.
fn tests_of(net: &Net, pairs: &[Pair], b: &Set) -> Result<Vec<Gate>, OutOfMemory>
    requires b { guards_top b.now.pairs.items ≤ length net.now }
    ensures { IfOk result (λ r. HasTests net.now pairs.now b.now.pairs.items r.items) }
{
    let mut tests = Vec::new(net.alloc());
    for pair in pairs {
        let test = points(net, b, pair.target);
        tests.push(test)?;
    }
    Ok(tests)
}
