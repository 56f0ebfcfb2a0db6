//! Values that are made, and whether a value is true.

ghost use Rattle.std.specs.Prelude.{◌≡◌, ℕ, ◌<◌, ◌≤◌, ◌^◌, not, nat_eq, length, IfOk};
ghost use Rattle.bit_net.specs.Runs.{Gives, Grown};
ghost use Rattle.bit_words.specs.Number.{top};
ghost use Rattle.gl_sets.specs.Guards.{guards_top};
ghost use Rattle.gl_store.specs.declared.values.Val.TheVariants.{Word as word, Set as set};
ghost use Rattle.gl_store.specs.Meets.{val_top};
ghost use Rattle.gate_values.specs.Values.{IsNumber, IsPointer, IsTruth, IsTruthOf};

use bit_net::{Gate, Net, OutOfMemory};
use bit_words::{Word, constant, is_zero, of_gate};
use gl_sets::{Set, points};
use gl_store::Val;

/// Holds where the value is neither 0 nor null.
pub fn truth(net: &mut Net, a: &Val) -> Result<Gate, OutOfMemory>
    requires { val_top a.now ≤ length net.old }
    ensures grown { Grown net.old net.new }
    ensures ok { IfOk result (λ r. IsTruth net.new a.now r.at) }
{
    match a {
        Val::Word(word) => not_zero(net, word),
        Val::Set(set) => not_null(net, set),
        Val::Unit => never(net),
    }
}

// Holds where the number is not 0.
#[tactic(auto, using(crate::proofs::Truths::word_truth))]
fn not_zero(net: &mut Net, a: &Word) -> Result<Gate, OutOfMemory>
    requires { top a.now.bits.items ≤ length net.old }
    ensures grown { Grown net.old net.new }
    ensures ok { IfOk result (λ r. IsTruth net.new (word a.now) r.at) }
{
    let zero = is_zero(net, a)?;
    let some = net.not(zero)?;
    Ok(some)
}

// Holds where the pointer is not null.
#[tactic(auto, using(crate::proofs::Truths::set_truth))]
fn not_null(net: &mut Net, a: &Set) -> Result<Gate, OutOfMemory>
    requires { guards_top a.now.pairs.items ≤ length net.old }
    ensures grown { Grown net.old net.new }
    ensures ok { IfOk result (λ r. IsTruth net.new (set a.now) r.at) }
{
    let null = points(net, a, 0);
    let some = net.not(null)?;
    Ok(some)
}

// What has no cell is never true.
#[tactic(auto, using(crate::proofs::Truths::never_true))]
fn never(net: &mut Net) -> Result<Gate, OutOfMemory>
    ensures grown { Grown net.old net.new }
    ensures ok { IfOk result (λ r. IsTruth net.new Rattle.gl_store.specs.declared.values.Val.TheVariants.Unit r.at) }
{
    Ok(net.constant(false))
}

/// The number 1 of that many bits where the gate holds, and 0 where not.
#[tactic(auto, using(crate::proofs::Truths::truth_word))]
pub fn of_truth(net: &Net, gate: Gate, bits: u32) -> Result<Val, OutOfMemory>
    requires bits { 0 < bits }
    requires gate { gate.at < length net.now }
    ensures { IfOk result (λ r. IsTruthOf net.now gate.at bits r) }
{
    let made = of_gate(net, gate, bits as usize)?;
    Ok(Val::Word(made))
}

/// A number of that many bits, for every choice.
#[tactic(auto, using(crate::proofs::Truths::number_word))]
pub fn number(net: &Net, n: u64, bits: u32) -> Result<Val, OutOfMemory>
    requires { n < 2 ^ bits }
    ensures { IfOk result (λ r. IsNumber net.now n bits r) }
{
    let made = constant(net, n, bits as usize)?;
    Ok(Val::Word(made))
}

/// The null pointer, for every choice.
#[tactic(auto, using(crate::proofs::Truths::one_target))]
pub fn null(net: &Net) -> Val
    ensures { IsPointer net.now 0 result }
{
    Val::Set(Set::one(net, 0))
}
