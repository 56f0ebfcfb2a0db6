//! Operators on two values (C11 6.5.5 to 6.5.14).

ghost use Rattle.std.specs.Prelude.{◌≡◌, ℕ, ◌<◌, ◌≤◌, length, IfOk, OnErr};
ghost use Rattle.bit_net.specs.Runs.{Grown};
ghost use Rattle.bit_words.specs.Number.{top};
ghost use Rattle.gl_sets.specs.Guards.{guards_top};
ghost use Rattle.gl_store.specs.declared.values.Val.TheVariants.{Word as word, Set as set};
ghost use Rattle.gl_store.specs.Meets.{val_top};
ghost use Rattle.gate_runs.specs.Stands.{AreEnds};
ghost use Rattle.sc_world.specs.Eval as spec;
ghost use Rattle.gate_values.specs.Operated.{AreOperands, AreWords, DoesOperate};

use crate::operators::{computed, taken};
use crate::pointers::same_target;
use crate::values::of_truth;
use crate::words::width;
use bit_net::{Net, OutOfMemory};
use bit_words::{Word, convert};
use gate_runs::Ends;
use gate_steps::unless;
use gl_sets::Set;
use gl_store::Val;
use sc_tree::op::BinaryOp;
use sc_world::Reason;

/// An operator on two numbers, or on two pointers, as a number of that many bits; what the operator does not take sets
/// the run aside. Of a number and a pointer there is nothing.
#[tactic(auto, using(crate::proofs::Operating::unlike))]
pub fn operated(
    net: &mut Net,
    ends: &mut Ends,
    op: BinaryOp,
    signed: bool,
    bits: u32,
    a: &Val,
    b: &Val,
) -> Result<Val, OutOfMemory>
    requires ends { AreEnds net.old ends.old }
    requires bits { 0 < bits }
    requires operands { AreOperands op bits a.now b.now }
    requires a { val_top a.now ≤ length net.old }
    requires b { val_top b.now ≤ length net.old }
    ensures grown { Grown net.old net.new }
    ensures ready { IfOk result (λ r. AreEnds net.new ends.new) }
    ensures locations { length ends.new.bads.items ≡ length ends.old.bads.items }
    ensures ok { IfOk result (λ r. DoesOperate net.new op signed bits a.now b.now ends.old ends.new r) }
{
    match a {
        Val::Word(a) => match b {
            Val::Word(b) => on_numbers(net, ends, op, signed, bits, a, b),
            Val::Set(_) => Ok(Val::Unit),
            Val::Unit => Ok(Val::Unit),
        },
        Val::Set(a) => match b {
            Val::Word(_) => Ok(Val::Unit),
            Val::Set(b) => on_pointers(net, ends, op, signed, bits, a, b),
            Val::Unit => Ok(Val::Unit),
        },
        Val::Unit => match b {
            Val::Word(_) => Ok(Val::Unit),
            Val::Set(_) => Ok(Val::Unit),
            Val::Unit => Ok(Val::Unit),
        },
    }
}

// Why an operator that does not take two numbers sets a run aside.
fn not_taken(op: BinaryOp) -> Reason
    ensures { result ≡ spec.not_taken op }
{
    match op {
        BinaryOp::Div | BinaryOp::Rem => Reason::Divide,
        BinaryOp::Mul
        | BinaryOp::Add
        | BinaryOp::Sub
        | BinaryOp::ShiftLeft
        | BinaryOp::ShiftRight
        | BinaryOp::Less
        | BinaryOp::Greater
        | BinaryOp::LessEqual
        | BinaryOp::GreaterEqual
        | BinaryOp::Equal
        | BinaryOp::NotEqual
        | BinaryOp::BitAnd
        | BinaryOp::BitXor
        | BinaryOp::BitOr
        | BinaryOp::And
        | BinaryOp::Or => Reason::Shift,
    }
}

fn is_equality(op: BinaryOp) -> bool
    ensures { result ≡ spec.is_equality op }
{
    matches!(op, BinaryOp::Equal)
}

// An operator on two numbers. The right operand of a shift may be of another width.
fn on_numbers(
    net: &mut Net,
    ends: &mut Ends,
    op: BinaryOp,
    signed: bool,
    bits: u32,
    a: &Word,
    b: &Word,
) -> Result<Val, OutOfMemory>
    requires ends { AreEnds net.old ends.old }
    requires bits { 0 < bits }
    requires operands { AreWords op bits a.now.bits.items b.now.bits.items }
    requires a { top a.now.bits.items ≤ length net.old }
    requires b { top b.now.bits.items ≤ length net.old }
    ensures grown { Grown net.old net.new }
    ensures ready { IfOk result (λ r. AreEnds net.new ends.new) }
    ensures locations { length ends.new.bads.items ≡ length ends.old.bads.items }
    ensures ok { IfOk result (λ r. DoesOperate net.new op signed bits (word a.now) (word b.now) ends.old ends.new r) }
{
    let takes = taken(net, op, signed, a, b)?;
    unless(net, ends, takes, not_taken(op))?;
    let n = width(a);
    let right = convert(net, b, false, n)?;
    let made = computed(net, op, signed, bits, a, &right)?;
    Ok(Val::Word(made))
}

// Two pointers are compared as equal or not.
#[tactic(auto, using(crate::proofs::Operating::equal_pointers, crate::proofs::Operating::other_pointers))]
fn on_pointers(
    net: &mut Net,
    ends: &Ends,
    op: BinaryOp,
    signed: bool,
    bits: u32,
    a: &Set,
    b: &Set,
) -> Result<Val, OutOfMemory>
    requires ends { AreEnds net.old ends.now }
    requires bits { 0 < bits }
    requires a { guards_top a.now.pairs.items ≤ length net.old }
    requires b { guards_top b.now.pairs.items ≤ length net.old }
    ensures grown { Grown net.old net.new }
    ensures ok { IfOk result (λ r. DoesOperate net.new op signed bits (set a.now) (set b.now) ends.now ends.now r) }
{
    let same = same_target(net, a, b)?;
    if is_equality(op) {
        let made = of_truth(net, same, bits)?;
        Ok(made)
    } else {
        let differ = net.not(same)?;
        let made = of_truth(net, differ, bits)?;
        Ok(made)
    }
}
