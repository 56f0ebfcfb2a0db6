//! What is made of one number.

ghost use Rattle.std.specs.Prelude.{◌≡◌, ℕ, ◌<◌, ◌≤◌, ◌-◌, ◌^◌, length, IfOk};
ghost use Rattle.bit_net.specs.Runs.{Grown};
ghost use Rattle.bit_words.specs.Number.{top};
ghost use Rattle.gl_store.specs.declared.values.Val.TheVariants.{Word as word};
ghost use Rattle.gl_store.specs.Meets.{val_top};
ghost use Rattle.bit_words.specs.Spells.{Spells};
ghost use Rattle.sc_tree.specs.declared.op.UnaryOp.TheVariants as sign;
ghost use Rattle.gate_values.specs.Values.{IsResized, IsOfOne};

use bit_net::{Net, OutOfMemory};
use bit_words::{Word, constant, convert, is_zero, of_gate, sub};
use gl_store::Val;
use sc_tree::op::UnaryOp;

/// A number as one of another width (C11 6.3.1.3): its low bits, or copies of its sign bit above it where it is signed,
/// or zeros.
#[tactic(auto, using(crate::proofs::Ones::resized_word))]
pub fn resized(net: &mut Net, a: &Word, signed: bool, bits: u32) -> Result<Val, OutOfMemory>
    requires some { 0 < length a.now.bits.items }
    requires a { top a.now.bits.items ≤ length net.old }
    ensures grown { Grown net.old net.new }
    ensures ok { IfOk result (λ r. IsResized net.new signed bits a.now r) }
{
    let made = convert(net, a, signed, bits as usize)?;
    Ok(Val::Word(made))
}

/// `+`, `-` and `~` of a number (C11 6.5.3.3).
pub fn signed_as(net: &mut Net, op: UnaryOp, a: &Word) -> Result<Val, OutOfMemory>
    requires some { 0 < length a.now.bits.items }
    requires a { top a.now.bits.items ≤ length net.old }
    ensures grown { Grown net.old net.new }
    ensures ok { IfOk result (λ r. IsOfOne net.new op a.now r) }
{
    match op {
        UnaryOp::Minus => minus(net, a),
        UnaryOp::Complement => complement(net, a),
        UnaryOp::Not => zero(net, a),
        UnaryOp::Plus => same(net, a),
        UnaryOp::Address => same(net, a),
        UnaryOp::Deref => same(net, a),
    }
}

/// How many bits a number has.
pub fn width(a: &Word) -> usize
    ensures { result ≡ length a.now.bits.items }
{
    a.bits.len()
}

/// The number of that many bits, all of which hold.
#[tactic(auto, using(crate::proofs::Ones::ones_word))]
pub fn ones(net: &Net, width: usize) -> Result<Word, OutOfMemory>
    ensures { IfOk result (λ r. Spells net.now r.bits.items width (λ v. 2 ^ width - 1)) }
{
    let bits = vec![in net.alloc(); net.constant(true); width]?;
    Ok(Word { bits })
}

// What a number lacks to 0.
#[tactic(auto, using(crate::proofs::Ones::minus_word))]
fn minus(net: &mut Net, a: &Word) -> Result<Val, OutOfMemory>
    requires a { top a.now.bits.items ≤ length net.old }
    ensures grown { Grown net.old net.new }
    ensures ok { IfOk result (λ r. IsOfOne net.new sign.Minus a.now r) }
{
    let nothing = constant(net, 0, a.bits.len())?;
    let made = sub(net, &nothing, a)?;
    Ok(Val::Word(made))
}

// What a number lacks to the one of which all bits hold. It makes no gate but the opposites of the bits.
#[tactic(auto, using(crate::proofs::Ones::complement_word))]
fn complement(net: &mut Net, a: &Word) -> Result<Val, OutOfMemory>
    requires a { top a.now.bits.items ≤ length net.old }
    ensures grown { Grown net.old net.new }
    ensures ok { IfOk result (λ r. IsOfOne net.new sign.Complement a.now r) }
{
    let n = width(a);
    let all = ones(net, n)?;
    let made = sub(net, &all, a)?;
    Ok(Val::Word(made))
}

// The number 1 where a number is 0, else 0.
#[tactic(auto, using(crate::proofs::Ones::zero_word))]
fn zero(net: &mut Net, a: &Word) -> Result<Val, OutOfMemory>
    requires some { 0 < length a.now.bits.items }
    requires a { top a.now.bits.items ≤ length net.old }
    ensures grown { Grown net.old net.new }
    ensures ok { IfOk result (λ r. IsOfOne net.new sign.Not a.now r) }
{
    let none = is_zero(net, a)?;
    let made = of_gate(net, none, a.bits.len())?;
    Ok(Val::Word(made))
}

// The same number once more.
#[tactic(auto, using(crate::proofs::Ones::same_word))]
fn same(net: &mut Net, a: &Word) -> Result<Val, OutOfMemory>
    requires a { top a.now.bits.items ≤ length net.old }
    ensures grown { Grown net.old net.new }
    ensures plus { IfOk result (λ r. IsOfOne net.new sign.Plus a.now r) }
    ensures address { IfOk result (λ r. IsOfOne net.new sign.Address a.now r) }
    ensures deref { IfOk result (λ r. IsOfOne net.new sign.Deref a.now r) }
{
    let made = a.try_clone(net)?;
    Ok(Val::Word(made))
}
