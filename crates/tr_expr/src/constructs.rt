//! What expressions do once the expressions in them have their values.

ghost use Rattle.std.specs.Prelude.{◌≡◌, ℕ, ◌≤◌, true, false, Some, length, IfOk};
ghost use Rattle.bit_net.specs.Runs.{Grown};
ghost use Rattle.bit_words.specs.Number.{top};
ghost use Rattle.gl_sets.specs.Guards.{guards_top};
ghost use Rattle.gl_store.specs.declared.values.Val.TheVariants.{Word as word, Set as set};
ghost use Rattle.gl_store.specs.Meets.{val_kind, val_top};
ghost use Rattle.gate_runs.specs.Stands.{AreEnds};
ghost use Rattle.sc_world.specs.Tree as tree;
ghost use Rattle.sc_world.specs.View.{type};
ghost use Rattle.sc_world.specs.World.{kind_of_type};
ghost use Rattle.run_world.specs.Seen as seen;
ghost use Rattle.tr_expr.specs.Plain.{BinaryFits, ConvertFits, SignFits, UnaryFits};
ghost use Rattle.tr_expr.specs.Evals.{IsConverted, IsOfUnary, Operates, is_sign};
ghost use Rattle.sc_tree.specs.declared.op.UnaryOp.TheVariants as sign;

use crate::types::is_bool;
use bit_net::{Net, OutOfMemory};
use bit_words::Word;
use gate_runs::Ends;
use gate_values::{null, of_truth, operated, resized, signed_as, truth};
use gl_sets::Set;
use gl_store::Val;
use run_entry::integer_bits;
use run_values::has_sign;
use run_world::Here;
use sc_gather::is_integer;
use sc_tree::ctype::CType;
use sc_tree::op::{BinaryOp, UnaryOp};

/// A value of one type in another type (C11 6.3).
#[tactic(auto, using(crate::proofs::Making::converted_bool, crate::proofs::Making::converted_none))]
pub fn converted(
    here: &Here,
    net: &mut Net,
    from: &CType,
    to: &CType,
    x: &Val,
) -> Result<Val, OutOfMemory>
    requires fits { ConvertFits (type from.now) (type to.now) }
    requires kind { val_kind x.now ≡ kind_of_type (seen.env here.now).source (Some (type from.now)) }
    requires x { val_top x.now ≤ length net.old }
    ensures grown { Grown net.old net.new }
    ensures ok { IfOk result (λ r. IsConverted (seen.env here.now).source net.new (type from.now) (type to.now) x.now r) }
{
    if is_bool(to) {
        let some = truth(net, x)?;
        let made = of_truth(net, some, 1)?;
        Ok(made)
    } else {
        match x {
            Val::Word(word) => number_to(here, net, from, to, word),
            Val::Set(set) => pointer_as(here, net, from, to, set),
            Val::Unit => Ok(Val::Unit),
        }
    }
}

// A number of one type in another type, which is not `_Bool`; a number that becomes a pointer is null.
#[tactic(auto, using(crate::proofs::Making::word_some, crate::proofs::Making::converted_number, crate::proofs::Making::converted_null))]
fn number_to(
    here: &Here,
    net: &mut Net,
    from: &CType,
    to: &CType,
    x: &Word,
) -> Result<Val, OutOfMemory>
    requires other { tree.is_bool (type to.now) ≡ false }
    requires fits { ConvertFits (type from.now) (type to.now) }
    requires kind { val_kind (word x.now) ≡ kind_of_type (seen.env here.now).source (Some (type from.now)) }
    requires x { top x.now.bits.items ≤ length net.old }
    ensures grown { Grown net.old net.new }
    ensures ok { IfOk result (λ r. IsConverted (seen.env here.now).source net.new (type from.now) (type to.now) (word x.now) r) }
{
    if is_integer(to) {
        let bits = integer_bits(here, to);
        let made = resized(net, x, has_sign(from), bits)?;
        Ok(made)
    } else {
        Ok(null(net))
    }
}

// A pointer in another type, which is not `_Bool`.
#[tactic(auto, using(crate::proofs::Making::converted_set))]
fn pointer_as(
    here: &Here,
    net: &mut Net,
    from: &CType,
    to: &CType,
    x: &Set,
) -> Result<Val, OutOfMemory>
    requires other { tree.is_bool (type to.now) ≡ false }
    requires fits { ConvertFits (type from.now) (type to.now) }
    requires kind { val_kind (set x.now) ≡ kind_of_type (seen.env here.now).source (Some (type from.now)) }
    requires x { guards_top x.now.pairs.items ≤ length net.old }
    ensures grown { Grown net.old net.new }
    ensures ok { IfOk result (λ r. IsConverted (seen.env here.now).source net.new (type from.now) (type to.now) (set x.now) r) }
{
    let made = x.try_clone(net)?;
    Ok(Val::Set(made))
}

// `!` of a value.
#[tactic(auto, using(crate::proofs::TypeKinds::bits_some, crate::proofs::Making::not_value))]
fn negated(here: &Here, net: &mut Net, t: &CType, x: &Val) -> Result<Val, OutOfMemory>
    requires t { tree.is_integer (type t.now) ≡ true }
    requires x { val_top x.now ≤ length net.old }
    ensures grown { Grown net.old net.new }
    ensures ok { IfOk result (λ r. IsOfUnary (seen.env here.now).source net.new sign.Not (type t.now) x.now r) }
{
    let some = truth(net, x)?;
    let none = net.not(some)?;
    let made = of_truth(net, none, integer_bits(here, t))?;
    Ok(made)
}

// `+`, `-` or `~` of a number.
#[tactic(auto, using(crate::proofs::Making::word_some))]
fn signed_number(
    here: &Here,
    net: &mut Net,
    op: UnaryOp,
    from: &CType,
    t: &CType,
    x: &Word,
) -> Result<Val, OutOfMemory>
    requires op { is_sign op ≡ true }
    requires fits { SignFits (seen.env here.now).source (type from.now) (type t.now) }
    requires kind { val_kind (word x.now) ≡ kind_of_type (seen.env here.now).source (Some (type from.now)) }
    requires x { top x.now.bits.items ≤ length net.old }
    ensures grown { Grown net.old net.new }
    ensures ok { IfOk result (λ r. IsOfUnary (seen.env here.now).source net.new op (type t.now) (word x.now) r) }
{
    let made = signed_as(net, op, x)?;
    Ok(made)
}

// `+`, `-` or `~` of a value.
#[tactic(auto, using(crate::proofs::Making::signed_set, crate::proofs::Making::signed_none))]
fn signed(
    here: &Here,
    net: &mut Net,
    op: UnaryOp,
    from: &CType,
    t: &CType,
    x: &Val,
) -> Result<Val, OutOfMemory>
    requires op { is_sign op ≡ true }
    requires fits { SignFits (seen.env here.now).source (type from.now) (type t.now) }
    requires kind { val_kind x.now ≡ kind_of_type (seen.env here.now).source (Some (type from.now)) }
    requires x { val_top x.now ≤ length net.old }
    ensures grown { Grown net.old net.new }
    ensures ok { IfOk result (λ r. IsOfUnary (seen.env here.now).source net.new op (type t.now) x.now r) }
{
    match x {
        Val::Word(word) => signed_number(here, net, op, from, t, word),
        Val::Set(_) => Ok(Val::Unit),
        Val::Unit => Ok(Val::Unit),
    }
}

/// An operator on one value, which is neither `&` nor `*` (C11 6.5.3.3).
pub fn unary(
    here: &Here,
    net: &mut Net,
    op: UnaryOp,
    from: &CType,
    t: &CType,
    x: &Val,
) -> Result<Val, OutOfMemory>
    requires fits { UnaryFits (seen.env here.now).source op (type from.now) (type t.now) }
    requires kind { val_kind x.now ≡ kind_of_type (seen.env here.now).source (Some (type from.now)) }
    requires x { val_top x.now ≤ length net.old }
    ensures grown { Grown net.old net.new }
    ensures ok { IfOk result (λ r. IsOfUnary (seen.env here.now).source net.new op (type t.now) x.now r) }
{
    match op {
        UnaryOp::Not => negated(here, net, t, x),
        UnaryOp::Plus => signed(here, net, op, from, t, x),
        UnaryOp::Minus => signed(here, net, op, from, t, x),
        UnaryOp::Complement => signed(here, net, op, from, t, x),
        UnaryOp::Address | UnaryOp::Deref => Ok(Val::Unit),
    }
}

/// An operator on two values (C11 6.5.5 to 6.5.14); what it does not take sets the run aside.
#[tactic(auto, using(crate::proofs::Making::gives_some, crate::proofs::Making::operands_are))]
pub fn operation(
    here: &Here,
    net: &mut Net,
    ends: &mut Ends,
    op: BinaryOp,
    left: &CType,
    right: &CType,
    t: &CType,
    x: &Val,
    y: &Val,
) -> Result<Val, OutOfMemory>
    requires fits { BinaryFits (seen.env here.now).source op (type left.now) (type right.now) (type t.now) }
    requires left { val_kind x.now ≡ kind_of_type (seen.env here.now).source (Some (type left.now)) }
    requires right { val_kind y.now ≡ kind_of_type (seen.env here.now).source (Some (type right.now)) }
    requires ends { AreEnds net.old ends.old }
    requires x { val_top x.now ≤ length net.old }
    requires y { val_top y.now ≤ length net.old }
    ensures grown { Grown net.old net.new }
    ensures ready { IfOk result (λ r. AreEnds net.new ends.new) }
    ensures locations { length ends.new.bads.items ≡ length ends.old.bads.items }
    ensures ok { IfOk result (λ r. Operates (seen.env here.now).source
        net.new op (type left.now) (type t.now) x.now y.now ends.old ends.new r) }
{
    let bits = integer_bits(here, t);
    let sign = has_sign(left);
    let made = operated(net, ends, op, sign, bits, x, y)?;
    Ok(made)
}
