//! Constants, temps, and values in other types.

ghost use Rattle.std.specs.Prelude.{◌≡◌, ℕ, ◌^◌, ◌<◌, ◌≤◌, true, false, length, IfOk};
ghost use Rattle.bit_net.specs.Runs.{Grown};
ghost use Rattle.gl_sets.specs.Guards.{guards_top};
ghost use Rattle.gl_store.specs.Meets.{val_kind, val_top};
ghost use Rattle.gl_store.specs.Steps.{IsSame};
ghost use Rattle.gl_store.specs.declared.values.Val.TheVariants as val;
ghost use Rattle.run_store.specs.Concrete as concrete;
ghost use Rattle.run_laws.specs.Fits.{converts_to, is_function};
ghost use Rattle.sc_world.specs.Eval as eval;
ghost use Rattle.sc_world.specs.Tree as tree;
ghost use Rattle.sc_world.specs.View.{type};
ghost use Rattle.expr_fits.specs.Around.{source_of, temps_of};
ghost use Rattle.expr_fits.specs.Temps.{HasKindFor, temp_at};
ghost use Rattle.tr_walk.specs.Leaves.{Converts};
ghost use Rattle.expr_fits.specs.Fits.{CanWalk, fits_width};
ghost use Rattle.tr_walk.specs.Walks.{IsReady, Walks};
ghost use Rattle.gate_values.specs.Values.{IsNumber};
ghost use Rattle.run_values.specs.Seen.{want_of};

use bit_net::{Net, OutOfMemory};
use bit_words::{Word, constant};
use expr_fits::Around;
use gate_places::wanted;
use gate_runs::Ends;
use gate_values::{null, number, of_truth, truth};
use gl_sets::Set;
use gl_store::{Store, Val};
use run_entry::integer_bits;
use run_values::Want;
use sc_gather::is_void;
use sc_tree::ctype::CType;
use tr_expr::converted;

/// The set of a pointer.
pub fn as_set(net: &Net, x: Val) -> Set
    requires { val_kind x ≡ concrete.Pointers }
    ensures { x ≡ val.Set result }
{
    match x {
        Val::Set(set) => set,
        Val::Word(_) | Val::Unit => Set::one(net, 0),
    }
}

/// The bits of a number of an integer type.
#[tactic(auto, using(crate::proofs::Made::word_some, crate::proofs::Made::word_small, crate::proofs::Made::no_set, crate::proofs::Made::no_empty))]
pub fn as_word(around: &Around, net: &Net, t: &CType, x: Val) -> Result<Word, OutOfMemory>
    requires integer { tree.is_integer (type t.now) ≡ true }
    requires kind { HasKindFor (source_of around.now) eval.Value (type t.now) x }
    ensures some { IfOk result (λ r. 0 < length r.bits.items) }
    ensures small { IfOk result (λ r. length r.bits.items ≤ 64) }
    ensures is { IfOk result (λ r. x ≡ val.Word r) }
{
    match x {
        Val::Word(word) => Ok(word),
        Val::Set(_) | Val::Unit => constant(net, 0, 1),
    }
}

/// What was kept under that number; nothing where there is none.
pub fn temp(around: &Around, net: &Net, number: u32) -> Result<Val, OutOfMemory>
    ensures { IfOk result (λ r. IsSame (temp_at (temps_of around.now) number) r) }
{
    match around.temps.get(number as usize) {
        None => Ok(Val::Unit),
        Some(kept) => kept.try_clone(net),
    }
}

/// What is wanted of an object whose place was kept under that number.
pub fn kept_place(
    around: &Around,
    net: &mut Net,
    stored: &Store,
    ends: &Ends,
    want: Want,
    t: &CType,
    number: u32,
) -> Result<Val, OutOfMemory>
    requires ready { IsReady around.now net.old stored.now.locations.items ends.now }
    requires can { CanWalk around.now (want_of want) (tree.TempPlace number (type t.now)) }
    ensures grown { Grown net.old net.new }
    ensures ok { IfOk result (λ r. Walks around.now net.new (want_of want) (tree.TempPlace number (type t.now))
        stored.now.locations.items stored.now.locations.items ends.now ends.now r) }
{
    let kept = temp(around, net, number)?;
    match want {
        Want::Place => Ok(kept),
        Want::Value => {
            let place = as_set(net, kept);
            let made = wanted(around.here, net, stored, want, t, &place)?;
            Ok(made)
        }
    }
}

/// The number of that type.
pub fn number_of(around: &Around, net: &Net, n: u64, t: &CType) -> Result<Val, OutOfMemory>
    requires fits { fits_width (source_of around.now) (type t.now) n ≡ true }
    requires integer { tree.is_integer (type t.now) ≡ true }
    ensures { IfOk result (λ r. IsNumber net.now n (tree.int_bits (source_of around.now).widths (type t.now)) r) }
{
    number(net, n, integer_bits(around.here, t))
}

// Whether it is a function.
fn is_function(t: &CType) -> bool
    ensures { result ≡ is_function (type t.now) }
{
    matches!(t, CType::Func(_))
}

// Whether it is `_Bool`.
fn is_bool(t: &CType) -> bool
    ensures { result ≡ tree.is_bool (type t.now) }
{
    matches!(t, CType::Bool)
}

// A function in another type: the pointer to it, or whether it is there.
#[tactic(auto, using(crate::proofs::Made::function_truth, crate::proofs::Made::function_pointer))]
fn function_to(
    around: &Around,
    net: &mut Net,
    from: &CType,
    to: &CType,
    x: &Val,
) -> Result<Val, OutOfMemory>
    requires function { is_function (type from.now) ≡ true }
    requires void { tree.is_void (type to.now) ≡ false }
    requires fits { converts_to (type from.now) (type to.now) ≡ true }
    requires kind { HasKindFor (source_of around.now) eval.Value (type from.now) x.now }
    requires x { val_top x.now ≤ length net.old }
    ensures grown { Grown net.old net.new }
    ensures ok { IfOk result (λ r. Converts (source_of around.now) net.new (type from.now) (type to.now) x.now r) }
{
    if is_bool(to) {
        let some = truth(net, x)?;
        let made = of_truth(net, some, 1)?;
        Ok(made)
    } else {
        let made = x.try_clone(net)?;
        Ok(made)
    }
}

/// The value of an expression of one type, which is no array, in another one (C11 6.3, 6.5.4): nothing in `void`.
#[tactic(auto, using(crate::proofs::Made::converts_void, crate::proofs::Made::converts_value, crate::proofs::Made::convert_fits, crate::proofs::Made::converts_kind))]
pub fn convert(
    around: &Around,
    net: &mut Net,
    from: &CType,
    to: &CType,
    x: &Val,
) -> Result<Val, OutOfMemory>
    requires array { tree.is_array (type from.now) ≡ false }
    requires fits { converts_to (type from.now) (type to.now) ≡ true }
    requires kind { HasKindFor (source_of around.now) eval.Value (type from.now) x.now }
    requires x { val_top x.now ≤ length net.old }
    ensures grown { Grown net.old net.new }
    ensures ok { IfOk result (λ r. Converts (source_of around.now) net.new (type from.now) (type to.now) x.now r) }
{
    if is_void(to) {
        Ok(Val::Unit)
    } else if is_function(from) {
        function_to(around, net, from, to, x)
    } else {
        let made = converted(around.here, net, from, to, x)?;
        Ok(made)
    }
}
